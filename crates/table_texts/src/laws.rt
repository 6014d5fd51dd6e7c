//! Laws of the definitions, as contracts of functions that do nothing.
ghost use Rattle.std.specs.Prelude.{◌≡◌, ◌<◌, ◌*◌, ℕ, List, Option, true, length, Ok};
ghost use Rattle.std.specs.List.{AllByRecursion};
ghost use Rattle.table_texts.specs.declared.layout.Layout.{Layout};
ghost use Rattle.row_forms.specs.declared.field.Field.{Field};
ghost use Rattle.telecommands.specs.declared.command.Command.{Command};
ghost use Rattle.telecommands.specs.Commands.{are_good, are_distinct};
ghost use Rattle.table_texts.specs.Fronts.{is_front};
ghost use Rattle.table_texts.specs.Sequences.{sequence_said, payload_shown};
ghost use Rattle.table_texts.specs.Lines.{Numbered, kept_of};
ghost use Rattle.table_texts.specs.Entries.{is_layout, entries_said};
ghost use Rattle.table_texts.specs.Shown.{entries_shown};

/// The text of a table's entries says them, whatever their bytes, the epoch and the number of the text's first line are.
pub fn entries_read_back()
    ensures { (epoch : Option ℕ) (cs : List Command) (l : Layout) (n : ℕ) (bytes : List ℕ)
        → are_good cs ≡ true → are_distinct cs ≡ true → is_layout l ≡ true
        → AllByRecursion (λ b. b < 256) bytes → length bytes ≡ l.count * l.size
        → entries_said epoch cs l 0 n (kept_of n (entries_shown cs l l.count 1 bytes)) ≡ Ok bytes }
{}

/// What a text says of a table's entries has as many bytes as these have together.
pub fn entries_have_sizes()
    ensures { (epoch : Option ℕ) (cs : List Command) (l : Layout) (n : ℕ) (lines : List Numbered)
        (bytes : List ℕ) → is_layout l ≡ true → entries_said epoch cs l 0 n lines ≡ Ok bytes
        → length bytes ≡ l.count * l.size }
{}

/// The text of a sequence's payload says it, whatever its bytes, the epoch and the number of the text's first line are.
pub fn sequences_read_back()
    ensures { (epoch : Option ℕ) (cs : List Command) (fs : List Field) (size n : ℕ) (bytes : List ℕ)
        → are_good cs ≡ true → are_distinct cs ≡ true → is_front fs size ≡ true
        → AllByRecursion (λ b. b < 256) bytes
        → sequence_said epoch cs fs n (kept_of n (payload_shown cs fs size bytes)) ≡ Ok bytes }
{}
