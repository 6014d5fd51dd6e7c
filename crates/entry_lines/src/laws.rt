//! Laws of the definitions, as contracts of functions that do nothing.
ghost use Rattle.std.specs.Prelude.{◌≡◌, ◌-◌, ◌∷◌, [], ℕ, List, Option, Some, None, Ok, true, map};
ghost use Rattle.row_forms.specs.declared.field.Field.{Field};
ghost use Rattle.telecommands.specs.declared.command.Command.{Command};
ghost use Rattle.table_files.specs.declared.kinds.TableKind.TheVariants as kinds;
ghost use Rattle.table_texts.specs.declared.layout.Layout.{Layout};
ghost use Rattle.table_texts.specs.Lines.{Numbered, kept_of};
ghost use Rattle.table_texts.specs.Entries.{is_layout, entry_said, entries_said};
ghost use Rattle.table_texts.specs.Sequences.{sequence_said};
ghost use Rattle.entry_lines.specs.declared.words.Sought.TheVariants as sought;
ghost use Rattle.entry_lines.specs.Found.{line_saying, line_of_command, line_of_entry};
ghost use Rattle.entry_lines.specs.Commands.{SaysCommand};
ghost use Rattle.entry_lines.specs.Worked.{dwell_text, sequence_text, number_of, bytes_of_entry};

/// Where a text says a table's entries, the line that says one of them has its words: behind the entry before it they say this entry, with
/// exactly the bytes that the whole text gives it, whatever the commands, the layout, the epoch and the number of the text's first line are.
pub fn lines_say_entries()
    ensures { (epoch : Option ℕ) (cs : List Command) (l : Layout) (n entry : ℕ)
        (lines : List Numbered) (bytes : List ℕ) (line : Numbered) → is_layout l ≡ true
        → entries_said epoch cs l 0 n lines ≡ Ok bytes
        → line_saying (sought.Entry entry) lines ≡ Some line
        → entry_said epoch cs l (entry - 1) line.words
        ≡ Ok (record { number = entry; bytes = bytes_of_entry l entry bytes }) }
{}

/// Where a text says a sequence, the words of the line that is found for the command of a place say its bytes: they stand behind those of the
/// lines in front of it, each of which says one command.
pub fn lines_say_commands()
    ensures { (epoch : Option ℕ) (cs : List Command) (fs : List Field) (n place : ℕ)
        (lines : List Numbered) (bytes : List ℕ) (line : Numbered)
        → sequence_said epoch cs fs n lines ≡ Ok bytes → line_of_command place lines ≡ Some line
        → SaysCommand epoch cs fs place lines bytes line }
{}

/// The lines of entries in texts: of a dwell table's head and its entries, also of one in a line `raw` and one in hexadecimal digits, and of
/// commands by their places and by their numbers.
pub fn worked_lines()
    ensures entries { map (λ entry. number_of
        (line_of_entry (kinds.Dwell 1) entry (kept_of 1 dwell_text))) (0 ∷ 1 ∷ 2 ∷ 3 ∷ 4 ∷ 5 ∷ [])
        ≡ Some 4 ∷ Some 6 ∷ None ∷ Some 7 ∷ None ∷ Some 9 ∷ [] }
    ensures behind { map (λ entry. number_of (line_saying (sought.Behind entry)
        (kept_of 1 dwell_text))) (1 ∷ 2 ∷ 3 ∷ 5 ∷ []) ≡ Some 7 ∷ Some 7 ∷ Some 9 ∷ None ∷ [] }
    ensures places { map (λ place. number_of (line_of_entry (kinds.Ats 1) place
        (kept_of 1 sequence_text))) (1 ∷ 2 ∷ 3 ∷ 4 ∷ []) ≡ Some 2 ∷ Some 4 ∷ None ∷ None ∷ [] }
    ensures numbers { map (λ number. number_of
        (line_saying (sought.Command number) (kept_of 1 sequence_text))) (7 ∷ 2 ∷ 9 ∷ 4 ∷ [])
        ≡ Some 2 ∷ Some 4 ∷ Some 6 ∷ None ∷ [] }
{}
