//! Laws of the definitions, as contracts of functions that do nothing.
ghost use Rattle.std.specs.Prelude.{◌≡◌, ℕ, List, true, map, length, Some, None, Ok, ◌<◌};
ghost use Rattle.table_files.specs.declared.kinds.TableKind.{TableKind};
ghost use Rattle.table_files.specs.Kinds.{IsKnown, fits_kind, named_kind};
ghost use Rattle.std.specs.List.{AllByRecursion};
ghost use Rattle.table_files.specs.Headers.{kind_of_file, file_fault_of};
ghost use Rattle.table_forms.specs.Headers.{table_file};
ghost use Rattle.telecommands.specs.Commands.{are_good, are_distinct};
ghost use Rattle.table_forms.specs.declared.forms.TextForms.{TextForms};
ghost use Rattle.table_forms.specs.Examples.{placed_examples, command_examples, known_forms};
ghost use Rattle.table_forms.specs.Judging.{IsTaken};
ghost use Rattle.table_forms.specs.Reading.{file_said, table_said, file_text};
ghost use Rattle.table_forms.specs.declared.layouts.Layouts.{Layouts};
ghost use Rattle.table_forms.specs.Layouts.{are_layouts, form_of};
ghost use Rattle.table_forms.specs.Names.{kind_said, name_of, name_field};
ghost use Rattle.table_forms.specs.Payloads.{is_form, FitsForm};

/// The tables that texts name are those that files of tables name, by the names that stand in their headers.
pub fn tables_have_names()
    ensures said { (kind : TableKind) → IsKnown kind → kind_said (name_of kind) ≡ Some kind }
    ensures known { (name : List ℕ) (kind : TableKind) → kind_said name ≡ Some kind → IsKnown kind
        × (name ≡ name_of kind) }
    ensures named { (kind : TableKind) → IsKnown kind → named_kind (name_field kind) ≡ Some kind }
    ensures field { (field : List ℕ) (kind : TableKind) → length field ≡ 40
        → named_kind field ≡ Some kind → field ≡ name_field kind }
{}

/// Each kind of table has a form by which its payloads are read and shown, and payloads that fit the kind fit the form.
pub fn tables_have_forms()
    ensures form { (ls : Layouts) (kind : TableKind) → are_layouts ls ≡ true
        → is_form (form_of ls kind) ≡ true }
    ensures fits { (ls : Layouts) (kind : TableKind) (size : ℕ) → are_layouts ls ≡ true
        → fits_kind kind size ≡ true → FitsForm (form_of ls kind) size }
{}

/// A file that is made of a header of 60 bytes and a payload is of its kind, where it has no fault.
pub fn made_files_have_kinds()
    ensures { (kind : TableKind) (row payload : List ℕ) → IsKnown kind → length row ≡ 60
        → file_fault_of (table_file kind row payload) ≡ None
        → kind_of_file (table_file kind row payload) ≡ Some kind }
{}

/// The text of a table's file says its bytes, those of its headers too, whatever the commands, the layouts and the epoch are; and where
/// the table's loader takes it, so does `read_table`.
pub fn files_read_back()
    ensures said { (f : TextForms) (kind : TableKind) (file : List ℕ)
        → are_good f.commands.now ≡ true → are_distinct f.commands.now ≡ true
        → are_layouts f.layouts.now ≡ true → AllByRecursion (λ b. b < 256) file
        → kind_of_file file ≡ Some kind → file_said f (file_text f kind file) ≡ Ok file }
    ensures taken { (f : TextForms) (kind : TableKind) (file : List ℕ)
        → are_good f.commands.now ≡ true → are_distinct f.commands.now ≡ true
        → are_layouts f.layouts.now ≡ true → AllByRecursion (λ b. b < 256) file → IsTaken file kind
        → table_said f (file_text f kind file) ≡ Ok file }
{}

/// The examples of docs/FILES.md that have no telecommand: their texts say their files, and their files are shown as their texts.
pub fn placed_tables_in_words()
    ensures said { map (λ e. file_said known_forms e.text) placed_examples
        ≡ map (λ e. Ok e.file) placed_examples }
    ensures shown { map (λ e. file_text known_forms e.kind e.file) placed_examples
        ≡ map (λ e. e.text) placed_examples }
{}

/// The examples of docs/FILES.md that have a telecommand: their texts say their files, and their files are shown as their texts.
pub fn command_tables_in_words()
    ensures said { map (λ e. file_said known_forms e.text) command_examples
        ≡ map (λ e. Ok e.file) command_examples }
    ensures shown { map (λ e. file_text known_forms e.kind e.file) command_examples
        ≡ map (λ e. e.text) command_examples }
{}
