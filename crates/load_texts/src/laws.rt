//! Laws of the definitions, as contracts of functions that do nothing.
ghost use Rattle.std.specs.Prelude.{◌≡◌, ◌<◌, [], ℕ, List, Some, None, true, codes, Ok};
ghost use Rattle.std.specs.List.{AllByRecursion};
ghost use Rattle.packet_forms.specs.Numbers.{be32_at};
ghost use Rattle.row_forms.specs.Words.{number};
ghost use Rattle.row_forms.specs.Rows.{behind_key};
ghost use Rattle.table_files.specs.Headers.{IsLoadOf};
ghost use Rattle.table_files.specs.Rows.{load_file};
ghost use Rattle.row_forms.specs.declared.field.Field.{Field};
ghost use Rattle.load_texts.specs.Headers.{is_header, all_fields};
ghost use Rattle.load_texts.specs.Addresses.{address_said};
ghost use Rattle.load_texts.specs.Loaded.{file_asked};
ghost use Rattle.load_texts.specs.Loads.{load_said, load_text, SaysLoad};
ghost use Rattle.load_texts.specs.Examples.{load_words, short_words, short_file, named_words, named_bytes, named_load};

/// A file that a text says is accepted, and its address and its bytes are those of the text.
pub fn texts_say_loads()
    ensures load { (fs : List Field) (named text file : List ℕ) → load_said fs named text ≡ Ok file
        → SaysLoad named text file }
    ensures address { (word text bytes : List ℕ) → behind_key (codes "address") word ≡ Some text
        → address_said word ≡ Ok bytes → number 4294967295 text ≡ Some (be32_at bytes 0) }
{}

/// The text of a file to be loaded that is accepted says its bytes, those of its headers too, whatever the fields are.
pub fn loads_read_back()
    ensures { (fs : List Field) (named file : List ℕ) → is_header fs ≡ true
        → AllByRecursion (λ b. b < 256) file → IsLoadOf file
        → load_said fs named (load_text fs file) ≡ Ok file }
{}

/// Literal texts and literal files: one with all words of the headers, one without, and one that asks for a file.
pub fn loads_in_words()
    ensures said { load_said all_fields [] load_words ≡ Ok load_file }
    ensures shown { load_text all_fields load_file ≡ load_words }
    ensures short { load_said all_fields [] short_words ≡ Ok short_file }
    ensures asked { file_asked short_words ≡ None }
    ensures named { load_said all_fields named_bytes named_words ≡ Ok named_load }
{}
