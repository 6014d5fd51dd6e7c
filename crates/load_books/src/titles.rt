//! The lines that begin parts, and the names of files.
ghost use Rattle.std.specs.Prelude.{◌≡◌, MatchResult, Ok, Err};
ghost use Rattle.std.specs.List.{list_all};
ghost use Rattle.row_forms.specs.Words.{words};
ghost use Rattle.load_books.specs.Titles.{is_letter, is_name_byte, is_part_name, title_said, file_titled, titled_by};

use crate::fault::BookReason;
use row_forms::split_word;

/// How many bytes a name has at most.
const NAME: usize = 64;

/// What a file of a book is.
#[derive(Clone, Copy, Debug, PartialEq, Eq)]
pub enum FileKind {
    /// The file of a table.
    Table,
    /// A file to be loaded.
    Load,
}

/// What a line that begins a part says.
#[derive(Clone, Copy, Debug)]
pub(crate) enum Title<'a> {
    /// A file of this kind, and its name.
    File(FileKind, &'a [u8]),
    Plan,
}

fn is_letter(byte: u8) -> bool
    ensures { result ≡ is_letter byte }
{
    (65 <= byte && byte <= 90) || (97 <= byte && byte <= 122)
}

fn is_name_byte(byte: u8) -> bool
    ensures { result ≡ is_name_byte byte }
{
    is_letter(byte) || (48 <= byte && byte <= 57) || byte == b'_' || byte == b'.' || byte == b'-'
}

fn are_name_bytes(word: &[u8]) -> bool
    ensures { result ≡ list_all is_name_byte word.now }
{
    word.iter().all(|byte| is_name_byte(*byte))
}

/// Whether a word can name a file, or a book.
pub(crate) fn is_part_name(word: &[u8]) -> bool
    ensures { result ≡ is_part_name word.now }
{
    match word.split_first() {
        Some((first, more)) => is_letter(*first) && are_name_bytes(more) && more.len() < NAME,
        None => false,
    }
}

/// What stands behind the kind of a file: its name alone.
fn read_name(kind: FileKind, behind: &[u8]) -> Result<Title<'_>, BookReason>
    ensures { MatchResult result (λ title. file_titled kind (words behind.now)
        ≡ Ok (titled_by title)) (λ reason. file_titled kind (words behind.now) ≡ Err reason) }
{
    let Some((name, rest)) = split_word(behind) else {
        return Err(BookReason::Name);
    };
    if split_word(rest).is_some() {
        return Err(BookReason::Kind);
    }
    if !is_part_name(name) {
        return Err(BookReason::Name);
    }
    Ok(Title::File(kind, name))
}

/// What the words behind `part` say.
pub(crate) fn read_title(title: &[u8]) -> Result<Title<'_>, BookReason>
    ensures { MatchResult result (λ read. title_said (words title.now)
        ≡ Ok (titled_by read)) (λ reason. title_said (words title.now) ≡ Err reason) }
{
    let Some((kind, behind)) = split_word(title) else {
        return Err(BookReason::Kind);
    };
    match kind {
        b"table" => read_name(FileKind::Table, behind),
        b"load" => read_name(FileKind::Load, behind),
        b"plan" => match split_word(behind) {
            Some(_) => Err(BookReason::Kind),
            None => Ok(Title::Plan),
        },
        _ => Err(BookReason::Kind),
    }
}
