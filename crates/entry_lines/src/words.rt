//! What the words of a line say of an entry.
ghost use Rattle.std.specs.Prelude.{◌≡◌, codes, option_and_then};
ghost use Rattle.std.specs.Str.{bytes_eq};
ghost use Rattle.row_forms.specs.Words.{words, number};
ghost use Rattle.row_forms.specs.Rows.{behind_key};
ghost use Rattle.entry_lines.specs.Words.{is_first, first_number, keyed_number, entry_said_in, command_said_in, is_number, is_behind, says};

use row_forms::{behind_key, number, split_word};

/// What a line of a table's text is looked for by.
#[derive(Clone, Copy, Debug, PartialEq, Eq)]
pub enum Sought {
    /// The entry of this number.
    Entry(u32),
    /// An entry behind the one of this number.
    Behind(u32),
    /// The command of this number, in an absolute sequence.
    Command(u16),
}

/// Whether two words are one.
fn is_word(word: &[u8], wanted: &[u8]) -> bool
    ensures { result ≡ bytes_eq word.now wanted.now }
{
    word == wanted
}

/// Whether a line begins with a word.
pub(crate) fn is_first(wanted: &[u8], line: &[u8]) -> bool
    ensures { result ≡ is_first wanted.now (words line.now) }
{
    match split_word(line) {
        Some((word, _)) => is_word(word, wanted),
        None => false,
    }
}

/// The number with which a line begins.
fn first_number(line: &[u8]) -> Option<u32>
    ensures { result ≡ first_number (words line.now) }
{
    match split_word(line) {
        Some((word, _)) => number(65_535, word),
        None => None,
    }
}

/// The number that a word gives behind `number=`.
fn number_behind(word: &[u8]) -> Option<u32>
    ensures { result ≡ option_and_then (number 65535) (behind_key (codes "number") word.now) }
{
    match behind_key("number", word) {
        Some(text) => number(65_535, text),
        None => None,
    }
}

/// The number that a line gives with its first word, behind `number=`.
fn keyed_number(line: &[u8]) -> Option<u32>
    ensures { result ≡ keyed_number (words line.now) }
{
    match split_word(line) {
        Some((word, _)) => number_behind(word),
        None => None,
    }
}

/// The number of the entry that a line says.
#[tactic(auto, unfolding(crate::specs::Words::entry_said_in))]
fn entry_said_in(line: &[u8]) -> Option<u32>
    ensures { result ≡ entry_said_in (words line.now) }
{
    let Some((word, behind)) = split_word(line) else {
        return None;
    };
    if is_word(word, b"raw") {
        return first_number(behind);
    }
    number(65_535, word)
}

/// The number of the command that a line says.
#[tactic(auto, unfolding(crate::specs::Words::command_said_in))]
fn command_said_in(line: &[u8]) -> Option<u32>
    ensures { result ≡ command_said_in (words line.now) }
{
    let Some((word, behind)) = split_word(line) else {
        return None;
    };
    if is_word(word, b"command") {
        return keyed_number(behind);
    }
    None
}

/// Whether a number is this one.
fn is_number(wanted: u32, said: Option<u32>) -> bool
    ensures { result ≡ is_number wanted said }
{
    match said {
        Some(number) => number == wanted,
        None => false,
    }
}

/// Whether a number is over this one.
fn is_behind(wanted: u32, said: Option<u32>) -> bool
    ensures { result ≡ is_behind wanted said }
{
    match said {
        Some(number) => wanted < number,
        None => false,
    }
}

/// Whether a line says what is looked for.
pub(crate) fn says(sought: Sought, line: &[u8]) -> bool
    ensures { result ≡ says sought (words line.now) }
{
    match sought {
        Sought::Entry(entry) => is_number(entry, entry_said_in(line)),
        Sought::Behind(entry) => is_behind(entry, entry_said_in(line)),
        Sought::Command(number) => is_number(u32::from(number), command_said_in(line)),
    }
}
