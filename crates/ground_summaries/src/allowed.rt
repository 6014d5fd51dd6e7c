//! What may come in a log, by an operator's words.

ghost use Rattle.std.specs.Prelude.{◌≡◌, ◌++◌, ℕ, List, IfOk, OnOk, bytes_eq};
ghost use Rattle.std.specs.List.{flat_map};
ghost use Rattle.packet_forms.specs.Names.{name_text};
ghost use Rattle.ground_tools.specs.Surveys.{Counts};
ghost use Rattle.ground_summaries.specs.Allowed.{word_pair, any_or, error_words, words_for, is_among, is_allowed, has_unwanted};
ghost use Rattle.ground_summaries.specs.Told.{allow_said, unwanted_said, has_text};

use crate::counted::{ERROR, push_counted, push_number, push_three};
use events::{events, find_event};
use ground_tools::{Notable, NotableCount, Survey, pipe_name};
use itoa::Buffer;
use packet_forms::{Name, behind, front};
use std::alloc::{AllocError, Global};

/// Whether a text is these two words with a blank between them.
fn is_pair(text: &str, first: &str, second: &str) -> bool
    ensures { result ≡ bytes_eq text.now (word_pair first.now second.now) }
{
    let text = text.as_bytes();
    let first = first.as_bytes();
    let end = first.len();
    if text.len() <= end {
        return false;
    }
    if front(text, end) != first {
        return false;
    }
    if text[end] != b' ' {
        return false;
    }
    behind(text, end + 1) == second.as_bytes()
}

/// Whether a text is a word and `any`, or that word and a name.
fn is_any_or(text: &str, word: &str, name: &str) -> bool
    ensures { result ≡ is_among (any_or word.now name.now) text.now }
{
    if is_pair(text, word, "any") {
        return true;
    }
    is_pair(text, word, name)
}

/// Whether a text allows an error: it names all of the application, or this one by its number or its name (crates/events).
fn names_error(text: &str, application: &Name, number: u16) -> bool
    ensures { result ≡ is_among (error_words (name_text application.now) number) text.now }
{
    let application = application.text();
    if is_pair(text, application, "any") {
        return true;
    }
    let mut buffer = Buffer::new();
    if is_pair(text, application, buffer.format(number)) {
        return true;
    }
    match find_event(events(), application.as_bytes(), number, ERROR) {
        Some(event) => is_pair(text, application, event.name),
        None => false,
    }
}

/// Whether an `--allow` names what came: `CS 101`, `CS miscompare`, `CS any`, `drop MM`, `drop any`, `reset`, `restart NAV`,
/// `restart any`, `delete NAV`, `delete any`.
fn is_allowed_by(words: &str, what: &Notable) -> bool
    ensures { result ≡ is_among (words_for what.now) words.now }
{
    match what {
        Notable::Error {
            application,
            number,
        } => names_error(words, application, *number),
        Notable::Drop { pipe, full: _ } => is_any_or(words, "drop", pipe_name(*pipe)),
        Notable::Reset => words == "reset",
        Notable::Restart(name) => is_any_or(words, "restart", name.text()),
        Notable::Delete(name) => is_any_or(words, "delete", name.text()),
    }
}

/// Whether one of the words allows what came.
#[tactic(auto, unfolding(crate::specs::Allowed::is_allowed))]
fn is_allowed(allowed: &[&str], what: &Notable) -> bool
    ensures { result ≡ is_allowed allowed.now what.now }
{
    for words in allowed {
        if is_allowed_by(words, what) {
            return true;
        }
    }
    false
}

/// The lines of what came that no `--allow` names.
fn told_unwanted(
    alloc: Global,
    notables: &[NotableCount],
    allowed: &[&str],
) -> Result<Vec<u8>, AllocError>
    ensures { IfOk result (λ told. told.items
        ≡ flat_map (unwanted_said allowed.now) notables.now) }
{
    let mut out = Vec::new(alloc);
    for counted in notables {
        push_unless_allowed(&mut out, counted, allowed)?;
    }
    Ok(out)
}

/// What came that no `--allow` names, a line each, with the words that would allow it.
pub fn unwanted_of(alloc: Global, survey: &Survey, allowed: &[&str]) -> Result<Vec<u8>, AllocError>
    ensures told { IfOk result (λ told. told.items
        ≡ flat_map (unwanted_said allowed.now) survey.now.notables.items) }
    ensures some { (log : List ℕ) → Counts survey.now log
        → IfOk result (λ told. has_text told.items ≡ has_unwanted allowed.now log) }
{
    told_unwanted(alloc, survey.notables(), allowed)
}

/// Appends the line of something that came, unless it is allowed.
#[tactic(auto, unfolding(crate::specs::Told::unwanted_said))]
fn push_unless_allowed(
    out: &mut Vec<u8>,
    counted: &NotableCount,
    allowed: &[&str],
) -> Result<(), AllocError>
    ensures { OnOk result (out.new.items
        ≡ out.old.items ++ unwanted_said allowed.now counted.now) }
{
    if is_allowed(allowed, &counted.what) {
        return Ok(());
    }
    out.extend_from_slice(b"not allowed, --allow '")?;
    push_allow(out, &counted.what)?;
    out.extend_from_slice(b"':")?;
    push_counted(out, counted)
}

/// Appends the words that allow something.
fn push_allow(out: &mut Vec<u8>, what: &Notable) -> Result<(), AllocError>
    ensures { OnOk result (out.new.items ≡ out.old.items ++ allow_said what.now) }
{
    match what {
        Notable::Error {
            application,
            number,
        } => {
            push_three(out, application.text(), " ", "")?;
            push_number(out, u64::from(*number))
        }
        Notable::Drop { pipe, full: _ } => push_three(out, "drop ", pipe_name(*pipe), ""),
        Notable::Reset => out.extend_from_slice(b"reset"),
        Notable::Restart(name) => push_three(out, "restart ", name.text(), ""),
        Notable::Delete(name) => push_three(out, "delete ", name.text(), ""),
    }
}
