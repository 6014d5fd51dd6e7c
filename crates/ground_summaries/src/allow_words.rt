//! The words that `--allow` takes.

use bus_pipes::PipeName;
use events::{Event, EventKind, events};
use ground_tools::pipe_name;
use itoa::Buffer;
use packet_forms::Name;
use std::alloc::{AllocError, Global};

/// All pipes.
static PIPES: [PipeName; 8] = [
    PipeName::Hs,
    PipeName::HsEv,
    PipeName::Cs,
    PipeName::Sc,
    PipeName::Mm,
    PipeName::Md,
    PipeName::Lc,
    PipeName::LcTlm,
];

/// Whether a word names a pipe, or is `any`.
fn is_pipe(word: &str) -> bool {
    for pipe in PIPES {
        if pipe_name(pipe) == word {
            return true;
        }
    }
    word == "any"
}

/// Whether a word names an event by its number in decimal digits, without a sign or a zero in front, or by its name, or is `any`.
fn is_event_word(word: &str, event: &Event) -> bool {
    let mut buffer = Buffer::new();
    word == buffer.format(event.number) || word == event.name || word == "any"
}

/// Whether a word names an error of an application, or is `any` for one that has errors.
fn is_error(application: &str, word: &str) -> bool {
    for event in events() {
        if event.kind == EventKind::Error
            && event.application == application
            && is_event_word(word, event)
        {
            return true;
        }
    }
    false
}

/// Whether the words of an `--allow` name something that may be counted.
fn is_known(words: &str) -> bool {
    match words.split_once(' ') {
        Some(("drop", pipe)) => is_pipe(pipe),
        Some(("restart" | "delete", name)) => name == "any" || Name::from_text(name).is_some(),
        Some((application, event)) => is_error(application, event),
        None => words == "reset",
    }
}

/// Appends the words for drops, of all pipes and of each one.
fn push_drops(out: &mut Vec<u8>) -> Result<(), AllocError> {
    out.extend_from_slice(b"  drop any")?;
    for pipe in PIPES {
        out.extend_from_slice(b", drop ")?;
        out.extend_from_slice(pipe_name(pipe).as_bytes())?;
    }
    Ok(())
}

/// Appends the word for all errors of an application, on a line of its own.
fn push_application(application: &str, out: &mut Vec<u8>) -> Result<(), AllocError> {
    out.extend_from_slice(b"\n  ")?;
    out.extend_from_slice(application.as_bytes())?;
    out.extend_from_slice(b" any")
}

/// Appends the words for an error, behind those of the error of the application `before`.
fn push_error(before: &str, event: &Event, out: &mut Vec<u8>) -> Result<(), AllocError> {
    if event.application != before {
        push_application(event.application, out)?;
    }
    out.extend_from_slice(b", ")?;
    out.extend_from_slice(event.application.as_bytes())?;
    out.push(b' ')?;
    out.extend_from_slice(event.name.as_bytes())
}

/// Appends the words for errors, a line an application.
fn push_errors(out: &mut Vec<u8>) -> Result<(), AllocError> {
    let mut before = "";
    for event in events() {
        if event.kind == EventKind::Error {
            push_error(before, event, out)?;
            before = event.application;
        }
    }
    Ok(())
}

/// What is told of words that name nothing: the words that there are, a line a kind and an application.
fn told_unknown(alloc: Global, words: &str) -> Result<Vec<u8>, AllocError> {
    let mut out = Vec::new(alloc);
    out.extend_from_slice(b"--allow '")?;
    out.extend_from_slice(words.as_bytes())?;
    out.extend_from_slice(b"' names nothing that --strict counts. These do:\n  reset\n")?;
    out.extend_from_slice(b"  restart any, restart NAME, delete any, delete NAME\n")?;
    push_drops(&mut out)?;
    push_errors(&mut out)?;
    out.push(b'\n')?;
    Ok(out)
}

/// What is told of the first of these words of `--allow` that can name nothing: no event of type 3 that an application has, by its name or
/// number, no drop of a pipe, no reset, and no request for an application of 1 to 19 letters, digits and underscores.
pub fn refused_allow(alloc: Global, allowed: &[&str]) -> Result<Option<Vec<u8>>, AllocError> {
    for words in allowed {
        if !is_known(words) {
            return Ok(Some(told_unknown(alloc, words)?));
        }
    }
    Ok(None)
}
