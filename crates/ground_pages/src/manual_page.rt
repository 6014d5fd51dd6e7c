//! A page of the manual, made of the command line's own description.

use crate::texts::{push_letter, push_texts};
use clap::{Arg, Command};
use std::alloc::{AllocError, Global};

/// What the statuses say.
const STATUSES: [(&str, &str); 8] = [
    ("0", "It is done."),
    ("1", "The words are refused."),
    ("2", "A file, a text or a line of a log is refused."),
    ("3", "The scenario is refused."),
    ("4", "A file can't be read."),
    ("5", "An output can't be written."),
    ("6", "Memory ran out."),
    (
        "10",
        "Something came that no --allow names, or logs differ.",
    ),
];

/// Appends a byte of a text, which the formatter would else read as its own where it is a quote, a hyphen or a backslash.
fn push_page_byte(out: &mut Vec<u8>, byte: u8) -> Result<(), AllocError> {
    match byte {
        b'\\' => out.extend_from_slice(b"\\e"),
        b'-' => out.extend_from_slice(b"\\-"),
        b'\'' => out.extend_from_slice(b"\\(aq"),
        _ => out.extend_from_slice(&[byte]),
    }
}

/// Appends a text as a line that the formatter takes for no request.
fn push_line(out: &mut Vec<u8>, text: &str) -> Result<(), AllocError> {
    out.extend_from_slice(b"\\&")?;
    for byte in text.as_bytes() {
        push_page_byte(out, *byte)?;
    }
    out.extend_from_slice(b"\n")
}

/// Appends what an argument that is no option is called, in capital letters.
fn push_capitals(out: &mut Vec<u8>, name: &str) -> Result<(), AllocError> {
    for byte in name.as_bytes() {
        push_page_byte(out, byte.to_ascii_uppercase())?;
    }
    out.extend_from_slice(b"\n")
}

/// Appends the names of an argument: `-o, --output`, or where it is no option, what it is called.
fn push_names(out: &mut Vec<u8>, argument: &Arg<'_>) -> Result<(), AllocError> {
    if let Some(short) = argument.get_short() {
        push_texts(out, &["\\-"])?;
        push_letter(out, short)?;
        push_texts(out, &[", "])?;
    }
    match argument.get_long() {
        Some(long) => {
            push_texts(out, &["\\-\\-"])?;
            push_line(out, long)
        }
        None => push_capitals(out, argument.get_id()),
    }
}

/// Appends an argument with what it means.
fn push_argument(out: &mut Vec<u8>, argument: &Arg<'_>) -> Result<(), AllocError> {
    push_texts(out, &[".TP\n.B "])?;
    push_names(out, argument)?;
    push_line(out, argument.get_help().unwrap_or(""))
}

/// Appends a verb, what it does, and its arguments.
fn push_verb(out: &mut Vec<u8>, verb: &Command<'_>) -> Result<(), AllocError> {
    push_texts(out, &[".SS ", verb.get_name(), "\n"])?;
    push_line(out, verb.get_about().unwrap_or(""))?;
    for argument in verb.get_arguments() {
        push_argument(out, argument)?;
    }
    Ok(())
}

/// Appends what stands in front of the verbs.
fn push_head(out: &mut Vec<u8>, name: &str, about: &str) -> Result<(), AllocError> {
    push_texts(out, &[".TH ", name, " 1\n.SH NAME\n", name, " \\- "])?;
    push_line(out, about)?;
    push_texts(
        out,
        &[
            ".SH SYNOPSIS\n.B ",
            name,
            "\nVERB [OPTION...] [FILE...]\n.SH VERBS\n",
        ],
    )
}

/// Appends what the statuses say.
fn push_statuses(out: &mut Vec<u8>) -> Result<(), AllocError> {
    push_texts(out, &[".SH EXIT STATUS\n"])?;
    for (number, text) in &STATUSES {
        push_texts(out, &[".TP\n.B ", number, "\n"])?;
        push_line(out, text)?;
    }
    Ok(())
}

/// The page of the manual.
pub fn manual(alloc: Global, program: &Command<'_>) -> Result<Vec<u8>, AllocError> {
    let mut out = Vec::new(alloc);
    push_head(
        &mut out,
        program.get_name(),
        program.get_about().unwrap_or(""),
    )?;
    for verb in program.get_subcommands() {
        push_verb(&mut out, verb)?;
    }
    push_statuses(&mut out)?;
    Ok(out)
}
