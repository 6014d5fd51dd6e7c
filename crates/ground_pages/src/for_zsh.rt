//! Completions for zsh, made of the command line's own description.

use crate::texts::push_texts;
use clap::{Arg, ArgAction, Command};
use std::alloc::{AllocError, Global};

/// Whether an option has no value.
fn is_flag(option: &Arg<'_>) -> bool {
    match option.get_action() {
        ArgAction::SetTrue | ArgAction::SetFalse | ArgAction::Count => true,
        _ => false,
    }
}

/// The mark of an option that may be given more than once.
fn repeat_mark(option: &Arg<'_>) -> &'static str {
    match option.get_action() {
        ArgAction::Append => "*",
        _ => "",
    }
}

/// Appends a byte of a description that stands between brackets and single quotes.
fn push_quoted_byte(out: &mut Vec<u8>, byte: u8) -> Result<(), AllocError> {
    match byte {
        b'\'' => out.extend_from_slice(b"'\\''"),
        b'[' | b']' | b':' | b'\\' => out.extend_from_slice(&[b'\\', byte]),
        _ => out.extend_from_slice(&[byte]),
    }
}

/// Appends a text for a description between brackets and single quotes.
fn push_quoted(out: &mut Vec<u8>, text: &str) -> Result<(), AllocError> {
    for byte in text.as_bytes() {
        push_quoted_byte(out, *byte)?;
    }
    Ok(())
}

/// Appends an option, by one of its names behind dashes, as `_arguments` has it.
fn push_option<'x>(
    out: &mut Vec<u8>,
    option: &Arg<'_>,
    dashes: &'x str,
    name: &'x str,
) -> Result<(), AllocError> {
    push_texts(out, &[" '", repeat_mark(option)])?;
    push_texts(out, &[dashes, name, "["])?;
    push_quoted(out, option.get_help().unwrap_or(""))?;
    if is_flag(option) {
        return push_texts(out, &["]'"]);
    }
    push_texts(out, &["]:", option.get_id(), ":_files'"])
}

/// Appends an option by each of its names.
fn push_names(out: &mut Vec<u8>, option: &Arg<'_>) -> Result<(), AllocError> {
    if let Some(long) = option.get_long() {
        push_option(out, option, "--", long)?;
    }
    if let Some(short) = option.get_short() {
        let mut letter = [0u8; 4];
        push_option(out, option, "-", short.encode_utf8(&mut letter))?;
    }
    Ok(())
}

/// Appends what may follow a verb.
fn push_options(out: &mut Vec<u8>, verb: &Command<'_>) -> Result<(), AllocError> {
    push_texts(out, &["                ", verb.get_name(), ") _arguments"])?;
    for option in verb.get_arguments() {
        push_names(out, option)?;
    }
    push_texts(out, &[" '*:file:_files' ;;\n"])
}

/// Appends a verb and what it does.
fn push_verb(out: &mut Vec<u8>, verb: &Command<'_>) -> Result<(), AllocError> {
    push_texts(out, &["        '", verb.get_name(), ":"])?;
    push_quoted(out, verb.get_about().unwrap_or(""))?;
    push_texts(out, &["'\n"])
}

/// Appends what stands in front of the verbs.
fn push_head(out: &mut Vec<u8>, name: &str) -> Result<(), AllocError> {
    push_texts(
        out,
        &[
            "#compdef ",
            name,
            "\n_",
            name,
            "() {\n",
            "    local state line\n",
            "    local -a verbs\n",
            "    verbs=(\n",
        ],
    )
}

/// Appends what stands between the verbs and their options.
fn push_cases(out: &mut Vec<u8>) -> Result<(), AllocError> {
    push_texts(
        out,
        &[
            "    )\n",
            "    _arguments -C '1:verb:->verb' '*::argument:->argument'\n",
            "    case $state in\n",
            "        verb) _describe verb verbs ;;\n",
            "        argument)\n",
            "            case $words[1] in\n",
        ],
    )
}

/// Appends what stands behind the options.
fn push_tail(out: &mut Vec<u8>, name: &str) -> Result<(), AllocError> {
    push_texts(
        out,
        &["            esac ;;\n    esac\n}\n_", name, " \"$@\"\n"],
    )
}

/// The completions for zsh: the verbs with what they do, then each verb's options, or files.
pub fn zsh_completions(alloc: Global, program: &Command<'_>) -> Result<Vec<u8>, AllocError> {
    let mut out = Vec::new(alloc);
    push_head(&mut out, program.get_name())?;
    for verb in program.get_subcommands() {
        push_verb(&mut out, verb)?;
    }
    push_cases(&mut out)?;
    for verb in program.get_subcommands() {
        push_options(&mut out, verb)?;
    }
    push_tail(&mut out, program.get_name())?;
    Ok(out)
}
