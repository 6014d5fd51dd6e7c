//! Completions for bash, made of the command line's own description.

use crate::texts::{push_letter, push_texts};
use clap::{Arg, Command};
use std::alloc::{AllocError, Global};

/// Appends the names of an option, each behind its dashes and with a blank behind it.
fn push_names(out: &mut Vec<u8>, option: &Arg<'_>) -> Result<(), AllocError> {
    if let Some(long) = option.get_long() {
        push_texts(out, &["--", long, " "])?;
    }
    if let Some(short) = option.get_short() {
        push_texts(out, &["-"])?;
        push_letter(out, short)?;
        push_texts(out, &[" "])?;
    }
    Ok(())
}

/// Appends the options of a verb as words.
fn push_options(out: &mut Vec<u8>, verb: &Command<'_>) -> Result<(), AllocError> {
    push_texts(out, &["        *:", verb.get_name(), ") options=\""])?;
    for option in verb.get_arguments() {
        push_names(out, option)?;
    }
    push_texts(out, &["--help\" ;;\n"])
}

/// Appends the verbs as words.
fn push_verbs(out: &mut Vec<u8>, program: &Command<'_>) -> Result<(), AllocError> {
    push_texts(out, &["        1:*) COMPREPLY=($(compgen -W \""])?;
    for verb in program.get_subcommands() {
        push_texts(out, &[verb.get_name(), " "])?;
    }
    push_texts(
        out,
        &["help --help --version\" -- \"$word\")); return ;;\n"],
    )
}

/// Appends what stands in front of the verbs.
fn push_head(out: &mut Vec<u8>, name: &str) -> Result<(), AllocError> {
    push_texts(
        out,
        &[
            "# Completions of ",
            name,
            " for bash.\n_",
            name,
            "() {\n",
            "    local word=${COMP_WORDS[COMP_CWORD]} options=\n",
            "    case $COMP_CWORD:${COMP_WORDS[1]} in\n",
        ],
    )
}

/// Appends what stands behind the options.
fn push_tail(out: &mut Vec<u8>, name: &str) -> Result<(), AllocError> {
    push_texts(
        out,
        &[
            "    esac\n",
            "    case $word in\n",
            "        -*) COMPREPLY=($(compgen -W \"$options\" -- \"$word\")) ;;\n",
            "        *) COMPREPLY=($(compgen -f -- \"$word\")) ;;\n",
            "    esac\n",
            "}\n",
            "complete -o filenames -F _",
            name,
            " ",
            name,
            "\n",
        ],
    )
}

/// The completions for bash: the verbs, then each verb's options, or files.
pub fn bash_completions(alloc: Global, program: &Command<'_>) -> Result<Vec<u8>, AllocError> {
    let mut out = Vec::new(alloc);
    push_head(&mut out, program.get_name())?;
    push_verbs(&mut out, program)?;
    for verb in program.get_subcommands() {
        push_options(&mut out, verb)?;
    }
    push_tail(&mut out, program.get_name())?;
    Ok(out)
}
