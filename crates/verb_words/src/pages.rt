//! The verbs that describe the command line.

ghost use Rattle.std.specs.Prelude.{◌≡◌, Option, IfOk};
ghost use Rattle.clap.specs.Simple.{app_of};
ghost use Rattle.clap.specs.declared.builder.value_parser.ValueParser.{ValueParser};
ghost use Rattle.verb_words.specs.Words.{completions_app, man_app};

use crate::arguments::{output, word};
use clap::Command;
use std::alloc::{AllocError, Global};

/// The shells that have completions.
static SHELLS: [&str; 2] = ["bash", "zsh"];

pub(crate) fn completions<'a>(alloc: Global) -> Result<Command<'a>, AllocError>
    ensures { IfOk result (λ command. (names : Option ValueParser)
        × (app_of command ≡ completions_app names)) }
{
    let shell = word(alloc, "shell", "SHELL", "The shell").value_parser(SHELLS.as_slice());
    Command::new(alloc, "completions")
        .about("Writes the completions of these words for a shell")
        .arg(output(alloc))?
        .arg(shell)
}

pub(crate) fn man<'a>(alloc: Global) -> Result<Command<'a>, AllocError>
    ensures { IfOk result (λ command. app_of command ≡ man_app) }
{
    Command::new(alloc, "man")
        .about("Writes the page of the manual")
        .arg(output(alloc))
}
