//! What stands behind the verbs.

ghost use Rattle.std.specs.Prelude.{◌≡◌, false, codes};
ghost use Rattle.clap.specs.Walk.{rule_of};
ghost use Rattle.verb_words.specs.Words.{option_rule, flag_rule, word_rule, epoch_rule, output_rule, files_rule};

use clap::{Arg, ArgAction, value_parser};
use std::alloc::Global;

/// An option with a value.
pub(crate) fn option<'a>(alloc: Global, name: &'a str, value: &'a str, help: &'a str) -> Arg<'a>
    ensures rule { rule_of result ≡ option_rule name.entry.now }
    ensures own { result.global ≡ false }
{
    Arg::new(alloc, name)
        .long(name)
        .value_name(value)
        .help(help)
}

/// A flag.
pub(crate) fn flag<'a>(alloc: Global, name: &'a str, help: &'a str) -> Arg<'a>
    ensures rule { rule_of result ≡ flag_rule name.entry.now }
    ensures own { result.global ≡ false }
{
    Arg::new(alloc, name)
        .long(name)
        .action(ArgAction::SetTrue)
        .help(help)
}

/// A word that has to stand there.
pub(crate) fn word<'a>(alloc: Global, name: &'a str, value: &'a str, help: &'a str) -> Arg<'a>
    ensures rule { rule_of result ≡ word_rule name.entry.now }
    ensures own { result.global ≡ false }
{
    Arg::new(alloc, name)
        .value_name(value)
        .required(true)
        .help(help)
}

/// `--epoch SECONDS`.
pub(crate) fn epoch<'a>(alloc: Global, help: &'a str) -> Arg<'a>
    ensures rule { rule_of result ≡ epoch_rule }
    ensures own { result.global ≡ false }
{
    option(alloc, "epoch", "SECONDS", help).value_parser(value_parser!(u32))
}

/// The file that is read.
pub(crate) fn input<'a>(alloc: Global, value: &'a str, help: &'a str) -> Arg<'a>
    ensures rule { rule_of result ≡ word_rule (codes "input") }
    ensures own { result.global ≡ false }
{
    word(alloc, "input", value, help)
}

/// `-o FILE`.
pub(crate) fn output<'a>(alloc: Global) -> Arg<'a>
    ensures rule { rule_of result ≡ output_rule }
    ensures own { result.global ≡ false }
{
    option(
        alloc,
        "output",
        "FILE",
        "The file that is written, whole or not at all [default: standard output]",
    )
    .short('o')
}

/// The time of frame 0, by which lines are told.
pub(crate) fn time_of_frame_0<'a>(alloc: Global) -> Arg<'a>
    ensures rule { rule_of result ≡ epoch_rule }
    ensures own { result.global ≡ false }
{
    epoch(
        alloc,
        "The time of frame 0, as `epoch` gives it in the scenario [default: lines have frames]",
    )
}

/// A log that vigil wrote.
pub(crate) fn log<'a>(alloc: Global, name: &'a str) -> Arg<'a>
    ensures rule { rule_of result ≡ word_rule name.entry.now }
    ensures own { result.global ≡ false }
{
    word(
        alloc,
        name,
        "LOG",
        "The file of a log that vigil wrote; - is standard input",
    )
}

/// Files of tables, and files to be loaded.
pub(crate) fn files<'a>(alloc: Global) -> Arg<'a>
    ensures rule { rule_of result ≡ files_rule }
    ensures own { result.global ≡ false }
{
    Arg::new(alloc, "files")
        .value_name("FILE")
        .action(ArgAction::Append)
        .help("Files of tables, and files to be loaded")
}
