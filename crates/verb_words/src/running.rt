//! The verb that rehearses.

ghost use Rattle.std.specs.Prelude.{◌≡◌, false, IfOk};
ghost use Rattle.clap.specs.Simple.{app_of};
ghost use Rattle.clap.specs.Walk.{rule_of};
ghost use Rattle.verb_words.specs.Words.{run_options_app, run_outputs_app, run_judged_app, run_app, allow_rule};

use crate::arguments::{epoch, files, flag, option, output, word};
use clap::{Arg, ArgAction, Command};
use std::alloc::{AllocError, Global};

/// How a rehearsal is run.
fn run_options<'a>(alloc: Global) -> Result<Command<'a>, AllocError>
    ensures { IfOk result (λ command. app_of command ≡ run_options_app) }
{
    let workers = option(
        alloc,
        "workers",
        "N",
        "How many threads share the work, from 1 to 16; the log is the same [default: 1]",
    );
    let has_subjects = flag(
        alloc,
        "subjects",
        "Simulated applications give the execution counters, in place of the scenario",
    );
    let tells_log_alone = flag(
        alloc,
        "no-inputs",
        "Tells the log alone, and not what the scenario does in between",
    );
    let time = epoch(
        alloc,
        "The time of frame 0 [default: that of the book or the scenario, where it is a file; else lines have frames]",
    );
    Command::new(alloc, "run")
        .about(
            "Rehearses a scenario or a book as vigil does, and tells the log in words as it comes",
        )
        .arg(workers)?
        .arg(has_subjects)?
        .arg(tells_log_alone)?
        .arg(time)
}

/// What is made of a rehearsal.
fn run_outputs<'a>(alloc: Global) -> Result<Command<'a>, AllocError>
    ensures { IfOk result (λ command. app_of command ≡ run_outputs_app) }
{
    let log = option(
        alloc,
        "log",
        "FILE",
        "Keeps the log itself, as vigil writes it",
    );
    run_options(alloc)?.arg(log)?.arg(output(alloc))
}

/// What may come in a rehearsal, as often as one likes.
fn allow<'a>(alloc: Global) -> Arg<'a>
    ensures rule { rule_of result ≡ allow_rule }
    ensures own { result.global ≡ false }
{
    let allow = option(
        alloc,
        "allow",
        "WHAT",
        "What may come, as 'CS 101', 'CS miscompare', 'CS any', 'drop MM', 'drop any', 'restart NAV' or reset",
    );
    allow.action(ArgAction::Append)
}

/// How a rehearsal is judged.
fn run_judged<'a>(alloc: Global) -> Result<Command<'a>, AllocError>
    ensures { IfOk result (λ command. app_of command ≡ run_judged_app) }
{
    let is_strict = flag(
        alloc,
        "strict",
        "Ends with status 10 where an error, a drop or a request came that no --allow names",
    );
    run_outputs(alloc)?.arg(is_strict)?.arg(allow(alloc))
}

pub(crate) fn run<'a>(alloc: Global) -> Result<Command<'a>, AllocError>
    ensures { IfOk result (λ command. app_of command ≡ run_app) }
{
    let scenario = word(
        alloc,
        "scenario",
        "SCENARIO",
        "The file of a scenario or of a book, or drill:K; - is standard input, a scenario",
    );
    let files = files(alloc).help("Files of tables, and files to be loaded; a book has its own");
    run_judged(alloc)?.arg(scenario)?.arg(files)
}
