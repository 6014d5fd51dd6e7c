//! The verbs that make a file of another, and those that look at files.

ghost use Rattle.std.specs.Prelude.{◌≡◌, IfOk};
ghost use Rattle.clap.specs.Simple.{app_of};
ghost use Rattle.verb_words.specs.Words.{table_app, scenario_app, build_app, check_app, show_app};

use crate::arguments::{epoch, files, input, option, output};
use clap::Command;
use std::alloc::{AllocError, Global};

pub(crate) fn table<'a>(alloc: Global) -> Result<Command<'a>, AllocError>
    ensures { IfOk result (λ command. app_of command ≡ table_app) }
{
    Command::new(alloc, "table")
        .about("Makes the file of a table, or one to be loaded, from its text")
        .arg(epoch(alloc, "What times such as +0:01:00 are counted from"))?
        .arg(output(alloc))?
        .arg(input(
            alloc,
            "TEXT",
            "The text of a table or of a load; - is standard input",
        ))
}

pub(crate) fn scenario<'a>(alloc: Global) -> Result<Command<'a>, AllocError>
    ensures { IfOk result (λ command. app_of command ≡ scenario_app) }
{
    Command::new(alloc, "scenario")
        .about("Makes a scenario from a plan, whose commands are words, or from the plan of a book")
        .arg(output(alloc))?
        .arg(input(
            alloc,
            "PLAN",
            "The text of a plan, or a book; - is standard input",
        ))
}

pub(crate) fn build<'a>(alloc: Global) -> Result<Command<'a>, AllocError>
    ensures { IfOk result (λ command. app_of command ≡ build_app) }
{
    let folder = option(
        alloc,
        "output",
        "FOLDER",
        "The folder that gets the files, made where it isn't there [default: the current one]",
    );
    Command::new(alloc, "build")
        .about("Writes the files of a book, its scenario and a manifest")
        .arg(folder.short('o'))?
        .arg(input(alloc, "BOOK", "The text of a book; - is standard input"))
}

pub(crate) fn check<'a>(alloc: Global) -> Result<Command<'a>, AllocError>
    ensures { IfOk result (λ command. app_of command ≡ check_app) }
{
    let map = option(
        alloc,
        "map",
        "SCENARIO",
        "The scenario, plan or book whose memory the tables read; - is standard input",
    );
    let files = files(alloc)
        .required(true)
        .help("Files of tables, files to be loaded, and books");
    Command::new(alloc, "check")
        .about(
            "Looks at files as vigil does, and at books: why they are refused, what is odd in them, and in which order they count",
        )
        .arg(map)?
        .arg(files)
}

pub(crate) fn show<'a>(alloc: Global) -> Result<Command<'a>, AllocError>
    ensures { IfOk result (λ command. app_of command ≡ show_app) }
{
    let time = epoch(
        alloc,
        "What times in tables are counted from, as in time=+0:01:00 [default: times are in seconds]",
    );
    let files = files(alloc).required(true).help(
        "Files of tables or of loads, or scenarios; - is standard input",
    );
    Command::new(alloc, "show")
        .about(
            "Shows files of tables, and files to be loaded, as text, from which `table` makes them, and scenarios as plans, for `scenario`",
        )
        .arg(time)?
        .arg(output(alloc))?
        .arg(files)
}
