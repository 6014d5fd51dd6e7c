//! The command line.

ghost use Rattle.std.specs.Prelude.{◌≡◌, true, Option, IfOk};
ghost use Rattle.clap.specs.Simple.{app_of, is_simple};
ghost use Rattle.clap.specs.declared.builder.value_parser.ValueParser.{ValueParser};
ghost use Rattle.verb_words.specs.Words.{bare_app, with_verb, with_making, with_logs, with_pages, groundkit_app};

use crate::logs::{csv, diff, pcap, words};
use crate::making::{build, check, scenario, show, table};
use crate::pages::{completions, man};
use crate::running::run;
use clap::Command;
use std::alloc::{AllocError, Global};

/// A command line with one verb more.
fn with_verb<'a>(program: Command<'a>, verb: Command<'a>) -> Result<Command<'a>, AllocError>
    requires { (app_of verb).top.is_plain ≡ true }
    ensures { IfOk result (λ command. app_of command
        ≡ with_verb (app_of program.entry) (app_of verb.entry)) }
{
    program.subcommand(verb)
}

/// With the verbs that make a file of another, and those that look at files.
fn with_making<'a>(alloc: Global, program: Command<'a>) -> Result<Command<'a>, AllocError>
    ensures { IfOk result (λ command. app_of command ≡ with_making (app_of program.entry)) }
{
    let program = with_verb(program, table(alloc)?)?;
    let program = with_verb(program, scenario(alloc)?)?;
    let program = with_verb(program, build(alloc)?)?;
    let program = with_verb(program, check(alloc)?)?;
    with_verb(program, show(alloc)?)
}

/// With the verb that rehearses, and those that make something of a log.
fn with_logs<'a>(alloc: Global, program: Command<'a>) -> Result<Command<'a>, AllocError>
    ensures { IfOk result (λ command. app_of command ≡ with_logs (app_of program.entry)) }
{
    let program = with_verb(program, run(alloc)?)?;
    let program = with_verb(program, words(alloc)?)?;
    let program = with_verb(program, csv(alloc)?)?;
    let program = with_verb(program, pcap(alloc)?)?;
    with_verb(program, diff(alloc)?)
}

/// With the verbs that describe the command line.
fn with_pages<'a>(alloc: Global, program: Command<'a>) -> Result<Command<'a>, AllocError>
    ensures { IfOk result (λ command. (names : Option ValueParser)
        × (app_of command ≡ with_pages names (app_of program.entry))) }
{
    let program = with_verb(program, completions(alloc)?)?;
    with_verb(program, man(alloc)?)
}

/// The program without its verbs.
fn bare<'a>(alloc: Global) -> Command<'a>
    ensures { app_of result ≡ bare_app }
{
    Command::new(alloc, "groundkit")
        .version("1.0")
        .about("Writes what vigil reads, rehearses, and tells what vigil wrote, in words")
        .subcommand_required(true)
        .arg_required_else_help(true)
}

/// What the command line may ask for.
pub fn command<'a>(alloc: Global) -> Result<Command<'a>, AllocError>
    ensures { IfOk result (λ command. (names : Option ValueParser)
        × (app_of command ≡ groundkit_app names)) }
{
    with_pages(alloc, with_logs(alloc, with_making(alloc, bare(alloc))?)?)
}

/// The command line is one whose matches clap's own definitions give.
#[tactic(auto, using(crate::proofs::SimpleLemmas::reads_simply))]
pub fn command_law()
    ensures { (names : Option ValueParser) → is_simple (groundkit_app names) ≡ true }
{}
