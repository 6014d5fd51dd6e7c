//! What groundkit does, by its words.

ghost use Rattle.std.specs.Prelude.{◌≡◌, Some, map, string_bytes};
ghost use Rattle.clap.specs.Values.{kind_of};
ghost use Rattle.clap.specs.Simple.{subcommand_rows_of};
ghost use Rattle.rehearsal.specs.Promise.{shelf_use};
ghost use Rattle.verb_words.specs.Verbs.{verb_named};
ghost use Rattle.ground_files.specs.Workspaces.{Held};
ghost use Rattle.ground_verbs.specs.Said.{rows_in};
ghost use Rattle.ground_verbs.specs.Done.{IsRehearsed, IsDone};
ghost use Rattle.ground_verbs.specs.Followed.{error_status, IsErrorStatus, DoesNamed, DoesAny, FollowsWords};

use crate::asked::{Asked, read_verb};
use crate::describing::describe;
use book_rehearsals::{epoch_of_run, names_book, run_book};
use clap::ArgMatches;
use clap::error::{Error, ErrorKind};
use fsw_outside::Shelf;
use ground_books::build_book;
use ground_checks::{check_files, warn_of_order};
use ground_differences::compare_logs;
use ground_exports::export_log;
use ground_files::{Status, output_name, tell_no_memory, tell_unwritten};
use ground_making::{make_one, show_files};
use ground_runs::{DraftTeller, Run, run_scenario};
use std::thread::Threads;
use verb_words::{Verb, command};

/// The status where the words are refused, or where they ask for help or the version.
fn status_of_words(error: &Error) -> Status
    ensures { result ≡ error_status (kind_of error.now) }
{
    match error.kind() {
        ErrorKind::DisplayHelp | ErrorKind::DisplayVersion => Status::Done,
        ErrorKind::OutOfMemory => Status::NoMemory,
        _ => Status::WordsRefused,
    }
}

/// Rehearses a scenario or a book.
fn rehearse<R, W, S>(rt: &R, workspace: &mut W, shelf: S, run: &Run<'_>) -> Status
where
    R: Threads + Sync + Eprint + AllocGlobal,
    W: DraftTeller,
    S: Shelf + Drop,
    ensures { (before : Held) → W.held workspace.old ≡ Some before
        → IsRehearsed (shelf_use S.told S.is_open S.faults S.mark shelf) run.now result before
        (W.held workspace.new) }
{
    // What can't be read now is rehearsed as a scenario, which tells why.
    if let Ok(true) = names_book(rt, workspace, run) {
        return run_book(rt, workspace, run);
    }
    if warn_of_order(rt, workspace, run.files).is_err() {
        return tell_no_memory(rt);
    }
    let mut timed = *run;
    timed.epoch = epoch_of_run(rt, workspace, run).unwrap_or(None);
    run_scenario(rt, workspace, shelf, &timed)
}

/// Does what is asked for: reads and writes by the names in it in `workspace`, and takes the files of a rehearsal from `shelf`.
pub fn carry_out<R, W, S>(rt: &R, workspace: &mut W, shelf: S, asked: &Asked<'_>) -> Status
where
    R: Threads + Sync + Eprint + AllocGlobal,
    W: DraftTeller,
    S: Shelf + Drop,
    ensures { (before : Held) → W.held workspace.old ≡ Some before
        → IsDone (shelf_use S.told S.is_open S.faults S.mark shelf) asked.now result before
        (W.held workspace.new) }
{
    match asked {
        Asked::Make(wanted) => make_one(rt, workspace, wanted),
        Asked::Show(shown) => show_files(rt, workspace, shown),
        Asked::Build(build) => build_book(rt, workspace, build),
        Asked::Check(check) => check_files(rt, workspace, check),
        Asked::Rehearse(run) => rehearse(rt, workspace, shelf, run),
        Asked::Export(exported) => export_log(rt, workspace, exported),
        Asked::Compare(pair) => compare_logs(rt, workspace, pair),
        Asked::Describe(page) => describe(rt, workspace, page),
    }
}

/// Does what the words behind a verb ask for.
fn carry_out_verb<R, W, S>(
    rt: &R,
    workspace: &mut W,
    shelf: S,
    name: &str,
    words: &ArgMatches<'_>,
) -> Status
where
    R: Threads + Sync + Eprint + AllocGlobal,
    W: DraftTeller,
    S: Shelf + Drop,
    ensures { (before : Held) → W.held workspace.old ≡ Some before
        → DoesNamed (shelf_use S.told S.is_open S.faults S.mark shelf) (verb_named name.now)
        (rows_in words.now) result before (W.held workspace.new) }
{
    match Verb::named(name) {
        Some(verb) => carry_out(rt, workspace, shelf, &read_verb(verb, words)),
        None => Status::WordsRefused,
    }
}

/// Does what the words ask for in which this was found.
fn follow<R, W, S>(rt: &R, workspace: &mut W, shelf: S, found: &ArgMatches<'_>) -> Status
where
    R: Threads + Sync + Eprint + AllocGlobal,
    W: DraftTeller,
    S: Shelf + Drop,
    ensures { (before : Held) → W.held workspace.old ≡ Some before
        → DoesAny (shelf_use S.told S.is_open S.faults S.mark shelf)
        (subcommand_rows_of found.now) result before (W.held workspace.new) }
{
    match found.subcommand() {
        Some((name, behind)) => carry_out_verb(rt, workspace, shelf, name, behind),
        None => Status::WordsRefused,
    }
}

/// Tells help, or why words are refused, and answers the status.
fn tell_words<R: Print + Eprint>(rt: &R, error: &Error) -> Status
    ensures { IsErrorStatus (kind_of error.now) result }
{
    match (status_of_words(error), error.print(rt)) {
        (Status::Done, Err(unwritten)) => tell_unwritten(rt, output_name("-"), &unwritten),
        // Of words that are refused there is no other place to tell it.
        (status, _) => status,
    }
}

/// Does what the words ask for, of which the first is the program's name: reads and writes by the names in them in `workspace`, and takes
/// the files of a rehearsal from `shelf`.
pub fn groundkit<R, W, S>(rt: &R, workspace: &mut W, shelf: S, words: &[String]) -> Status
where
    R: Threads + Sync + Print + Eprint + AllocGlobal,
    W: DraftTeller,
    S: Shelf + Drop,
    ensures { (before : Held) → W.held workspace.old ≡ Some before
        → FollowsWords (shelf_use S.told S.is_open S.faults S.mark shelf)
        (map string_bytes words.now) result before (W.held workspace.new) }
{
    let Ok(command) = command(rt.alloc()) else {
        return tell_no_memory(rt);
    };
    match command.try_get_matches_from(words) {
        Ok(found) => follow(rt, workspace, shelf, &found),
        Err(error) => tell_words(rt, &error),
    }
}
