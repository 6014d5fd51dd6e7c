//! The verb that rehearses a book.

ghost use Rattle.std.specs.Prelude.{◌≡◌, ◌⊎◌, Some, IfOk, IfErr};
ghost use Rattle.ground_files.specs.Workspaces.{Held};
ghost use Rattle.ground_runs.specs.AskedWords.{front_of};
ghost use Rattle.ground_runs.specs.KeptLogs.{staged, EndsRun};
ghost use Rattle.ground_books.specs.Placed.{IsTextRefused};
ghost use Rattle.book_rehearsals.specs.LeftByBooks.{memory_use, ShelvesText, IsUnready, EndsBook};

use crate::book_causes::BookTeller;
use crate::epochs::epoch_of;
use crate::shelved_books::{ShelvedBook, shelve_book};
use ground_files::{Status, read_input, tell_no_memory, tell_unread};
use ground_making::{MOST_BYTES, Refusal, tell_refusal};
use ground_runs::{DraftTeller, Rehearsal, Run, add_file, run_rehearsal};
use ground_tools::ScenarioTeller;
use input_words::GivenFile;
use load_books::{Book, BookError, book_forms};
use rehearsal::Words;
use std::alloc::{AllocError, Global};
use std::thread::Threads;

/// A book on a shelf, and the words for its rehearsal.
#[derive(Drop)]
struct ReadyBook<'a> {
    shelved: ShelvedBook<'a>,
    words: Words,
}

/// The book that a text says on a shelf, whose names are put behind the words.
fn shelved<'a>(alloc: Global, text: &'a [u8], words: &mut Words) -> Result<ShelvedBook<'a>, Refusal>
    ensures shelved { IfOk result (λ shelved. ShelvesText text.now words.old shelved.shelf
        words.new) }
    ensures refused { IfErr result (λ refusal. (refusal ≡ Refusal.Memory)
        ⊎ IsTextRefused text.now) }
{
    if text.len() > MOST_BYTES {
        return Err(Refusal::Long);
    }
    match shelve_book(alloc, &book_forms(), text, words) {
        Ok(shelved) => Ok(shelved),
        Err(BookError::Memory(_)) => Err(Refusal::Memory),
        Err(BookError::Book(fault)) => Err(Refusal::Book(fault)),
    }
}

/// Tells why a book is refused, and answers the status: it is a refused file, unless memory ran out.
fn refuse_book<R: Eprint + AllocGlobal>(
    rt: &R,
    name: &str,
    text: &[u8],
    refusal: &Refusal,
) -> Status
    ensures { (refusal.now ≡ Refusal.Memory) ⊎ IsTextRefused text.now → IsUnready text.now result }
{
    let status = tell_refusal(rt, name, text, refusal);
    if let Refusal::Memory = refusal {
        return Status::NoMemory;
    }
    if status == Status::NoMemory {
        return Status::NoMemory;
    }
    Status::FileRefused
}

/// Puts the book that a text says on a shelf, and makes the words for its rehearsal; or tells why it doesn't, and answers the status.
fn ready_book<'a, R: Eprint + AllocGlobal>(
    rt: &R,
    run: &Run<'_>,
    text: &'a [u8],
) -> Result<ReadyBook<'a>, Status>
    ensures ready { IfOk result (λ ready. ShelvesText text.now
        (front_of run.now.workers run.now.has_subjects) ready.shelved.shelf ready.words) }
    ensures unready { IfErr result (IsUnready text.now) }
{
    let Ok(front) = run.front_words(rt.alloc()) else {
        return Err(tell_no_memory(rt));
    };
    let mut words = front;
    match shelved(rt.alloc(), text, &mut words) {
        Ok(shelved) => Ok(ReadyBook { shelved, words }),
        Err(refusal) => Err(refuse_book(rt, run.scenario, text, &refusal)),
    }
}

/// The files of a book, each by the name of its part.
fn given_parts(alloc: Global, book: &Book<'_>) -> Result<Vec<GivenFile>, AllocError> {
    let mut files = Vec::new(alloc);
    let mut kinds = Vec::new(alloc);
    for file in book.files.as_slice() {
        let bytes = file.bytes.as_slice();
        add_file(alloc, file.name, bytes, &mut kinds, &mut files)?;
    }
    Ok(files)
}

/// Who tells what the scenario of a book does, unless the words don't ask for it.
fn book_frames<'a>(
    alloc: Global,
    run: &Run<'_>,
    book: &'a Book<'_>,
) -> Result<Option<ScenarioTeller<&'a [u8]>>, AllocError> {
    if !run.tells_inputs {
        return Ok(None);
    }
    let files = given_parts(alloc, book)?;
    let scenario = book.scenario.as_slice();
    let teller = ScenarioTeller::open(alloc, scenario, run.epoch, files, !run.has_subjects)?;
    Ok(Some(teller))
}

/// Rehearses a book that is on a shelf, by the words for it; why that ended is told by the lines of its text.
fn rehearse_ready<R, W>(
    rt: &R,
    workspace: &mut W,
    run: &Run<'_>,
    text: &[u8],
    ready: ReadyBook<'_>,
) -> Status
where
    R: Threads + Sync + Eprint + AllocGlobal,
    W: DraftTeller,
    ensures { (before : Held) → W.held workspace.old ≡ Some before
        → EndsRun (staged ready.entry.words (memory_use ready.entry.shelved.shelf)) run.now
        result before (W.held workspace.new) }
{
    let ReadyBook { shelved, words } = ready;
    let ShelvedBook { book, shelf } = shelved;
    let scenario = book.scenario.as_slice();
    let mut timed = *run;
    timed.epoch = run.epoch.or(epoch_of(scenario));
    let teller = BookTeller {
        name: run.scenario,
        text,
        scenario,
    };
    let Ok(frames) = book_frames(rt.alloc(), &timed, &book) else {
        return tell_no_memory(rt);
    };
    let what = Rehearsal {
        words,
        shelf,
        teller,
        frames,
    };
    run_rehearsal(rt, workspace, &timed, what)
}

/// Rehearses the book that the words name in place of a scenario, with the files that it has. A book that is refused is told by its lines;
/// lines of the log are told in times from the epoch of the plan, where the words have none.
pub fn run_book<R, W>(rt: &R, workspace: &mut W, run: &Run<'_>) -> Status
where
    R: Threads + Sync + Eprint + AllocGlobal,
    W: DraftTeller,
    ensures { (before : Held) → W.held workspace.old ≡ Some before
        → EndsBook run.now result before (W.held workspace.new) }
{
    let name = run.scenario;
    if let Some(file) = run.files.first() {
        let _told = eprintln!(rt;
            "{name}: a book has its files in it, and `{file}` is taken for a FILE behind it (two words of an --allow are quoted, as --allow 'CS 101')"
        );
        return Status::WordsRefused;
    }
    let text = match read_input(rt.alloc(), workspace, name) {
        Ok(text) => text,
        Err(error) => return tell_unread(rt, name, &error),
    };
    let text = text.as_slice();
    match ready_book(rt, run, text) {
        Ok(ready) => rehearse_ready(rt, workspace, run, text, ready),
        Err(status) => status,
    }
}
