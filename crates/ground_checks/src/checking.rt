//! The verb that looks at files.

ghost use Rattle.std.specs.Prelude.{◌≡◌, ◌≢◌, ◌⊎◌, ◌+◌, ◌<◌, ◌≤◌, true, false, length, Some, None, option_map, IfOk};
ghost use Rattle.ground_files.specs.declared.verb_status.Status.TheVariants as statuses;
ghost use Rattle.ground_files.specs.Workspaces.{Held, KeepsFiles, input_taken, input_bytes};
ghost use Rattle.ground_files.specs.Verbs.{KeepsAllFiles};
ghost use Rattle.load_books.specs.Books.{is_book_text};
ghost use Rattle.ground_checks.specs.Faults.{fault_of};
ghost use Rattle.ground_checks.specs.Checked.{names_of, IsTaken, IsInputRefused, IsBookRead, is_of_files, Looked, Checked, ChecksFiles};

use crate::book_checks::{is_book, tell_book_file};
use crate::file_checks::tell_file;
use crate::file_order::{Holding, SeenFile, tell_order, warn_of_place};
use crate::map_files::read_map;
use crate::map_words::tell_regions;
use crate::scenario_names::{Known, known_names};
use ground_files::{
    Status, Workspace, input_name, is_stream, output_name, read_input, tell_no_memory, tell_unread,
    tell_unwritten,
};
use ground_runs::table_name;
use memory_window::Map;
use packet_forms::Name;
use std::alloc::{AllocError, Global};
use std::io;
use table_files::{FileImage, read_file};

/// The name of standard output.
const STREAM: &str = "-";

/// How many files the program takes beside a scenario.
const MOST_FILES: usize = 100;

/// What a file holds, as far as its headers say it.
fn holding_of(file: &[u8]) -> Holding {
    match read_file(file) {
        Ok(FileImage::Table { kind, payload: _ }) => Holding::Table(kind),
        Ok(FileImage::Load { at: _, bytes: _ }) => Holding::Load,
        Err(_) => Holding::Unknown,
    }
}

/// The path behind symbolic links, where there is a file.
fn path_of_file<W: Workspace>(
    alloc: Global,
    workspace: &W,
    path: &str,
) -> Result<String, AllocError> {
    if is_stream(path) {
        return String::from_str(alloc, path);
    }
    workspace.real_path(path)
}

/// A file that was looked at, by its path for people and the path behind symbolic links.
pub(crate) fn seen_at<'a>(
    alloc: Global,
    path: &'a str,
    place: String,
    file: &[u8],
    is_taken: bool,
) -> Result<SeenFile<'a>, AllocError> {
    let holding = holding_of(file);
    let name = String::from_str(alloc, table_name(file))?;
    Ok(SeenFile {
        path,
        place,
        holding,
        name,
        is_taken,
    })
}

/// A file that was looked at.
pub(crate) fn seen_file<'a, W: Workspace>(
    alloc: Global,
    workspace: &W,
    path: &'a str,
    file: &[u8],
    is_taken: bool,
) -> Result<SeenFile<'a>, AllocError> {
    let place = path_of_file(alloc, workspace, path)?;
    seen_at(alloc, input_name(path), place, file, is_taken)
}

/// The number of the place of the first of these paths that is this one.
fn place_of(paths: &[String], path: &str) -> Option<usize> {
    for place in 0..paths.len() {
        if paths[place].as_str() == path {
            return Some(place);
        }
    }
    None
}

/// Warns of a file that is given already, and as what, where that is another path.
fn warn_of_repeat<R: Eprint>(rt: &R, path: &str, earlier: &str) {
    // There is no other place to tell it.
    let _told = if earlier == path {
        eprintln!(rt; "{path}: warning: this file is given already")
    } else {
        eprintln!(rt; "{path}: warning: this file is given already, as {earlier}")
    };
}

/// Warns of each file that is given again, under the same path or another.
pub(crate) fn warn_of_repeats<R: Eprint + AllocGlobal, W: Workspace>(
    rt: &R,
    workspace: &W,
    files: &[&str],
) -> Result<(), AllocError> {
    let mut places: Vec<String> = Vec::new(rt.alloc());
    'files: for path in files {
        let place = path_of_file(rt.alloc(), workspace, path)?;
        if let Some(at) = place_of(places.as_slice(), place.as_str()) {
            if let Some(earlier) = files.get(at) {
                warn_of_repeat(rt, input_name(path), input_name(earlier));
            }
        }
        places.push(place)?;
    }
    Ok(())
}

/// What `check` is asked for.
#[derive(Clone, Copy, Drop)]
pub struct Check<'a> {
    /// Files of tables, files to be loaded, and books; `-` is standard input.
    pub files: &'a [&'a str],
    /// The scenario, plan or book whose map of memory is asked, too.
    pub map: Option<&'a str>,
}

/// Puts a file behind those that were looked at, and warns of its place where it is taken.
fn add_seen<'a, R: Eprint + AllocGlobal, W: Workspace>(
    rt: &R,
    workspace: &W,
    path: &'a str,
    bytes: &[u8],
    is_taken: bool,
    seen: &mut Vec<SeenFile<'a>>,
) -> Result<(), AllocError>
    ensures { length seen.new.items ≤ length seen.old.items + 1 }
{
    let file = seen_file(rt.alloc(), workspace, path, bytes, is_taken)?;
    if is_taken {
        warn_of_place(rt, file.path, seen.as_slice(), &file);
    }
    seen.push(file)?;
    Ok(())
}

/// Looks at the bytes of a file as the program does, and then at its place behind others. A book has none: its files are in it.
fn check_bytes<'a, R: Eprint + AllocGlobal, W: Workspace>(
    rt: &R,
    workspace: &W,
    map: Option<&Map>,
    names: Option<&[Name]>,
    path: &'a str,
    bytes: &[u8],
    seen: &mut Vec<SeenFile<'a>>,
) -> Result<Status, AllocError>
    ensures taken { IfOk result (λ status. status ≡ statuses.Done → is_book_text bytes.now ≡ false
        → fault_of (option_map (λ known. known.now) map.entry) bytes.now ≡ None) }
    ensures refused { IfOk result (λ status. status ≡ statuses.FileRefused
        → is_book_text bytes.now ≡ false
        → fault_of (option_map (λ known. known.now) map.entry) bytes.now ≢ None) }
    ensures words { IfOk result (λ status. status ≡ statuses.WordsRefused
        → is_book_text bytes.now ≡ true) }
    ensures status { IfOk result (λ status. is_of_files status ≡ true) }
    ensures seen { length seen.new.items ≤ length seen.old.items + 1 }
{
    let name = input_name(path);
    if is_book(bytes) {
        return Ok(tell_book_file(rt, name, bytes));
    }
    let status = tell_file(rt, map, names, name, None, bytes);
    add_seen(rt, workspace, path, bytes, status == Status::Done, seen)?;
    Ok(status)
}

/// Looks at a file, and then at its place behind others. One that can't be read isn't taken.
fn check_file<'a, R: Eprint + AllocGlobal, W: Workspace>(
    rt: &R,
    workspace: &mut W,
    map: Option<&Map>,
    names: Option<&[Name]>,
    path: &'a str,
    seen: &mut Vec<SeenFile<'a>>,
) -> Result<Status, AllocError>
    ensures held { W.held workspace.new ≡ option_map (input_taken path.now)
        (W.held workspace.old) }
    ensures taken { IfOk result (λ status. status ≡ statuses.Done
        → (before : Held) → W.held workspace.old ≡ Some before
        → IsTaken (option_map (λ known. known.now) map.entry) (input_bytes path.now before)) }
    ensures refused { IfOk result (λ status. status ≡ statuses.FileRefused
        → (before : Held) → W.held workspace.old ≡ Some before
        → IsInputRefused (option_map (λ known. known.now) map.entry) (input_bytes path.now before)) }
    ensures words { IfOk result (λ status. status ≡ statuses.WordsRefused
        → (before : Held) → W.held workspace.old ≡ Some before
        → IsBookRead (input_bytes path.now before)) }
    ensures status { IfOk result (λ status. is_of_files status ≡ true) }
    ensures seen { length seen.new.items ≤ length seen.old.items + 1 }
{
    match read_input(rt.alloc(), workspace, path) {
        Ok(bytes) => check_bytes(rt, workspace, map, names, path, bytes.as_slice(), seen),
        Err(error) => {
            let status = tell_unread(rt, input_name(path), &error);
            add_seen(rt, workspace, path, &[], false, seen)?;
            Ok(status)
        }
    }
}

/// Tells that files are more than the program takes, where they are, and answers the status.
pub(crate) fn tell_count<R: Eprint>(rt: &R, title: &str, count: usize) -> Status
    ensures { (result ≡ statuses.Done) ⊎ ((result ≡ statuses.WordsRefused) × (100 < count)) }
{
    if count <= MOST_FILES {
        return Status::Done;
    }
    // There is no other place to tell it.
    let _told = eprintln!(rt; "{title}: {count} files, and vigil takes at most {MOST_FILES}");
    Status::WordsRefused
}

/// The first of two statuses that isn't `Done`.
pub(crate) fn earlier(one: Status, other: Status) -> Status
    ensures done { one ≡ statuses.Done → result ≡ other }
    ensures first { one ≢ statuses.Done → result ≡ one }
{
    if one == Status::Done { other } else { one }
}

/// Writes the order of the files to standard output.
#[tactic(auto, using(crate::proofs::CheckedLemmas::stream_put, crate::proofs::CheckedLemmas::stream_dropped))]
fn put_order<W: Workspace>(workspace: &mut W, seen: &[SeenFile<'_>]) -> io::Result<()>
    ensures { (before : Held) → W.held workspace.old ≡ Some before
        → KeepsFiles (Some before) (W.held workspace.new) }
{
    let mut draft = workspace.begin(STREAM)?;
    match tell_order(&mut draft, seen) {
        Ok(()) => workspace.settle(STREAM, draft, true),
        Err(error) => {
            let _dropped = workspace.settle(STREAM, draft, false);
            Err(error)
        }
    }
}

/// Writes the regions of a map to standard output.
#[tactic(auto, using(crate::proofs::CheckedLemmas::stream_put, crate::proofs::CheckedLemmas::stream_dropped))]
fn put_regions<W: Workspace>(workspace: &mut W, name: &str, map: &Map) -> io::Result<()>
    ensures { (before : Held) → W.held workspace.old ≡ Some before
        → KeepsFiles (Some before) (W.held workspace.new) }
{
    let mut draft = workspace.begin(STREAM)?;
    match tell_regions(&mut draft, name, map) {
        Ok(()) => workspace.settle(STREAM, draft, true),
        Err(error) => {
            let _dropped = workspace.settle(STREAM, draft, false);
            Err(error)
        }
    }
}

/// Tells the order of the files, and answers the status.
fn end_check<R: Eprint, W: Workspace>(
    rt: &R,
    workspace: &mut W,
    seen: &[SeenFile<'_>],
    status: Status,
) -> Status
    ensures done { result ≡ statuses.Done → status ≡ statuses.Done }
    ensures refused { result ≡ statuses.FileRefused → status ≡ statuses.FileRefused }
    ensures words { result ≡ statuses.WordsRefused → (status ≡ statuses.WordsRefused)
        ⊎ (100 < length seen.now) }
    ensures earlier { is_of_files result ≡ false → status ≡ result }
    ensures kept { (before : Held) → W.held workspace.old ≡ Some before
        → KeepsAllFiles before (W.held workspace.new) }
{
    let status = earlier(status, tell_count(rt, "the FILEs", seen.len()));
    match put_order(workspace, seen) {
        Ok(()) => status,
        Err(error) => earlier(status, tell_unwritten(rt, output_name(STREAM), &error)),
    }
}

/// Looks at files in their order, all of them. The first status that isn't `Done` stands, from this one on.
fn look_at_files<'a, R: Eprint + AllocGlobal, W: Workspace>(
    rt: &R,
    workspace: &mut W,
    map: Option<&Map>,
    names: Option<&[Name]>,
    files: &[&'a str],
    first: Status,
    seen: &mut Vec<SeenFile<'a>>,
) -> Result<Status, AllocError>
    ensures kept { (before : Held) → W.held workspace.old ≡ Some before
        → KeepsAllFiles before (W.held workspace.new) }
    ensures looked { IfOk result (λ status. (before : Held) → W.held workspace.old ≡ Some before
        → Looked (option_map (λ known. known.now) map.entry) first status (names_of files.now)
        before (W.held workspace.new)) }
    ensures seen { IfOk result (λ status. length seen.new.items ≤ length seen.old.items
        + length files.now) }
{
    let mut status = first;
    'files: for file in files {
        let one = check_file(rt, workspace, map, names, file, seen)?;
        status = earlier(status, one);
    }
    Ok(status)
}

/// Looks at files in their order, all of them, and tells this order at the end. The first status that isn't `Done` stands, from this one on.
fn check_all<R: Eprint + AllocGlobal, W: Workspace>(
    rt: &R,
    workspace: &mut W,
    map: Option<&Map>,
    names: Option<&[Name]>,
    files: &[&str],
    first: Status,
) -> Status
    ensures { (before : Held) → W.held workspace.old ≡ Some before
        → Checked (option_map (λ known. known.now) map.entry) first (names_of files.now) result
        before (W.held workspace.new) }
{
    if warn_of_repeats(rt, workspace, files).is_err() {
        return tell_no_memory(rt);
    }
    let mut seen = Vec::new(rt.alloc());
    match look_at_files(rt, workspace, map, names, files, first, &mut seen) {
        Ok(status) => end_check(rt, workspace, seen.as_slice(), status),
        Err(_) => tell_no_memory(rt),
    }
}

/// Tells the regions of a map, and answers the status.
fn tell_map<R: Eprint, W: Workspace>(rt: &R, workspace: &mut W, name: &str, map: &Map) -> Status
    ensures status { (result ≡ statuses.Done) ⊎ (result ≡ statuses.WriteFailed) }
    ensures kept { (before : Held) → W.held workspace.old ≡ Some before
        → KeepsFiles (Some before) (W.held workspace.new) }
{
    match put_regions(workspace, name, map) {
        Ok(()) => Status::Done,
        Err(error) => tell_unwritten(rt, output_name(STREAM), &error),
    }
}

/// Looks at files with what a scenario says; the regions of its map are told before the order of the files.
fn check_with<R: Eprint + AllocGlobal, W: Workspace>(
    rt: &R,
    workspace: &mut W,
    name: &str,
    known: &Known,
    files: &[&str],
) -> Status
    ensures { (before : Held) → W.held workspace.old ≡ Some before
        → Checked (Some known.now.map) statuses.Done (names_of files.now) result
        before (W.held workspace.new) }
{
    let first = tell_map(rt, workspace, name, &known.map);
    let names = known_names(known);
    check_all(rt, workspace, Some(&known.map), names, files, first)
}

/// Looks at files in their order, all of them, and tells this order at the end. The first status that isn't `Done` stands. Where the map of
/// memory can't be read, the files are looked at without it.
pub fn check_files<R: Eprint + AllocGlobal, W: Workspace>(
    rt: &R,
    workspace: &mut W,
    check: &Check<'_>,
) -> Status
    ensures { (before : Held) → W.held workspace.old ≡ Some before
        → ChecksFiles check.now result before (W.held workspace.new) }
{
    match check.map {
        Some(path) => match read_map(rt, workspace, path) {
            Ok(known) => check_with(rt, workspace, input_name(path), &known, check.files),
            Err(status) => check_all(rt, workspace, None, None, check.files, status),
        },
        None => check_all(rt, workspace, None, None, check.files, Status::Done),
    }
}
