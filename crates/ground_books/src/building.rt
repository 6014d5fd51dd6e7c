//! The verb that writes the files of a book.

ghost use Rattle.std.specs.Prelude.{◌≡◌, ◌≢◌, ◌⊎◌, ◌<◌, ◌++◌, ◌∷◌, [], true, length, map, Some, option_map, OnOk, OnErr, IfOk, IfErr, string_bytes};
ghost use Rattle.std.specs.List.{AllByRecursion};
ghost use Rattle.ground_files.specs.declared.verb_status.Status.TheVariants as statuses;
ghost use Rattle.ground_files.specs.Workspaces.{Held, put_at};
ghost use Rattle.ground_making.specs.declared.making.Refusal.TheVariants as refusals;
ghost use Rattle.ground_making.specs.Causes.{IsCaused};
ghost use Rattle.ground_books.specs.Built.{built_seen, IsBuiltOf};
ghost use Rattle.ground_books.specs.Placed.{path_in, placed_in, written_as, IsDrafted, KeepsFilesOnly, put_all, PutsFirst, Puts, IsStreamAsked, IsOneOver, IsTextRefused, Builds};

use crate::book_files::{BuiltFile, built_files};
use ground_checks::warn_of_book;
use ground_files::{
    Status, Workspace, input_name, is_stream, read_input, replaces, tell_replaced, tell_unread,
    tell_unwritten,
};
use ground_making::{MOST_BYTES, Refusal, tell_refusal};
use load_books::book_forms;
use std::alloc::{AllocError, Global};
use std::io::{self, ErrorKind, Write};

/// What the verb that writes the files of a book is asked for.
#[derive(Clone, Copy, Drop)]
pub struct Build<'a> {
    /// The text of the book; `-` is standard input.
    pub book: &'a str,
    /// The folder that gets the files: the current one where none is named.
    pub folder: Option<&'a str>,
}

/// A file on its way to its place.
#[derive(Drop)]
struct Written<D: Drop> {
    path: String,
    bytes: Vec<u8>,
    draft: Option<D>,
}

/// Which file can't be written, and why.
#[derive(Drop)]
struct Unwritten {
    place: usize,
    error: io::Error,
}

/// The path of a file.
fn path_of(alloc: Global, folder: Option<&str>, name: &[u8]) -> io::Result<String>
    ensures { IfOk result (λ path. string_bytes path
        ≡ path_in (option_map (λ f. f.now) folder.entry) name.now) }
{
    let Ok(name) = std::str::from_utf8(name) else {
        return Err(io::Error::from(ErrorKind::InvalidInput));
    };
    match folder {
        Some(folder) if folder.as_bytes().ends_with(b"/") => {
            Ok(format!(in alloc; "{folder}{name}")?)
        }
        Some(folder) => Ok(format!(in alloc; "{folder}/{name}")?),
        None => Ok(String::from_str(alloc, name)?),
    }
}

/// Adds a file at its path, of which nothing is written yet.
fn add_placed<D: Drop>(
    alloc: Global,
    folder: Option<&str>,
    file: BuiltFile,
    out: &mut Vec<Written<D>>,
) -> io::Result<()>
    ensures { OnOk result (map written_as out.new.items ≡ map written_as out.old.items
        ++ placed_in (option_map (λ f. f.now) folder.entry) (built_seen file) ∷ []) }
{
    let BuiltFile { name, bytes } = file;
    let path = path_of(alloc, folder, name.as_slice())?;
    let draft = None;
    out.push(Written { path, bytes, draft })
        .map_err(AllocError::from)?;
    Ok(())
}

/// The files at their paths, of which nothing is written yet.
fn placed<D: Drop>(
    alloc: Global,
    folder: Option<&str>,
    files: Vec<BuiltFile>,
) -> io::Result<Vec<Written<D>>>
    ensures { IfOk result (λ out. map written_as out.items
        ≡ map (placed_in (option_map (λ f. f.now) folder.entry)) (map built_seen files.items)) }
{
    let mut out = Vec::new(alloc);
    for file in files {
        add_placed(alloc, folder, file, &mut out)?;
    }
    Ok(out)
}

/// Begins a file, and writes it as a draft.
fn write_draft<W: Workspace>(workspace: &mut W, file: &mut Written<W::Draft>) -> io::Result<()>
    ensures held { W.held workspace.new ≡ W.held workspace.old }
    ensures same { written_as file.new ≡ written_as file.old }
    ensures drafted { OnOk result ((before : Held) → W.held workspace.old ≡ Some before
        → IsDrafted W.Draft.contents file.new) }
{
    let mut draft = workspace.begin(file.path.as_str())?;
    let written = draft.write_all(file.bytes.as_slice());
    file.draft = Some(draft);
    written
}

/// Moves a file to its place.
fn keep_draft<W: Workspace>(workspace: &mut W, file: &mut Written<W::Draft>) -> io::Result<()>
    ensures put { OnOk result (IsDrafted W.Draft.contents file.old → W.held workspace.new
        ≡ option_map (put_at (written_as file.old).name (written_as file.old).bytes)
        (W.held workspace.old)) }
    ensures kept { OnErr result (KeepsFilesOnly (W.held workspace.old) (W.held workspace.new)) }
{
    match file.draft.take() {
        Some(draft) => workspace.settle(file.path.as_str(), draft, true),
        None => Ok(()),
    }
}

/// Leaves nothing of a file that wasn't moved to its place.
fn drop_draft<W: Workspace>(workspace: &mut W, file: &mut Written<W::Draft>)
    ensures { KeepsFilesOnly (W.held workspace.old) (W.held workspace.new) }
{
    if let Some(draft) = file.draft.take() {
        let _dropped = workspace.settle(file.path.as_str(), draft, false);
    }
}

/// Writes files as drafts, in their order.
fn write_drafts<W: Workspace>(
    workspace: &mut W,
    files: &mut [Written<W::Draft>],
) -> Result<(), Unwritten>
    ensures held { W.held workspace.new ≡ W.held workspace.old }
    ensures same { map written_as files.new ≡ map written_as files.old }
    ensures drafted { OnOk result ((before : Held) → W.held workspace.old ≡ Some before
        → AllByRecursion (IsDrafted W.Draft.contents) files.new) }
    ensures place { IfErr result (λ unwritten. unwritten.place < length files.new) }
{
    'files: for place in 0..files.len() {
        match write_draft(workspace, &mut files[place]) {
            Ok(()) => {}
            Err(error) => return Err(Unwritten { place, error }),
        }
    }
    Ok(())
}

/// Moves files to their places, in their order.
fn keep_drafts<W: Workspace>(
    workspace: &mut W,
    files: &mut [Written<W::Draft>],
) -> Result<(), Unwritten>
    ensures put { OnOk result ((before : Held) → W.held workspace.old ≡ Some before
        → AllByRecursion (IsDrafted W.Draft.contents) files.old
        → W.held workspace.new ≡ Some (put_all (map written_as files.old) before)) }
    ensures some { OnErr result ((before : Held) → W.held workspace.old ≡ Some before
        → AllByRecursion (IsDrafted W.Draft.contents) files.old
        → PutsFirst (map written_as files.old) before (W.held workspace.new)) }
    ensures place { IfErr result (λ unwritten. unwritten.place < length files.new) }
{
    'files: for place in 0..files.len() {
        match keep_draft(workspace, &mut files[place]) {
            Ok(()) => {}
            Err(error) => return Err(Unwritten { place, error }),
        }
    }
    Ok(())
}

/// Leaves nothing of files that weren't moved to their places.
fn drop_drafts<W: Workspace>(workspace: &mut W, files: &mut [Written<W::Draft>])
    ensures { KeepsFilesOnly (W.held workspace.old) (W.held workspace.new) }
{
    'files: for file in files.iter_mut() {
        drop_draft(workspace, file);
    }
}

/// Leaves nothing of the files that aren't at their places, tells which one can't be written, and answers the status.
fn give_up<R: Eprint, W: Workspace>(
    rt: &R,
    workspace: &mut W,
    files: &mut [Written<W::Draft>],
    unwritten: &Unwritten,
) -> Status
    requires { unwritten.now.place < length files.old }
    ensures status { result ≡ statuses.WriteFailed }
    ensures kept { KeepsFilesOnly (W.held workspace.old) (W.held workspace.new) }
{
    drop_drafts(workspace, files);
    tell_unwritten(rt, files[unwritten.place].path.as_str(), &unwritten.error)
}

/// Moves files that are written as drafts to their places, and answers the status.
fn keep_files<R: Eprint, W: Workspace>(
    rt: &R,
    workspace: &mut W,
    files: &mut [Written<W::Draft>],
) -> Status
    ensures puts { (before : Held) → W.held workspace.old ≡ Some before
        → AllByRecursion (IsDrafted W.Draft.contents) files.old
        → Puts (map written_as files.old) result before (W.held workspace.new) }
    ensures status { (result ≡ statuses.Done) ⊎ (result ≡ statuses.WriteFailed) }
{
    match keep_drafts(workspace, files) {
        Ok(()) => Status::Done,
        Err(unwritten) => give_up(rt, workspace, files, &unwritten),
    }
}

/// Writes files as drafts, and moves them to their places once all are whole.
fn write_files<R: Eprint, W: Workspace>(
    rt: &R,
    workspace: &mut W,
    files: &mut [Written<W::Draft>],
) -> Status
    ensures puts { (before : Held) → W.held workspace.old ≡ Some before
        → Puts (map written_as files.old) result before (W.held workspace.new) }
    ensures status { (result ≡ statuses.Done) ⊎ (result ≡ statuses.WriteFailed) }
{
    match write_drafts(workspace, files) {
        Ok(()) => keep_files(rt, workspace, files),
        Err(unwritten) => give_up(rt, workspace, files, &unwritten),
    }
}

/// Whether one of the files is the book; then that is told.
fn replaces_book<R: Eprint, W: Workspace>(
    rt: &R,
    workspace: &W,
    book: &str,
    files: &[Written<W::Draft>],
) -> bool
    ensures { result ≡ true → (now : Held) → W.held workspace.now ≡ Some now
        → IsOneOver book.now now (map written_as files.now) }
{
    for file in files {
        let path = file.path.as_str();
        if replaces(workspace, path, book) {
            tell_replaced(rt, path);
            return true;
        }
    }
    false
}

/// Tells why a folder can't be made, and answers the status.
fn tell_unmade<R: Eprint>(rt: &R, folder: &str, error: &io::Error) -> Status
    ensures { result ≡ statuses.WriteFailed }
{
    if error.kind() == ErrorKind::AlreadyExists {
        let _told = eprintln!(rt;
            "{folder}: it is a file, and -o wants a folder: a book gives several files"
        );
        return Status::WriteFailed;
    }
    tell_unwritten(rt, folder, error)
}

/// Makes the folder where it isn't there, and writes the files into it.
fn fill_folder<R: Eprint + AllocGlobal, W: Workspace>(
    rt: &R,
    workspace: &mut W,
    build: &Build<'_>,
    files: Vec<BuiltFile>,
) -> Status
    ensures puts { (before : Held) → W.held workspace.old ≡ Some before
        → Puts (map (placed_in (option_map (λ f. f.now) build.now.folder))
        (map built_seen files.items)) result before (W.held workspace.new) }
    ensures cause { (before : Held) → W.held workspace.old ≡ Some before
        → IsCaused (IsOneOver build.now.book.now before
        (map (placed_in (option_map (λ f. f.now) build.now.folder)) (map built_seen files.items)))
        ⊥ result }
{
    let folder = build.folder.unwrap_or(".");
    if folder.is_empty() {
        let _told = eprintln!(rt; "-o wants a folder, and its name is empty");
        return Status::WriteFailed;
    }
    let mut files = match placed(rt.alloc(), build.folder, files) {
        Ok(files) => files,
        Err(error) => return tell_unwritten(rt, folder, &error),
    };
    if replaces_book(rt, workspace, build.book, files.as_slice()) {
        return Status::WordsRefused;
    }
    match workspace.make_folder(folder) {
        Ok(()) => write_files(rt, workspace, files.as_mut_slice()),
        Err(error) => tell_unmade(rt, folder, &error),
    }
}

/// The files of a book's text.
fn built(alloc: Global, text: &[u8]) -> Result<Vec<BuiltFile>, Refusal>
    ensures built { IfOk result (λ files. IsBuiltOf text.now (map built_seen files.items)) }
    ensures refused { IfErr result (λ refusal. refusal ≢ refusals.Memory
        → IsTextRefused text.now) }
{
    if text.len() > MOST_BYTES {
        return Err(Refusal::Long);
    }
    match built_files(alloc, &book_forms(), text) {
        Ok(files) => Ok(files),
        Err(error) => Err(Refusal::from(error)),
    }
}

/// Tells what is odd in the tables of a book, and then writes its files.
fn write_book<R: Eprint + AllocGlobal, W: Workspace>(
    rt: &R,
    workspace: &mut W,
    build: &Build<'_>,
    text: &[u8],
    files: Vec<BuiltFile>,
) -> Status
    ensures puts { (before : Held) → W.held workspace.old ≡ Some before
        → Puts (map (placed_in (option_map (λ f. f.now) build.now.folder))
        (map built_seen files.items)) result before (W.held workspace.new) }
    ensures cause { (before : Held) → W.held workspace.old ≡ Some before
        → IsCaused (IsOneOver build.now.book.now before
        (map (placed_in (option_map (λ f. f.now) build.now.folder)) (map built_seen files.items)))
        ⊥ result }
{
    match warn_of_book(rt, input_name(build.book), text) {
        Status::Done => fill_folder(rt, workspace, build, files),
        status => status,
    }
}

/// Whether a stream is asked for in the place of a folder.
fn is_stream_asked(folder: Option<&str>) -> bool
    ensures { result ≡ true
        → IsStreamAsked (option_map (λ f. f.now) folder.entry) }
{
    match folder {
        Some(folder) => is_stream(folder),
        None => false,
    }
}

/// Writes the files of a book into a folder, which is made where it isn't there: `NAME.table` and `NAME.load` for its parts,
/// `BOOKNAME.scenario` and `BOOKNAME.manifest`; and tells what is odd in its tables, which changes no status. Where the book is refused, or
/// one of the files would be written over it, none is written. All are written as drafts before the first is moved to its place.
pub fn build_book<R: Eprint + AllocGlobal, W: Workspace>(
    rt: &R,
    workspace: &mut W,
    build: &Build<'_>,
) -> Status
    ensures { (before : Held) → W.held workspace.old ≡ Some before
        → Builds build.now result before (W.held workspace.new) }
{
    let name = input_name(build.book);
    if is_stream_asked(build.folder) {
        let _told = eprintln!(rt; "-o wants a folder: a book gives several files");
        return Status::WordsRefused;
    }
    let text = match read_input(rt.alloc(), workspace, build.book) {
        Ok(text) => text,
        Err(error) => return tell_unread(rt, name, &error),
    };
    match built(rt.alloc(), text.as_slice()) {
        Ok(files) => write_book(rt, workspace, build, text.as_slice(), files),
        Err(refusal) => tell_refusal(rt, name, text.as_slice(), &refusal),
    }
}
