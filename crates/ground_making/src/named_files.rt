//! The file whose bytes the text of a load asks for.

ghost use Rattle.std.specs.Prelude.{◌≡◌, ◌≢◌, ◌≤◌, ◌<◌, ◌+◌, ◌^◌, ℕ, List, length, Some, IfOk, IfErr, string_bytes};
ghost use Rattle.fsw_outside.specs.Files.{file_named};
ghost use Rattle.ground_files.specs.declared.verb_status.Status.TheVariants as statuses;
ghost use Rattle.ground_files.specs.Verbs.{IsOver};
ghost use Rattle.ground_files.specs.Workspaces.{Held};
ghost use Rattle.load_texts.specs.Loaded.{file_asked, named_by};
ghost use Rattle.ground_making.specs.Causes.{IsCaused};
ghost use Rattle.ground_making.specs.Named.{path_beside, asked_bytes, IsTooLarge, IsUnloaded, AsksForUnloaded};
ghost use Rattle.ground_making.specs.MadeFiles.{asked_by, IsOverAsked};

use crate::made_files::Wanted;
use ground_faults::tell_line_ends;
use ground_files::{
    Status, Workspace, input_name, is_stream, replaces, tell_no_memory, tell_replaced,
};
use load_texts::{NamedFile, asked_file};
use std::alloc::{AllocError, Global};
use std::io::{self, Read};
use std::path::Path;
use std::str::from_utf8;

/// How many bytes can be loaded from a file.
const MOST_LOADED: usize = 65_536;

/// A path as a text names it: from the folder of the text on, and from the current one where the text is standard input.
fn path_beside(alloc: Global, text: &str, path: &str) -> Result<String, AllocError>
    ensures { IfOk result (λ joined. string_bytes joined ≡ path_beside text.now path.now) }
{
    if is_stream(text) {
        return String::from_str(alloc, path);
    }
    match Path::new(text).parent() {
        Some(folder) => Ok(folder.join(alloc, path)?.into_string()),
        None => String::from_str(alloc, path),
    }
}

/// The bytes of a reader, and of one that has more than can be loaded one byte more than can be.
#[tactic(auto, using(ground_files::proofs::ReadLemmas::all_read))]
fn read_few<F: Read + Drop>(alloc: Global, from: F) -> io::Result<Vec<u8>>
    ensures all { IfOk result (λ bytes. length bytes.items ≤ 65536 → (given : List ℕ)
        → F.remaining from ≡ Some given → bytes.items ≡ given) }
    ensures few { IfOk result (λ bytes. (given : List ℕ) → F.remaining from ≡ Some given
        → length bytes.items ≤ length given) }
{
    let mut bytes = Vec::new(alloc);
    let mut few = from.take(MOST_LOADED as u64 + 1);
    few.read_to_end(&mut bytes)?;
    Ok(bytes)
}

/// The bytes of a file, and of one that is too long to be loaded one byte more than can be.
fn read_named<W: Workspace>(alloc: Global, workspace: &mut W, path: &str) -> io::Result<Vec<u8>>
    ensures held { W.held workspace.new ≡ W.held workspace.old }
    ensures bytes { IfOk result (λ bytes. length bytes.items ≤ 65536 → (before : Held)
        → W.held workspace.old ≡ Some before
        → file_named before.files path.now ≡ Some bytes.items) }
    ensures large { IfOk result (λ bytes. 65536 < length bytes.items → (before : Held)
        → W.held workspace.old ≡ Some before → IsTooLarge path.now before.files) }
{
    read_few(alloc, workspace.open(path)?)
}

/// Reads a file that the line of a text asks for.
fn read_path<R: Eprint + AllocGlobal, W: Workspace>(
    rt: &R,
    workspace: &mut W,
    wanted: &Wanted<'_>,
    line: u32,
    path: &str,
) -> Result<Vec<u8>, Status>
    ensures held { W.held workspace.new ≡ W.held workspace.old }
    ensures bytes { IfOk result (λ bytes. (before : Held) → W.held workspace.old ≡ Some before
        → file_named before.files path.now ≡ Some bytes.items) }
    ensures undone { IfErr result (λ status. status ≢ statuses.Done) }
    ensures cause { IfErr result (λ status. (before : Held) → W.held workspace.old ≡ Some before
        → IsCaused (IsOver wanted.now.output.now path.now before)
        (IsTooLarge path.now before.files) status) }
{
    if replaces(workspace, wanted.output, path) {
        tell_replaced(rt, wanted.output);
        return Err(Status::WordsRefused);
    }
    let name = input_name(wanted.file);
    match read_named(rt.alloc(), workspace, path) {
        Ok(bytes) if bytes.len() <= MOST_LOADED => Ok(bytes),
        Ok(_) => {
            // There is no other place to tell it.
            let _told = eprintln!(rt;
                "{name}: line {line}: {path} has over {MOST_LOADED} bytes, and no more can be loaded"
            );
            Err(Status::FileRefused)
        }
        Err(error) => {
            let _told = eprintln!(rt; "{name}: line {line}: {path:?} can't be read: {error}");
            Err(Status::ReadFailed)
        }
    }
}

/// The bytes of the file that a line asks for, or the status, once it was told why there are none.
fn named_bytes<R: Eprint + AllocGlobal, W: Workspace>(
    rt: &R,
    workspace: &mut W,
    wanted: &Wanted<'_>,
    asked: &NamedFile<'_>,
) -> Result<Vec<u8>, Status>
    ensures held { W.held workspace.new ≡ W.held workspace.old }
    ensures bytes { IfOk result (λ bytes. (before : Held) → W.held workspace.old ≡ Some before
        → asked_bytes wanted.now.file.now before.files (Some (named_by asked.now))
        ≡ Some bytes.items) }
    ensures undone { IfErr result (λ status. status ≢ statuses.Done) }
    ensures cause { IfErr result (λ status. (before : Held) → W.held workspace.old ≡ Some before
        → IsCaused (IsOver wanted.now.output.now
        (path_beside wanted.now.file.now (named_by asked.now).path) before)
        (IsUnloaded wanted.now.file.now before.files (named_by asked.now)) status) }
{
    let line = asked.line;
    let Ok(path) = from_utf8(asked.path) else {
        let name = input_name(wanted.file);
        let _told = eprintln!(rt; "{name}: line {line}: the name of the file isn't UTF-8");
        return Err(Status::FileRefused);
    };
    match path_beside(rt.alloc(), wanted.file, path) {
        Ok(path) => read_path(rt, workspace, wanted, line, path.as_str()),
        Err(_) => Err(tell_no_memory(rt)),
    }
}

/// The bytes of the file that a text asks for, and none where it asks for no file; or the status, once it was told why there are none.
pub(crate) fn bytes_asked<R: Eprint + AllocGlobal, W: Workspace>(
    rt: &R,
    workspace: &mut W,
    wanted: &Wanted<'_>,
    text: &[u8],
) -> Result<Vec<u8>, Status>
    requires { 1 + length text.now < 2 ^ 32 }
    ensures held { W.held workspace.new ≡ W.held workspace.old }
    ensures bytes { IfOk result (λ bytes. (before : Held) → W.held workspace.old ≡ Some before
        → asked_bytes wanted.now.file.now before.files (file_asked text.now)
        ≡ Some bytes.items) }
    ensures undone { IfErr result (λ status. status ≢ statuses.Done) }
    ensures cause { IfErr result (λ status. (before : Held) → W.held workspace.old ≡ Some before
        → IsCaused (IsOverAsked (asked_by wanted.now) before text.now)
        (AsksForUnloaded wanted.now.file.now before.files text.now) status) }
{
    match asked_file(text) {
        Some(asked) => match named_bytes(rt, workspace, wanted, &asked) {
            Ok(bytes) => Ok(bytes),
            Err(status) => {
                tell_line_ends(rt, input_name(wanted.file), text);
                Err(status)
            }
        },
        None => Ok(Vec::new(rt.alloc())),
    }
}
