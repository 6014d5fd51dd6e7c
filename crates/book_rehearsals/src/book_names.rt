//! Which names are those of books, and from when scenarios count.

ghost use Rattle.std.specs.Prelude.{◌≡◌, ◌++◌, ◌∷◌, ℕ, List, Some, true, option_map, IfOk, IfSome};
ghost use Rattle.ground_files.specs.Workspaces.{Held};
ghost use Rattle.book_rehearsals.specs.Beginnings.{IsShort, SharesFirst, BeginsText, TakesMore, GivesBeginning, TellsBook, TellsEpoch};

use crate::epochs::epoch_of;
use ground_files::Workspace;
use ground_making::{MOST_BYTES, is_book};
use ground_runs::{Run, can_be_read_again};
use std::alloc::Global;
use std::io::{self, ErrorKind, Read};
use table_texts::next_line;

/// How many bytes are read at once.
const PIECE: usize = 4_096;

/// What stands in front of the last LF of a text; none where it has none.
fn whole_lines(text: &[u8]) -> Option<&[u8]>
    ensures { IfSome result (λ lines. (behind : List ℕ) × (text.now
        ≡ lines.now ++ 10 ∷ behind)) }
{
    let mut end = text.len();
    'bytes: while end > 0 {
        end -= 1;
        if text[end] == b'\n' {
            return Some(&text[..end]);
        }
    }
    None
}

/// Whether the first line of a text that says something stands in these bytes of it, with its LF.
fn has_first_line(front: &[u8]) -> bool
    ensures { result ≡ true → (more : List ℕ) → IsShort (front.now ++ more)
        → SharesFirst front.now (front.now ++ more) }
{
    if front.len() > MOST_BYTES {
        return true;
    }
    match whole_lines(front) {
        Some(lines) => next_line(lines, 1).is_some(),
        None => false,
    }
}

/// Reads the next bytes of a text behind those that were read, and answers whether there were any.
fn read_more<F: Read>(text: &mut F, front: &mut Vec<u8>) -> io::Result<bool>
    ensures { IfOk result (λ some. (rest : List ℕ) → F.remaining text.old ≡ Some rest
        → TakesMore (F.remaining text.new) front.old.items front.new.items some rest) }
{
    let mut piece = [0u8; PIECE];
    let count = text.read(&mut piece)?;
    match front.extend_from_slice(&piece[..count]) {
        Ok(()) => Ok(count > 0),
        Err(_) => Err(io::Error::from(ErrorKind::OutOfMemory)),
    }
}

/// Reads a text up to its first line that says something, or to its end. It looks at what was read whenever that is twice as long, so that
/// a long text of comments is looked at a few times alone.
fn read_beginning<F: Read>(alloc: Global, text: &mut F) -> io::Result<Vec<u8>>
    ensures { IfOk result (λ front. (whole : List ℕ) → F.remaining text.old ≡ Some whole
        → IsShort whole → BeginsText front.items whole) }
{
    let mut front = Vec::new(alloc);
    let mut enough = PIECE;
    'pieces: for _ in 0..u64::MAX {
        if !read_more(text, &mut front)? {
            return Ok(front);
        }
        if front.len() >= enough {
            if has_first_line(front.as_slice()) {
                return Ok(front);
            }
            enough = enough.saturating_mul(2);
        }
    }
    Err(io::Error::from(ErrorKind::FileTooLarge))
}

/// The beginning of a file, up to its first line that says something; none of what is no regular file, since it couldn't be read again.
fn beginning_of<W: Workspace>(
    alloc: Global,
    workspace: &mut W,
    run: &Run<'_>,
) -> io::Result<Option<Vec<u8>>>
    ensures held { W.held workspace.new ≡ W.held workspace.old }
    ensures beginning { IfOk result (λ front. (before : Held) → W.held workspace.old ≡ Some before
        → GivesBeginning run.now before (option_map (λ bytes. bytes.items) front)) }
{
    let path = run.scenario;
    if run.is_drill() || !can_be_read_again(workspace, path)? {
        return Ok(None);
    }
    let mut file = workspace.open(path)?;
    Ok(Some(read_beginning(alloc, &mut file)?))
}

/// Whether a rehearsal's scenario is the name of a book: of a file whose first line that says something begins with `book`. Only the
/// beginning of the file is read; of what is no regular file nothing is, since it couldn't be read again.
pub fn names_book<R: AllocGlobal, W: Workspace>(
    rt: &R,
    workspace: &mut W,
    run: &Run<'_>,
) -> io::Result<bool>
    ensures held { W.held workspace.new ≡ W.held workspace.old }
    ensures told { IfOk result (λ is. (before : Held) → W.held workspace.old ≡ Some before
        → TellsBook run.now before is) }
{
    match beginning_of(rt.alloc(), workspace, run)? {
        Some(front) => Ok(is_book(front.as_slice())),
        None => Ok(false),
    }
}

/// The time of frame 0 by which the lines of a rehearsal are told: that of the words, or else that of the scenario's file. None of what
/// is no regular file.
pub fn epoch_of_run<R: AllocGlobal, W: Workspace>(
    rt: &R,
    workspace: &mut W,
    run: &Run<'_>,
) -> io::Result<Option<u32>>
    ensures held { W.held workspace.new ≡ W.held workspace.old }
    ensures told { IfOk result (λ epoch. (before : Held) → W.held workspace.old ≡ Some before
        → TellsEpoch run.now.epoch run.now before epoch) }
{
    if run.epoch.is_some() {
        return Ok(run.epoch);
    }
    match beginning_of(rt.alloc(), workspace, run)? {
        Some(front) => Ok(epoch_of(front.as_slice())),
        None => Ok(None),
    }
}
