//! Reading the FILEs one after another, and taking them in.

ghost use Rattle.std.specs.Prelude.{◌≡◌, ◌≢◌, ◌+◌, ◌<◌, ◌≤◌, [], length, Some, IsTrue, IfOk, IfErr, OnOk, MatchResult, OnErr};
ghost use Rattle.fsw_outside.specs.Told.{WhereTold};
ghost use Rattle.fsw_outside.specs.Files.{file_named};
ghost use Rattle.rehearsal.specs.Files.{IsSameOpening, OpensOnce, AsksFor, Appends, IsUnread, IsUnreadFile, UnreadCause, Takes, StopCause, AreTaken, stop_report, EndsAtFile, EndCause};

use crate::report::{Report, Status};
use crate::text::PIECE;
use crate::words::Words;
use fsw_outside::Shelf;
use std::alloc::Global;
use table_files::{AddFault, Files};

/// How many bytes a file may have.
const MOST_BYTES: usize = 65_700;

/// The reason of a file that has more (docs/FILES.md).
const TOO_LONG: u8 = 9;

/// Why a file wasn't read whole.
#[derive(Clone, Copy, Debug, PartialEq, Eq)]
pub enum Unread {
    /// The shelf failed.
    Failed,
    /// The file has over 65,700 bytes.
    TooLong,
    /// Memory ran out.
    NoMemory,
}

/// Appends the next bytes of the open file, as many as fill the piece at most, and says how many; none at the file's end.
fn append_piece<S: Shelf>(
    shelf: &mut S,
    piece: &mut [u8],
    bytes: &mut Vec<u8>,
) -> Result<usize, Unread>
    requires opened { IsTrue (S.is_open shelf.old) }
    requires some { 0 < length piece.old }
    requires room { length bytes.old.items + length piece.old ≤ 65701 }
    ensures content { WhereTold (S.told shelf.old) (S.told shelf.new) (λ before after.
        IsSameOpening before after
        × MatchResult result (λ count.
        Appends count bytes.old.items bytes.new.items before after) (λ why.
        why ≡ Unread.Failed → after.rest ≡ before.rest)) }
    ensures grown { IfOk result (λ count. length bytes.new.items ≡ length bytes.old.items + count) }
    ensures few { IfOk result (λ count. length bytes.new.items ≤ 65701) }
    ensures well { OnOk result (S.faults shelf.new ≡ S.faults shelf.old) }
    ensures cause { IfErr result
        (UnreadCause (S.told shelf.new) (S.faults shelf.old) (S.faults shelf.new)) }
    ensures short { IfErr result (λ why. why ≢ Unread.TooLong) }
    ensures is_open { IsTrue (S.is_open shelf.new) }
    ensures mark { S.mark shelf.new ≡ S.mark shelf.old }
{
    let Ok(count) = shelf.next(piece) else {
        return Err(Unread::Failed);
    };
    let Ok(()) = bytes.extend_from_slice(&piece[..count]) else {
        return Err(Unread::NoMemory);
    };
    Ok(count)
}

/// Reads the open file to its end, or to its 65,701st byte.
fn read_rest<S: Shelf>(shelf: &mut S, bytes: &mut Vec<u8>) -> Result<(), Unread>
    requires opened { IsTrue (S.is_open shelf.old) }
    requires empty { bytes.old.items ≡ [] }
    ensures content { WhereTold (S.told shelf.old) (S.told shelf.new) (λ before after.
        IsSameOpening before after
        × MatchResult result (λ _. (before.rest ≡ bytes.new.items) × (after.rest ≡ [])) (λ why.
        IsUnread why before.rest after.rest)) }
    ensures small { OnOk result (length bytes.new.items ≤ 65700) }
    ensures well { OnOk result (S.faults shelf.new ≡ S.faults shelf.old) }
    ensures cause { IfErr result
        (UnreadCause (S.told shelf.new) (S.faults shelf.old) (S.faults shelf.new)) }
    ensures is_open { IsTrue (S.is_open shelf.new) }
    ensures mark { S.mark shelf.new ≡ S.mark shelf.old }
{
    let mut piece = [0; PIECE];
    'pieces: while bytes.len() <= MOST_BYTES {
        let room = PIECE.min(MOST_BYTES + 1 - bytes.len());
        match append_piece(shelf, &mut piece[..room], bytes) {
            Err(why) => return Err(why),
            Ok(count) => {
                if count == 0 {
                    return Ok(());
                }
            }
        }
    }
    Err(Unread::TooLong)
}

/// Reads the file of this name whole, where it has at most 65,700 bytes.
fn read_file<S: Shelf>(alloc: Global, shelf: &mut S, name: &str) -> Result<Vec<u8>, Unread>
    ensures content { WhereTold (S.told shelf.old) (S.told shelf.new) (λ before after.
        OpensOnce name.now before after
        × MatchResult result (λ bytes. (file_named before.files name.now ≡ Some bytes.items)
        × (after.rest ≡ [])) (λ why.
        IsUnreadFile why (S.is_open shelf.new) (file_named before.files name.now) after.rest)) }
    ensures small { IfOk result (λ bytes. length bytes.items ≤ 65700) }
    ensures well { OnOk result (S.faults shelf.new ≡ S.faults shelf.old) }
    ensures cause { IfErr result
        (UnreadCause (S.told shelf.new) (S.faults shelf.old) (S.faults shelf.new)) }
    ensures is_open { IfErr result (λ why. why ≢ Unread.Failed → IsTrue (S.is_open shelf.new)) }
    ensures opened { OnOk result (IsTrue (S.is_open shelf.new)) }
    ensures mark { S.mark shelf.new ≡ S.faults shelf.old }
{
    let Ok(()) = shelf.open(name) else {
        return Err(Unread::Failed);
    };
    let mut bytes = Vec::new(alloc);
    match read_rest(shelf, &mut bytes) {
        Ok(()) => Ok(bytes),
        Err(why) => Err(why),
    }
}

/// Why a FILE isn't taken.
#[derive(Clone, Copy, Debug, PartialEq, Eq)]
pub enum Stop {
    /// The shelf failed on it.
    Failed,
    /// It is refused, for this reason.
    Refused { reason: u8 },
    /// Memory ran out.
    NoMemory,
}

/// Reads the file of this name, and adds it to the files.
#[tactic(auto, unfolding(crate::specs::Files::refusal_of))]
fn take_file<S: Shelf>(
    alloc: Global,
    shelf: &mut S,
    name: &str,
    files: &mut Files,
) -> Result<(), Stop>
    requires room { length files.old < 100 }
    ensures content { WhereTold (S.told shelf.old) (S.told shelf.new) (λ before after.
        OpensOnce name.now before after
        × Takes result (S.is_open shelf.new)
        (file_named before.files name.now) after.rest files.old files.new) }
    ensures grown { OnOk result (length files.new ≡ length files.old + 1) }
    ensures same { OnErr result (files.new ≡ files.old) }
    ensures well { OnOk result (S.faults shelf.new ≡ S.faults shelf.old) }
    ensures cause { IfErr result
        (StopCause (S.told shelf.new) (S.faults shelf.old) (S.faults shelf.new)) }
    ensures is_open { IfErr result (λ why. why ≢ Stop.Failed → IsTrue (S.is_open shelf.new)) }
    ensures opened { OnOk result (IsTrue (S.is_open shelf.new)) }
    ensures mark { S.mark shelf.new ≡ S.faults shelf.old }
{
    let bytes = match read_file(alloc, shelf, name) {
        Ok(bytes) => bytes,
        Err(Unread::Failed) => return Err(Stop::Failed),
        Err(Unread::TooLong) => return Err(Stop::Refused { reason: TOO_LONG }),
        Err(Unread::NoMemory) => return Err(Stop::NoMemory),
    };
    match files.add(bytes) {
        Ok(()) => Ok(()),
        Err(AddFault::File(fault)) => Err(Stop::Refused {
            reason: fault.number(),
        }),
        Err(AddFault::NoMemory) => Err(Stop::NoMemory),
    }
}

/// The report of a FILE that isn't taken.
fn report_of(why: Stop, file: u32) -> Report
    ensures { result ≡ stop_report why file }
{
    match why {
        Stop::Failed => Report::file_unread(file),
        Stop::Refused { reason } => Report::file_refused(file, 0, reason),
        Stop::NoMemory => Report::at(Status::NoMemory, 0),
    }
}

/// Reads the FILEs of these names, one after another, and takes them in. Nothing is opened after one that isn't taken, and
/// the report of that one is answered.
pub fn take_files<S: Shelf>(
    alloc: Global,
    shelf: &mut S,
    names: &Words,
    files: &mut Files,
) -> Result<(), Report>
    requires few { length names.now ≤ 100 }
    requires empty { files.old ≡ [] }
    ensures content { WhereTold (S.told shelf.old) (S.told shelf.new) (λ before after.
        MatchResult result (λ _. AsksFor names.now (length names.now) before after
        × AreTaken before.files names.now files.new × (0 < length names.now → after.rest ≡ []))
        (λ report. AsksFor names.now (length files.new + 1) before after
        × EndsAtFile report before.files names.now (length files.new + 1)
        (S.is_open shelf.new) after.rest)) }
    ensures all { OnOk result (length files.new ≡ length names.now) }
    ensures well { OnOk result (S.faults shelf.new ≡ S.faults shelf.old) }
    ensures cause { IfErr result
        (EndCause (S.told shelf.new) (S.faults shelf.old) (S.faults shelf.new)) }
    ensures is_open { IfErr result (λ report.
        report.status ≢ Status.ReadFailed → IsTrue (S.is_open shelf.new)) }
    ensures opened { OnOk result (0 < length names.now → IsTrue (S.is_open shelf.new)) }
    ensures mark { 0 < length names.now → S.mark shelf.new ≡ S.faults shelf.old }
    ensures unasked { OnOk result (length names.now ≡ 0 → shelf.new ≡ shelf.old) }
    ensures stops { IfErr result
        (λ report. (0 < length names.now) × (report.frames ≡ 0)
        × (report.status ≢ Status.WordsRefused) × (report.status ≢ Status.WriteFailed)) }
{
    'files: for place in 0..names.len() {
        match take_file(alloc, shelf, names.word(place), files) {
            Ok(()) => {}
            Err(why) => return Err(report_of(why, place as u32 + 1)),
        }
    }
    Ok(())
}
