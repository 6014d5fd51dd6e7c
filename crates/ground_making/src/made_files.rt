//! The verbs that make a file of another.

ghost use Rattle.std.specs.Prelude.{◌≡◌, ◌≢◌, ◌⊎◌, ◌<◌, ◌+◌, ◌^◌, true, false, length, Some, IfOk, OnOk, IfErr};
ghost use Rattle.ground_files.specs.declared.verb_status.Status.TheVariants as statuses;
ghost use Rattle.ground_files.specs.Workspaces.{Held, put_at, KeepsFiles};
ghost use Rattle.load_texts.specs.Loads.{is_load_text};
ghost use Rattle.ground_making.specs.declared.making.Making.TheVariants as makings;
ghost use Rattle.ground_making.specs.Made.{IsMadeAs};
ghost use Rattle.ground_making.specs.Refused.{IsRefusedAs};
ghost use Rattle.ground_making.specs.Causes.{IsCaused, IsToldBy};
ghost use Rattle.ground_making.specs.MadeFiles.{asked_by, PutsMade, IsOverIn, IsRefusedIn, EndsMaking};

use crate::making::{MOST_BYTES, Making, Refusal, load_of, look_at};
use crate::named_files::bytes_asked;
use crate::refusing::{status_told, tell_refusal};
use ground_faults::{tell_entries, tell_said};
use ground_files::{
    Status, Workspace, input_name, output_name, put_output, read_input, replaces, tell_replaced,
    tell_unread, tell_unwritten,
};
use ground_warnings::{warn_of_sends, warn_of_text};
use load_texts::is_load_text;

/// What a verb of one file is asked for.
#[derive(Clone, Copy, Drop)]
pub struct Wanted<'a> {
    pub making: Making,
    /// What times are counted from, in seconds.
    pub epoch: Option<u32>,
    /// The file that is read; `-` is standard input.
    pub file: &'a str,
    /// The file that is written; `-` is standard output.
    pub output: &'a str,
}

/// Writes what was made.
pub(crate) fn write_made<R: Eprint, W: Workspace>(
    rt: &R,
    workspace: &mut W,
    output: &str,
    made: &[u8],
) -> Status
    ensures done { result ≡ statuses.Done → (before : Held) → W.held workspace.old ≡ Some before
        → W.held workspace.new ≡ Some (put_at output.now made.now before) }
    ensures undone { result ≢ statuses.Done
        → KeepsFiles (W.held workspace.old) (W.held workspace.new) }
    ensures status { (result ≡ statuses.Done) ⊎ (result ≡ statuses.WriteFailed) }
{
    match put_output(workspace, output, made) {
        Ok(()) => Status::Done,
        Err(error) => tell_unwritten(rt, output_name(output), &error),
    }
}

/// Tells why nothing is made of a text or a file.
fn tell_unmade<R: Eprint + AllocGlobal>(
    rt: &R,
    wanted: &Wanted<'_>,
    bytes: &[u8],
    refusal: &Refusal,
) -> Status
    ensures undone { result ≢ statuses.Done }
    ensures told { IsToldBy refusal.now result }
{
    let name = input_name(wanted.file);
    match *refusal {
        Refusal::Entry(kind, fault) => {
            let told = tell_said(rt, name, wanted.epoch, kind, fault, bytes);
            status_told(rt, name, told)
        }
        _ => tell_refusal(rt, name, bytes, refusal),
    }
}

/// Makes a text into the file to be loaded that it says, and writes that.
#[tactic(auto, using(crate::proofs::VerbLemmas::kept_same, crate::proofs::VerbLemmas::load_put))]
fn make_load<R: Eprint + AllocGlobal, W: Workspace>(
    rt: &R,
    workspace: &mut W,
    wanted: &Wanted<'_>,
    text: &[u8],
) -> Status
    requires making { wanted.now.making ≡ makings.Table }
    requires short { 1 + length text.now < 2 ^ 32 }
    requires load { is_load_text text.now ≡ true }
    ensures done { result ≡ statuses.Done → (before : Held) → W.held workspace.old ≡ Some before
        → PutsMade (asked_by wanted.now) text.now before (W.held workspace.new) }
    ensures undone { result ≢ statuses.Done
        → KeepsFiles (W.held workspace.old) (W.held workspace.new) }
    ensures cause { (before : Held) → W.held workspace.old ≡ Some before
        → IsCaused (IsOverIn (asked_by wanted.now) before text.now)
        (IsRefusedIn (asked_by wanted.now) before text.now) result }
{
    let named = match bytes_asked(rt, workspace, wanted, text) {
        Ok(bytes) => bytes,
        Err(status) => return status,
    };
    match load_of(rt.alloc(), named.as_slice(), text) {
        Ok(file) => write_made(rt, workspace, wanted.output, file.as_slice()),
        Err(refusal) => tell_refusal(rt, input_name(wanted.file), text, &refusal),
    }
}

/// Tells of the entries of a file that is shown why they are refused, if any are: no table is made of its text.
fn tell_shown<R: Eprint + AllocGlobal>(rt: &R, wanted: &Wanted<'_>, file: &[u8]) {
    if wanted.making != Making::Text {
        return;
    }
    if let Err(Refusal::Entry(kind, _)) = look_at(file) {
        let _told = tell_entries(rt, input_name(wanted.file), kind, file);
    }
}

/// Tells what is odd in a table whose file was made of its text, or in a plan of which a scenario was made.
fn warn_of_made<R: Eprint + AllocGlobal>(rt: &R, wanted: &Wanted<'_>, text: &[u8], made: &[u8]) {
    let name = input_name(wanted.file);
    let _told = match wanted.making {
        Making::Table => warn_of_text(rt, name, text, made),
        Making::Scenario => warn_of_sends(rt, name, text),
        Making::Text => Ok(()),
    };
}

/// What is made of bytes, or the status, once it was told why nothing is.
pub(crate) fn made_of<R: Eprint + AllocGlobal>(
    rt: &R,
    wanted: &Wanted<'_>,
    bytes: &[u8],
) -> Result<Vec<u8>, Status>
    ensures made { IfOk result (λ made.
        IsMadeAs wanted.now.making wanted.now.epoch bytes.now made.items) }
    ensures short { OnOk result (1 + length bytes.now < 2 ^ 32) }
    ensures undone { IfErr result (λ status. status ≢ statuses.Done) }
    ensures cause { IfErr result (IsCaused ⊥
        (IsRefusedAs wanted.now.making wanted.now.epoch bytes.now)) }
{
    match wanted.making.make(rt.alloc(), wanted.epoch, bytes) {
        Ok(made) => {
            tell_shown(rt, wanted, bytes);
            warn_of_made(rt, wanted, bytes, made.as_slice());
            Ok(made)
        }
        Err(refusal) => Err(tell_unmade(rt, wanted, bytes, &refusal)),
    }
}

/// Makes bytes into what is wanted, and writes that.
#[tactic(auto, using(crate::proofs::VerbLemmas::kept_same, crate::proofs::VerbLemmas::bytes_put))]
fn make_bytes<R: Eprint + AllocGlobal, W: Workspace>(
    rt: &R,
    workspace: &mut W,
    wanted: &Wanted<'_>,
    bytes: &[u8],
) -> Status
    requires { wanted.now.making ≡ makings.Table → 1 + length bytes.now < 2 ^ 32
        → is_load_text bytes.now ≡ false }
    ensures done { result ≡ statuses.Done → (before : Held) → W.held workspace.old ≡ Some before
        → PutsMade (asked_by wanted.now) bytes.now before (W.held workspace.new) }
    ensures undone { result ≢ statuses.Done
        → KeepsFiles (W.held workspace.old) (W.held workspace.new) }
    ensures cause { (before : Held) → W.held workspace.old ≡ Some before
        → IsCaused (IsOverIn (asked_by wanted.now) before bytes.now)
        (IsRefusedIn (asked_by wanted.now) before bytes.now) result }
{
    match made_of(rt, wanted, bytes) {
        Ok(made) => write_made(rt, workspace, wanted.output, made.as_slice()),
        Err(status) => status,
    }
}

/// Whether the file to be loaded of a text is wanted.
fn wants_load(wanted: &Wanted<'_>, bytes: &[u8]) -> bool
    ensures making { result ≡ true → wanted.now.making ≡ makings.Table }
    ensures short { result ≡ true → 1 + length bytes.now < 2 ^ 32 }
    ensures load { result ≡ true → is_load_text bytes.now ≡ true }
    ensures none { result ≡ false → wanted.now.making ≡ makings.Table
        → 1 + length bytes.now < 2 ^ 32 → is_load_text bytes.now ≡ false }
{
    wanted.making == Making::Table && bytes.len() <= MOST_BYTES && is_load_text(bytes)
}

/// Makes a file into what is wanted, and writes that.
#[tactic(auto, using(crate::proofs::VerbLemmas::ends_unread, crate::proofs::VerbLemmas::taken_files))]
fn make_file<R: Eprint + AllocGlobal, W: Workspace>(
    rt: &R,
    workspace: &mut W,
    wanted: &Wanted<'_>,
) -> Status
    ensures { (before : Held) → W.held workspace.old ≡ Some before
        → EndsMaking (asked_by wanted.now) result before (W.held workspace.new) }
{
    let bytes = match read_input(rt.alloc(), workspace, wanted.file) {
        Ok(bytes) => bytes,
        Err(error) => return tell_unread(rt, input_name(wanted.file), &error),
    };
    let bytes = bytes.as_slice();
    if wants_load(wanted, bytes) {
        return make_load(rt, workspace, wanted, bytes);
    }
    make_bytes(rt, workspace, wanted, bytes)
}

/// Makes what a verb of one file makes.
#[tactic(auto, using(crate::proofs::VerbLemmas::ends_over))]
pub fn make_one<R: Eprint + AllocGlobal, W: Workspace>(
    rt: &R,
    workspace: &mut W,
    wanted: &Wanted<'_>,
) -> Status
    ensures { (before : Held) → W.held workspace.old ≡ Some before
        → EndsMaking (asked_by wanted.now) result before (W.held workspace.new) }
{
    if replaces(workspace, wanted.output, wanted.file) {
        tell_replaced(rt, wanted.output);
        return Status::WordsRefused;
    }
    make_file(rt, workspace, wanted)
}
