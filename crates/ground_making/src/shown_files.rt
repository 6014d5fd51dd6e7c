//! The verb that shows files.

ghost use Rattle.std.specs.Prelude.{◌≡◌, ◌≢◌, ◌⊎◌, ◌++◌, true, [], Some, option_map, IfOk, OnOk, IfErr};
ghost use Rattle.ground_files.specs.declared.verb_status.Status.TheVariants as statuses;
ghost use Rattle.ground_files.specs.Inputs.{input_shown};
ghost use Rattle.ground_files.specs.Workspaces.{Held, input_taken, inputs_taken, files_of};
ghost use Rattle.ground_files.specs.Verbs.{KeepsOtherFiles};
ghost use Rattle.ground_making.specs.declared.making.Making.TheVariants as makings;
ghost use Rattle.ground_making.specs.Causes.{IsCaused};
ghost use Rattle.ground_making.specs.MadeFiles.{asked_by, IsMadeOfInput, IsRefusedInput};
ghost use Rattle.ground_making.specs.ShownFiles.{asked_of, names_in, gap, with_text, ShowsAll, AppendsText, RefusesOne, IsOverOne, some_put, EndsShowingSeveral, EndsShowing};

use crate::made_files::{Wanted, made_of, make_one, write_made};
use crate::making::Making;
use ground_files::{
    Status, Workspace, input_name, read_input, replaces, tell_no_memory, tell_replaced, tell_unread,
};
use std::alloc::AllocError;

/// What the verb that shows files is asked for.
#[derive(Clone, Copy, Drop)]
pub struct Shown<'a> {
    /// What times are counted from, in seconds.
    pub epoch: Option<u32>,
    /// The files that are read; `-` is standard input.
    pub files: &'a [&'a str],
    /// The file that is written; `-` is standard output.
    pub output: &'a str,
}

impl<'a> Shown<'a> {
    /// One of the files alone.
    fn one(&self, file: &'a str) -> Wanted<'a>
        ensures { asked_by result ≡ asked_of self.now file.now }
    {
        Wanted {
            making: Making::Text,
            epoch: self.epoch,
            file,
            output: self.output,
        }
    }
}

/// The text of a file, or the status, once it was told why there is none.
fn text_of<R: Eprint + AllocGlobal, W: Workspace>(
    rt: &R,
    workspace: &mut W,
    wanted: &Wanted<'_>,
) -> Result<Vec<u8>, Status>
    requires { wanted.now.making ≡ makings.Text }
    ensures held { W.held workspace.new ≡ option_map (input_taken wanted.now.file.now)
        (W.held workspace.old) }
    ensures text { IfOk result (λ text. (before : Held) → W.held workspace.old ≡ Some before
        → IsMadeOfInput (asked_by wanted.now) before text.items) }
    ensures undone { IfErr result (λ status. status ≢ statuses.Done) }
    ensures cause { IfErr result (λ status. (before : Held) → W.held workspace.old ≡ Some before
        → IsCaused ⊥ (IsRefusedInput (asked_by wanted.now) before) status) }
{
    match read_input(rt.alloc(), workspace, wanted.file) {
        Ok(bytes) => made_of(rt, wanted, bytes.as_slice()),
        Err(error) => Err(tell_unread(rt, input_name(wanted.file), &error)),
    }
}

/// Appends an empty line where something stands before.
fn push_gap(out: &mut Vec<u8>) -> Result<(), AllocError>
    ensures { OnOk result (out.new.items ≡ out.old.items ++ gap out.old.items) }
{
    if out.is_empty() {
        return Ok(());
    }
    out.push(b'\n')?;
    Ok(())
}

/// Appends a text behind a comment that has the name of its file, and behind an empty line where another text stands before it.
fn push_text(name: &str, text: &[u8], out: &mut Vec<u8>) -> Result<(), AllocError>
    ensures { OnOk result (out.new.items ≡ with_text out.old.items name.now text.now) }
{
    push_gap(out)?;
    out.extend_from_slice(b"# ")?;
    out.extend_from_slice(name.as_bytes())?;
    out.push(b'\n')?;
    out.extend_from_slice(text)
}

/// Appends the text of a file, where it has one, and answers the status.
fn push_file<R: Eprint + AllocGlobal, W: Workspace>(
    rt: &R,
    workspace: &mut W,
    wanted: &Wanted<'_>,
    out: &mut Vec<u8>,
) -> Result<Status, AllocError>
    requires { wanted.now.making ≡ makings.Text }
    ensures held { W.held workspace.new ≡ option_map (input_taken wanted.now.file.now)
        (W.held workspace.old) }
    ensures text { IfOk result (λ status. status ≡ statuses.Done → (before : Held)
        → W.held workspace.old ≡ Some before
        → AppendsText (asked_by wanted.now) before out.old.items out.new.items) }
    ensures cause { IfOk result (λ status. (before : Held) → W.held workspace.old ≡ Some before
        → IsCaused ⊥ (IsRefusedInput (asked_by wanted.now) before) status) }
{
    match text_of(rt, workspace, wanted) {
        Ok(text) => {
            push_text(input_name(wanted.file), text.as_slice(), out)?;
            Ok(Status::Done)
        }
        Err(status) => Ok(status),
    }
}

/// The first of two statuses that isn't `Done`.
fn earlier(one: Status, other: Status) -> Status
    ensures one { one ≢ statuses.Done → result ≡ one }
    ensures other { one ≡ statuses.Done → result ≡ other }
    ensures done { result ≡ statuses.Done → one ≡ statuses.Done }
{
    if one == Status::Done { other } else { one }
}

/// Appends the texts of all files that have one. The first status that isn't `Done` stands.
#[tactic(auto, using(crate::proofs::VerbLemmas::more_taken, crate::proofs::VerbLemmas::shows_more, crate::proofs::VerbLemmas::taken_all_files))]
fn push_files<R: Eprint + AllocGlobal, W: Workspace>(
    rt: &R,
    workspace: &mut W,
    shown: &Shown<'_>,
    out: &mut Vec<u8>,
) -> Result<Status, AllocError>
    ensures files { option_map files_of (W.held workspace.new)
        ≡ option_map files_of (W.held workspace.old) }
    ensures held { OnOk result (W.held workspace.new
        ≡ option_map (inputs_taken (names_in shown.now)) (W.held workspace.old)) }
    ensures texts { IfOk result (λ status. status ≡ statuses.Done → (before : Held)
        → W.held workspace.old ≡ Some before
        → ShowsAll shown.now before out.old.items (names_in shown.now) out.new.items) }
    ensures cause { IfOk result (λ status. (before : Held) → W.held workspace.old ≡ Some before
        → IsCaused ⊥ (RefusesOne shown.now before (names_in shown.now)) status) }
{
    let mut status = Status::Done;
    'files: for file in shown.files {
        let one = push_file(rt, workspace, &shown.one(file), out)?;
        status = earlier(status, one);
    }
    Ok(status)
}

/// Whether the output is one of the files.
fn replaces_one<W: Workspace>(workspace: &W, shown: &Shown<'_>) -> bool
    ensures { result ≡ true → (now : Held) → W.held workspace.now ≡ Some now
        → IsOverOne shown.now now (names_in shown.now) }
{
    for file in shown.files {
        if replaces(workspace, shown.output, file) {
            return true;
        }
    }
    false
}

/// Writes what was shown, where anything was. The first status that isn't `Done` stands.
#[tactic(auto, using(crate::proofs::VerbLemmas::others_kept, crate::proofs::VerbLemmas::others_put))]
fn write_shown<R: Eprint, W: Workspace>(
    rt: &R,
    workspace: &mut W,
    output: &str,
    status: Status,
    text: &[u8],
) -> Status
    ensures status { (result ≡ status) ⊎ (result ≡ statuses.WriteFailed) }
    ensures done { result ≡ statuses.Done → (before : Held) → W.held workspace.old ≡ Some before
        → W.held workspace.new ≡ Some (some_put output.now text.now before) }
    ensures others { (before : Held) → W.held workspace.old ≡ Some before
        → KeepsOtherFiles output.now before (W.held workspace.new) }
{
    if text.is_empty() {
        return status;
    }
    earlier(status, write_made(rt, workspace, output, text))
}

/// Shows several files, each behind a comment with its name.
#[tactic(auto, using(crate::proofs::VerbLemmas::several_over, crate::proofs::VerbLemmas::several_unmade, crate::proofs::VerbLemmas::several_put))]
fn show_several<R: Eprint + AllocGlobal, W: Workspace>(
    rt: &R,
    workspace: &mut W,
    shown: &Shown<'_>,
) -> Status
    ensures { (before : Held) → W.held workspace.old ≡ Some before → EndsShowingSeveral shown.now
        (names_in shown.now) result before (W.held workspace.new) }
{
    if replaces_one(workspace, shown) {
        tell_replaced(rt, shown.output);
        return Status::WordsRefused;
    }
    let mut out = Vec::new(rt.alloc());
    match push_files(rt, workspace, shown, &mut out) {
        Ok(status) => write_shown(rt, workspace, shown.output, status, out.as_slice()),
        Err(_) => tell_no_memory(rt),
    }
}

/// Shows files as text, where they are several each behind a comment with its name. Of one that isn't shown it is told why, and the others are
/// shown all the same; the first status that isn't `Done` stands. What is shown is written once all files were read.
#[tactic(auto, using(crate::proofs::VerbLemmas::shows_one, crate::proofs::VerbLemmas::shows_several))]
pub fn show_files<R: Eprint + AllocGlobal, W: Workspace>(
    rt: &R,
    workspace: &mut W,
    shown: &Shown<'_>,
) -> Status
    ensures { (before : Held) → W.held workspace.old ≡ Some before
        → EndsShowing shown.now (names_in shown.now) result before (W.held workspace.new) }
{
    match shown.files {
        [file] => make_one(rt, workspace, &shown.one(file)),
        _ => show_several(rt, workspace, shown),
    }
}
