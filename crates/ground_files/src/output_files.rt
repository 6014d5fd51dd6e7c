//! Outputs by the names that the words give: `-` is standard output.

ghost use Rattle.std.specs.Prelude.{◌≡◌, true, Some, OnOk, OnErr};
ghost use Rattle.ground_files.specs.Verbs.{IsOver};
ghost use Rattle.ground_files.specs.Workspaces.{Held, put_at, KeepsFiles};

use crate::stream_names::{is_stream, output_name};
use crate::workspaces::Workspace;
use std::io::{self, Write};

/// Writes a file, whole or not at all, or standard output.
#[tactic(auto, using(crate::proofs::WriteLemmas::put_whole))]
pub fn put_output<W: Workspace>(workspace: &mut W, name: &str, bytes: &[u8]) -> io::Result<()>
    ensures put { OnOk result ((before : Held) → W.held workspace.old ≡ Some before
        → W.held workspace.new ≡ Some (put_at name.now bytes.now before)) }
    ensures kept { OnErr result (KeepsFiles (W.held workspace.old) (W.held workspace.new)) }
{
    let mut draft = workspace.begin(name)?;
    match draft.write_all(bytes) {
        Ok(()) => workspace.settle(name, draft, true),
        Err(error) => {
            let _dropped = workspace.settle(name, draft, false);
            Err(error)
        }
    }
}

/// Whether an output is a file that is read: it would be replaced by what is made of it.
pub fn replaces<W: Workspace>(workspace: &W, output: &str, input: &str) -> bool
    ensures { result ≡ true → (now : Held) → W.held workspace.now ≡ Some now
        → IsOver output.now input.now now }
{
    if is_stream(output) || is_stream(input) || !workspace.is_file(output).unwrap_or(false) {
        return false;
    }
    match (workspace.real_path(output), workspace.real_path(input)) {
        (Ok(place), Ok(read)) => place.as_str() == read.as_str(),
        _ => false,
    }
}

/// Tells that an output is a file that is read.
pub fn tell_replaced<R: Eprint>(rt: &R, output: &str) {
    let name = output_name(output);
    // There is no other place to tell it.
    let _told = eprintln!(rt; "{name}: it is read here, and isn't written over");
}
