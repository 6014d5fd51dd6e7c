//! Inputs by the names that the words give: `-` is standard input.

ghost use Rattle.std.specs.Prelude.{◌≡◌, ℕ, List, Some, option_map, IfOk};
ghost use Rattle.ground_files.specs.Workspaces.{Held, input_bytes, input_taken};
ghost use Rattle.ground_files.specs.Inputs.{source_remaining};

use crate::stream_names::is_stream;
use crate::workspaces::Workspace;
use std::alloc::Global;
use std::io::{self, ErrorKind, Read};

/// The most bytes of an input that is read whole: more than a hundred loads and a scenario have, and less than a machine's memory, which
/// a device without an end would fill.
const MOST_READ: u64 = 268_435_456;

/// The bytes of a reader, at most 268,435,456.
#[tactic(auto, using(crate::proofs::ReadLemmas::all_read))]
fn read_whole<F: Read + Drop>(alloc: Global, from: F) -> io::Result<Vec<u8>>
    ensures { IfOk result (λ bytes. (given : List ℕ) → F.remaining from ≡ Some given
        → bytes.items ≡ given) }
{
    let mut bytes = Vec::new(alloc);
    let mut few = from.take(MOST_READ + 1);
    few.read_to_end(&mut bytes)?;
    if bytes.len() as u64 > MOST_READ {
        return Err(io::Error::from(ErrorKind::FileTooLarge));
    }
    Ok(bytes)
}

/// The bytes of a file, at most 268,435,456; `-` is standard input.
pub fn read_input<W: Workspace>(alloc: Global, workspace: &mut W, name: &str) -> io::Result<Vec<u8>>
    ensures held { W.held workspace.new ≡ option_map (input_taken name.now)
        (W.held workspace.old) }
    ensures bytes { IfOk result (λ bytes. (before : Held) → W.held workspace.old ≡ Some before
        → input_bytes name.now before ≡ Some bytes.items) }
{
    read_whole(alloc, open_source(workspace, name)?)
}

/// Where bytes come from.
#[derive(Drop)]
pub enum Source<S: Read + Drop, F: Read + Drop> {
    Standard(S),
    File(F),
}

impl<S: Read + Drop, F: Read + Drop> Read for Source<S, F> {
    ghost remaining = { source_remaining S.remaining F.remaining };

    fn read(&mut self, bytes: &mut [u8]) -> io::Result<usize> {
        match self {
            Source::Standard(from) => from.read(bytes),
            Source::File(from) => from.read(bytes),
        }
    }
}

/// Opens an input; `-` is standard input.
pub fn open_source<W: Workspace>(
    workspace: &mut W,
    name: &str,
) -> io::Result<Source<W::Input, W::File>>
    ensures held { W.held workspace.new ≡ option_map (input_taken name.now)
        (W.held workspace.old) }
    ensures bytes { IfOk result (λ source. (before : Held) → W.held workspace.old ≡ Some before
        → (bytes : List ℕ) × (input_bytes name.now before ≡ Some bytes)
        × (source_remaining W.Input.remaining W.File.remaining source ≡ Some bytes)) }
{
    if is_stream(name) {
        return Ok(Source::Standard(workspace.input()));
    }
    Ok(Source::File(workspace.open(name)?))
}
