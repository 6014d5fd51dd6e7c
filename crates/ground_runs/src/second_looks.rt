//! Another look at files of tables and files to be loaded.

ghost use Rattle.std.specs.Prelude.{◌≡◌, ◌&&◌, not, Some, is_some, IfOk};
ghost use Rattle.fsw_outside.specs.Files.{file_named};
ghost use Rattle.ground_files.specs.Workspaces.{Held, is_dash};

use ground_files::{Workspace, is_stream};
use std::alloc::Global;
use std::io::{self, Read};

/// How many bytes a file may have that a rehearsal takes.
const MOST_BYTES: usize = 65_700;

/// Whether a name is that of a regular file, which can be read twice.
pub fn can_be_read_again<W: Workspace>(workspace: &W, path: &str) -> io::Result<bool>
    ensures { IfOk result (λ can. (now : Held) → W.held workspace.now ≡ Some now
        → can ≡ (not (is_dash path.now) && is_some (file_named now.files path.now))) }
{
    Ok(!is_stream(path) && workspace.is_file(path)?)
}

/// The bytes of a file that can be read again, of a longer one than a rehearsal takes one byte more than that. Nothing is read of a stream or a
/// device, of which the rehearsal alone has the bytes.
pub fn read_again<W: Workspace>(
    alloc: Global,
    workspace: &mut W,
    path: &str,
) -> io::Result<Option<Vec<u8>>>
    ensures { W.held workspace.new ≡ W.held workspace.old }
{
    if !can_be_read_again(workspace, path)? {
        return Ok(None);
    }
    let mut bytes = Vec::new(alloc);
    let mut file = workspace.open(path)?.take(MOST_BYTES as u64 + 1);
    file.read_to_end(&mut bytes)?;
    Ok(Some(bytes))
}
