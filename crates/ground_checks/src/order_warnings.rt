//! What is odd in the order of files that are rehearsed.

ghost use Rattle.std.specs.Prelude.{◌≡◌};

use crate::checking::{seen_file, warn_of_repeats};
use crate::file_order::{SeenFile, warn_of_place};
use ground_files::Workspace;
use ground_runs::read_again;
use std::alloc::AllocError;

/// Warns of a file at its place behind others. What can't be read is told by the rehearsal.
fn warn_of_file<'a, R: Eprint + AllocGlobal, W: Workspace>(
    rt: &R,
    workspace: &mut W,
    path: &'a str,
    seen: &mut Vec<SeenFile<'a>>,
) -> Result<(), AllocError>
    ensures { W.held workspace.new ≡ W.held workspace.old }
{
    let Ok(Some(bytes)) = read_again(rt.alloc(), workspace, path) else {
        return Ok(());
    };
    let file = seen_file(rt.alloc(), workspace, path, bytes.as_slice(), true)?;
    warn_of_place(rt, file.path, seen.as_slice(), &file);
    seen.push(file)?;
    Ok(())
}

/// Warns of files whose table an earlier one has, so that they stand by or are never used, and of files that are given again. The workspace
/// stays as it is.
pub fn warn_of_order<R: Eprint + AllocGlobal, W: Workspace>(
    rt: &R,
    workspace: &mut W,
    files: &[&str],
) -> Result<(), AllocError>
    ensures { W.held workspace.new ≡ W.held workspace.old }
{
    warn_of_repeats(rt, workspace, files)?;
    let mut seen = Vec::new(rt.alloc());
    'files: for file in files {
        warn_of_file(rt, workspace, file, &mut seen)?;
    }
    Ok(())
}
