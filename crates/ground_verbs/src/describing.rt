//! The verbs that describe the command line itself.

ghost use Rattle.std.specs.Prelude.{◌≡◌, Some};
ghost use Rattle.ground_files.specs.Workspaces.{Held};
ghost use Rattle.ground_verbs.specs.Done.{WritesPage};

use crate::asked::{Description, Page};
use ground_files::{Status, Workspace, output_name, put_output, tell_no_memory, tell_unwritten};
use ground_pages::{bash_completions, manual, zsh_completions};
use std::alloc::{AllocError, Global};
use verb_words::command;

impl Description {
    fn text(self, alloc: Global) -> Result<Vec<u8>, AllocError> {
        let program = command(alloc)?;
        match self {
            Description::Bash => bash_completions(alloc, &program),
            Description::Zsh => zsh_completions(alloc, &program),
            Description::Manual => manual(alloc, &program),
        }
    }
}

/// Writes a description of the command line.
pub(crate) fn describe<R: Eprint + AllocGlobal, W: Workspace>(
    rt: &R,
    workspace: &mut W,
    page: &Page<'_>,
) -> Status
    ensures { (before : Held) → W.held workspace.old ≡ Some before
        → WritesPage page.now result before (W.held workspace.new) }
{
    let Ok(text) = page.description.text(rt.alloc()) else {
        return tell_no_memory(rt);
    };
    match put_output(workspace, page.output, text.as_slice()) {
        Ok(()) => Status::Done,
        Err(error) => tell_unwritten(rt, output_name(page.output), &error),
    }
}
