//! Who tells what the scenario of a rehearsal does.

ghost use Rattle.std.specs.Prelude.{◌≡◌};

use crate::asked_run::Run;
use crate::given_files::given_files;
use crate::second_looks::can_be_read_again;
use ground_files::Workspace;
use ground_tools::ScenarioTeller;
use std::alloc::{AllocError, Global};

/// Who tells what the scenario of the words does: none where it isn't asked for, or can't be told, since the scenario is generated or is no
/// file that can be read twice.
pub(crate) fn scenario_teller<W: Workspace>(
    alloc: Global,
    workspace: &mut W,
    run: &Run<'_>,
) -> Result<Option<ScenarioTeller<W::File>>, AllocError>
    ensures { W.held workspace.new ≡ W.held workspace.old }
{
    if !run.tells_inputs
        || run.is_drill()
        || !can_be_read_again(workspace, run.scenario).unwrap_or(false)
    {
        return Ok(None);
    }
    let Ok(text) = workspace.open(run.scenario) else {
        return Ok(None);
    };
    let files = given_files(alloc, workspace, run.files)?;
    let teller = ScenarioTeller::open(alloc, text, run.epoch, files, !run.has_subjects)?;
    Ok(Some(teller))
}
