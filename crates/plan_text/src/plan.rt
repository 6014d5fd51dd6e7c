//! A plan's text.
ghost use Rattle.std.specs.Prelude.{◌≡◌, ◌<◌, ◌+◌, ◌^◌, length, true};
ghost use Rattle.telecommands.specs.Commands.{are_good};
ghost use Rattle.plan_text.specs.Plans.{scenario_said, finished, no_more, error_on, GivesScenario};

use crate::fault::{LineError, PlanError, PlanFault, PlanReason};
use crate::line::read_line;
use crate::stage::Stage;
use table_texts::next_line;
use telecommands::Command;

/// Makes the scenario that a plan is (docs/PLANS.md), with the words of these commands, in `out`, whose bytes are lost. The first
/// fault is told with its line; what `out` has then has no meaning. The bytes of `scratch` are lost: so one vector serves all texts.
pub fn make_scenario(
    commands: &[Command],
    text: &[u8],
    scratch: &mut Vec<u8>,
    out: &mut Vec<u8>,
) -> Result<(), PlanError>
    requires commands { are_good commands.now ≡ true }
    requires short { 1 + length text.now < 2 ^ 32 }
    ensures { GivesScenario (scenario_said commands.now text.now) out.new.items result }
{
    out.clear();
    let mut rest = text;
    let mut number = 1;
    let mut stage = Stage::Opening;
    'lines: while let Some(next) = next_line(rest, number) {
        match read_line(commands, &stage, next.bytes, scratch, out) {
            Ok(more) => {
                stage = more;
                rest = next.rest;
                number = next.number + 1;
            }
            Err(error) => return Err(error_on(next.number, error)),
        }
    }
    match finish(&stage, number) {
        Ok(()) => Ok(()),
        Err(fault) => Err(PlanError::Plan(fault)),
    }
}

/// A plan ends with `end`.
fn finish(stage: &Stage, line: u32) -> Result<(), PlanFault>
    ensures { finished stage.now line ≡ no_more result }
{
    match stage {
        Stage::Ended => Ok(()),
        Stage::Opening | Stage::Header(_) | Stage::Frames(_) => Err(PlanFault {
            line,
            reason: PlanReason::End,
        }),
    }
}

/// Why the line of this number wasn't read.
pub fn error_on(line: u32, error: LineError) -> PlanError
    ensures { result ≡ error_on line error }
{
    match error {
        LineError::Memory(error) => PlanError::Memory(error),
        LineError::Because(reason) => PlanError::Plan(PlanFault { line, reason }),
    }
}
