//! The scenario of a book's plan.
ghost use Rattle.std.specs.Prelude.{◌≡◌, ◌<◌, ◌+◌, ◌^◌, length, map, true};
ghost use Rattle.telecommands.specs.Commands.{are_good};
ghost use Rattle.timed_plans.specs.Checks.{scenario_said};
ghost use Rattle.load_books.specs.Contents.{file_text, plan_text};
ghost use Rattle.load_books.specs.Files.{GivesBytes};
ghost use Rattle.load_books.specs.Scenarios.{epoch_said, as_plan, scenario_of};

use crate::contents::{FilePart, PlanPart};
use crate::cuts::behind_word;
use crate::fault::{BookError, BookFault, BookReason};
use crate::files::MOST;
use crate::lines::plan_fault;
use crate::naming::put_plan;
use plan_text::PlanError;
use row_forms::{number, split_word};
use std::alloc::Global;
use table_texts::next_line;
use telecommands::Command;
use timed_plans::schedule_plan;

/// The latest epoch.
const LAST_EPOCH: u32 = 4_294_000_000;

/// The epoch that a plan or a scenario gives in its first line, in seconds; none where that line is another.
#[tactic(auto, unfolding(crate::specs::Scenarios::epoch_said))]
pub fn text_epoch(text: &[u8]) -> Option<u32>
    requires { 1 + length text.now < 2 ^ 32 }
    ensures { result ≡ epoch_said text.now }
{
    let Some(line) = next_line(text, 1) else {
        return None;
    };
    let Some(behind) = behind_word(b"epoch", line.bytes) else {
        return None;
    };
    match split_word(behind) {
        Some((word, _)) => number(LAST_EPOCH, word),
        None => None,
    }
}

/// Makes the scenario of a plan without names.
fn schedule(
    alloc: Global,
    commands: &[Command],
    part: u32,
    text: &[u8],
) -> Result<Vec<u8>, BookError>
    requires commands { are_good commands.now ≡ true }
    requires short { 1 + length text.now < 2 ^ 32 }
    ensures { GivesBytes (as_plan part (scenario_said commands.now text.now)) result }
{
    match schedule_plan(alloc, commands, text) {
        Ok(scenario) => Ok(scenario),
        Err(PlanError::Memory(error)) => Err(BookError::Memory(error)),
        Err(PlanError::Plan(fault)) => {
            let fault = plan_fault(part, fault);
            Err(BookError::Book(BookFault::Plan(part, fault)))
        }
    }
}

/// Makes the scenario of a book's plan, which names these files.
pub(crate) fn make_scenario(
    alloc: Global,
    commands: &[Command],
    files: &[FilePart<'_>],
    plan: &PlanPart<'_>,
) -> Result<Vec<u8>, BookError>
    requires commands { are_good commands.now ≡ true }
    requires short { 1 + length plan.now.text.now < 2 ^ 32 }
    ensures { GivesBytes (scenario_of commands.now (map file_text files.now) (plan_text plan.now))
        result }
{
    let mut text = Vec::new(alloc);
    if let Err(error) = put_plan(plan.number, files, plan.text, &mut text) {
        return Err(error);
    }
    if text.len() > MOST {
        let fault = BookFault::Line(plan.number, BookReason::Long);
        return Err(BookError::Book(fault));
    }
    schedule(alloc, commands, plan.number, text.as_slice())
}
