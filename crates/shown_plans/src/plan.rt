//! A scenario as a plan.
ghost use Rattle.std.specs.Prelude.{◌≡◌, ◌<◌, ◌+◌, ◌^◌, ◌++◌, length, true, OnOk, IfOk};
ghost use Rattle.telecommands.specs.Commands.{are_good};
ghost use Rattle.scenario.specs.declared.item.Item.TheVariants as answers;
ghost use Rattle.timed_plans.specs.Checks.{answered};
ghost use Rattle.shown_plans.specs.Shown.{plan_shown, GivesShown};
ghost use Rattle.shown_plans.specs.KeptFrames.{GivesPlanOf};

use crate::check::{ScenarioFault, read_to_end};
use crate::line::{Ended, show_line};
use crate::plain::plain_text;
use plan_text::{PlanError, PlanFault};
use scenario::Reader;
use std::alloc::{AllocError, Global};
use table_texts::next_line;
use telecommands::Command;
use thiserror::Error;
use timed_plans::schedule_plan;

/// How many bytes a plan has no more.
const MOST_BYTES: usize = 4_294_967_295;

/// Why no plan is shown.
#[derive(Clone, Copy, Debug, PartialEq, Eq, Error)]
pub enum ShowError {
    #[error("out of memory")]
    Memory(AllocError),
    /// The text is no scenario.
    #[error("{0}")]
    Scenario(ScenarioFault),
    /// The plan's text is too large to be read.
    #[error("the plan would have over 4294967294 bytes")]
    Long,
    /// The plan isn't taken.
    #[error("the scenario's plan isn't taken: {0}")]
    Plan(PlanFault),
    /// The plan's scenario is another one.
    #[error("the scenario's plan says another scenario")]
    Differs,
}

/// The text of the plan.
fn shown_text(alloc: Global, commands: &[Command], text: &[u8]) -> Result<Vec<u8>, AllocError>
    requires commands { are_good commands.now ≡ true }
    requires short { 1 + length text.now < 2 ^ 32 }
    ensures { IfOk result (λ shown. shown.items ≡ plan_shown commands.now text.now) }
{
    let mut out = Vec::new(alloc);
    match show_lines(alloc, commands, text, &mut out) {
        Ok(()) => Ok(out),
        Err(error) => Err(error),
    }
}

/// Shows a text in which a scenario's reader finds no fault.
fn show_good(alloc: Global, commands: &[Command], text: &[u8]) -> Result<Vec<u8>, ShowError>
    requires commands { are_good commands.now ≡ true }
    requires short { 1 + length text.now < 2 ^ 32 }
    requires good { answered text.now ≡ answers.End }
    ensures { GivesShown commands.now text.now result }
{
    let shown = match shown_text(alloc, commands, text) {
        Ok(shown) => shown,
        Err(error) => return Err(ShowError::Memory(error)),
    };
    let plain = match plain_text(alloc, text) {
        Ok(plain) => plain,
        Err(error) => return Err(ShowError::Memory(error)),
    };
    if shown.len() >= MOST_BYTES {
        return Err(ShowError::Long);
    }
    match schedule_plan(alloc, commands, shown.as_slice()) {
        Ok(made) => {
            if made.as_slice() == plain.as_slice() {
                Ok(shown)
            } else {
                Err(ShowError::Differs)
            }
        }
        Err(PlanError::Memory(error)) => Err(ShowError::Memory(error)),
        Err(PlanError::Plan(fault)) => Err(ShowError::Plan(fault)),
    }
}

/// Shows a scenario as a plan (docs/PLANS.md), with the words of these commands: a run of `tick` is the heading `frame N`, a `send` whose
/// packet a command says has the command's words, and any other line stands as it is, with one space between two words. A text that is no
/// scenario is told by its first line with a fault. The plan is read before it is given: its scenario has the lines that were shown, and
/// a scenario's reader finds in both the header and the frames of the other.
pub fn show_plan(alloc: Global, commands: &[Command], text: &[u8]) -> Result<Vec<u8>, ShowError>
    requires commands { are_good commands.now ≡ true }
    requires short { 1 + length text.now < 2 ^ 32 }
    ensures shown { GivesShown commands.now text.now result }
    ensures frames { GivesPlanOf commands.now text.now result }
{
    let Ok(mut reader) = Reader::open(alloc) else {
        return Err(ShowError::Memory(AllocError));
    };
    match read_to_end(&mut reader, text) {
        Ok(()) => show_good(alloc, commands, text),
        Err(fault) => Err(ShowError::Scenario(fault)),
    }
}

/// Appends the plan's lines.
fn show_lines(
    alloc: Global,
    commands: &[Command],
    text: &[u8],
    out: &mut Vec<u8>,
) -> Result<(), AllocError>
    requires commands { are_good commands.now ≡ true }
    requires short { 1 + length text.now < 2 ^ 32 }
    ensures { OnOk result (out.new.items ≡ out.old.items ++ plan_shown commands.now text.now) }
{
    let mut scratch = Vec::new(alloc);
    let mut rest = text;
    let mut number = 1;
    let mut ended = Ended { come: 0, told: 0 };
    'lines: while let Some(next) = next_line(rest, number) {
        ended = show_line(alloc, commands, &ended, next.bytes, &mut scratch, out)?;
        rest = next.rest;
        number = next.number + 1;
    }
    Ok(())
}
