//! A plan's text.
ghost use Rattle.std.specs.Prelude.{◌≡◌, ◌<◌, ◌+◌, ◌^◌, ◌∷◌, length, true};
ghost use Rattle.row_forms.specs.Words.{words};
ghost use Rattle.telecommands.specs.Commands.{are_good};
ghost use Rattle.timed_plans.specs.Plans.{schedule_said, finished};
ghost use Rattle.timed_plans.specs.Checks.{scenario_said};
ghost use Rattle.timed_plans.specs.Drafts.{shown_of, GivesRead, GivesDraft, GivesEnd, GivesSchedule, Writes, GivesText};

use crate::check::check_page;
use crate::header::{PlanLine, read_header, read_opening};
use crate::kind::kind_of;
use crate::line::read_course;
use crate::page::Page;
use crate::scheduled::{ScheduledLine, sort_lines};
use crate::stage::Stage;
use plan_text::{LineError, PlanError, PlanFault, PlanReason, error_on};
use row_forms::split_word;
use std::alloc::{AllocError, Global};
use table_texts::next_line;
use telecommands::Command;

/// What a plan's lines say so far.
#[derive(Debug, Drop)]
pub(crate) struct Draft {
    pub(crate) stage: Stage,
    pub(crate) head: Vec<ScheduledLine>,
    pub(crate) lines: Vec<ScheduledLine>,
}

/// What a whole plan says.
#[derive(Debug, Drop)]
pub(crate) struct HeldSchedule {
    /// The lines of the header.
    pub(crate) head: Vec<ScheduledLine>,
    /// The lines of frames.
    pub(crate) lines: Vec<ScheduledLine>,
    /// How many frames there are.
    pub(crate) frames: u32,
    /// The number of the line that ends the plan.
    pub(crate) last: u32,
}

/// Reads a line's words where a plan has come so far.
fn read_words(
    alloc: Global,
    commands: &[Command],
    line: &PlanLine<'_>,
    draft: &mut Draft,
) -> Result<Stage, LineError>
    requires { are_good commands.now ≡ true }
    ensures { GivesRead commands.now (record {
      number = line.now.number;
      words = line.now.first.now
          ∷ words line.now.rest.now;
    }) draft.old draft.new result }
{
    let kind = kind_of(line.first);
    match draft.stage {
        Stage::Opening => read_opening(alloc, kind, line, &mut draft.head),
        Stage::Header(epoch) => read_header(alloc, epoch, kind, line, &mut draft.head),
        Stage::Frames(course) => {
            read_course(alloc, commands, &course, kind, line, &mut draft.lines)
        }
        Stage::Ended(_, _) => Err(LineError::Because(PlanReason::Behind)),
    }
}

/// Reads a line behind those of a draft.
fn read_line(
    alloc: Global,
    commands: &[Command],
    number: u32,
    line: &[u8],
    draft: &mut Draft,
) -> Result<(), LineError>
    requires { are_good commands.now ≡ true }
    ensures { GivesDraft commands.now (record { number = number; words = words line.now }) draft.old
        draft.new result }
{
    let Some((first, rest)) = split_word(line) else {
        return Err(LineError::Because(PlanReason::Word));
    };
    let line = PlanLine {
        number,
        first,
        rest,
    };
    match read_words(alloc, commands, &line, draft) {
        Ok(stage) => {
            draft.stage = stage;
            Ok(())
        }
        Err(error) => Err(error),
    }
}

/// The schedule of a draft behind whose lines no more stand.
fn finish(draft: Draft, line: u32) -> Result<HeldSchedule, PlanFault>
    ensures { GivesEnd (finished draft.stage line) draft result }
{
    let Draft { stage, head, lines } = draft;
    match stage {
        Stage::Ended(frames, last) => Ok(HeldSchedule {
            head,
            lines,
            frames,
            last,
        }),
        Stage::Opening | Stage::Header(_) | Stage::Frames(_) => Err(PlanFault {
            line,
            reason: PlanReason::End,
        }),
    }
}

/// Reads a plan's lines.
fn read_plan(alloc: Global, commands: &[Command], text: &[u8]) -> Result<HeldSchedule, PlanError>
    requires commands { are_good commands.now ≡ true }
    requires short { 1 + length text.now < 2 ^ 32 }
    ensures { GivesSchedule (shown_of (schedule_said commands.now text.now)) result }
{
    let mut rest = text;
    let mut number = 1;
    let mut draft = Draft {
        stage: Stage::Opening,
        head: Vec::new(alloc),
        lines: Vec::new(alloc),
    };
    'lines: while let Some(next) = next_line(rest, number) {
        match read_line(alloc, commands, next.number, next.bytes, &mut draft) {
            Ok(()) => {
                rest = next.rest;
                number = next.number + 1;
            }
            Err(error) => return Err(error_on(next.number, error)),
        }
    }
    match finish(draft, number) {
        Ok(schedule) => Ok(schedule),
        Err(fault) => Err(PlanError::Plan(fault)),
    }
}

/// Writes the lines of a schedule, each in its frame.
fn write_page(alloc: Global, schedule: &mut HeldSchedule) -> Result<Page, AllocError>
    ensures { Writes schedule.old result }
{
    sort_lines(&mut schedule.lines)?;
    let mut page = Page::new(alloc);
    page.put_head(schedule.head.as_slice())?;
    page.put_frames(schedule.lines.as_slice(), schedule.frames, schedule.last)?;
    Ok(page)
}

/// Makes the scenario that a plan is (docs/PLANS.md), with the words of these commands. The first fault is told with its line: one of
/// the plan's lines, or what `vigil` would find in a line that they say.
pub fn schedule_plan(alloc: Global, commands: &[Command], text: &[u8]) -> Result<Vec<u8>, PlanError>
    requires commands { are_good commands.now ≡ true }
    requires short { 1 + length text.now < 2 ^ 32 }
    ensures { GivesText (scenario_said commands.now text.now) result }
{
    let mut schedule = match read_plan(alloc, commands, text) {
        Ok(schedule) => schedule,
        Err(error) => return Err(error),
    };
    let page = match write_page(alloc, &mut schedule) {
        Ok(page) => page,
        Err(error) => return Err(PlanError::Memory(error)),
    };
    match check_page(alloc, &page) {
        Ok(()) => {
            let Page { text, numbers: _ } = page;
            Ok(text)
        }
        Err(error) => Err(error),
    }
}
