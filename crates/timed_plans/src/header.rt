//! Lines of the header.
ghost use Rattle.std.specs.Prelude.{◌∷◌, Some};
ghost use Rattle.row_forms.specs.Words.{words};
ghost use Rattle.timed_plans.specs.Schedules.{held_in};
ghost use Rattle.timed_plans.specs.Plans.{scheduled, passed, epoch_line, start_line, opening_line, header_line, GivesStage};

use crate::heading::frame_alone;
use crate::kind::LineKind;
use crate::scheduled::{ScheduledLine, add_line};
use crate::stage::{Course, Stage};
use crate::times::read_binding;
use calendar_dates::Epoch;
use plan_text::{LineError, PlanReason, no_word, put_line, word_fault};
use row_forms::{Reason, number, split_word};
use std::alloc::Global;

/// The latest epoch.
const LAST_EPOCH: u32 = 4_294_000_000;

/// A line of a text, by its number, its first word and what stands behind that.
#[derive(Clone, Copy)]
pub(crate) struct PlanLine<'a> {
    pub(crate) number: u32,
    pub(crate) first: &'a [u8],
    pub(crate) rest: &'a [u8],
}

/// Adds a line by itself.
fn pass(
    alloc: Global,
    stage: Stage,
    line: &PlanLine<'_>,
    head: &mut Vec<ScheduledLine>,
) -> Result<Stage, LineError>
    ensures { GivesStage (scheduled (held_in head.old.items)
        (passed line.now.number stage (line.now.first.now ∷ words line.now.rest.now)))
        (held_in head.new.items) result }
{
    let mut text = Vec::new(alloc);
    if let Err(error) = put_line(line.first, line.rest, &mut text) {
        return Err(LineError::Memory(error));
    }
    match add_line(alloc, 0, line.number, text.as_slice(), head) {
        Ok(()) => Ok(stage),
        Err(error) => Err(LineError::Memory(error)),
    }
}

/// `epoch N`, or `epoch N is DATE`.
fn read_epoch(
    alloc: Global,
    line: &PlanLine<'_>,
    head: &mut Vec<ScheduledLine>,
) -> Result<Stage, LineError>
    ensures { GivesStage (scheduled (held_in head.old.items)
        (epoch_line line.now.number line.now.first.now (words line.now.rest.now)))
        (held_in head.new.items) result }
{
    let Some((text, rest)) = split_word(line.rest) else {
        return Err(LineError::Because(word_fault(2, Reason::Missing)));
    };
    let Some(second) = number(LAST_EPOCH, text) else {
        return Err(LineError::Because(PlanReason::Epoch));
    };
    let instant = match read_binding(rest) {
        Ok(instant) => instant,
        Err(reason) => return Err(LineError::Because(reason)),
    };
    let alone = PlanLine {
        number: line.number,
        first: line.first,
        rest: text,
    };
    pass(
        alloc,
        Stage::Header(Epoch { second, instant }),
        &alone,
        head,
    )
}

/// `start`.
fn read_start(
    alloc: Global,
    epoch: Epoch,
    line: &PlanLine<'_>,
    head: &mut Vec<ScheduledLine>,
) -> Result<Stage, LineError>
    ensures { GivesStage (scheduled (held_in head.old.items)
        (start_line line.now.number epoch line.now.first.now (words line.now.rest.now)))
        (held_in head.new.items) result }
{
    if let Err(reason) = no_word(line.rest) {
        return Err(LineError::Because(reason));
    }
    let course = Course {
        epoch,
        heading: frame_alone(0),
        frames: 0,
        items: 0,
    };
    pass(alloc, Stage::Frames(course), line, head)
}

/// A line before all others.
pub(crate) fn read_opening(
    alloc: Global,
    kind: Option<LineKind>,
    line: &PlanLine<'_>,
    head: &mut Vec<ScheduledLine>,
) -> Result<Stage, LineError>
    ensures { GivesStage (scheduled (held_in head.old.items)
        (opening_line line.now.number kind line.now.first.now (words line.now.rest.now)))
        (held_in head.new.items) result }
{
    match kind {
        None => Err(LineError::Because(PlanReason::Word)),
        Some(LineKind::Epoch) => read_epoch(alloc, line, head),
        Some(
            LineKind::Region
            | LineKind::Start
            | LineKind::Send
            | LineKind::Item
            | LineKind::Hold
            | LineKind::Counter
            | LineKind::Frame
            | LineKind::At
            | LineKind::From
            | LineKind::Every
            | LineKind::Tick
            | LineKind::End,
        ) => Err(LineError::Because(PlanReason::Place)),
    }
}

/// A line behind `epoch` and before `start`.
pub(crate) fn read_header(
    alloc: Global,
    epoch: Epoch,
    kind: Option<LineKind>,
    line: &PlanLine<'_>,
    head: &mut Vec<ScheduledLine>,
) -> Result<Stage, LineError>
    ensures { GivesStage (scheduled (held_in head.old.items)
        (header_line line.now.number epoch kind line.now.first.now (words line.now.rest.now)))
        (held_in head.new.items) result }
{
    match kind {
        None => Err(LineError::Because(PlanReason::Word)),
        Some(LineKind::Region) => pass(alloc, Stage::Header(epoch), line, head),
        Some(LineKind::Start) => read_start(alloc, epoch, line, head),
        Some(
            LineKind::Epoch
            | LineKind::Send
            | LineKind::Item
            | LineKind::Hold
            | LineKind::Counter
            | LineKind::Frame
            | LineKind::At
            | LineKind::From
            | LineKind::Every
            | LineKind::Tick
            | LineKind::End,
        ) => Err(LineError::Because(PlanReason::Place)),
    }
}
