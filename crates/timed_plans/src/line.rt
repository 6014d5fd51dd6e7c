//! Lines of frames.
ghost use Rattle.std.specs.Prelude.{◌≡◌, ◌<◌, ◌≤◌, ◌∷◌, ℕ, List, true, Ok, Err, MatchResult};
ghost use Rattle.plan_text.specs.declared.fault.LineError.TheVariants as line_errors;
ghost use Rattle.row_forms.specs.Words.{words};
ghost use Rattle.telecommands.specs.Commands.{are_good};
ghost use Rattle.plan_text.specs.Lines.{line_text};
ghost use Rattle.timed_plans.specs.Schedules.{held_in, app_line};
ghost use Rattle.timed_plans.specs.Plans.{scheduled, item_line, send_line, hold_line, counts_line, counter_line, course_line, GivesStage};

use crate::course::{extended, read_at, read_end, read_every, read_frame, read_span, read_tick};
use crate::dated::put_dated;
use crate::header::PlanLine;
use crate::kind::LineKind;
use crate::scheduled::{ScheduledLine, add_counts, add_spread, put_app};
use crate::stage::{Course, Stage};
use crate::words::read_for;
use plan_text::{LineError, PlanReason, put_line, put_sent, read_sent};
use row_forms::{number, split_word};
use std::alloc::Global;
use telecommands::{Command, ReadError};

/// Adds a line in so many frames from each of the heading's on.
fn add_item(
    alloc: Global,
    course: &Course,
    span: u32,
    number: u32,
    text: &[u8],
    lines: &mut Vec<ScheduledLine>,
) -> Result<Stage, LineError>
    requires { span ≤ 100000 }
    ensures { (line : List (List ℕ)) → text.now ≡ line_text line
        → GivesStage (scheduled (held_in lines.old.items) (item_line course.now span number line))
        (held_in lines.new.items) result }
{
    let more = match extended(course, span) {
        Ok(more) => more,
        Err(reason) => return Err(LineError::Because(reason)),
    };
    match add_spread(alloc, &course.heading, span, number, text, lines) {
        Ok(()) => Ok(Stage::Frames(more)),
        Err(error) => Err(LineError::Memory(error)),
    }
}

/// Adds a line by itself in so many frames from each of the heading's on.
fn pass(
    alloc: Global,
    course: &Course,
    span: u32,
    line: &PlanLine<'_>,
    lines: &mut Vec<ScheduledLine>,
) -> Result<Stage, LineError>
    requires { span ≤ 100000 }
    ensures { GivesStage (scheduled (held_in lines.old.items)
        (item_line course.now span line.now.number (line.now.first.now ∷ words line.now.rest.now)))
        (held_in lines.new.items) result }
{
    let mut text = Vec::new(alloc);
    match put_line(line.first, line.rest, &mut text) {
        Ok(()) => add_item(alloc, course, span, line.number, text.as_slice(), lines),
        Err(error) => Err(LineError::Memory(error)),
    }
}

/// `send HEX`, or `send TELECOMMAND`.
fn read_send(
    alloc: Global,
    commands: &[Command],
    course: &Course,
    line: &PlanLine<'_>,
    lines: &mut Vec<ScheduledLine>,
) -> Result<Stage, LineError>
    requires { are_good commands.now ≡ true }
    ensures { GivesStage (scheduled (held_in lines.old.items)
        (send_line commands.now course.now line.now.number (words line.now.rest.now)))
        (held_in lines.new.items) result }
{
    let mut words = Vec::new(alloc);
    if let Err(error) = put_dated(&course.epoch, line.rest, &mut words) {
        return Err(error);
    }
    let mut text = Vec::new(alloc);
    match read_sent(commands, course.epoch.second, words.as_slice(), &mut text) {
        Ok(packet) => {
            text.clear();
            match put_sent(&packet, &mut text) {
                Ok(()) => add_item(alloc, course, 1, line.number, text.as_slice(), lines),
                Err(error) => Err(LineError::Memory(error)),
            }
        }
        Err(ReadError::Memory(error)) => Err(LineError::Memory(error)),
        Err(ReadError::Fault(fault)) => Err(LineError::Because(PlanReason::Command(fault))),
    }
}

/// `hold APP`, or `hold APP for N`.
fn read_hold(
    alloc: Global,
    course: &Course,
    line: &PlanLine<'_>,
    lines: &mut Vec<ScheduledLine>,
) -> Result<Stage, LineError>
    ensures { GivesStage (scheduled (held_in lines.old.items)
        (hold_line course.now line.now.number line.now.first.now (words line.now.rest.now)))
        (held_in lines.new.items) result }
{
    let Some((app, rest)) = split_word(line.rest) else {
        return Err(LineError::Because(PlanReason::Hold));
    };
    let held = PlanLine {
        number: line.number,
        first: line.first,
        rest: app,
    };
    let Some((word, rest)) = split_word(rest) else {
        return pass(alloc, course, 1, &held, lines);
    };
    match read_for(word, rest) {
        Some(frames) => pass(alloc, course, frames, &held, lines),
        None => Err(LineError::Because(PlanReason::Hold)),
    }
}

/// A counter that has the number of its frame, plus 1.
fn read_counts(
    alloc: Global,
    course: &Course,
    number: u32,
    name: &[u8],
    lines: &mut Vec<ScheduledLine>,
) -> Result<Stage, LineError>
    ensures { GivesStage (scheduled (held_in lines.old.items)
        (counts_line course.now number name.now)) (held_in lines.new.items) result }
{
    let more = match extended(course, 1) {
        Ok(more) => more,
        Err(reason) => return Err(LineError::Because(reason)),
    };
    match add_counts(alloc, &course.heading, number, name, lines) {
        Ok(()) => Ok(Stage::Frames(more)),
        Err(error) => Err(LineError::Memory(error)),
    }
}

/// A counter that has this value.
fn read_value(
    alloc: Global,
    course: &Course,
    number: u32,
    name: &[u8],
    value: u32,
    lines: &mut Vec<ScheduledLine>,
) -> Result<Stage, LineError>
    ensures { GivesStage (scheduled (held_in lines.old.items)
        (item_line course.now 1 number (app_line name.now value)))
        (held_in lines.new.items) result }
{
    let mut text = Vec::new(alloc);
    match put_app(name, value, &mut text) {
        Ok(()) => add_item(alloc, course, 1, number, text.as_slice(), lines),
        Err(error) => Err(LineError::Memory(error)),
    }
}

/// `counter NAME counts`, `counter NAME stays` or `counter NAME = N`.
fn read_counter(
    alloc: Global,
    course: &Course,
    line: &PlanLine<'_>,
    lines: &mut Vec<ScheduledLine>,
) -> Result<Stage, LineError>
    ensures { GivesStage (scheduled (held_in lines.old.items)
        (counter_line course.now line.now.number (words line.now.rest.now)))
        (held_in lines.new.items) result }
{
    let Some((name, rest)) = split_word(line.rest) else {
        return Err(LineError::Because(PlanReason::Counter));
    };
    let Some((how, rest)) = split_word(rest) else {
        return Err(LineError::Because(PlanReason::Counter));
    };
    let Some((value, rest)) = split_word(rest) else {
        return match how {
            b"counts" => read_counts(alloc, course, line.number, name, lines),
            b"stays" => {
                let value = course.heading.first;
                read_value(alloc, course, line.number, name, value, lines)
            }
            _ => Err(LineError::Because(PlanReason::Counter)),
        };
    };
    if split_word(rest).is_some() || how != b"=".as_slice() {
        return Err(LineError::Because(PlanReason::Counter));
    }
    match number(4_294_967_295, value) {
        Some(value) => read_value(alloc, course, line.number, name, value, lines),
        None => Err(LineError::Because(PlanReason::Counter)),
    }
}

/// The stage that a heading or the end comes to.
fn staged(read: Result<Stage, PlanReason>) -> Result<Stage, LineError>
    ensures { MatchResult read (λ stage. result ≡ Ok stage) (λ reason. result
        ≡ Err (line_errors.Because reason)) }
{
    match read {
        Ok(stage) => Ok(stage),
        Err(reason) => Err(LineError::Because(reason)),
    }
}

/// A line behind `start`.
pub(crate) fn read_course(
    alloc: Global,
    commands: &[Command],
    course: &Course,
    kind: Option<LineKind>,
    line: &PlanLine<'_>,
    lines: &mut Vec<ScheduledLine>,
) -> Result<Stage, LineError>
    requires { are_good commands.now ≡ true }
    ensures { GivesStage (scheduled (held_in lines.old.items)
        (course_line commands.now course.now line.now.number kind line.now.first.now
        (words line.now.rest.now))) (held_in lines.new.items) result }
{
    match kind {
        None => Err(LineError::Because(PlanReason::Word)),
        Some(LineKind::Send) => read_send(alloc, commands, course, line, lines),
        Some(LineKind::Item) => pass(alloc, course, 1, line, lines),
        Some(LineKind::Hold) => read_hold(alloc, course, line, lines),
        Some(LineKind::Counter) => read_counter(alloc, course, line, lines),
        Some(LineKind::Frame) => staged(read_frame(course, line.rest)),
        Some(LineKind::At) => staged(read_at(course, line.rest)),
        Some(LineKind::From) => staged(read_span(course, 1, 2, line.rest)),
        Some(LineKind::Every) => staged(read_every(course, line.rest)),
        Some(LineKind::Tick) => staged(read_tick(course, line.rest)),
        Some(LineKind::End) => staged(read_end(course, line.number, line.rest)),
        Some(LineKind::Epoch | LineKind::Region | LineKind::Start) => {
            Err(LineError::Because(PlanReason::Place))
        }
    }
}
