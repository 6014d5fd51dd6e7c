//! Headings: where the lines below them stand.
ghost use Rattle.std.specs.Prelude.{◌≡◌, ◌<◌, ◌≤◌, ◌+◌, ◌^◌, OnOk};
ghost use Rattle.row_forms.specs.Words.{words};
ghost use Rattle.timed_plans.specs.Plans.{stage_of, turned, turned_to, at_line, frame_line, tick_line, spanned, span_line, every_line, closed, end_line, extended};

use crate::heading::{Heading, frame_alone, frames_between};
use crate::stage::{Course, Stage};
use crate::times::{frame_of_word, read_time};
use crate::words::read_period;
use plan_text::{PlanReason, last_word, no_word, word_fault};
use row_forms::{Reason, number, split_word};

/// How many frames a scenario has at most.
const MOST_FRAMES: u32 = 100_000;

/// How many lines of frames a scenario has at most, since the shortest takes eight bytes.
const MOST_LINES: u32 = 2_097_152;

/// The lines below stand in these frames.
fn turn(course: &Course, heading: Heading) -> Result<Stage, PlanReason>
    ensures { result ≡ stage_of (turned course.now heading) }
{
    Ok(Stage::Frames(Course {
        epoch: course.epoch,
        heading,
        frames: course.frames.max(heading.first),
        items: course.items,
    }))
}

/// The lines below stand in the frame of this number.
fn turn_to(course: &Course, frame: u32) -> Result<Stage, PlanReason>
    ensures { result ≡ stage_of (turned_to course.now frame) }
{
    if frame > MOST_FRAMES {
        return Err(PlanReason::Frames);
    }
    turn(course, frame_alone(frame))
}

/// `at TIME`.
pub(crate) fn read_at(course: &Course, line: &[u8]) -> Result<Stage, PlanReason>
    ensures { result ≡ stage_of (at_line course.now (words line.now)) }
{
    match read_time(&course.epoch, 2, line) {
        Ok(frame) => turn_to(course, frame),
        Err(reason) => Err(reason),
    }
}

/// `frame N`.
pub(crate) fn read_frame(course: &Course, line: &[u8]) -> Result<Stage, PlanReason>
    ensures { result ≡ stage_of (frame_line course.now (words line.now)) }
{
    match last_word(2, line) {
        Ok(text) => match number(4_294_967_295, text) {
            Some(frame) => turn_to(course, frame),
            None => Err(word_fault(2, Reason::Number32)),
        },
        Err(reason) => Err(reason),
    }
}

/// `tick`.
pub(crate) fn read_tick(course: &Course, line: &[u8]) -> Result<Stage, PlanReason>
    ensures { result ≡ stage_of (tick_line course.now (words line.now)) }
{
    match no_word(line) {
        Ok(()) => {}
        Err(reason) => return Err(reason),
    }
    if course.heading.last >= MOST_FRAMES {
        return Err(PlanReason::Frames);
    }
    turn_to(course, course.heading.last + 1)
}

/// The lines below stand a period apart from the first frame on, up to the one before `end`.
fn read_frames(course: &Course, period: u32, first: u32, end: u32) -> Result<Stage, PlanReason>
    requires { 0 < period }
    ensures { result ≡ stage_of (spanned course.now period first end) }
{
    if end <= first {
        return Err(PlanReason::Backward);
    }
    if end > MOST_FRAMES {
        return Err(PlanReason::Frames);
    }
    turn(course, frames_between(period, first, end))
}

/// `TIME to TIME`, of which the first is the word of this number.
pub(crate) fn read_span(
    course: &Course,
    period: u32,
    word: usize,
    line: &[u8],
) -> Result<Stage, PlanReason>
    requires period { 0 < period }
    requires word { word < 2 ^ 16 }
    ensures { result ≡ stage_of (span_line course.now period word (words line.now)) }
{
    let Some((begin, rest)) = split_word(line) else {
        return Err(PlanReason::Span);
    };
    let Some((to, rest)) = split_word(rest) else {
        return Err(PlanReason::Span);
    };
    let Some((end, rest)) = split_word(rest) else {
        return Err(PlanReason::Span);
    };
    if split_word(rest).is_some() {
        return Err(PlanReason::Span);
    }
    if to != b"to".as_slice() {
        return Err(PlanReason::Span);
    }
    match frame_of_word(&course.epoch, word, begin) {
        Ok(first) => match frame_of_word(&course.epoch, word + 2, end) {
            Ok(behind) => read_frames(course, period, first, behind),
            Err(reason) => Err(reason),
        },
        Err(reason) => Err(reason),
    }
}

/// `every PERIOD from TIME to TIME`.
pub(crate) fn read_every(course: &Course, line: &[u8]) -> Result<Stage, PlanReason>
    ensures { result ≡ stage_of (every_line course.now (words line.now)) }
{
    let Some((period, rest)) = split_word(line) else {
        return Err(PlanReason::Span);
    };
    let Some((from, rest)) = split_word(rest) else {
        return Err(PlanReason::Span);
    };
    if from != b"from".as_slice() {
        return Err(PlanReason::Span);
    }
    match read_period(period) {
        Some(seconds) => read_span(course, seconds, 4, rest),
        None => Err(PlanReason::Period),
    }
}

/// The course with one line more, which stands in so many frames from each of the heading's on.
#[tactic(auto, unfolding(crate::specs::Plans::extended))]
pub(crate) fn extended(course: &Course, span: u32) -> Result<Course, PlanReason>
    requires { span ≤ 100000 }
    ensures value { result ≡ extended course.now span }
    ensures few { OnOk result (course.now.heading.last + span ≤ 100000) }
{
    if course.heading.last > MOST_FRAMES - span {
        return Err(PlanReason::Frames);
    }
    let Some(lines) = course.heading.count.checked_mul(span) else {
        return Err(PlanReason::Long);
    };
    if course.items > MOST_LINES || lines > MOST_LINES - course.items {
        return Err(PlanReason::Long);
    }
    Ok(Course {
        epoch: course.epoch,
        heading: course.heading,
        frames: course.frames.max(course.heading.last + span),
        items: course.items + lines,
    })
}

/// The end in front of the frame of this number.
fn close(course: &Course, number: u32, frame: u32) -> Result<Stage, PlanReason>
    ensures { result ≡ stage_of (closed course.now number frame) }
{
    if frame < course.frames {
        return Err(PlanReason::Past);
    }
    if frame > MOST_FRAMES {
        return Err(PlanReason::Frames);
    }
    Ok(Stage::Ended(frame, number))
}

/// `end`, or `end at TIME`.
pub(crate) fn read_end(course: &Course, number: u32, line: &[u8]) -> Result<Stage, PlanReason>
    ensures { result ≡ stage_of (end_line course.now number (words line.now)) }
{
    let Some((word, rest)) = split_word(line) else {
        return close(course, number, course.frames);
    };
    if word != b"at".as_slice() {
        return Err(word_fault(2, Reason::Extra));
    }
    match read_time(&course.epoch, 3, rest) {
        Ok(frame) => close(course, number, frame),
        Err(reason) => Err(reason),
    }
}
