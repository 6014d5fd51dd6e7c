//! A line of a plan.
ghost use Rattle.std.specs.Prelude.{◌≡◌, ◌<◌, ◌+◌, ◌^◌, ◌∷◌, true, Ok, Some};
ghost use Rattle.row_forms.specs.Words.{words};
ghost use Rattle.telecommands.specs.Commands.{are_good, packet_said, GivesPacket};
ghost use Rattle.plan_text.specs.Lines.{sent_line};
ghost use Rattle.plan_text.specs.Plans.{word_fault, none, one_more, last_of, moved, GivesWord, written, GivesLine, forwarded, closed, item_line, packet_sent, epoch_line, start_line, at_line, frame_line, tick_line, end_line, send_line, opening_line, header_line, course_line, line_said, passed};

use crate::fault::{LineError, PlanReason};
use crate::stage::{Course, Stage};
use crate::times::read_time;
use crate::verb::{Verb, verb_of};
use crate::writing::{put_end, put_line, put_sent, put_ticks};
use packet_forms::Packet;
use row_forms::{Reason, RowFault, number, read_block, split_word};
use telecommands::{Command, CommandFault, ReadError, read_command};

/// How many frames a scenario has at most.
const MOST_FRAMES: u32 = 100_000;

/// How many items a frame has at most.
const MOST_ITEMS: u32 = 64;

/// The latest epoch.
const LAST_EPOCH: u32 = 4_294_000_000;

/// A fault of the word of this number.
pub fn word_fault(word: usize, reason: Reason) -> PlanReason
    ensures { result ≡ word_fault word reason }
{
    PlanReason::Row(RowFault { word, reason })
}

/// The word of this number, which is the line's last one.
pub fn last_word(word: usize, line: &[u8]) -> Result<&[u8], PlanReason>
    requires { word < 2 ^ 16 }
    ensures { GivesWord word (words line.now) result }
{
    let Some((text, rest)) = split_word(line) else {
        return Err(word_fault(word, Reason::Missing));
    };
    if split_word(rest).is_some() {
        return Err(word_fault(word + 1, Reason::Extra));
    }
    Ok(text)
}

/// No word stands where the second would.
pub fn no_word(line: &[u8]) -> Result<(), PlanReason>
    ensures { result ≡ none 2 (words line.now) }
{
    match split_word(line) {
        Some(_) => Err(word_fault(2, Reason::Extra)),
        None => Ok(()),
    }
}

/// Appends the ticks up to the frame of this number.
#[tactic(auto, unfolding(crate::specs::Plans::forwarded))]
fn forward(course: &Course, frame: u32, out: &mut Vec<u8>) -> Result<Stage, LineError>
    ensures { GivesLine (written out.old.items (forwarded course.now frame)) out.new.items result }
{
    if frame < course.frame {
        return Err(LineError::Because(PlanReason::Past));
    }
    if frame > MOST_FRAMES {
        return Err(LineError::Because(PlanReason::Frames));
    }
    match put_ticks(frame - course.frame, out) {
        Ok(()) => Ok(Stage::Frames(moved(course, frame))),
        Err(error) => Err(LineError::Memory(error)),
    }
}

/// Where the frame of this number has come.
fn moved(course: &Course, frame: u32) -> Course
    ensures { result ≡ moved course.now frame }
{
    if frame == course.frame {
        return *course;
    }
    Course {
        epoch: course.epoch,
        frame,
        items: 0,
    }
}

/// Appends the ticks up to the frame of this number, and the end.
#[tactic(auto, unfolding(crate::specs::Plans::closed))]
fn close(course: &Course, frame: u32, out: &mut Vec<u8>) -> Result<Stage, LineError>
    ensures { GivesLine (written out.old.items (closed course.now frame)) out.new.items result }
{
    if frame < course.frame {
        return Err(LineError::Because(PlanReason::Past));
    }
    if frame > MOST_FRAMES {
        return Err(LineError::Because(PlanReason::Frames));
    }
    if frame == course.frame && 0 < course.items {
        return Err(LineError::Because(PlanReason::Begun));
    }
    match put_end(frame - course.frame, out) {
        Ok(()) => Ok(Stage::Ended),
        Err(error) => Err(LineError::Memory(error)),
    }
}

/// `epoch N`.
fn read_epoch(word: &[u8], line: &[u8], out: &mut Vec<u8>) -> Result<Stage, LineError>
    ensures { GivesLine (written out.old.items (epoch_line word.now (words line.now))) out.new.items
        result }
{
    match last_word(2, line) {
        Ok(text) => match number(LAST_EPOCH, text) {
            Some(epoch) => pass(Stage::Header(epoch), word, line, out),
            None => Err(LineError::Because(PlanReason::Epoch)),
        },
        Err(reason) => Err(LineError::Because(reason)),
    }
}

/// `start`.
fn read_start(epoch: u32, word: &[u8], line: &[u8], out: &mut Vec<u8>) -> Result<Stage, LineError>
    ensures { GivesLine (written out.old.items (start_line epoch word.now (words line.now)))
        out.new.items result }
{
    if let Err(reason) = no_word(line) {
        return Err(LineError::Because(reason));
    }
    let first = Course {
        epoch,
        frame: 0,
        items: 0,
    };
    pass(Stage::Frames(first), word, line, out)
}

/// Appends a line as it is.
fn pass(stage: Stage, word: &[u8], line: &[u8], out: &mut Vec<u8>) -> Result<Stage, LineError>
    ensures { GivesLine (written out.old.items (passed stage (word.now ∷ words line.now)))
        out.new.items result }
{
    match put_line(word, line, out) {
        Ok(()) => Ok(stage),
        Err(error) => Err(LineError::Memory(error)),
    }
}

/// `frame N`.
fn read_frame(course: &Course, line: &[u8], out: &mut Vec<u8>) -> Result<Stage, LineError>
    ensures { GivesLine (written out.old.items (frame_line course.now (words line.now)))
        out.new.items result }
{
    match last_word(2, line) {
        Ok(text) => match number(4_294_967_295, text) {
            Some(frame) => forward(course, frame, out),
            None => Err(LineError::Because(word_fault(2, Reason::Number32))),
        },
        Err(reason) => Err(LineError::Because(reason)),
    }
}

/// `at TIME`.
fn read_at(course: &Course, line: &[u8], out: &mut Vec<u8>) -> Result<Stage, LineError>
    ensures { GivesLine (written out.old.items (at_line course.now (words line.now))) out.new.items
        result }
{
    match read_time(course.epoch, 2, line) {
        Ok(frame) => forward(course, frame, out),
        Err(reason) => Err(LineError::Because(reason)),
    }
}

/// `tick`.
#[tactic(auto, unfolding(crate::specs::Plans::forwarded))]
fn read_tick(course: &Course, line: &[u8], out: &mut Vec<u8>) -> Result<Stage, LineError>
    ensures { GivesLine (written out.old.items (tick_line course.now (words line.now)))
        out.new.items result }
{
    if let Err(reason) = no_word(line) {
        return Err(LineError::Because(reason));
    }
    if course.frame >= MOST_FRAMES {
        return Err(LineError::Because(PlanReason::Frames));
    }
    forward(course, course.frame + 1, out)
}

/// `end`, or `end at TIME`.
fn read_end(course: &Course, line: &[u8], out: &mut Vec<u8>) -> Result<Stage, LineError>
    ensures { GivesLine (written out.old.items (end_line course.now (words line.now))) out.new.items
        result }
{
    let Some((word, rest)) = split_word(line) else {
        return close_last(course, out);
    };
    if word != b"at".as_slice() {
        return Err(LineError::Because(word_fault(2, Reason::Extra)));
    }
    match read_time(course.epoch, 3, rest) {
        Ok(frame) => close(course, frame, out),
        Err(reason) => Err(LineError::Because(reason)),
    }
}

/// The end behind the last frame that has items.
#[tactic(auto, unfolding(crate::specs::Plans::closed))]
fn close_last(course: &Course, out: &mut Vec<u8>) -> Result<Stage, LineError>
    ensures { GivesLine (written out.old.items (closed course.now (last_of course.now)))
        out.new.items result }
{
    if course.items == 0 {
        return close(course, course.frame, out);
    }
    if course.frame >= MOST_FRAMES {
        return Err(LineError::Because(PlanReason::Frames));
    }
    close(course, course.frame + 1, out)
}

/// A line that is one more item.
fn read_item(
    course: &Course,
    word: &[u8],
    line: &[u8],
    out: &mut Vec<u8>,
) -> Result<Stage, LineError>
    ensures { GivesLine (written out.old.items (item_line course.now (word.now ∷ words line.now)))
        out.new.items result }
{
    match one_more(course) {
        Ok(more) => pass(Stage::Frames(more), word, line, out),
        Err(reason) => Err(LineError::Because(reason)),
    }
}

/// The frame with one item more.
fn one_more(course: &Course) -> Result<Course, PlanReason>
    ensures { result ≡ one_more course.now }
{
    if course.items >= MOST_ITEMS {
        return Err(PlanReason::Items);
    }
    Ok(Course {
        epoch: course.epoch,
        frame: course.frame,
        items: course.items + 1,
    })
}

/// `send HEX`, or `send TELECOMMAND`.
fn read_send(
    commands: &[Command],
    course: &Course,
    line: &[u8],
    scratch: &mut Vec<u8>,
    out: &mut Vec<u8>,
) -> Result<Stage, LineError>
    requires { are_good commands.now ≡ true }
    ensures { GivesLine (written out.old.items (send_line commands.now course.now (words line.now)))
        out.new.items result }
{
    match read_sent(commands, course.epoch, line, scratch) {
        Ok(packet) => put_item(course, &packet, out),
        Err(ReadError::Memory(error)) => Err(LineError::Memory(error)),
        Err(ReadError::Fault(fault)) => Err(LineError::Because(PlanReason::Command(fault))),
    }
}

/// Appends the line that sends a packet, which is one more item.
fn put_item(course: &Course, packet: &Packet, out: &mut Vec<u8>) -> Result<Stage, LineError>
    ensures { GivesLine (written out.old.items (item_line course.now (sent_line packet.now)))
        out.new.items result }
{
    let more = match one_more(course) {
        Ok(more) => more,
        Err(reason) => return Err(LineError::Because(reason)),
    };
    match put_sent(packet, out) {
        Ok(()) => Ok(Stage::Frames(more)),
        Err(error) => Err(LineError::Memory(error)),
    }
}

/// The packet that the words behind `send` say: its bytes, or a telecommand.
#[tactic(auto, unfolding(crate::specs::Plans::packet_sent))]
pub fn read_sent(
    commands: &[Command],
    epoch: u32,
    line: &[u8],
    scratch: &mut Vec<u8>,
) -> Result<Packet, ReadError>
    requires { are_good commands.now ≡ true }
    ensures { GivesPacket (packet_sent commands.now epoch (words line.now)) result }
{
    let Some((word, rest)) = split_word(line) else {
        return Err(ReadError::Fault(CommandFault::Row(RowFault {
            word: 2,
            reason: Reason::Missing,
        })));
    };
    scratch.clear();
    match read_block(word, scratch) {
        Ok(true) => read_bytes(rest, scratch),
        Ok(false) => read_command(Some(epoch), commands, 2, line, scratch),
        Err(error) => Err(ReadError::Memory(error)),
    }
}

/// The packet of these bytes, behind whose digits no word stands.
fn read_bytes(line: &[u8], bytes: &[u8]) -> Result<Packet, ReadError>
    ensures { GivesPacket (packet_said 2 (Some bytes.now) (words line.now)) result }
{
    if split_word(line).is_some() {
        return Err(ReadError::Fault(CommandFault::Row(RowFault {
            word: 3,
            reason: Reason::Extra,
        })));
    }
    match Packet::from_bytes(bytes) {
        Ok(packet) => Ok(packet),
        Err(fault) => Err(ReadError::Fault(CommandFault::Packet(2, fault))),
    }
}

/// A line before all others.
fn read_opening(verb: Verb, word: &[u8], line: &[u8], out: &mut Vec<u8>) -> Result<Stage, LineError>
    ensures { GivesLine (written out.old.items (opening_line verb word.now (words line.now)))
        out.new.items result }
{
    match verb {
        Verb::Epoch => read_epoch(word, line, out),
        Verb::Region
        | Verb::Start
        | Verb::Send
        | Verb::Item
        | Verb::Frame
        | Verb::At
        | Verb::Tick
        | Verb::End => Err(LineError::Because(PlanReason::Place)),
    }
}

/// A line behind `epoch` and before `start`.
fn read_header(
    epoch: u32,
    verb: Verb,
    word: &[u8],
    line: &[u8],
    out: &mut Vec<u8>,
) -> Result<Stage, LineError>
    ensures { GivesLine (written out.old.items (header_line epoch verb word.now (words line.now)))
        out.new.items result }
{
    match verb {
        Verb::Region => pass(Stage::Header(epoch), word, line, out),
        Verb::Start => read_start(epoch, word, line, out),
        Verb::Epoch | Verb::Send | Verb::Item | Verb::Frame | Verb::At | Verb::Tick | Verb::End =>
            Err(LineError::Because(PlanReason::Place)),
    }
}

/// A line behind `start`.
fn read_course(
    commands: &[Command],
    course: &Course,
    verb: Verb,
    word: &[u8],
    line: &[u8],
    scratch: &mut Vec<u8>,
    out: &mut Vec<u8>,
) -> Result<Stage, LineError>
    requires { are_good commands.now ≡ true }
    ensures { GivesLine (written out.old.items
        (course_line commands.now course.now verb word.now (words line.now))) out.new.items result }
{
    match verb {
        Verb::Send => read_send(commands, course, line, scratch, out),
        Verb::Item => read_item(course, word, line, out),
        Verb::Frame => read_frame(course, line, out),
        Verb::At => read_at(course, line, out),
        Verb::Tick => read_tick(course, line, out),
        Verb::End => read_end(course, line, out),
        Verb::Epoch | Verb::Region | Verb::Start => Err(LineError::Because(PlanReason::Place)),
    }
}

/// Reads a line where the plan has come so far, and appends the lines of the scenario that it makes.
#[tactic(auto, unfolding(crate::specs::Plans::line_said))]
pub(crate) fn read_line(
    commands: &[Command],
    stage: &Stage,
    line: &[u8],
    scratch: &mut Vec<u8>,
    out: &mut Vec<u8>,
) -> Result<Stage, LineError>
    requires { are_good commands.now ≡ true }
    ensures { GivesLine (written out.old.items (line_said commands.now stage.now (words line.now)))
        out.new.items result }
{
    let Some((word, rest)) = split_word(line) else {
        return Err(LineError::Because(PlanReason::Word));
    };
    let Some(verb) = verb_of(word) else {
        return Err(LineError::Because(PlanReason::Word));
    };
    match stage {
        Stage::Opening => read_opening(verb, word, rest, out),
        Stage::Header(epoch) => read_header(*epoch, verb, word, rest, out),
        Stage::Frames(course) => read_course(commands, course, verb, word, rest, scratch, out),
        Stage::Ended => Err(LineError::Because(PlanReason::Behind)),
    }
}
