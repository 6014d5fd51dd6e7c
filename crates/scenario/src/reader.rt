//! The reader of a text that comes in pieces.
ghost use Rattle.scenario.specs.Answers.{item_said};
ghost use Rattle.scenario.specs.Standing.{tick_line};
ghost use Rattle.std.specs.Prelude.{◌≡◌, ◌≤◌, ◌<◌, ◌+◌, ◌==◌, ◌++◌, ◌∷◌, [], ℕ, List, true, false, length, not, take, min, position, slice_index, IfOk, Some};
ghost use Rattle.std.specs.List.{prefix_len};

use crate::frame::FrameInput;
use crate::item::Item;
use crate::line_buffer::{LINE_ROOM, LineBuffer, NEAR};
use crate::progress::{Header, Progress};
use crate::reason::Reason;
use crate::sentence::{Place, Sentence, is_tick};
use fsw_outside::NoMemory;
use memchr::memchr;
use packet_forms::PACKET_BYTES;
use std::alloc::Global;
use std::simd::prelude::*;

/// Reads a scenario's text in pieces, and gives its header and its frames one after another.
///
/// It keeps one line, one frame and the header. All its memory is taken by `open`.
#[derive(Drop)]
pub struct Reader {
    line: Box<LineBuffer>,
    // The LF of the line was fed.
    whole: bool,
    finished: bool,
    progress: Progress,
    // What the last line but `tick` lines said, and the bytes of its packet. Both stay here, since empty places for them would
    // be wiped for each line.
    said: Option<Sentence>,
    places: [u8; PACKET_BYTES],
}

/// The first bytes, `most` at most.
fn front(bytes: &[u8], most: usize) -> &[u8]
    ensures { result.now ≡ take (min most (length bytes.now)) bytes.now }
{
    if bytes.len() <= most {
        bytes
    } else {
        &bytes[..most]
    }
}

/// The place of the first LF.
fn find_lf(bytes: &[u8]) -> Option<usize>
    ensures { result ≡ position (λ b. b == 10) bytes.now }
{
    if bytes.len() >= NEAR {
        let at = near_lf(bytes);
        if at < NEAR {
            return Some(at);
        }
    }
    memchr(b'\n', bytes)
}

/// The place of the first LF among the first 64 bytes, and 64 where none stands there.
#[inline(always)]
fn near_lf(bytes: &[u8]) -> usize
    requires { NEAR ≤ length bytes.now }
    ensures { result ≡ prefix_len (λ b. not (b == 10)) (take NEAR bytes.now) }
{
    let hits = u8x64::from_slice(bytes)
        .simd_eq(u8x64::splat(b'\n'))
        .to_bitmask();
    if hits == 0 {
        NEAR
    } else {
        hits.trailing_zeros() as usize
    }
}

/// Whether a piece begins with the line `tick` and its LF.
#[inline(always)]
fn begins_with_tick(piece: &[u8]) -> bool
    ensures { result ≡ true → (rest : List ℕ) × (piece.now ≡ tick_line ++ rest) }
{
    match piece {
        [b't', b'i', b'c', b'k', b'\n', ..] => true,
        _ => false,
    }
}

/// What is answered at a line that gives an item.
fn item_of(said: &Option<Sentence>) -> Option<Item>
    ensures { result ≡ item_said said.now }
{
    match said {
        None => None,
        Some(Sentence::Start) => Some(Item::Header),
        Some(Sentence::Tick) => Some(Item::Frame),
        Some(
            Sentence::Epoch(_)
            | Sentence::Region(_)
            | Sentence::Send(_)
            | Sentence::Count(_)
            | Sentence::Upset(_)
            | Sentence::Hold(_)
            | Sentence::Activate(_)
            | Sentence::End,
        ) => None,
    }
}

impl Reader {
    ghost use Rattle.scenario.specs.Answers.{answer_at_end, end_answer, IsLast, IsItem};
    ghost use Rattle.scenario.specs.Texts.{Text, Given, Head, Whole, Bad, reading};
    ghost use Rattle.scenario.specs.Reasons.{number_of};
    ghost use Rattle.scenario.specs.declared.reason.Reason.{Reason};
    ghost use Rattle.scenario.specs.Standing.{Stands, Waits, Shows, fed, closed, has_line, left, header_in, frame_in, is_finished, Passes, TakesTick};
    ghost use Rattle.scenario.specs.Following.{HasRoomFor};

    /// A reader of a text of which nothing was fed yet.
    ///
    /// # Errors
    /// `NoMemory` where the memory for a line or a frame isn't given.
    pub fn open(alloc: Global) -> Result<Reader, NoMemory>
        ensures stands { IfOk result (λ r. Stands r (record { bytes = []; closed = false }) []) }
        ensures left { IfOk result (λ r. left r ≡ 0) }
        ensures waits { IfOk result Waits }
        ensures finished { IfOk result (λ r. is_finished r ≡ false) }
    {
        let line = Box::new(alloc, LineBuffer::new())?;
        let progress = Progress::open(alloc)?;
        Ok(Reader {
            line,
            whole: false,
            finished: false,
            progress,
            said: None,
            places: [0; PACKET_BYTES],
        })
    }

    /// Takes a first part of the piece, and answers how many bytes. `finish` wasn't called.
    ///
    /// It takes none where a line is there that `next` has to look at.
    pub fn feed(&mut self, piece: &[u8]) -> usize
        requires { is_finished self.old ≡ false }
        ensures taken { result ≤ length piece.now }
        ensures stands { (t : Text) (gave : List Given) → Stands self.old t gave
            → Stands self.new (fed t (take result piece.now)) gave }
        ensures left { left self.new ≡ left self.old + result }
        ensures some { Waits self.old → 0 < length piece.now → 0 < result }
        ensures finished { is_finished self.new ≡ false }
    {
        if self.has_line() {
            return 0;
        }
        let front = front(piece, LINE_ROOM - self.line.len());
        match find_lf(front) {
            Some(at) => {
                self.append_front(front, at);
                self.whole = true;
                at + 1
            }
            None => {
                self.append(front);
                front.len()
            }
        }
    }

    /// Takes the line `tick` with its LF that the piece begins with, where no line has begun and it is a good one: then it answers
    /// true, five bytes were fed, and the frame can be looked at. Else nothing was fed.
    ///
    /// Most lines of a long text are such lines, and here they are neither searched for their LF nor copied.
    #[inline(always)]
    pub fn take_tick(&mut self, piece: &[u8]) -> bool
        ensures stands { (t : Text) (gave : List Given) → Stands self.old t gave
            → TakesTick result piece.now t gave self.new }
        ensures enough { result ≡ true → 5 ≤ length piece.now }
        ensures shows { result ≡ true → Shows self.new }
        ensures left { left self.new ≡ left self.old }
        ensures finished { is_finished self.new ≡ is_finished self.old }
    {
        if !self.is_between_lines() {
            return false;
        }
        if !begins_with_tick(piece) {
            return false;
        }
        self.progress.begin();
        match self.progress.reads_tick(b"tick", 5) {
            Ok(()) => {
                self.progress.pass_tick(5);
                true
            }
            Err(_) => false,
        }
    }

    /// Says that no more bytes come.
    pub fn finish(&mut self)
        ensures stands { (t : Text) (gave : List Given) → Stands self.old t gave
            → Stands self.new (closed t) gave }
        ensures left { left self.new ≡ left self.old }
        ensures finished { is_finished self.new ≡ true }
    {
        self.finished = true;
    }

    /// The next item, or why there is none.
    ///
    /// `More` comes where the bytes fed so far hold no whole further item and `finish` wasn't called, `End`
    /// where the text ended well, and `Bad` at the first bad line or where the text is unended.
    pub fn next(&mut self) -> Item
        ensures header { result ≡ Item.Header → (t : Text) (gave : List Given)
            → Stands self.old t gave
            → Stands self.new t (gave ++ header_in self.new ∷ []) }
        ensures frame { result ≡ Item.Frame → (t : Text) (gave : List Given)
            → Stands self.old t gave
            → Stands self.new t (gave ++ frame_in self.new ∷ []) }
        ensures last { IsLast result → (t : Text) (gave : List Given) → Stands self.old t gave
            → Stands self.new t gave × (gave ≡ (reading t).items)
            × (result ≡ answer_at_end (reading t).ending) }
        ensures unclosed { result ≡ Item.More → is_finished self.new ≡ false }
        ensures finished { is_finished self.new ≡ is_finished self.old }
        ensures left { left self.new ≤ left self.old }
        ensures item { IsItem result → left self.new < left self.old }
        ensures waits { result ≡ Item.More → Waits self.new }
        ensures shows { result ≡ Item.Frame → Shows self.new }

        // Where an item's line or the bad line ends, the bytes fed so far end.
        ensures whole { IsItem result → left self.new ≡ 0 }
        ensures stop { IsItem result → (t : Text) (gave : List Given) → Stands self.old t gave
            → slice_index (reading t).stops (length gave) ≡ length t.bytes }
        ensures bad { (line : ℕ) (reason : Reason) (t : Text) (gave : List Given) → IsLast result
            → Stands self.old t gave
            → (reading t).ending ≡ Bad line reason
            → slice_index (reading t).stops (length gave) ≡ length t.bytes }
    {
        self.progress.begin();
        if !self.has_line() {
            return self.at_end();
        }
        let takes = self.takes();
        let line = self.line.bytes();
        if is_tick(line) {
            return match self.progress.reads_tick(line, takes) {
                Ok(()) => self.pass_tick(),
                Err(reason) => self.bad(reason),
            };
        }
        if self.progress.pass_send(line, takes, &mut self.places) {
            return self.close_line();
        }
        match self
            .progress
            .reads(line, takes, &mut self.places, &mut self.said)
        {
            Ok(()) => self.pass(),
            Err(reason) => self.bad(reason),
        }
    }

    /// The header. It was given.
    pub fn header(&self) -> &Header
        requires { (t : Text) × (gave : List Given) × Stands self.now t gave × (0 < length gave) }
        ensures { (t : Text) (gave : List Given) → Stands self.now t gave → 0 < length gave
            → (frames : List Given) × (gave ≡ Head result.now.epoch result.now.map ∷ frames) }
    {
        match &self.progress.header {
            Some(header) => header,
            None => unreachable!(),
        }
    }

    /// The frame that the last `next` gave.
    pub fn frame(&self) -> &FrameInput
        requires { Shows self.now }
        ensures { Whole result.now ≡ frame_in self.now }
    {
        &self.progress.frame
    }

    fn has_line(&self) -> bool
        ensures { result ≡ has_line self.now }
    {
        self.whole || self.line.len() >= LINE_ROOM || self.finished && self.line.len() > 0
    }

    /// Whether no line has begun, and the text's end wasn't told.
    #[inline(always)]
    fn is_between_lines(&self) -> bool
        ensures { result ≡ true → (self.now.line.value ≡ []) × (self.now.whole ≡ false)
            × (is_finished self.now ≡ false) }
    {
        self.line.len() == 0 && !self.whole && !self.finished
    }

    /// How many bytes the line takes, its LF included.
    fn takes(&self) -> u32
        ensures value { result ≡ left self.now }
        ensures bound { result ≤ 642 }
    {
        let len = self.line.len() as u32;
        if self.whole { len + 1 } else { len }
    }

    fn append(&mut self, bytes: &[u8])
        requires { length self.old.line.value + length bytes.now ≤ 641 }
        ensures others { self.new ≡ record self.old { line = self.new.line } }
        ensures line { self.new.line.value ≡ self.old.line.value ++ bytes.now }
    {
        self.line.append(bytes);
    }

    fn append_front(&mut self, bytes: &[u8], count: usize)
        requires within { count ≤ length bytes.now }
        requires room { length self.old.line.value + count ≤ 641 }
        ensures others { self.new ≡ record self.old { line = self.new.line } }
        ensures line { self.new.line.value ≡ self.old.line.value ++ take count bytes.now }
    {
        self.line.append_front(bytes, count);
    }

    /// What is answered where no line is left.
    fn at_end(&self) -> Item
        ensures { result ≡ end_answer self.now.finished self.now.progress.place
            self.now.progress.lines }
    {
        if !self.finished {
            return Item::More;
        }
        match self.progress.place {
            Place::Ended => Item::End,
            Place::Opening | Place::Header | Place::Between | Place::Inside => Item::Bad {
                line: self.progress.lines,
                reason: Reason::Unended.number(),
            },
        }
    }

    /// What is answered at a line that is bad for this reason.
    fn bad(&self, reason: Reason) -> Item
        ensures { result ≡ Item.Bad (self.now.progress.lines + 1) (number_of reason) }
    {
        Item::Bad {
            line: self.progress.lines + 1,
            reason: reason.number(),
        }
    }

    /// Passes a good line `tick`, and answers its frame.
    fn pass_tick(&mut self) -> Item
        requires hidden { self.old.progress.shown ≡ false }
        requires line { has_line self.old ≡ true }
        requires room { HasRoomFor self.old.progress (Some Sentence.Tick) }
        requires small { self.old.progress.bytes + left self.old ≤ 16777216 }
        ensures { Passes self.old (Some Sentence.Tick) result self.new }
    {
        let takes = self.takes();
        self.progress.pass_tick(takes);
        self.line.clear();
        self.whole = false;
        Item::Frame
    }

    /// Answers what comes behind a line that was passed and gives no item.
    fn close_line(&mut self) -> Item
        ensures line { self.new.line.value ≡ [] }
        ensures others { self.new ≡ record self.old { line = self.new.line; whole = false } }
        ensures answer { result ≡ end_answer self.old.finished self.old.progress.place
            self.old.progress.lines }
    {
        self.line.clear();
        self.whole = false;
        self.at_end()
    }

    /// Passes a good line, and answers its item or what comes behind it.
    fn pass(&mut self) -> Item
        requires hidden { self.old.progress.shown ≡ false }
        requires line { has_line self.old ≡ true }
        requires room { HasRoomFor self.old.progress self.old.said }
        requires small { self.old.progress.bytes + left self.old ≤ 16777216 }
        ensures { Passes self.old self.old.said result self.new }
    {
        let item = item_of(&self.said);
        let takes = self.takes();
        self.progress.pass(&self.said, takes);
        self.line.clear();
        self.whole = false;
        match item {
            Some(item) => item,
            None => self.at_end(),
        }
    }
}
