//! What the good lines so far come to, and what one more line is behind them.
ghost use Rattle.std.specs.Prelude.{◌≡◌, ◌≤◌, ◌<◌, ◌+◌, ◌∷◌, [], true, false, if◌then◌else◌, is_none, ℕ, List, length, nat_lt, ◌||◌, IfOk, Ok, Some, None};

use crate::frame::FrameInput;
use crate::reason::Reason;
use crate::regions::RegionList;
use crate::sentence::{
    Place, Sentence, Verb, behind_send, line_says, may_stand, read_send, tick_says,
};
use fsw_outside::NoMemory;
use memory_window::{Map, is_mapped};
use packet_forms::PACKET_BYTES;
use std::alloc::{AllocFailed, Global};

/// The longest line, in bytes without its LF.
const LINE_BYTES: usize = 640;

/// The longest text, in bytes.
const TEXT_BYTES: u32 = 16_777_216;

/// The most items of a frame.
const FRAME_ITEMS: usize = 64;

/// The most frames of a text.
const FRAMES: u32 = 100_000;

/// The header of a scenario.
#[derive(Clone, Copy, Debug)]
pub struct Header {
    /// The time of the first frame, in seconds, at most 4,294,000,000.
    pub epoch: u32,
    /// The regions of memory.
    pub map: Map,
}

/// What the good lines so far come to.
#[derive(Drop)]
pub(crate) struct Progress {
    pub(crate) place: Place,
    pub(crate) epoch: u32,
    pub(crate) regions: RegionList,
    pub(crate) header: Option<Header>,
    pub(crate) frame: Box<FrameInput>,
    // The frame was ended and is still held, to be looked at.
    pub(crate) shown: bool,
    pub(crate) ticks: u32,
    pub(crate) lines: u32,
    pub(crate) bytes: u32,
    ghost few: { ticks ≤ 100000 },
    ghost numbered: { lines ≤ bytes },
    ghost small: { bytes ≤ 16777216 },
}

impl Progress {
    ghost use Rattle.scenario.specs.declared.reason.Reason.{Reason};
    ghost use Rattle.scenario.specs.Frames.{refusal, room_for_item};
    ghost use Rattle.scenario.specs.FrameLists.{items_in};
    ghost use Rattle.memory_window.specs.Regions.{map_fault_of};
    ghost use Rattle.scenario.specs.Sentences.{Begins, Gives, IsPlaced, packet_of};
    ghost use Rattle.scenario.specs.Texts.{Before, nothing, reads, passed, is_too_long};
    ghost use Rattle.scenario.specs.Following.{Follows, HasRoom, HasRoomFor, KeepsFrame, CanSend, PassesSend};

    pub(crate) fn open(alloc: Global) -> Result<Progress, NoMemory>
        ensures follows { IfOk result (λ p. Follows p nothing) }
        ensures hidden { IfOk result (λ p. p.shown ≡ false) }
    {
        let frame = Box::new(alloc, FrameInput::new())?;
        Ok(Progress {
            place: Place::Opening,
            epoch: 0,
            regions: RegionList::new(),
            header: None,
            frame,
            shown: false,
            ticks: 0,
            lines: 0,
            bytes: 0,
        })
    }

    /// Lets the frame go that was shown.
    pub(crate) fn begin(&mut self)
        ensures follows { (old : Before) → Follows self.old old → Follows self.new old }
        ensures hidden { self.new.shown ≡ false }
    {
        if self.shown {
            self.frame.clear();
            self.shown = false;
        }
    }

    fn room_for_item(&self) -> Option<Reason>
        requires { self.now.shown ≡ false }
        ensures value { (old : Before) → Follows self.now old
            → result ≡ room_for_item old.sentences }
        ensures room { result ≡ None → items_in self.now.frame.value < 64 }
    {
        if self.frame.len() < FRAME_ITEMS {
            return None;
        }
        Some(Reason::TooMany)
    }

    fn map_refusal(&self) -> Option<Reason>
        ensures value { result ≡ (if is_none (map_fault_of self.now.regions) then None
            else Some Reason.Map) }
        ensures room { result ≡ None → map_fault_of self.now.regions ≡ None }
    {
        match Map::new(self.regions.as_slice()) {
            Ok(_) => None,
            Err(_) => Some(Reason::Map),
        }
    }

    #[tactic(auto, unfolding(crate::specs::Frames::refusal))]
    fn tick_refusal(&self) -> Option<Reason>
        ensures value { (old : Before) → Follows self.now old
            → result ≡ refusal old.sentences Sentence.Tick }
        ensures room { result ≡ None → HasRoom self.now Sentence.Tick }
    {
        if self.ticks < FRAMES {
            return None;
        }
        Some(Reason::TooLong)
    }

    /// Why a sentence can't stand here, beside its place.
    #[tactic(auto, unfolding(crate::specs::Frames::refusal))]
    fn refusal(&self, said: &Sentence) -> Option<Reason>
        requires { self.now.shown ≡ false }
        ensures value { (old : Before) → Follows self.now old
            → result ≡ refusal old.sentences said.now }
        ensures room { result ≡ None → HasRoom self.now said.now }
    {
        match said {
            Sentence::Epoch(_) => None,
            Sentence::Region(_) => {
                if self.regions.as_slice().len() < 8 {
                    return None;
                }
                Some(Reason::Map)
            }
            Sentence::Start => self.map_refusal(),
            Sentence::Send(_) => self.room_for_item(),
            Sentence::Count(_) => self.room_for_item(),
            Sentence::Upset(upset) => {
                if !is_mapped(self.regions.as_slice(), upset.at) {
                    return Some(Reason::Map);
                }
                self.room_for_item()
            }
            Sentence::Hold(_) => self.room_for_item(),
            Sentence::Activate(_) => self.room_for_item(),
            Sentence::Tick => self.tick_refusal(),
            Sentence::End => None,
        }
    }

    fn is_too_long(&self, line: &[u8], takes: u32) -> bool
        requires { takes ≤ 1000 }
        ensures { result ≡ (nat_lt 640 (length line.now)
            || nat_lt 16777216 (self.now.bytes + takes)) }
    {
        line.len() > LINE_BYTES || self.bytes + takes > TEXT_BYTES
    }

    /// Whether a line `tick` is good that takes so many bytes, or the first reason why it is bad.
    #[tactic(auto, unfolding(crate::specs::Texts::reads, crate::specs::Frames::refusal))]
    pub(crate) fn reads_tick(&self, line: &[u8], takes: u32) -> Result<(), Reason>
        requires hidden { self.now.shown ≡ false }
        requires tick { Begins line.now Verb.Tick [] }
        requires takes { takes ≤ 1000 }
        ensures value { (old : Before) → Follows self.now old
            → Gives (λ _. Some Sentence.Tick) result
            (reads old (record { bytes = line.now; takes = takes })) }
        ensures room { IfOk result (λ _. HasRoomFor self.now (Some Sentence.Tick)) }
        ensures placed { IfOk result (λ _. IsPlaced self.now.place (Some Sentence.Tick)) }
        ensures small { IfOk result (λ _. self.now.bytes + takes ≤ 16777216) }
    {
        if self.is_too_long(line, takes) {
            return Err(Reason::TooLong);
        }
        tick_says(self.place)?;
        match self.tick_refusal() {
            Some(reason) => Err(reason),
            None => Ok(()),
        }
    }

    /// Whether a line that takes so many bytes may send a packet.
    fn may_send(&self, line: &[u8], takes: u32) -> bool
        requires hidden { self.now.shown ≡ false }
        requires takes { takes ≤ 1000 }
        ensures { result ≡ true → CanSend self.now line.now takes }
    {
        !self.is_too_long(line, takes)
            && may_stand(self.place, Verb::Send)
            && self.frame.len() < FRAME_ITEMS
    }

    /// Passes a line that takes so many bytes where it is a good one of `send`, a space and digits with which it ends: its packet is
    /// written where it lies in the frame. Of any other line it says so, and nothing changes.
    pub(crate) fn pass_send(
        &mut self,
        line: &[u8],
        takes: u32,
        places: &mut [u8; PACKET_BYTES],
    ) -> bool
        requires hidden { self.old.shown ≡ false }
        requires takes { takes ≤ 1000 }
        requires some { 0 < takes }
        ensures passes { result ≡ true → PassesSend self.old line.now takes self.new }
        ensures kept { result ≡ false → self.new ≡ self.old }
    {
        let Some(rest) = behind_send(line) else {
            return false;
        };
        if !self.may_send(line, takes) {
            return false;
        }
        let Some(count) = read_send(rest, places) else {
            return false;
        };
        self.pass_packet(&places[..count], takes)
    }

    /// Passes a line that sends the packet of these bytes and takes so many of the text's, and answers whether they are one. Where
    /// they aren't nothing changes.
    fn pass_packet(&mut self, bytes: &[u8], takes: u32) -> bool
        requires hidden { self.old.shown ≡ false }
        requires room { items_in self.old.frame.value < 64 }
        requires some { 0 < takes }
        requires small { self.old.bytes + takes ≤ 16777216 }
        ensures good { result ≡ true → packet_of bytes.now ≡ Ok bytes.now }
        ensures follows { result ≡ true → (old : Before) (line : List ℕ) → Follows self.old old
            → Follows self.new (passed old (record { bytes = line; takes = takes })
            (Some (Sentence.Send bytes.now))) }
        ensures shows { result ≡ true → KeepsFrame self.old
            (Some (Sentence.Send bytes.now)) self.new }
        ensures kept { result ≡ false → self.new ≡ self.old }
    {
        if !self.frame.send_bytes(bytes) {
            return false;
        }
        self.bytes += takes;
        self.lines += 1;
        self.place = Place::Inside;
        true
    }

    /// What a line says that takes so many bytes, or the first reason why it is bad. `places` are for the bytes of a packet.
    #[tactic(auto, unfolding(crate::specs::Texts::reads))]
    pub(crate) fn reads(
        &self,
        line: &[u8],
        takes: u32,
        places: &mut [u8; PACKET_BYTES],
        said: &mut Option<Sentence>,
    ) -> Result<(), Reason>
        requires hidden { self.now.shown ≡ false }
        requires takes { takes ≤ 1000 }
        ensures value { (old : Before) → Follows self.now old
            → Gives (λ _. said.new) result (reads old (record {
              bytes = line.now;
              takes = takes;
            })) }
        ensures room { IfOk result (λ _. HasRoomFor self.now said.new) }
        ensures placed { IfOk result (λ _. IsPlaced self.now.place said.new) }
        ensures small { IfOk result (λ _. self.now.bytes + takes ≤ 16777216) }
    {
        if self.is_too_long(line, takes) {
            return Err(Reason::TooLong);
        }
        line_says(self.place, line, places, said)?;
        match said {
            Some(sentence) => match self.refusal(sentence) {
                Some(reason) => Err(reason),
                None => Ok(()),
            },
            None => Ok(()),
        }
    }

    fn start(&mut self)
        requires { map_fault_of self.old.regions ≡ None }
        ensures { self.new ≡ record self.old {
          place = Place.Between;
          header = Some
              (record { epoch = self.old.epoch; map = self.old.regions });
        } }
    {
        self.place = Place::Between;
        match Map::new(self.regions.as_slice()) {
            Ok(map) => {
                self.header = Some(Header {
                    epoch: self.epoch,
                    map,
                });
            }
            Err(_) => unreachable!(),
        }
    }

    /// Adds what a good line says.
    fn say(&mut self, said: &Sentence)
        requires hidden { self.old.shown ≡ false }
        requires room { HasRoom self.old said.now }
        ensures follows { (old : Before) → Follows self.old old
            → Follows self.new (record old { sentences = said.now ∷ old.sentences }) }
        ensures shows { KeepsFrame self.old (Some said.now) self.new }
    {
        match said {
            Sentence::Epoch(time) => {
                self.epoch = *time;
                self.place = Place::Header;
                self.frame.clear();
            }
            Sentence::Region(region) => {
                self.regions.push(*region);
                self.place = Place::Header;
                self.frame.clear();
            }
            Sentence::Start => {
                self.start();
                self.frame.clear();
            }
            Sentence::Tick => {
                self.ticks += 1;
                self.place = Place::Between;
                self.shown = true;
            }
            Sentence::End => {
                self.place = Place::Ended;
                self.frame.clear();
            }
            Sentence::Send(packet) => {
                self.place = Place::Inside;
                self.frame.send(packet);
            }
            Sentence::Count(counter) => {
                self.place = Place::Inside;
                self.frame.count(*counter);
            }
            Sentence::Upset(upset) => {
                self.place = Place::Inside;
                self.frame.upset(*upset);
            }
            Sentence::Hold(app) => {
                self.place = Place::Inside;
                self.frame.hold(*app);
            }
            Sentence::Activate(file) => {
                self.place = Place::Inside;
                self.frame.activate(*file);
            }
        }
    }

    /// Passes a good line that says `tick` and takes so many bytes.
    pub(crate) fn pass_tick(&mut self, takes: u32)
        requires hidden { self.old.shown ≡ false }
        requires room { HasRoomFor self.old (Some Sentence.Tick) }
        requires some { 0 < takes }
        requires small { self.old.bytes + takes ≤ 16777216 }
        ensures follows { (old : Before) (line : List ℕ) → Follows self.old old
            → Follows self.new (passed old (record { bytes = line; takes = takes })
            (Some Sentence.Tick)) }
        ensures shows { KeepsFrame self.old (Some Sentence.Tick) self.new }
    {
        self.bytes += takes;
        self.lines += 1;
        self.ticks += 1;
        self.place = Place::Between;
        self.shown = true;
    }

    /// Passes a good line that takes so many bytes.
    pub(crate) fn pass(&mut self, said: &Option<Sentence>, takes: u32)
        requires hidden { self.old.shown ≡ false }
        requires room { HasRoomFor self.old said.now }
        requires some { 0 < takes }
        requires small { self.old.bytes + takes ≤ 16777216 }
        ensures follows { (old : Before) (line : List ℕ) → Follows self.old old
            → Follows self.new (passed old (record { bytes = line; takes = takes }) said.now) }
        ensures shows { KeepsFrame self.old said.now self.new }
    {
        self.bytes += takes;
        self.lines += 1;
        match said {
            Some(said) => self.say(said),
            None => {}
        }
    }
}
