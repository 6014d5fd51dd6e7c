//! A log that is told in words as it comes, and kept as it is.

ghost use Rattle.std.specs.Prelude.{◌≡◌, ◌+◌, ◌<◌, ◌≤◌, length, IfOk, OnOk};
ghost use Rattle.fsw_outside.specs.Told.{WhereTold};
ghost use Rattle.fsw_outside.specs.Causes.{HasCause};
ghost use Rattle.fsw_outside.specs.Bytes.{Writes};
ghost use Rattle.fsw_outside.specs.Tally.{Adds};
ghost use Rattle.ground_tools.specs.Kept.{told_while, tallied_while};

use crate::frame_tellers::FrameTeller;
use crate::log_teller::LogTeller;
use crate::survey::Survey;
use crate::told_pieces::tell_piece;
use fsw_outside::{Failed, Sink};
use packet_forms::front;
use packet_log::put_bytes;
use std::alloc::Global;

/// How many bytes that are told of frames without lines wait to be written at most.
const BLOCK: usize = 65_536;

/// Why a log isn't told any further.
#[derive(Clone, Copy, Debug, PartialEq, Eq)]
pub enum Trouble {
    /// The words can't be written.
    Words,
    /// Memory ran out.
    Memory,
}

/// A sink between a rehearsal and two others. What comes is handed on to the log as it is, and what the log took is told to the
/// words, a sentence a line, and counted; in front of a frame's first sentence stands what was given to the frames up to it. It tells
/// what the log tells; where the words fail, or memory runs out, it fails from the next piece on.
#[derive(Drop)]
pub struct ToldLog<L: Sink + Drop, W: Sink + Drop, F: FrameTeller + Drop> {
    log: L,
    words: W,
    teller: LogTeller,
    frames: F,
    survey: Survey,
    // the sentence of a line, and all that is told of a piece
    sentence: Vec<u8>,
    told: Vec<u8>,
    trouble: Option<Trouble>,
    refusals: u64,
}

impl<L: Sink + Drop, W: Sink + Drop, F: FrameTeller + Drop> ToldLog<L, W, F> {
    /// A log of which nothing came yet. Lines are told by the seconds behind `epoch`, the time of frame 0, where it is known, and else
    /// by their frames; what these were given is told by `frames`.
    pub fn new(alloc: Global, epoch: Option<u32>, log: L, words: W, frames: F) -> ToldLog<L, W, F>
        ensures log { result.log ≡ log }
        ensures refusals { result.refusals ≡ 0 }
    {
        ToldLog {
            log,
            words,
            teller: LogTeller::new(epoch),
            frames,
            survey: Survey::new(alloc),
            sentence: Vec::new(alloc),
            told: Vec::new(alloc),
            trouble: None,
            refusals: 0,
        }
    }

    /// What came in all.
    pub fn survey(&self) -> &Survey {
        &self.survey
    }

    /// Why the log isn't told any further.
    pub fn trouble(&self) -> Option<Trouble> {
        self.trouble
    }

    /// The sink of the log.
    pub fn log(&self) -> &L {
        &self.log
    }

    /// The sink of the words.
    pub fn words(&self) -> &W {
        &self.words
    }

    /// The sinks of the log and of the words, where no more comes.
    pub fn into_sinks(self) -> (L, W)
        ensures { result.0 ≡ self.log }
    {
        let ToldLog { log, words, .. } = self;
        (log, words)
    }

    /// Writes a text behind the words.
    pub fn say(&mut self, text: &[u8]) -> Result<(), Trouble>
        ensures log { self.new.log ≡ self.old.log }
        ensures refusals { self.new.refusals ≡ self.old.refusals }
    {
        match put_bytes(&mut self.words, text) {
            Ok(()) => Ok(()),
            Err(_) => Err(Trouble::Words),
        }
    }

    /// Writes what is told and wasn't written, where it has so many bytes.
    fn write_told(&mut self, least: usize) -> Result<(), Trouble>
        ensures log { self.new.log ≡ self.old.log }
        ensures refusals { self.new.refusals ≡ self.old.refusals }
    {
        if self.told.len() < least {
            return Ok(());
        }
        let written = put_bytes(&mut self.words, self.told.as_slice());
        self.told.clear();
        match written {
            Ok(()) => Ok(()),
            Err(_) => Err(Trouble::Words),
        }
    }

    /// Tells what was given to the frames of a run of so many that no line of the log told of.
    pub fn tell_rest(&mut self, frames: u32) -> Result<(), Trouble>
        ensures log { self.new.log ≡ self.old.log }
        ensures refusals { self.new.refusals ≡ self.old.refusals }
    {
        self.told.clear();
        for frame in 0..frames {
            if self.frames.tell_frames(frame, &mut self.told).is_err() {
                return Err(Trouble::Memory);
            }
            self.write_told(BLOCK)?;
        }
        self.write_told(1)
    }

    /// Tells what the log took.
    fn tell(&mut self, piece: &[u8])
        ensures log { self.new.log ≡ self.old.log }
        ensures refusals { self.new.refusals ≡ self.old.refusals }
    {
        self.told.clear();
        let told = tell_piece(
            &mut self.teller,
            &mut self.frames,
            piece,
            &mut self.sentence,
            &mut self.told,
        );
        let counted = self.survey.take(piece);
        let written = put_bytes(&mut self.words, self.told.as_slice());
        if written.is_err() {
            self.trouble = Some(Trouble::Words);
        } else if told.is_err() || counted.is_err() {
            self.trouble = Some(Trouble::Memory);
        }
    }
}

impl<L: Sink + Drop, W: Sink + Drop, F: FrameTeller + Drop> Sink for ToldLog<L, W, F> {
    ghost held = { λ s. told_while s.refusals (L.held s.log) };

    ghost tally = { λ s. told_while s.refusals (L.tally s.log) };

    ghost faults = { λ s. L.faults s.log + s.refusals };

    ghost tallied = { λ s t tells. tallied_while s.refusals (L.held s.log) (L.tally s.log)
        (L.tallied s.log) t tells };

    fn write(&mut self, piece: &[u8]) -> Result<usize, Failed>
        requires { 0 < length piece.now }
        ensures count { IfOk result (λ n. (0 < n) × (n ≤ length piece.now)) }
        ensures content { WhereTold (told_while self.old.refusals (L.held self.old.log))
            (told_while self.new.refusals (L.held self.new.log)) (Writes result piece.now) }
        ensures tally { WhereTold (told_while self.old.refusals (L.tally self.old.log))
            (told_while self.new.refusals (L.tally self.new.log)) (Adds result piece.now) }
        ensures cause { HasCause (told_while self.new.refusals (L.held self.new.log))
            (L.faults self.old.log + self.old.refusals) (L.faults self.new.log
            + self.new.refusals) result }
        // Where it takes some, the log is as the log's own call of `write` leaves it, with the same bytes.
        ensures kept { OnOk result (self.new.refusals ≡ self.old.refusals) }
    {
        if self.trouble.is_some() {
            self.refusals = self.refusals.saturating_add(1);
            return Err(Failed);
        }
        match self.log.write(piece) {
            Ok(count) => {
                self.tell(front(piece, count));
                Ok(count)
            }
            Err(_) => Err(Failed),
        }
    }
}
