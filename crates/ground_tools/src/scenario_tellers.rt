//! What a scenario does, told beside the log of its rehearsal.

ghost use Rattle.std.specs.Prelude.{◌≡◌, ◌++◌, true, false, OnOk};
ghost use Rattle.scenario.specs.Standing.{Shows, is_finished};
ghost use Rattle.ground_tools.specs.Appended.{Appends};

use crate::frame_tellers::FrameTeller;
use input_words::{CounterWatch, FrameTime, GivenFile, HoldWatch, tell_files, tell_inputs};
use log_words::Vocabulary;
use packet_forms::{behind, front};
use scenario::{FrameInput, Item, Reader};
use std::alloc::{AllocError, Global};
use std::io::Read;

/// How many bytes of the text are read at once.
const PIECE: usize = 4_096;

/// Tells what a scenario does, frame by frame. It reads the scenario's text beside the rehearsal, no further than the frames that are asked
/// for, and keeps a piece of it, a frame and the counters that it watches.
#[derive(Drop)]
pub struct ScenarioTeller<T: Read + Drop> {
    alloc: Global,
    text: T,
    // a piece of the text, how many bytes were read into it, and how many of these the reader took
    piece: Vec<u8>,
    filled: usize,
    taken: usize,
    reader: Reader,
    next: u32,
    is_over: bool,
    epoch: Option<u32>,
    files: Vec<GivenFile>,
    has_told_files: bool,
    holds: HoldWatch,
    // none where the scenario's counters have no effect
    counters: Option<CounterWatch>,
}

/// Hands a reader more of the text, or its end. Answers whether it could.
fn feed_more<T: Read>(
    text: &mut T,
    piece: &mut [u8],
    filled: &mut usize,
    taken: &mut usize,
    reader: &mut Reader,
) -> bool
    requires { is_finished reader.old ≡ false }
{
    if *taken >= *filled {
        let Ok(count) = text.read(piece) else {
            return false;
        };
        if count == 0 {
            reader.finish();
            return true;
        }
        *filled = count;
        *taken = 0;
    }
    let fed = reader.feed(behind(front(piece, *filled), *taken));
    *taken = taken.saturating_add(fed);
    true
}

/// How the lines behind the FILEs are to be read.
const LEGEND: &[u8] =
    b"> the log follows; lines with this mark tell what the scenario does. A frame is a second, and what is sent in one is read in the next\n";

/// That there is no table, where there are no FILEs.
fn tables_line(has_files: bool) -> &'static [u8] {
    if has_files {
        b""
    } else {
        b"> no table: nobody monitors, takes checksums, dwells or starts sequences\n"
    }
}

/// Who gives the execution counters, and who does what Health and Safety asks for.
fn subjects_line(are_simulated: bool) -> &'static [u8] {
    if are_simulated {
        b"> three applications are simulated: they give the execution counters, and are restarted and deleted as HS asks\n"
    } else {
        b"> the scenario gives the execution counters: nobody restarts or deletes what HS asks for\n"
    }
}

/// Appends three texts.
fn push_three(
    first: &[u8],
    second: &[u8],
    third: &[u8],
    out: &mut Vec<u8>,
) -> Result<(), AllocError>
    ensures { OnOk result (out.new.items ≡ out.old.items
        ++ (first.now ++ (second.now ++ third.now))) }
{
    out.extend_from_slice(first)?;
    out.extend_from_slice(second)?;
    out.extend_from_slice(third)
}

/// Appends what the counters do that are watched, if any are.
fn tell_counters(
    alloc: Global,
    counters: &mut Option<CounterWatch>,
    time: FrameTime,
    input: &FrameInput,
    out: &mut Vec<u8>,
) -> Result<(), AllocError>
    ensures { OnOk result (Appends out.old.items out.new.items) }
{
    match counters {
        Some(counters) => {
            counters.tell(alloc, time, input.counters(), out)?;
            Ok(())
        }
        None => Ok(()),
    }
}

impl<T: Read + Drop> ScenarioTeller<T> {
    /// A teller of a scenario of which nothing was read. Lines are told by the seconds behind `epoch`, the time of frame 0, where it is
    /// known, and else by their frames; these are the FILEs. Counters are told where they have an effect.
    pub fn open(
        alloc: Global,
        text: T,
        epoch: Option<u32>,
        files: Vec<GivenFile>,
        has_counters: bool,
    ) -> Result<ScenarioTeller<T>, AllocError> {
        let Ok(reader) = Reader::open(alloc) else {
            return Err(AllocError);
        };
        let counters = if has_counters {
            Some(CounterWatch::new(alloc))
        } else {
            None
        };
        Ok(ScenarioTeller {
            alloc,
            text,
            piece: Vec::from_slice(alloc, &[0; PIECE])?,
            filled: 0,
            taken: 0,
            reader,
            next: 0,
            is_over: false,
            epoch,
            files,
            has_told_files: false,
            holds: HoldWatch::new(alloc),
            counters,
        })
    }

    /// Reads on to the next frame, and answers whether there is one.
    fn read_frame(&mut self) -> bool
        ensures { result ≡ true → Shows self.new.reader }
    {
        'items: for _ in 0..u64::MAX {
            match self.reader.next() {
                Item::Header => {}
                Item::Frame => return true,
                Item::End | Item::Bad { .. } => return false,
                Item::More => {
                    if !feed_more(
                        &mut self.text,
                        self.piece.as_mut_slice(),
                        &mut self.filled,
                        &mut self.taken,
                        &mut self.reader,
                    ) {
                        return false;
                    }
                }
            }
        }
        false
    }

    /// Appends the FILEs and what holds of the whole rehearsal, where they weren't told yet.
    fn tell_files_once(&mut self, out: &mut Vec<u8>) -> Result<(), AllocError>
        ensures { OnOk result (Appends out.old.items out.new.items) }
    {
        if self.has_told_files {
            return Ok(());
        }
        self.has_told_files = true;
        tell_files(self.files.as_slice(), out)?;
        let tables = tables_line(!self.files.as_slice().is_empty());
        push_three(tables, subjects_line(self.counters.is_none()), LEGEND, out)?;
        Ok(())
    }

    /// Appends what the frame that was read last has.
    fn tell_frame(&mut self, out: &mut Vec<u8>) -> Result<(), AllocError>
        requires { Shows self.old.reader }
        ensures { OnOk result (Appends out.old.items out.new.items) }
    {
        let time = FrameTime {
            epoch: self.epoch,
            frame: self.next,
        };
        let input = self.reader.frame();
        tell_counters(self.alloc, &mut self.counters, time, input, out)?;
        self.holds.tell(self.alloc, time, input.held(), out)?;
        let vocabulary = Vocabulary::of_applications();
        tell_inputs(&vocabulary, self.files.as_slice(), time, input, out)?;
        Ok(())
    }
}

impl<T: Read + Drop> FrameTeller for ScenarioTeller<T> {
    fn tell_frames(&mut self, last: u32, out: &mut Vec<u8>) -> Result<(), AllocError> {
        self.tell_files_once(out)?;
        'frames: for _ in self.next..last.saturating_add(1) {
            if self.is_over || !self.read_frame() {
                self.is_over = true;
                return Ok(());
            }
            self.tell_frame(out)?;
            self.next = self.next.saturating_add(1);
        }
        Ok(())
    }
}
