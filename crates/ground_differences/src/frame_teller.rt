//! The lines of two logs, told frame by frame.

ghost use Rattle.std.specs.Prelude.{◌≡◌, OnOk, None, IsSome};
ghost use Rattle.ground_differences.specs.Written.{IsWrittenOn};
ghost use Rattle.ground_differences.specs.Same.{uncounted_items};
ghost use Rattle.ground_differences.specs.Compared.{IsNoneWhere};

use crate::same_lines::{is_same_frame, is_same_line};
use ground_files::Fault;
use ground_logs::write_made;
use log_lines::LogLine;
use log_words::{Vocabulary, show_line};
use std::alloc::{AllocError, Global};
use std::io::Write;

/// How many pairs of lines are compared in a frame, before the lines of one log are told whole and then those of the other.
const MOST_PAIRS: usize = 4_000_000;

/// How far what is told lies from the first difference.
#[derive(Clone, Copy, Debug, PartialEq, Eq)]
enum Around {
    Before,
    /// In the first frame that differs, which is told whole.
    First,
    /// In the frame behind that, which is told whole too.
    Behind,
    Far,
}

/// What was found.
#[derive(Clone, Copy, Debug, PartialEq, Eq)]
pub struct Found {
    /// The first frame whose lines differ.
    pub first: Option<u32>,
    /// How many lines stand in the first log alone.
    pub gone: u64,
    /// How many stand in the second alone.
    pub come: u64,
}

/// Tells lines in sentences, each behind a mark.
#[derive(Drop)]
struct Marked {
    epoch: Option<u32>,
    block: Vec<u8>,
}

impl Marked {
    /// Tells a line behind a mark.
    fn tell<W: Write>(&mut self, mark: &[u8], line: &LogLine, out: &mut W) -> Result<(), Fault>
        ensures { OnOk result (IsWrittenOn (W.contents out.old) (W.contents out.new)) }
    {
        self.block.clear();
        self.block.extend_from_slice(mark)?;
        show_line(
            &Vocabulary::of_applications(),
            self.epoch,
            line,
            &mut self.block,
        )?;
        self.block.push(b'\n').map_err(AllocError::from)?;
        write_made(self.block.as_slice(), out)
    }

    /// Tells lines behind a mark.
    #[tactic(auto, using(crate::proofs::WrittenLemmas::written_none, crate::proofs::WrittenLemmas::written_more, crate::proofs::WrittenLemmas::written_then))]
    fn tell_all<W: Write>(
        &mut self,
        mark: &[u8],
        lines: &[LogLine],
        out: &mut W,
    ) -> Result<(), Fault>
        ensures { OnOk result (IsWrittenOn (W.contents out.old) (W.contents out.new)) }
    {
        for line in lines {
            self.tell(mark, line, out)?;
        }
        Ok(())
    }
}

/// Tells lines of two logs.
#[derive(Drop)]
pub struct Teller {
    marked: Marked,
    around: Around,
    before: Vec<LogLine>,
    found: Found,
}

impl Teller {
    /// A teller to which nothing came yet. Lines are told by the seconds behind `epoch`, the time of frame 0, where it is known, and
    /// else by their frames.
    pub fn new(alloc: Global, epoch: Option<u32>) -> Teller
        ensures { result.found.first ≡ None }
    {
        Teller {
            marked: Marked {
                epoch,
                block: Vec::new(alloc),
            },
            around: Around::Before,
            before: Vec::new(alloc),
            found: Found {
                first: None,
                gone: 0,
                come: 0,
            },
        }
    }

    /// What was found so far.
    pub fn found(&self) -> Found
        ensures { result ≡ self.now.found }
    {
        self.found
    }

    /// Tells a line that stands in both.
    fn common<W: Write>(&mut self, line: &LogLine, out: &mut W) -> Result<(), Fault>
        ensures written { OnOk result (IsWrittenOn (W.contents out.old) (W.contents out.new)) }
        ensures found { OnOk result (self.new.found ≡ self.old.found) }
    {
        match self.around {
            Around::First | Around::Behind => self.marked.tell(b"  ", line, out),
            Around::Before | Around::Far => Ok(()),
        }
    }

    /// Begins to tell differences, behind the frame before the first of them.
    fn begin<W: Write>(&mut self, frame: u32, out: &mut W) -> Result<(), Fault>
        ensures written { OnOk result (IsWrittenOn (W.contents out.old) (W.contents out.new)) }
        ensures found { OnOk result (IsSome self.new.found.first) }
    {
        if self.found.first.is_some() {
            return Ok(());
        }
        self.found.first = Some(frame);
        self.around = Around::First;
        self.marked.tell_all(b"  ", self.before.as_slice(), out)
    }

    /// Tells a frame that is the same in both.
    fn tell_same<W: Write>(&mut self, lines: &[LogLine], out: &mut W) -> Result<(), Fault>
        ensures written { OnOk result (IsWrittenOn (W.contents out.old) (W.contents out.new)) }
        ensures found { OnOk result (self.new.found ≡ self.old.found) }
    {
        match self.around {
            Around::Before => {
                self.before.clear();
                self.before.extend_from_slice(lines)?;
                Ok(())
            }
            Around::Behind => {
                self.around = Around::Far;
                self.marked.tell_all(b"  ", lines, out)
            }
            Around::First | Around::Far => Ok(()),
        }
    }

    /// Tells a frame of both logs.
    #[tactic(auto, using(crate::proofs::WrittenLemmas::written_none, crate::proofs::WrittenLemmas::written_more, crate::proofs::WrittenLemmas::written_then))]
    pub fn tell_both<W: Write>(
        &mut self,
        frame: u32,
        ones: &[LogLine],
        others: &[LogLine],
        out: &mut W,
    ) -> Result<(), Fault>
        ensures written { OnOk result (IsWrittenOn (W.contents out.old) (W.contents out.new)) }
        ensures found { OnOk result (IsNoneWhere self.old.found.first
            (uncounted_items ones.now ≡ uncounted_items others.now) self.new.found.first) }
    {
        if is_same_frame(ones, others) {
            return self.tell_same(ones, out);
        }
        self.begin(frame, out)?;
        self.tell_frame(ones, others, out)?;
        self.end_frame();
        Ok(())
    }

    /// Says that a frame whose lines differ was told.
    fn end_frame(&mut self)
        ensures { self.new.found ≡ self.old.found }
    {
        self.around = match self.around {
            Around::First => Around::Behind,
            _ => Around::Far,
        };
    }

    /// Tells a line that stands in the first log alone.
    fn tell_gone<W: Write>(&mut self, line: &LogLine, out: &mut W) -> Result<(), Fault>
        ensures written { OnOk result (IsWrittenOn (W.contents out.old) (W.contents out.new)) }
        ensures first { OnOk result (self.new.found.first ≡ self.old.found.first) }
    {
        self.found.gone = self.found.gone.saturating_add(1);
        self.marked.tell(b"- ", line, out)
    }

    /// Tells lines that stand in the second log alone.
    fn tell_come<W: Write>(&mut self, lines: &[LogLine], out: &mut W) -> Result<(), Fault>
        ensures written { OnOk result (IsWrittenOn (W.contents out.old) (W.contents out.new)) }
        ensures first { OnOk result (self.new.found.first ≡ self.old.found.first) }
    {
        self.found.come = self.found.come.saturating_add(lines.len() as u64);
        self.marked.tell_all(b"+ ", lines, out)
    }

    /// Tells a frame whose lines differ.
    fn tell_frame<W: Write>(
        &mut self,
        ones: &[LogLine],
        others: &[LogLine],
        out: &mut W,
    ) -> Result<(), Fault>
        ensures written { OnOk result (IsWrittenOn (W.contents out.old) (W.contents out.new)) }
        ensures first { OnOk result (self.new.found.first ≡ self.old.found.first) }
    {
        if ones.len().saturating_mul(others.len()) > MOST_PAIRS {
            return self.tell_apart(ones, others, out);
        }
        self.tell_woven(ones, others, out)
    }

    /// Tells the lines of one log, and then those of the other.
    #[tactic(auto, using(crate::proofs::WrittenLemmas::written_none, crate::proofs::WrittenLemmas::written_more, crate::proofs::WrittenLemmas::written_then))]
    fn tell_apart<W: Write>(
        &mut self,
        ones: &[LogLine],
        others: &[LogLine],
        out: &mut W,
    ) -> Result<(), Fault>
        ensures written { OnOk result (IsWrittenOn (W.contents out.old) (W.contents out.new)) }
        ensures first { OnOk result (self.new.found.first ≡ self.old.found.first) }
    {
        for one in ones {
            self.tell_gone(one, out)?;
        }
        self.tell_come(others, out)
    }

    /// Tells each line of the first log at the next one that is the same in the second.
    #[tactic(auto, using(crate::proofs::WrittenLemmas::written_none, crate::proofs::WrittenLemmas::written_more, crate::proofs::WrittenLemmas::written_then))]
    fn tell_woven<W: Write>(
        &mut self,
        ones: &[LogLine],
        others: &[LogLine],
        out: &mut W,
    ) -> Result<(), Fault>
        ensures written { OnOk result (IsWrittenOn (W.contents out.old) (W.contents out.new)) }
        ensures first { OnOk result (self.new.found.first ≡ self.old.found.first) }
    {
        let mut rest = others;
        for one in ones {
            let taken = self.tell_next(one, rest, out)?;
            rest = lines_behind(rest, taken);
        }
        self.tell_come(rest, out)
    }

    /// Tells a line of the first log, at the next one that is the same in the second, behind those before it. Says how many lines of the
    /// second were told.
    #[tactic(auto, using(crate::proofs::WrittenLemmas::written_none, crate::proofs::WrittenLemmas::written_more, crate::proofs::WrittenLemmas::written_then))]
    fn tell_next<W: Write>(
        &mut self,
        one: &LogLine,
        rest: &[LogLine],
        out: &mut W,
    ) -> Result<usize, Fault>
        ensures written { OnOk result (IsWrittenOn (W.contents out.old) (W.contents out.new)) }
        ensures first { OnOk result (self.new.found.first ≡ self.old.found.first) }
    {
        match rest.iter().position(|other| is_same_line(one, other)) {
            Some(at) => {
                self.tell_come(first_lines(rest, at), out)?;
                self.common(one, out)?;
                Ok(at.saturating_add(1))
            }
            None => {
                self.tell_gone(one, out)?;
                Ok(0)
            }
        }
    }
}

/// The first lines of some, at most `count`.
fn first_lines(lines: &[LogLine], count: usize) -> &[LogLine] {
    if count <= lines.len() {
        &lines[..count]
    } else {
        lines
    }
}

/// The lines from a place on.
fn lines_behind(lines: &[LogLine], at: usize) -> &[LogLine] {
    if at <= lines.len() { &lines[at..] } else { &[] }
}
