//! A sink over a draft of a workspace.

ghost use Rattle.std.specs.Prelude.{◌≡◌, ◌≤◌, ◌+◌, ◌-◌, ◌^◌, min, option_map};
ghost use Rattle.fsw_outside.specs.Tally.{tally_of};
ghost use Rattle.fsw_outside.specs.TallyLaws.{tallied_of};
ghost use Rattle.ground_runs.specs.DraftSinks.{told_while_well};

use crate::draft_tellers::DraftTeller;
use crate::fault_tellers::FaultTeller;
use fsw_outside::{Failed, Sink};
use std::io::{self, ErrorKind, Write};

/// A sink that hands its bytes to a draft, and flushes it behind each piece. Until it fails, it tells the bytes that the draft tells.
#[derive(Drop)]
pub(crate) struct DraftSink<W: DraftTeller> {
    draft: W::Draft,
    faults: u64,
    // the first error
    error: Option<io::Error>,
}

impl<W: DraftTeller> DraftSink<W> {
    /// A sink with no faults over this draft.
    pub(crate) fn new(draft: W::Draft) -> DraftSink<W>
        ensures draft { result.draft ≡ draft }
        ensures faults { result.faults ≡ 0 }
    {
        DraftSink {
            draft,
            faults: 0,
            error: None,
        }
    }

    /// The draft, with all that was written to it.
    pub(crate) fn into_draft(self) -> W::Draft
        ensures { result ≡ self.draft }
    {
        self.draft
    }

    /// Counts a fault, and keeps the first one's error.
    fn fail(&mut self, error: io::Error) -> Failed
        ensures draft { self.new.draft ≡ self.old.draft }
        ensures faults { self.new.faults ≡ min (self.old.faults + 1) (2 ^ 64 - 1) }
        ensures later { self.old.faults ≤ self.new.faults }
    {
        if self.error.is_none() {
            self.error = Some(error);
        }
        self.faults = self.faults.saturating_add(1);
        Failed
    }
}

impl<W: DraftTeller> Sink for DraftSink<W> {
    ghost held = { λ sink. told_while_well W.are_told sink.faults (W.Draft.contents sink.draft) };

    ghost tally = { λ sink. option_map tally_of
        (told_while_well W.are_told sink.faults (W.Draft.contents sink.draft)) };

    ghost faults = { λ sink. sink.faults };

    ghost tallied = { λ sink t tells. tallied_of
        (told_while_well W.are_told sink.faults (W.Draft.contents sink.draft)) t tells };

    fn write(&mut self, piece: &[u8]) -> Result<usize, Failed> {
        let count = match self.draft.write(piece) {
            Ok(0) => return Err(self.fail(io::Error::from(ErrorKind::WriteZero))),
            Err(error) => return Err(self.fail(error)),
            Ok(count) => count,
        };
        match self.draft.flush() {
            Ok(()) => Ok(count),
            Err(error) => Err(self.fail(error)),
        }
    }
}

impl<W: DraftTeller> FaultTeller for DraftSink<W> {
    fn error(&self) -> Option<&io::Error> {
        self.error.as_ref()
    }
}
