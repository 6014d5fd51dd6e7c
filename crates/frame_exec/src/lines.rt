//! The lines of the bench, until they are handed on.

use bus_pipes::{Dropped, Out};
use frame_wires::put_frame;
use fsw_outside::{Failed, NoMemory, Sink};
use packet_log::{Block, LineBuffer};
use std::alloc::Global;

/// The lines that were put and wait in one block until they are handed on.
#[derive(Drop)]
pub(crate) struct Lines {
    // the line that was written last: a new one would be wiped in each frame
    pub(crate) line: LineBuffer,
    pub(crate) block: Block,
}

impl Lines {
    ghost use Rattle.std.specs.Prelude.{◌≡◌, ◌<◌, ◌++◌, OnErr, IfOk, length};
    ghost use Rattle.std.specs.List.{flat_map};
    ghost use Rattle.fsw_outside.specs.Causes.{HasCause};
    ghost use Rattle.packet_log.specs.Blocks.{Puts, empty_block};
    ghost use Rattle.packet_log.specs.Items.{item_line};
    ghost use Rattle.packet_log.specs.Lines.{drop_line};
    ghost use Rattle.frame_wires.specs.Sending.{shown};

    /// No lines yet.
    pub(crate) fn open(alloc: Global) -> Result<Lines, NoMemory>
        ensures { IfOk result (λ lines. lines.block ≡ empty_block) }
    {
        Ok(Lines {
            line: LineBuffer::new(),
            block: Block::open(alloc)?,
        })
    }

    /// Puts the lines of a frame behind those that wait: of what was sent, one list after another, and of what was dropped.
    #[inline(always)]
    pub(crate) fn put<O: Sink>(
        &mut self,
        sink: &mut O,
        number: u32,
        lists: &[&[Out]],
        drops: &[Dropped],
    ) -> Result<(), Failed>
        ensures puts { Puts result (flat_map (item_line number) (shown lists.now)
            ++ flat_map (drop_line number) drops.now) self.old.block self.new.block
            (O.held sink.old) (O.held sink.new) }
        ensures left { OnErr result (0 < length self.new.block.bytes) }
        ensures cause { HasCause (O.held sink.new) (O.faults sink.old) (O.faults sink.new) result }
    {
        put_frame(&mut self.block, sink, &mut self.line, number, lists, drops)
    }
}
