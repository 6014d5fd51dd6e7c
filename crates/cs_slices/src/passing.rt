//! The pass that has begun.
ghost use Rattle.std.specs.Prelude.{◌≡◌, ◌<◌, ◌++◌, ◌+◌, List, [], ◌∷◌, find, IfSome, true, false};
ghost use Rattle.packet_forms.specs.Crc.{crc_of};
ghost use Rattle.cs_slices.specs.Instructions.{IsNamed};
ghost use Rattle.cs_slices.specs.Tables.{TablePair};
ghost use Rattle.cs_slices.specs.Happenings.{Slice, Happening, slices_among, since_slice, slices_since};
ghost use Rattle.cs_slices.specs.Happenings.Happening.{Ordered, Read, Renewed};
ghost use Rattle.cs_slices.specs.Orders.{table_of, takes_part};
ghost use Rattle.cs_slices.specs.Slices.{current_place, offset_at, ring_from};
ghost use Rattle.cs_slices.specs.Passes.{pass_bytes};
ghost use Rattle.cs_slices.specs.State.{SwitchesStand, PassingStands};

use crate::instructions::Instruction;
use crate::switches::{Switches, turns_off};
use packet_forms::crc16;

/// The current place, and of the pass that has begun there the offset it has come to and the check of its bytes: 0 and 0 where none has.
#[derive(Clone, Copy, Debug, PartialEq, Eq)]
pub(crate) struct Passing {
    place: u8,
    offset: u32,
    check: u16,
}

impl Passing {
    /// No pass, and the first place.
    pub(crate) fn start() -> Passing
        ensures { PassingStands [] result }
    {
        Passing {
            place: 0,
            offset: 0,
            check: 0,
        }
    }

    /// Abandons the pass where an order switches its place off.
    pub(crate) fn obey(&mut self, order: &Instruction)
        requires { IsNamed order.now }
        ensures { (happened : List Happening) → PassingStands happened self.old
            → PassingStands (happened ++ Ordered order.now ∷ []) self.new }
    {
        if turns_off(self.place, order) {
            self.abandon();
        }
    }

    /// Abandons the pass where the table of its place becomes active.
    pub(crate) fn renew(&mut self, table: u16)
        ensures { (happened : List Happening) → PassingStands happened self.old
            → PassingStands (happened ++ Renewed table ∷ []) self.new }
    {
        if table == u16::from(self.place / 16 + 1) {
            self.abandon();
        }
    }

    /// Forgets the pass that has begun.
    fn abandon(&mut self)
        ensures place { self.new.place ≡ self.old.place }
        ensures offset { self.new.offset ≡ 0 }
        ensures check { self.new.check ≡ 0 }
    {
        self.offset = 0;
        self.check = 0;
    }

    /// The first place that takes part, from the current place on and round again.
    pub(crate) fn next_place(&self, switches: &Switches) -> Option<u8>
        ensures place { (tables : TablePair) (happened : List Happening)
            → SwitchesStand tables happened switches.now → PassingStands happened self.now
            → result ≡ find (takes_part tables happened)
            (ring_from (current_place (slices_among happened))) }
        ensures within { IfSome result (λ place. place < 32) }
    {
        for k in 0..32u32 {
            let place = ((u32::from(self.place) + k) % 32) as u8;
            if switches.takes_part(place) {
                return Some(place);
            }
        }
        None
    }

    /// The offset at which the next slice of a place begins.
    pub(crate) fn offset_at(&self, place: u8) -> u32
        ensures { (happened : List Happening) → PassingStands happened self.now
            → result ≡ offset_at place (slices_among happened) (since_slice happened) }
    {
        if place == self.place { self.offset } else { 0 }
    }

    /// The check of the bytes of a place's pass after a slice that begins at this offset.
    pub(crate) fn check_after(&self, place: u8, from: u32, bytes: &[u8]) -> u16
        ensures { (happened : List Happening) (s : Slice) → PassingStands happened self.now
            → s.place ≡ place → s.from ≡ from
            → from ≡ offset_at place (slices_among happened) (since_slice happened)
            → s.bytes ≡ bytes.now
            → result ≡ crc_of 0 (pass_bytes place (slices_since (table_of place) happened ++ s
            ∷ [])) }
    {
        if from == 0 {
            return crc16(0, bytes);
        }
        crc16(self.check, bytes)
    }

    /// After a slice that ends before its entry's end: the pass goes on.
    pub(crate) fn begun(place: u8, till: u32, check: u16) -> Passing
        ensures { (happened : List Happening) (s : Slice) → s.place ≡ place → s.till ≡ till
            → s.ends ≡ false → check ≡ crc_of 0
            (pass_bytes place (slices_since (table_of place) happened ++ s ∷ []))
            → PassingStands (happened ++ Read s ∷ []) result }
    {
        Passing {
            place,
            offset: till,
            check,
        }
    }

    /// After a slice that ends at its entry's end: the next place, and no pass.
    pub(crate) fn behind(place: u8) -> Passing
        requires { place < 32 }
        ensures { (happened : List Happening) (s : Slice) → s.place ≡ place
            → s.ends ≡ true → PassingStands (happened ++ Read s ∷ []) result }
    {
        Passing {
            place: (place + 1) % 32,
            offset: 0,
            check: 0,
        }
    }
}
