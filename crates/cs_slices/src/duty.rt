//! What commands of CS change beside its counts, and what its slices leave.
ghost use Rattle.std.specs.Prelude.{◌++◌, List, [], ◌∷◌};
ghost use Rattle.cs_slices.specs.Tables.{TablePair, pair_of, with_table};
ghost use Rattle.cs_slices.specs.Happenings.{Happening};
ghost use Rattle.cs_slices.specs.Happenings.Happening.{Renewed};
ghost use Rattle.cs_slices.specs.State.{DutyStands};

use crate::passing::Passing;
use crate::segments::Segments;
use crate::switches::Switches;
use crate::tally::Tally;

/// What CS has to do beside answering: what is on, the pass that has begun, and what is kept of whole passes.
#[derive(Clone, Copy, Debug, PartialEq, Eq)]
pub(crate) struct Duty {
    pub(crate) switches: Switches,
    pub(crate) passing: Passing,
    pub(crate) tally: Tally,
}

impl Duty {
    /// Before the first wakeup.
    pub(crate) fn start(eeprom: &Segments, memory: &Segments) -> Duty
        ensures { DutyStands (pair_of eeprom.now memory.now) [] result }
    {
        Duty {
            switches: Switches::start(eeprom, memory),
            passing: Passing::start(),
            tally: Tally::start(),
        }
    }

    /// Takes another table of this number.
    pub(crate) fn renew(&mut self, table: u16, segments: &Segments)
        ensures { (tables : TablePair) (happened : List Happening)
            → DutyStands tables happened self.old
            → DutyStands (with_table table segments.now tables) (happened ++ Renewed table
            ∷ []) self.new }
    {
        self.switches.renew(table, segments);
        self.passing.renew(table);
        self.tally.renew(table);
    }
}
