//! What commands of Stored Command change: the cursors of all sequences, and what was sent so far.
ghost use Rattle.std.specs.Prelude.{◌≡◌, ◌+◌, ◌%◌, ℕ, if◌then◌else◌};
ghost use Rattle.sc_sequences.specs.Histories.{begun_at, at_start};
ghost use Rattle.sc_sequences.specs.State.{CursorsStand, DutyStands};

use crate::cursors::Cursors;
use crate::heads::cursor_at;
use sc_tables::ScTables;

/// The place of the first relative sequence.
const FIRST_RTS: usize = 2;

/// What Stored Command has to do beside answering: where all sequences stand, and how many commands were sent and had a wrong checksum, each
/// modulo 65,536.
#[derive(Clone, Copy, Debug, PartialEq, Eq)]
pub(crate) struct Duty {
    pub(crate) cursors: Cursors,
    pub(crate) sent: u16,
    pub(crate) wrong: u16,
}

impl Duty {
    /// At the start, at the time `now`: the first relative sequence is enabled and started, where it is loaded, and all others wait.
    pub(crate) fn start(tables: &ScTables<'_>, now: u32) -> Duty
        ensures { DutyStands tables.now (at_start (begun_at now tables.now)) result }
    {
        Duty {
            cursors: begin(tables, now),
            sent: 0,
            wrong: 0,
        }
    }

    /// Counts a command that left: whether its checksum was right.
    pub(crate) fn count(&mut self, right: bool)
        ensures cursors { self.new.cursors ≡ self.old.cursors }
        ensures sent { (sent : ℕ) → self.old.sent ≡ sent % 65536
            → self.new.sent ≡ (if right then sent + 1 else sent) % 65536 }
        ensures wrong { (wrong : ℕ) → self.old.wrong ≡ wrong % 65536
            → self.new.wrong ≡ (if right then wrong else wrong + 1) % 65536 }
    {
        if right {
            self.sent = self.sent.wrapping_add(1);
            return;
        }
        self.wrong = self.wrong.wrapping_add(1);
    }
}

/// The cursors at the start.
fn begin(tables: &ScTables<'_>, now: u32) -> Cursors
    ensures { CursorsStand tables.now (at_start (begun_at now tables.now)).all result }
{
    let mut cursors = Cursors::waiting();
    if tables.len(FIRST_RTS) > 0 {
        cursors.set(FIRST_RTS, cursor_at(tables, FIRST_RTS, 0, now, true));
        return cursors;
    }
    cursors
}
