//! Turns: in each the command that comes first leaves, where one is due.
ghost use Rattle.std.specs.Prelude.{◌≡◌, ◌+◌, ◌≤◌, ◌<◌, ℕ, Some, length, drop};
ghost use Rattle.std.specs.List.{AllPass};
ghost use Rattle.bus_pipes.specs.Held.{adding};
ghost use Rattle.bus_pipes.specs.Counted.{is_item_counted};
ghost use Rattle.sc_tables.specs.Commands.{commands_in};
ghost use Rattle.sc_sequences.specs.Sequences.{at_place};
ghost use Rattle.sc_sequences.specs.Turns.{Sequences, left_behind, leaving, turns};
ghost use Rattle.sc_sequences.specs.State.{DutyStands};
ghost use Rattle.sc_sequences.specs.Cursors.{cursor_in};

use crate::answers::put_head;
use crate::duty::Duty;
use crate::orders::continue_at;
use crate::places::is_relative;
use bus_pipes::Outbox;
use sc_tables::ScTables;

/// How many commands leave in a wakeup at most.
const TURNS: u8 = 8;

impl Duty {
    /// Takes turns at the time `now`, at most eight, as long as a command is due.
    pub(crate) fn take_turns(&mut self, tables: &ScTables<'_>, now: u32, out: &mut Outbox)
        requires started { (s : Sequences) × DutyStands tables.now s self.old }
        requires room { length out.old.items + 16 ≤ out.old.room }
        ensures stands { (s : Sequences) → DutyStands tables.now s self.old
            → DutyStands tables.now (turns 8 now s).after self.new }
        ensures items { (s : Sequences) → DutyStands tables.now s self.old
            → out.new ≡ adding out.old (turns 8 now s).items }
        ensures counted { AllPass is_item_counted out.old.items
            → AllPass is_item_counted out.new.items }
        ensures few { length out.new.items ≤ length out.old.items + 16 }
        ensures room { out.new.room ≡ out.old.room }
    {
        'turns: for turn in 0..TURNS {
            let Some(place) = self.cursors.due(now) else {
                return;
            };
            self.leave(tables, place, now, out);
        }
    }

    /// The next command of the sequence in a place leaves.
    fn leave(&mut self, tables: &ScTables<'_>, place: usize, now: u32, out: &mut Outbox)
        requires started { (s : Sequences) × DutyStands tables.now s self.old }
        requires within { place < 66 }
        requires runs { (time : ℕ) × ((cursor_in self.old.cursors place).next ≡ Some time) }
        requires room { length out.old.items + 2 ≤ out.old.room }
        ensures stands { (s : Sequences) → DutyStands tables.now s self.old
            → DutyStands tables.now (leaving now s place
            (at_place s.all place).left).after self.new }
        ensures items { (s : Sequences) → DutyStands tables.now s self.old
            → out.new ≡ adding out.old (leaving now s place (at_place s.all place).left).items }
        ensures counted { AllPass is_item_counted out.old.items
            → AllPass is_item_counted out.new.items }
        ensures few { length out.new.items ≤ length out.old.items + 2 }
        ensures room { out.new.room ≡ out.old.room }
    {
        let at = self.cursors.get(place).at;
        let packet = tables.command(place, at);
        let right = packet.checksum_ok();
        let next = next_behind(tables, place, at, right);
        put_head(place, right, &packet, next >= tables.len(place), now, out);
        continue_at(&mut self.cursors, tables, place, next, now);
        self.count(right);
    }
}

/// With which command a sequence goes on behind one: a wrong checksum stops a relative sequence.
fn next_behind(tables: &ScTables<'_>, place: usize, at: u32, right: bool) -> u32
    requires place { place < 66 }
    requires within { at < length (commands_in tables.now place) }
    ensures left { drop result (commands_in tables.now place)
        ≡ left_behind place right (drop (at + 1) (commands_in tables.now place)) }
    ensures few { result ≤ 1000 }
{
    let count = tables.len(place);
    if right || !is_relative(place) {
        return at + 1;
    }
    count
}
