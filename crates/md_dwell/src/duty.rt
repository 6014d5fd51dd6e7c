//! What commands of MD change beside its counts.
ghost use Rattle.std.specs.Prelude.{◌≡◌, ◌≤◌, ◌||◌, ◌&&◌, ◌++◌, ◌∷◌, [], nat_lt, List};
ghost use Rattle.std.specs.List.{AllPass};
ghost use Rattle.histories.specs.Entries.Entry.{Activated};
ghost use Rattle.memory_window.specs.declared.regions.Region.{Region};
ghost use Rattle.md_dwell.specs.Tables.{DwellTable};
ghost use Rattle.md_dwell.specs.Lists.{list_of, delays};
ghost use Rattle.md_dwell.specs.Given.{is_given, TablesGiven};
ghost use Rattle.md_dwell.specs.Histories.{MdEntry, activation_of};
ghost use Rattle.md_dwell.specs.State.{DutyStands, StreamsGiven};

use crate::streams::Stream;
use crate::tables::Dwell;

/// What MD has to do beside answering: the streams of the four tables.
#[derive(Clone, Copy)]
pub(crate) struct Duty {
    pub(crate) first: Stream,
    pub(crate) second: Stream,
    pub(crate) third: Stream,
    pub(crate) fourth: Stream,
}

impl Duty {
    /// The streams before the first wakeup.
    pub(crate) fn start(tables: &[Dwell; 4]) -> Duty
        ensures stands { DutyStands tables.now [] [] result }
        ensures given { (regions : List Region) → TablesGiven regions tables.now
            → StreamsGiven regions result }
    {
        Duty {
            first: Stream::start(&tables[0]),
            second: Stream::start(&tables[1]),
            third: Stream::start(&tables[2]),
            fourth: Stream::start(&tables[3]),
        }
    }

    /// Table n, 1 to 4, becomes active.
    pub(crate) fn activate(&mut self, n: u8, table: &Dwell)
        requires { (1 ≤ n) × (n ≤ 4) }
        ensures stands { (tables : List DwellTable) (history : List MdEntry)
            → DutyStands tables history [] self.old
            → DutyStands tables (history ++ Activated (activation_of n table.now)
            ∷ []) [] self.new }
        ensures given { (regions : List Region) → AllPass (is_given regions) table.now.entries
            → StreamsGiven regions self.old → StreamsGiven regions self.new }
    {
        match n {
            1 => self.first.activate(table),
            2 => self.second.activate(table),
            3 => self.third.activate(table),
            _ => self.fourth.activate(table),
        }
    }

    /// Whether a table is enabled whose list has a delay.
    #[inline(always)]
    pub(crate) fn dwell(&self) -> bool
        ensures { result ≡ ((self.now.first.enabled
            && nat_lt 0 (delays (list_of self.now.first.plan)))
            || (self.now.second.enabled && nat_lt 0 (delays (list_of self.now.second.plan)))
            || (self.now.third.enabled && nat_lt 0 (delays (list_of self.now.third.plan)))
            || (self.now.fourth.enabled && nat_lt 0 (delays (list_of self.now.fourth.plan)))) }
    {
        self.first.dwells() || self.second.dwells() || self.third.dwells() || self.fourth.dwells()
    }
}
