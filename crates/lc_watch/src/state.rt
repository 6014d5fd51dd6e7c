//! The state of LC.
ghost use Rattle.std.specs.Prelude.{◌≡◌, ◌==◌, ◌&&◌, ◌++◌, true, List, [], ◌∷◌, length};
ghost use Rattle.lc_watch.specs.declared.watchpoints.WatchRow.{WatchRow};
ghost use Rattle.lc_watch.specs.declared.actionpoints.ActRow.{ActRow};
ghost use Rattle.lc_watch.specs.Histories.{Input, setup_of};
ghost use Rattle.lc_watch.specs.Step.{lc_items};
ghost use Rattle.lc_watch.specs.State.{Stands, is_idle_on};

use crate::actionpoints::Adt;
use crate::duty::Duty;
use bus_pipes::Counts;
use commands::start_counts;
use packet_forms::Packet;

/// The state of LC: both counts, its duty, and whether an actionpoint is used.
#[derive(Clone, Copy, Debug, PartialEq, Eq)]
pub struct Lc {
    pub(crate) counts: Counts,
    pub(crate) duty: Duty,
    pub(crate) uses: bool,
}

impl Lc {
    /// The state before the first wakeup, on these actionpoints and any watchpoints: nothing was seen, and each actionpoint is active or
    /// passive as its table says.
    pub fn start(actions: &Adt) -> Lc
        ensures { (watch : List WatchRow) → Stands watch actions.now [] result }
    {
        Lc {
            counts: start_counts(),
            duty: Duty::start(actions),
            uses: actions.uses_any(),
        }
    }

    /// Whether a wakeup with these packets does nothing: none was taken, and no actionpoint is used.
    #[inline(always)]
    pub fn is_idle(&self, commands: &[Packet], telemetry: &[Packet]) -> bool
        ensures exact { (watch : List WatchRow) (actions : List ActRow) (history : List Input)
            → Stands watch actions history self.now
            → result ≡ is_idle_on actions commands.now telemetry.now }
        ensures stands { (watch : List WatchRow) (actions : List ActRow) (history : List Input)
            (input : Input) → result ≡ true → input.commands ≡ commands.now
            → input.seen ≡ telemetry.now → Stands watch actions history self.now
            → Stands watch actions (history ++ input ∷ []) self.now }
        ensures items { (watch : List WatchRow) (actions : List ActRow) (history : List Input)
            (input : Input) → result ≡ true → input.commands ≡ commands.now
            → input.seen ≡ telemetry.now → Stands watch actions history self.now
            → lc_items (setup_of watch actions) history input ≡ [] }
    {
        if !are_none(commands, telemetry) {
            return false;
        }
        !self.uses
    }
}

/// Whether no packet was taken.
#[inline(always)]
fn are_none(commands: &[Packet], telemetry: &[Packet]) -> bool
    ensures { result ≡ ((length commands.now == 0) && (length telemetry.now == 0)) }
{
    commands.is_empty() && telemetry.is_empty()
}
