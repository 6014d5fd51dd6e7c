//! MM's state.
ghost use Rattle.std.specs.Prelude.{◌≡◌, true, List, [], ◌∷◌, ◌++◌};
ghost use Rattle.mm_core.specs.Step.{Input, mm_items, mm_operations};
ghost use Rattle.mm_core.specs.State.{Stands, is_idle_on};

use bus_pipes::Counts;
use commands::start_counts;
use packet_forms::Packet;

/// The state of MM.
#[derive(Clone, Copy, Debug, PartialEq, Eq)]
pub struct Mm {
    pub(crate) counts: Counts,
}

impl Mm {
    /// The state before the first wakeup.
    #[tactic(auto, using(commands::proofs::Tallies::counts_none, crate::proofs::Wakeups::heard_before_all), unfolding(crate::specs::State::Stands))]
    pub fn start() -> Mm
        ensures { Stands [] result }
    {
        Mm {
            counts: start_counts(),
        }
    }

    /// Whether a wakeup with these packets does nothing.
    #[inline(always)]
    pub fn is_idle(&self, commands: &[Packet]) -> bool
        ensures exact { result ≡ is_idle_on commands.now }
        ensures stands { (history : List Input) (input : Input) → result ≡ true
            → input.commands ≡ commands.now → Stands history self.now
            → Stands (history ++ input ∷ []) self.now }
        ensures items { (history : List Input) (input : Input) → result ≡ true
            → input.commands ≡ commands.now → mm_items history input ≡ [] }
        ensures operations { (input : Input) → result ≡ true → input.commands ≡ commands.now
            → mm_operations input ≡ [] }
    {
        commands.is_empty()
    }
}
