//! What commands of LC change beside its counts, and what its telemetry leaves.
ghost use Rattle.std.specs.Prelude.{◌≡◌, ◌≤◌, ◌+◌, ◌%◌, ◌++◌, ℕ, true, List, [], ◌∷◌, length};
ghost use Rattle.std.specs.List.{AllPass, flat_map};
ghost use Rattle.bus_pipes.specs.Held.{adding};
ghost use Rattle.bus_pipes.specs.Counted.{is_item_counted};
ghost use Rattle.lc_watch.specs.declared.watchpoints.WatchRow.{WatchRow};
ghost use Rattle.lc_watch.specs.Outcomes.{outcome_at, kept_at, OutcomesStand};
ghost use Rattle.lc_watch.specs.Instructions.{NamesPoint};
ghost use Rattle.lc_watch.specs.Histories.{Input, Setup, setup_of};
ghost use Rattle.lc_watch.specs.Firing.{is_active, fired_at};
ghost use Rattle.lc_watch.specs.Housekeeping.{results_of, active_bits};
ghost use Rattle.lc_watch.specs.Answers.{point_items};
ghost use Rattle.lc_watch.specs.State.{PointsStand, DutyStands, HasTaken, AwaitsEvaluation, AreCalm};
ghost use Rattle.lc_watch.specs.declared.instructions.Instruction.{Instruction};

use crate::actionpoints::{ACTIONPOINTS, Adt};
use crate::instructions::Instruction;
use crate::outcomes::{Outcome, codes_of, take_telemetry};
use crate::points::{Point, serve};
use crate::watchpoints::{WATCHPOINTS, Wdt};
use bus_pipes::Outbox;
use histories::bits_of;
use packet_forms::Packet;

/// What LC has to do beside answering: the outcomes of the watchpoints, what is kept of the actionpoints, the firings modulo 65,536, and
/// whether all actionpoints are known to be calm: their evaluation by these outcomes changes nothing.
#[derive(Clone, Copy, Debug, PartialEq, Eq)]
pub(crate) struct Duty {
    pub(crate) outcomes: [Outcome; WATCHPOINTS],
    pub(crate) points: [Point; ACTIONPOINTS],
    pub(crate) fired: u16,
    pub(crate) calm: bool,
}

impl Duty {
    /// Before the first wakeup.
    pub(crate) fn start(actions: &Adt) -> Duty
        ensures { (watch : List WatchRow) → DutyStands (setup_of watch actions.now) [] [] result }
    {
        Duty {
            outcomes: [Outcome::Unseen; WATCHPOINTS],
            points: begin_all(actions),
            fired: 0,
            calm: false,
        }
    }

    /// Does what an accepted command asks for.
    pub(crate) fn obey(&mut self, instruction: &Instruction)
        requires { NamesPoint instruction.now }
        ensures { (setup : Setup) (history : List Input) (orders : List Instruction)
            → DutyStands setup history orders self.old
            → DutyStands setup history (orders ++ instruction.now ∷ []) self.new }
    {
        match instruction {
            Instruction::Plain => {}
            Instruction::Switch { number, on } => {
                let place = *number as usize - 1;
                self.points[place] = self.points[place].set(*on);
                self.calm = false;
            }
        }
    }

    /// Takes these packets in order: of each watchpoint the last of its id counts.
    pub(crate) fn take(&mut self, watch: &Wdt, telemetry: &[Packet])
        ensures outcomes { (before : List (List ℕ))
            → OutcomesStand watch.now before self.old.outcomes
            → OutcomesStand watch.now (before ++ telemetry.now) self.new.outcomes }
        ensures points { self.new.points ≡ self.old.points }
        ensures fired { self.new.fired ≡ self.old.fired }
        ensures calm { self.new.calm ≡ true → (self.old.calm ≡ true)
            × (self.new.outcomes ≡ self.old.outcomes) }
        ensures whole { length watch.now ≡ 32 }
    {
        let changed = take_telemetry(&mut self.outcomes, watch.rows(), telemetry);
        self.calm = self.calm & !changed;
    }

    /// Evaluates the actionpoints in table order, and puts what those give that fire behind the items. Where all are calm there is nothing
    /// to do.
    pub(crate) fn fire(&mut self, actions: &Adt, now: u32, out: &mut Outbox)
        requires room { length out.old.items + 32 ≤ out.old.room }
        ensures stands { (watch : List WatchRow) (history : List Input) (input : Input)
            → HasTaken (setup_of watch actions.now) history input self.old
            → DutyStands (setup_of watch actions.now) (history ++ input ∷ []) [] self.new }
        ensures items { (watch : List WatchRow) (history : List Input) (input : Input)
            → HasTaken (setup_of watch actions.now) history input self.old
            → out.new ≡ adding out.old (flat_map (point_items now actions.now)
            (fired_at (setup_of watch actions.now) history input)) }
        ensures counted { AllPass is_item_counted out.old.items
            → AllPass is_item_counted out.new.items }
        ensures few { length out.new.items ≤ length out.old.items + 32 }
        ensures room { out.new.room ≡ out.old.room }
    {
        if self.calm {
            return;
        }
        self.calm = serve_all(
            &mut self.points,
            actions,
            &self.outcomes,
            &mut self.fired,
            now,
            out,
        );
    }

    /// The active actionpoints: bit n - 1 is actionpoint n.
    #[tactic(auto, unfolding(crate::specs::Housekeeping::active_bits))]
    pub(crate) fn active_bits(&self) -> u16
        ensures { (setup : Setup) (history : List Input) (orders : List Instruction)
            → DutyStands setup history orders self.now
            → result ≡ active_bits (is_active setup history orders) }
    {
        let mut bits = [false; ACTIONPOINTS];
        for place in 0..ACTIONPOINTS {
            bits[place] = self.points[place].active;
        }
        bits_of(&bits) as u16
    }

    /// The outcomes of the watchpoints, two bits each, the first lowest.
    pub(crate) fn results(&self) -> u64
        ensures { (watch : List WatchRow) (telemetry : List (List ℕ))
            → OutcomesStand watch telemetry self.now.outcomes
            → result ≡ results_of (outcome_at watch telemetry) }
    {
        codes_of(&self.outcomes)
    }
}

/// What is kept of all actionpoints before the first wakeup.
fn begin_all(actions: &Adt) -> [Point; ACTIONPOINTS]
    ensures { (watch : List WatchRow) → PointsStand (setup_of watch actions.now) [] [] result }
{
    let mut points = [Point::UNUSED; ACTIONPOINTS];
    for place in 0..ACTIONPOINTS {
        points[place] = Point::begun(actions.row(place));
    }
    points
}

/// Evaluates all actionpoints. Answers whether all are calm.
fn serve_all(
    points: &mut [Point; ACTIONPOINTS],
    actions: &Adt,
    outcomes: &[Outcome; WATCHPOINTS],
    fired: &mut u16,
    now: u32,
    out: &mut Outbox,
) -> bool
    requires room { length out.old.items + 32 ≤ out.old.room }
    ensures points { (watch : List WatchRow) (history : List Input) (input : Input)
        → AwaitsEvaluation (setup_of watch actions.now) history input outcomes.now points.old
        → PointsStand (setup_of watch actions.now) (history ++ input ∷ []) [] points.new }
    ensures items { (watch : List WatchRow) (history : List Input) (input : Input)
        → AwaitsEvaluation (setup_of watch actions.now) history input outcomes.now points.old
        → out.new ≡ adding out.old (flat_map (point_items now actions.now)
        (fired_at (setup_of watch actions.now) history input)) }
    ensures fired { (watch : List WatchRow) (history : List Input) (input : Input) (count : ℕ)
        → AwaitsEvaluation (setup_of watch actions.now) history input outcomes.now points.old
        → fired.old ≡ count % 65536
        → fired.new ≡ (count + length (fired_at
        (setup_of watch actions.now) history input)) % 65536 }
    ensures calm { result ≡ true → AreCalm (kept_at outcomes.now) actions.now points.new }
    ensures counted { AllPass is_item_counted out.old.items
        → AllPass is_item_counted out.new.items }
    ensures few { length out.new.items ≤ length out.old.items + 32 }
    ensures room { out.new.room ≡ out.old.room }
{
    let mut calm = true;
    for place in 0..ACTIONPOINTS {
        let served = serve(points[place], actions.row(place), outcomes, fired, now, out);
        points[place] = served.point;
        calm = calm & served.calm;
    }
    calm
}
