//! What is kept of actionpoints, and their firings.
ghost use Rattle.std.specs.Prelude.{◌≡◌, ◌<◌, ◌≤◌, ◌+◌, ◌%◌, ◌++◌, ℕ, Bool, true, if◌then◌else◌, List, [], ◌∷◌, length, option_to_list, Some};
ghost use Rattle.std.specs.List.{AllPass};
ghost use Rattle.bus_pipes.specs.Held.{adding};
ghost use Rattle.bus_pipes.specs.Counted.{is_item_counted};
ghost use Rattle.lc_watch.specs.Outcomes.{kept_at};
ghost use Rattle.lc_watch.specs.Actionpoints.{AbleWhereUsed, evaluation_of};
ghost use Rattle.lc_watch.specs.Failing.{fires_by, by_firing, PointStands, IsCalm};
ghost use Rattle.lc_watch.specs.Firing.{starts_active};
ghost use Rattle.lc_watch.specs.Answers.{firing_items};

use crate::actionpoints::ActRow;
use crate::answers::put_firing;
use crate::evaluation::evaluation;
use crate::outcomes::Outcome;
use crate::watchpoints::WATCHPOINTS;
use bus_pipes::Outbox;

/// Whether an actionpoint is active, and how many of its last evaluations fail in a row, up to as many as it asks for.
#[derive(Clone, Copy, Debug, PartialEq, Eq)]
pub(crate) struct Point {
    pub(crate) active: bool,
    pub(crate) failing: u16,
}

/// What an evaluation leaves, whether the actionpoint fires at it, and whether it is calm: such an evaluation once more changes nothing.
#[derive(Clone, Copy, Debug, PartialEq, Eq)]
pub(crate) struct Judged {
    pub(crate) point: Point,
    pub(crate) fires: bool,
    pub(crate) calm: bool,
}

impl Point {
    /// What is kept of an actionpoint that isn't used.
    pub(crate) const UNUSED: Point = Point {
        active: false,
        failing: 0,
    };

    /// Before the first wakeup.
    pub(crate) fn begun(row: &ActRow) -> Point
        ensures { PointStands (starts_active row.now) row.now.failures [] [] result }
    {
        Point {
            active: row.state == 1,
            failing: 0,
        }
    }

    /// What a command makes of it.
    pub(crate) fn set(self, on: bool) -> Point
        ensures { (start : Bool) (n : ℕ) (evaluations settings : List Bool)
            → PointStands start n evaluations settings self
            → PointStands start n evaluations (settings ++ on ∷ []) result }
    {
        Point {
            active: on,
            failing: self.failing,
        }
    }

    /// What an evaluation makes of it, where there was one: it fires where it is active and this is the last of so many in a row that all
    /// fail, and is then passive.
    pub(crate) fn judge(self, failures: u16, evaluation: Option<bool>) -> Judged
        requires { (fails : Bool) → evaluation ≡ Some fails → 0 < failures }
        ensures stands { (start : Bool) (evaluations settings : List Bool)
            → PointStands start failures evaluations settings self
            → PointStands start failures (evaluations ++ option_to_list evaluation) (settings
            ++ by_firing (fires_by start failures evaluations settings evaluation)) result.point }
        ensures fires { (start : Bool) (evaluations settings : List Bool)
            → PointStands start failures evaluations settings self
            → result.fires ≡ fires_by start failures evaluations settings evaluation }
        ensures calm { result.calm ≡ true → IsCalm evaluation failures result.point }
    {
        let Some(fails) = evaluation else {
            return Judged {
                point: self,
                fires: false,
                calm: true,
            };
        };
        if !fails {
            return Judged {
                point: Point {
                    active: self.active,
                    failing: 0,
                },
                fires: false,
                calm: true,
            };
        }
        if self.failing < failures - 1 {
            return Judged {
                point: Point {
                    active: self.active,
                    failing: self.failing + 1,
                },
                fires: false,
                calm: false,
            };
        }
        Judged {
            point: Point {
                active: false,
                failing: failures,
            },
            fires: self.active,
            calm: true,
        }
    }
}

/// Evaluates an actionpoint, and puts what it gives behind the items where it fires.
pub(crate) fn serve(
    point: Point,
    row: &ActRow,
    outcomes: &[Outcome; WATCHPOINTS],
    fired: &mut u16,
    now: u32,
    out: &mut Outbox,
) -> Judged
    requires able { AbleWhereUsed row.now }
    requires room { length out.old.items + 2 ≤ out.old.room }
    ensures stands { (start : Bool) (evaluations settings : List Bool)
        → PointStands start row.now.failures evaluations settings point
        → PointStands start row.now.failures (evaluations
        ++ option_to_list (evaluation_of (kept_at outcomes.now) row.now)) (settings
        ++ by_firing (fires_by start row.now.failures evaluations settings
        (evaluation_of (kept_at outcomes.now) row.now))) result.point }
    ensures items { (start : Bool) (evaluations settings : List Bool)
        → PointStands start row.now.failures evaluations settings point
        → out.new ≡ adding out.old (if fires_by start row.now.failures evaluations settings
        (evaluation_of (kept_at outcomes.now) row.now) then firing_items now row.now else []) }
    ensures fired { (start : Bool) (evaluations settings : List Bool) (count : ℕ)
        → PointStands start row.now.failures evaluations settings point → fired.old ≡ count % 65536
        → fired.new ≡ (count + (if fires_by start row.now.failures evaluations settings
        (evaluation_of (kept_at outcomes.now) row.now) then 1 else 0)) % 65536 }
    ensures calm { result.calm ≡ true → IsCalm (evaluation_of (kept_at outcomes.now) row.now)
        row.now.failures result.point }
    ensures counted { AllPass is_item_counted out.old.items
        → AllPass is_item_counted out.new.items }
    ensures few { length out.new.items ≤ length out.old.items + 2 }
    ensures room { out.new.room ≡ out.old.room }
{
    let judged = point.judge(row.failures, evaluation(row, outcomes));
    if !judged.fires {
        return judged;
    }
    *fired = fired.wrapping_add(1);
    put_firing(row.rts, now, out);
    judged
}
