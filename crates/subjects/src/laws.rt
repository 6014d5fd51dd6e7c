//! Laws of subjects and crowds, as contracts of functions that do nothing.

ghost use Rattle.std.specs.Prelude.{◌≡◌, ℕ, List, [], ◌∷◌, ◌++◌, map, Some, None};
ghost use Rattle.subjects.specs.Plans.{Simulated, IsSimulated, cycled, restarted, starting, readings_ahead, steady_plan, hanging_plan, GoesRound};
ghost use Rattle.subjects.specs.Crowds.{counter_of, all_cycled, with_restarted, without, all_restarted};
ghost use Rattle.subjects.specs.Calls.{Call, after_call, after_calls, LeaveForGood};
ghost use Rattle.subjects.specs.Faults.{plan_fault_of, plan_fault_number};
ghost use Rattle.subjects.specs.Own.{own_subjects};
ghost use Rattle.subjects.specs.Worked.{nav, pwr, pwr2, three};
ghost use Rattle.subjects.specs.declared.listed.PlanFault.{PlanFault};

/// Whatever is called on a crowd, the subjects whose name was deleted are gone for good, and the others stay in their order with
/// their names and plans.
pub fn subjects_leave_for_good()
    ensures { LeaveForGood }
{}

/// What a list of calls leaves, at one more call.
#[tactic(auto, using(crate::proofs::Leaving::calls_more))]
pub fn calls_go_on()
    ensures { (subjects : List Simulated) (calls : List Call) (call : Call)
        → after_calls subjects (calls ++ call ∷ []) ≡ after_call (after_calls subjects calls) call }
{}

/// A subject stays one as it is cycled or restarted.
pub fn subjects_stay_whole()
    ensures cycled { (s : Simulated) → IsSimulated s → IsSimulated (cycled s) }
    ensures restarted { (s : Simulated) → IsSimulated s → IsSimulated (restarted s) }
{}

/// A subject goes through its plan from the first counter to the last one, and then from back on again.
pub fn subjects_go_round()
    ensures { GoesRound }
{}

/// The counters of the three subjects from their start on; one that goes back to its last counter, and one of one counter.
pub fn worked_plans()
    ensures steady { (name : List ℕ) → readings_ahead 5 (starting name steady_plan) ≡ 1 ∷ 2 ∷ 1 ∷ 2
        ∷ 1 ∷ [] }
    ensures hanging { (name : List ℕ) → readings_ahead 6 (starting name (hanging_plan 4)) ≡ 1 ∷ 2
        ∷ 3 ∷ 4 ∷ 4 ∷ 4 ∷ [] }
    ensures hanging_at_once { (name : List ℕ)
        → readings_ahead 3 (starting name (hanging_plan 1)) ≡ 1 ∷ 1 ∷ 1 ∷ [] }
    ensures listed { (name : List ℕ) → readings_ahead 7
        (starting name (record { values = 5 ∷ 5 ∷ 6 ∷ []; back = 0 })) ≡ 5 ∷ 5 ∷ 6 ∷ 5 ∷ 5 ∷ 6 ∷ 5
        ∷ [] }
    ensures back_to_second { (name : List ℕ) → readings_ahead 6
        (starting name (record { values = 7 ∷ 8 ∷ 9 ∷ []; back = 1 })) ≡ 7 ∷ 8 ∷ 9 ∷ 8 ∷ 9 ∷ 8
        ∷ [] }
    ensures back_to_last { (name : List ℕ) → readings_ahead 5
        (starting name (record { values = 7 ∷ 8 ∷ 9 ∷ []; back = 2 })) ≡ 7 ∷ 8 ∷ 9 ∷ 9 ∷ 9 ∷ [] }
    ensures one_counter { (name : List ℕ) → readings_ahead 3
        (starting name (record { values = 4294967295 ∷ []; back = 0 })) ≡ 4294967295 ∷ 4294967295
        ∷ 4294967295 ∷ [] }
{}

/// Three subjects, two of one name: what a cycle gives and leaves, and requests for either name, for one that nobody has, and for all.
pub fn worked_crowd()
    ensures first_readings { map counter_of three ≡ record { name = nav; value = 1 }
        ∷ record { name = pwr; value = 1 } ∷ record { name = nav; value = 5 } ∷ [] }
    ensures third_readings { map counter_of (all_cycled (all_cycled three))
        ≡ record { name = nav; value = 1 } ∷ record { name = pwr; value = 3 }
        ∷ record { name = nav; value = 6 } ∷ [] }
    ensures restarted { map (λ s. s.at) (with_restarted nav (all_cycled three)) ≡ 0 ∷ 1 ∷ 0 ∷ [] }
    ensures one_restarted { map (λ s. s.at) (with_restarted pwr (all_cycled three)) ≡ 1 ∷ 0 ∷ 1
        ∷ [] }
    ensures none_restarted { with_restarted pwr2 (all_cycled three) ≡ all_cycled three }
    ensures all_restarted { all_restarted (all_cycled three) ≡ three }
    ensures deleted { map (λ s. s.name) (without nav three) ≡ pwr ∷ [] }
    ensures one_deleted { map (λ s. s.name) (without pwr three) ≡ nav ∷ nav ∷ [] }
    ensures none_deleted { without pwr2 three ≡ three }
{}

/// Each fault of a plan, the first of them where both hold, and none at the last place.
pub fn worked_faults()
    ensures empty { plan_fault_of [] 0 ≡ Some PlanFault.Empty }
    ensures back { plan_fault_of (5 ∷ 5 ∷ []) 2 ≡ Some PlanFault.Back }
    ensures none { plan_fault_of (5 ∷ 5 ∷ []) 1 ≡ None }
    ensures numbers { map plan_fault_number (PlanFault.Empty ∷ PlanFault.Back ∷ []) ≡ 1 ∷ 2 ∷ [] }
{}

/// The simulated applications that `--subjects` gives: their names, byte by byte, their plans, and the counters of their first cycles.
pub fn own_rows()
    ensures names { map (λ s. s.name) own_subjects
        ≡ (0x4E ∷ 0x41 ∷ 0x56 ∷ 0 ∷ 0 ∷ 0 ∷ 0 ∷ 0 ∷ 0 ∷ 0 ∷ 0 ∷ 0 ∷ 0 ∷ 0 ∷ 0 ∷ 0 ∷ 0 ∷ 0 ∷ 0 ∷ 0
        ∷ [])
        ∷ (0x50 ∷ 0x57 ∷ 0x52 ∷ 0 ∷ 0 ∷ 0 ∷ 0 ∷ 0 ∷ 0 ∷ 0 ∷ 0 ∷ 0 ∷ 0 ∷ 0 ∷ 0 ∷ 0 ∷ 0 ∷ 0 ∷ 0 ∷ 0
        ∷ [])
        ∷ (0x54 ∷ 0x48 ∷ 0x4D ∷ 0 ∷ 0 ∷ 0 ∷ 0 ∷ 0 ∷ 0 ∷ 0 ∷ 0 ∷ 0 ∷ 0 ∷ 0 ∷ 0 ∷ 0 ∷ 0 ∷ 0 ∷ 0 ∷ 0
        ∷ []) ∷ [] }
    ensures values { map (λ s. s.plan.values) own_subjects ≡ (1 ∷ 2 ∷ []) ∷ (1 ∷ 2 ∷ 3 ∷ 4 ∷ [])
        ∷ (5 ∷ 5 ∷ 6 ∷ []) ∷ [] }
    ensures back { map (λ s. s.plan.back) own_subjects ≡ 0 ∷ 3 ∷ 0 ∷ [] }
    ensures at { map (λ s. s.at) own_subjects ≡ 0 ∷ 0 ∷ 0 ∷ [] }
    ensures readings { map (readings_ahead 7) own_subjects
        ≡ (1 ∷ 2 ∷ 1 ∷ 2 ∷ 1 ∷ 2 ∷ 1 ∷ []) ∷ (1 ∷ 2 ∷ 3 ∷ 4 ∷ 4 ∷ 4 ∷ 4 ∷ []) ∷ (5 ∷ 5 ∷ 6 ∷ 5 ∷ 5
        ∷ 6 ∷ 5 ∷ []) ∷ [] }
{}
