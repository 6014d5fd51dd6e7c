//! Laws of the definitions, and worked rows, as contracts of functions that do nothing. The rows' bytes are written by hand from the
//! layouts.
ghost use Rattle.std.specs.Prelude.{◌≡◌, ◌==◌, ◌++◌, ◌&&◌, if◌then◌else◌, ℕ, Bool, List, [], ◌∷◌, length, map, replicate, slice_set, true, false, Some, None};
ghost use Rattle.bus_pipes.specs.declared.names.Out.TheVariants as outs;
ghost use Rattle.commands.specs.Rows.{numbers_of_rows};
ghost use Rattle.commands.specs.Verdicts.{verdict_at};
ghost use Rattle.commands.specs.declared.verdicts.Verdict.TheVariants.{Other, Request, Refused, Accepted};
ghost use Rattle.lc_watch.specs.Watchpoints as watchpoints;
ghost use Rattle.lc_watch.specs.Actionpoints as actionpoints;
ghost use Rattle.lc_watch.specs.Actionpoints.{act_at};
ghost use Rattle.lc_watch.specs.Outcomes.{compares, reading, outcome_of};
ghost use Rattle.lc_watch.specs.Expressions.{values_left, LeavesOne, is_one, word_of, value_of};
ghost use Rattle.lc_watch.specs.Failing.{are_failing};
ghost use Rattle.lc_watch.specs.Histories.{Input, Setup, ordered_at, switches_in, evaluation_at, evaluations_of};
ghost use Rattle.lc_watch.specs.Firing.{is_active, is_due, fires};
ghost use Rattle.lc_watch.specs.Housekeeping.{results_of, housekeeping_of};
ghost use Rattle.lc_watch.specs.Answers.{start_of};
ghost use Rattle.lc_watch.specs.Messages.{lc_codes};
ghost use Rattle.lc_watch.specs.Verdicts.{lc_protocol};
ghost use Rattle.lc_watch.specs.declared.watchpoints.Operator.TheVariants.{Less, LessOrEqual, NotEqual, Equal, GreaterOrEqual, Greater};
ghost use Rattle.lc_watch.specs.declared.expressions.Word.{Word};
ghost use Rattle.lc_watch.specs.declared.expressions.Word.TheVariants.{Watch, And, Or, Xor, Not, Unknown};
ghost use Rattle.lc_watch.specs.declared.outcomes.Outcome.TheVariants.{Unseen, Clear, Tripped, Outside};
ghost use Rattle.lc_watch.specs.declared.instructions.Instruction.TheVariants.{Plain, Switch};
ghost use Rattle.lc_watch.specs.Rows.{peek, dwell, watch_row, first_act, first_alone, woken, quiet, set_active, set_passive, request, lc_event, fired_first, shown, sent_along, longest, four_bytes, numbered, both_ends, ends_watched, late_event};

/// Payloads of zero bytes have no fault, and spell the tables without used entries.
pub fn blank_tables()
    ensures watch_fault { watchpoints.rows_fault_of (replicate 512 0) ≡ None }
    ensures watch { watchpoints.rows_of (replicate 512 0) ≡ watchpoints.blank_rows }
    ensures act_fault { actionpoints.rows_fault_of (replicate 640 0) ≡ None }
    ensures act { actionpoints.rows_of (replicate 640 0) ≡ actionpoints.blank_rows }
{}

/// An expression that leaves exactly one value by some values of the watchpoints leaves exactly one by all.
pub fn expressions_leave_one()
    ensures { (value : ℕ → Bool) (words : List Word) → is_one (values_left value words) ≡ true
        → (other : ℕ → Bool) → LeavesOne (values_left other words) }
{}

/// An actionpoint fires in a wakeup exactly where it is due and was active once the commands were obeyed. Behind the wakeup it is passive
/// where it fired, and else as it was.
pub fn firing_makes_passive()
    ensures fires { (setup : Setup) (history : List Input) (input : Input) (place : ℕ)
        → fires setup history input place ≡ (is_active setup history (ordered_at setup input) place
        && is_due setup place history input) }
    ensures behind { (setup : Setup) (history : List Input) (input : Input) (place : ℕ)
        → is_active setup (history ++ input ∷ []) [] place
        ≡ (if fires setup history input place then false
        else is_active setup history (ordered_at setup input) place) }
{}

/// An actionpoint fires at an evaluation alone, and at one exactly where it was active once the commands were obeyed and this is the last of
/// so many evaluations in a row that all fail: the list of its evaluations ends with so many that do.
#[tactic(auto, using(crate::proofs::Ends::fires_without, crate::proofs::Ends::fires_at, crate::proofs::Ends::row_fails, crate::proofs::Ends::ends_with_row))]
pub fn fires_at_the_last_of_a_row()
    ensures without { (setup : Setup) (history : List Input) (input : Input) (place : ℕ)
        → evaluation_at setup place (history ++ input ∷ []) ≡ None
        → fires setup history input place ≡ false }
    ensures at { (setup : Setup) (history : List Input) (input : Input) (place : ℕ) (fails : Bool)
        → evaluation_at setup place (history ++ input ∷ []) ≡ Some fails
        → fires setup history input place ≡ (is_active setup history (ordered_at setup input) place
        && are_failing (act_at setup.actions place).failures
        (evaluations_of setup place (history ++ input ∷ []))) }
    ensures row { (earlier : List Bool) (n : ℕ)
        → are_failing n (earlier ++ replicate n true) ≡ true }
    ensures ends { (n : ℕ) (evaluations : List Bool) → are_failing n evaluations ≡ true
        → (earlier : List Bool) × (evaluations ≡ earlier ++ replicate n true) }
{}

/// A watchpoint of each table place, byte by byte, with fields that differ, and each reason to refuse one.
pub fn watchpoint_rows()
    ensures first { watchpoints.row_at (0 ∷ 3 ∷ 0x08 ∷ 0x8A ∷ 0x01 ∷ 0x02 ∷ 0 ∷ 5 ∷ 0x11 ∷ 0x12
        ∷ 0x13 ∷ 0x14 ∷ 0x21 ∷ 0x22 ∷ 0x23 ∷ 0x24 ∷ []) 0
        ≡ record {
          kind = 3;
          id = 0x088A;
          offset = 0x0102;
          operator = Some GreaterOrEqual;
          mask
              = 0x11121314;
          limit = 0x21222324;
        } }
    ensures last { watchpoints.row_at (replicate 496 0
        ++ (0 ∷ 1 ∷ 0x08 ∷ 0x91 ∷ 0 ∷ 7 ∷ 0 ∷ 1 ∷ 0 ∷ 0 ∷ 0 ∷ 8 ∷ 0 ∷ 0 ∷ 0 ∷ 9 ∷ [])) 31
        ≡ record { kind = 1; id = 0x0891; offset = 7; operator = Some Less; mask = 8; limit = 9 } }
    ensures no_operator { watchpoints.operator_of 0 ≡ None }
    ensures less { watchpoints.operator_of 1 ≡ Some Less }
    ensures less_or_equal { watchpoints.operator_of 2 ≡ Some LessOrEqual }
    ensures not_equal { watchpoints.operator_of 3 ≡ Some NotEqual }
    ensures equal { watchpoints.operator_of 4 ≡ Some Equal }
    ensures greater_or_equal { watchpoints.operator_of 5 ≡ Some GreaterOrEqual }
    ensures greater { watchpoints.operator_of 6 ≡ Some Greater }
    ensures past_operators { watchpoints.operator_of 7 ≡ None }
    ensures kind { watchpoints.row_reason (record
        { kind = 4; id = 0; offset = 0; operator = None; mask = 0; limit = 0 }) ≡ Some 1 }
    ensures operator { watchpoints.row_reason
        (record { kind = 3; id = 0; offset = 0; operator = None; mask = 0; limit = 0 }) ≡ Some 2 }
    ensures unused { watchpoints.row_reason (record
        { kind = 0; id = 0; offset = 0; operator = None; mask = 0; limit = 0 }) ≡ None }
    ensures used { watchpoints.row_reason (record
        { kind = 3; id = 0; offset = 0; operator = Some Greater; mask = 0; limit = 0 }) ≡ None }
{}

/// Each operator at a value below, at and above the limit, all without a sign.
pub fn operator_rows()
    ensures less { compares Less 4 5 ≡ true }
    ensures not_less { compares Less 5 5 ≡ false }
    ensures at_most { compares LessOrEqual 5 5 ≡ true }
    ensures not_at_most { compares LessOrEqual 6 5 ≡ false }
    ensures other { compares NotEqual 4 5 ≡ true }
    ensures not_other { compares NotEqual 5 5 ≡ false }
    ensures same { compares Equal 5 5 ≡ true }
    ensures not_same { compares Equal 6 5 ≡ false }
    ensures at_least { compares GreaterOrEqual 5 5 ≡ true }
    ensures not_at_least { compares GreaterOrEqual 4 5 ≡ false }
    ensures greater { compares Greater 6 5 ≡ true }
    ensures not_greater { compares Greater 5 5 ≡ false }
    ensures without_sign { compares Greater 0xFFFFFFFF 0x7FFFFFFF ≡ true }
{}

/// Values of each type, the last place at which each fits and one past it, masks, and the last packet of an id.
pub fn outcome_rows()
    ensures byte { reading (watch_row 1 13 Equal 0xFFFFFFFF 0xF2) dwell ≡ Tripped }
    ensures byte_past { reading (watch_row 1 14 Equal 0 0) dwell ≡ Outside }
    ensures two_bytes { reading (watch_row 2 12 Equal 0xFFFFFFFF 0xF1F2) dwell ≡ Tripped }
    ensures two_bytes_past { reading (watch_row 2 13 Equal 0 0) dwell ≡ Outside }
    ensures four_bytes { reading (watch_row 3 10 Equal 0xFFFFFFFF 0x0000F1F2) dwell ≡ Tripped }
    ensures four_bytes_past { reading (watch_row 3 11 Equal 0 0) dwell ≡ Outside }
    ensures first_byte { reading (watch_row 1 0 Equal 0xFFFFFFFF 8) dwell ≡ Tripped }
    ensures masked { reading (watch_row 1 13 Equal 0x0F 2) dwell ≡ Tripped }
    ensures masked_first { reading (watch_row 1 13 Greater 0x0F 0xF0) dwell ≡ Clear }
    ensures mask_of_none { reading (watch_row 3 10 Equal 0 0) dwell ≡ Tripped }
    ensures before { outcome_of (watch_row 1 20 Greater 0xFFFFFFFF 5) (dwell ∷ []) ≡ Unseen }
    ensures last_counts { outcome_of (watch_row 1 20 Greater 0xFFFFFFFF 5) (peek 9 ∷ peek 1 ∷ dwell
        ∷ []) ≡ Clear }
    ensures unused { outcome_of (watch_row 0 20 Greater 0xFFFFFFFF 5) (peek 9 ∷ []) ≡ Unseen }
{}

/// An actionpoint byte by byte, with fields that differ; each word; each reason to refuse one.
pub fn actionpoint_rows()
    ensures row { actionpoints.row_at ((0 ∷ 2 ∷ 0 ∷ 0x40 ∷ 0x01 ∷ 0x02 ∷ 0 ∷ 4 ∷ 0 ∷ 0x1F ∷ 0x80 ∷ 1
        ∷ 0x80 ∷ 2 ∷ 0x80 ∷ 3 ∷ 0x80 ∷ 4 ∷ 0x80 ∷ 0 ∷ 0x80 ∷ 5 ∷ 0 ∷ 0x20 ∷ []) ++ replicate 16 0) 0
        ≡ record {
          state = 2;
          rts = 64;
          failures = 0x0102;
          size = 4;
          words = Watch 31 ∷ And ∷ Or
              ∷ Xor ∷ Not ∷ Unknown ∷ Unknown ∷ Unknown ∷ replicate 8 (Watch 0);
        } }
    ensures state { actionpoints.row_reason (record
        { state = 3; rts = 0; failures = 0; size = 0; words = replicate 16 Unknown }) ≡ Some 1 }
    ensures unused { actionpoints.row_reason (record
        { state = 0; rts = 0; failures = 0; size = 0; words = replicate 16 Unknown }) ≡ None }
    ensures no_sequence { actionpoints.row_reason
        (record { state = 2; rts = 0; failures = 1; size = 0; words = replicate 16 Unknown })
        ≡ Some 2 }
    ensures past_sequences { actionpoints.row_reason
        (record { state = 1; rts = 65; failures = 1; size = 0; words = replicate 16 Unknown })
        ≡ Some 2 }
    ensures no_failures { actionpoints.row_reason
        (record { state = 1; rts = 64; failures = 0; size = 1; words = replicate 16 (Watch 0) })
        ≡ Some 2 }
    ensures no_words { actionpoints.row_reason
        (record { state = 1; rts = 64; failures = 1; size = 0; words = replicate 16 (Watch 0) })
        ≡ Some 3 }
    ensures too_many_words { actionpoints.row_reason
        (record {
          state = 1;
          rts = 64;
          failures = 1;
          size = 17;
          words = Watch 0
              ∷ replicate 15 Not;
        }) ≡ Some 3 }
    ensures one_word { actionpoints.row_reason
        (record {
          state = 1;
          rts = 1;
          failures = 65535;
          size = 1;
          words = Watch 31
              ∷ replicate 15 Unknown;
        }) ≡ None }
    ensures all_words { actionpoints.row_reason
        (record {
          state = 1;
          rts = 64;
          failures = 1;
          size = 16;
          words = Watch 0
              ∷ replicate 15 Not;
        }) ≡ None }
    ensures no_operand { actionpoints.row_reason
        (record {
          state = 1;
          rts = 1;
          failures = 1;
          size = 2;
          words = Watch 0 ∷ And
              ∷ replicate 14 Unknown;
        }) ≡ Some 3 }
    ensures two_values { actionpoints.row_reason
        (record {
          state = 1;
          rts = 1;
          failures = 1;
          size = 2;
          words = Watch 0 ∷ Watch 1
              ∷ replicate 14 And;
        }) ≡ Some 3 }
    ensures no_such_word { actionpoints.row_reason
        (record {
          state = 1;
          rts = 1;
          failures = 1;
          size = 2;
          words = Watch 0 ∷ Unknown
              ∷ replicate 14 And;
        }) ≡ Some 3 }
{}

/// What each operator makes of two values; an expression of several; one that names a watchpoint whose value wasn't compared.
pub fn expression_rows()
    ensures both { values_left (λ place. place == 1) (Watch 0 ∷ Watch 1 ∷ And ∷ [])
        ≡ Some (false ∷ []) }
    ensures either { values_left (λ place. place == 1) (Watch 0 ∷ Watch 1 ∷ Or ∷ [])
        ≡ Some (true ∷ []) }
    ensures just_one { values_left (λ place. place == 1) (Watch 0 ∷ Watch 1 ∷ Xor ∷ [])
        ≡ Some (true ∷ []) }
    ensures not_both { values_left (λ place. place == 1) (Watch 1 ∷ Watch 1 ∷ Xor ∷ [])
        ≡ Some (false ∷ []) }
    ensures turned { values_left (λ place. place == 1) (Watch 1 ∷ Not ∷ []) ≡ Some (false ∷ []) }
    ensures in_order { values_left (λ place. place == 1) (Watch 1 ∷ Watch 0 ∷ Not ∷ Watch 0 ∷ Or
        ∷ And ∷ []) ≡ Some (true ∷ []) }
    ensures left { values_left (λ place. place == 1) (Watch 0 ∷ Watch 1 ∷ [])
        ≡ Some (true ∷ false ∷ []) }
    ensures lacks { values_left (λ place. place == 1) (And ∷ Watch 0 ∷ Watch 1 ∷ []) ≡ None }
    ensures known { value_of (λ place. if place == 1 then Tripped else Clear) (Watch 1 ∷ Watch 0
        ∷ Or ∷ []) ≡ Some true }
    ensures unseen { value_of (λ place. if place == 1 then Tripped else Unseen) (Watch 1 ∷ Watch 0
        ∷ Or ∷ []) ≡ None }
    ensures outside { value_of (λ place. if place == 1 then Tripped else Outside) (Watch 1 ∷ Watch 0
        ∷ Or ∷ []) ≡ None }
{}

/// The last evaluations in a row.
pub fn failing_rows()
    ensures one { are_failing 1 (false ∷ true ∷ []) ≡ true }
    ensures none { are_failing 1 (true ∷ false ∷ []) ≡ false }
    ensures few { are_failing 2 (true ∷ []) ≡ false }
    ensures two { are_failing 2 (false ∷ true ∷ true ∷ []) ≡ true }
    ensures broken { are_failing 2 (true ∷ false ∷ true ∷ []) ≡ false }
    ensures more { are_failing 2 (true ∷ true ∷ true ∷ []) ≡ true }
{}

/// A command of each code, a request, a packet of another id, and each refusal.
pub fn command_rows()
    ensures noop { verdict_at lc_protocol (first_act 1 2) [] (0x18 ∷ 0xA6 ∷ 0xC0 ∷ 0 ∷ 0 ∷ 1 ∷ 0
        ∷ 0x80 ∷ []) ≡ Accepted 0 Plain }
    ensures reset { verdict_at lc_protocol (first_act 1 2) [] (0x18 ∷ 0xA6 ∷ 0xC0 ∷ 0 ∷ 0 ∷ 1 ∷ 1
        ∷ 0x81 ∷ []) ≡ Accepted 1 Plain }
    ensures active { verdict_at lc_protocol (first_act 2 2) [] set_active
        ≡ Accepted 2 (Switch 1 true) }
    ensures passive { verdict_at lc_protocol (first_act 1 2) [] set_passive
        ≡ Accepted 3 (Switch 1 false) }
    ensures request { verdict_at lc_protocol (first_act 1 2) [] request ≡ Request }
    ensures other { verdict_at lc_protocol (first_act 1 2) [] (0x18 ∷ 0x88 ∷ 0xC0 ∷ 0 ∷ 0 ∷ 1 ∷ 0
        ∷ 0xAE ∷ []) ≡ Other }
    ensures checksum { verdict_at lc_protocol (first_act 1 2) [] (0x18 ∷ 0xA6 ∷ 0xC0 ∷ 0 ∷ 0 ∷ 1 ∷ 0
        ∷ 0x81 ∷ []) ≡ Refused 1 }
    ensures code { verdict_at lc_protocol (first_act 1 2) [] (0x18 ∷ 0xA6 ∷ 0xC0 ∷ 0 ∷ 0 ∷ 1 ∷ 4
        ∷ 0x84 ∷ []) ≡ Refused 2 }
    ensures length { verdict_at lc_protocol (first_act 1 2) [] (0x18 ∷ 0xA6 ∷ 0xC0 ∷ 0 ∷ 0 ∷ 1 ∷ 2
        ∷ 0x82 ∷ []) ≡ Refused 3 }
    ensures no_number { verdict_at lc_protocol (first_act 1 2) [] (0x18 ∷ 0xA6 ∷ 0xC0 ∷ 0 ∷ 0 ∷ 3
        ∷ 2 ∷ 0x80 ∷ 0 ∷ 0 ∷ []) ≡ Refused 4 }
    ensures past_numbers { verdict_at lc_protocol (first_act 1 2) [] (0x18 ∷ 0xA6 ∷ 0xC0 ∷ 0 ∷ 0 ∷ 3
        ∷ 3 ∷ 0x90 ∷ 0 ∷ 0x11 ∷ []) ≡ Refused 4 }
    ensures unused { verdict_at lc_protocol (first_act 1 2) [] (0x18 ∷ 0xA6 ∷ 0xC0 ∷ 0 ∷ 0 ∷ 3 ∷ 3
        ∷ 0x91 ∷ 0 ∷ 0x10 ∷ []) ≡ Refused 5 }
    ensures switches { switches_in 15 (Switch 1 true ∷ Switch 16 false ∷ Plain ∷ []) ≡ false ∷ [] }
{}

/// Each packet, its fields all different, and the outcomes as a number.
pub fn packet_rows()
    ensures start { start_of 0x0102 ≡ 0x18 ∷ 0xA9 ∷ 0xC0 ∷ 0 ∷ 0 ∷ 3 ∷ 4 ∷ 0x8A ∷ 1 ∷ 2 ∷ [] }
    ensures housekeeping { housekeeping_of 0x01020304
        (record { accepted = 0x11; errors = 0x22 }) 0x3334 0x4445 0x5152535455565758
        ≡ 8 ∷ 0xA7 ∷ 0xC0 ∷ 0 ∷ 0 ∷ 0x15 ∷ 1 ∷ 2 ∷ 3 ∷ 4 ∷ 0 ∷ 0 ∷ 0x11 ∷ 0x22 ∷ 0 ∷ 0 ∷ 0x33 ∷ 0x34
        ∷ 0x44 ∷ 0x45 ∷ 0x51 ∷ 0x52 ∷ 0x53 ∷ 0x54 ∷ 0x55 ∷ 0x56 ∷ 0x57 ∷ 0x58 ∷ [] }
    ensures results { results_of (λ place. if place == 0 then Clear else if place == 1 then Tripped
        else if place == 2 then Outside else Unseen) ≡ 0x39 }
    ensures last_result { results_of (λ place. if place == 31 then Tripped else Unseen)
        ≡ 0x8000000000000000 }
{}

/// Two evaluations in a row that fail: the second fires, though no packet came, and then nothing more comes. A value that is low again
/// ends the row. Of two packets in a wakeup the last counts.
pub fn limit_starts_a_sequence()
    ensures fires { sent_along (first_alone 1 2) (quiet 0 ∷ woken 1 [] (peek 9 ∷ []) ∷ quiet 2
        ∷ quiet 3 ∷ quiet 4 ∷ []) ≡ [] ∷ [] ∷ fired_first 0xEA ∷ [] ∷ [] ∷ [] }
    ensures ends { sent_along (first_alone 1 2) (woken 0 [] (peek 9 ∷ []) ∷ woken 1 [] (peek 1 ∷ [])
        ∷ woken 2 [] (peek 9 ∷ []) ∷ quiet 3 ∷ []) ≡ [] ∷ [] ∷ [] ∷ fired_first 0xEB ∷ [] }
    ensures last_counts { sent_along (first_alone 1 1) (woken 0 [] (peek 9 ∷ dwell ∷ peek 1 ∷ [])
        ∷ woken 1 [] (peek 1 ∷ peek 9 ∷ []) ∷ []) ≡ [] ∷ fired_first 0xE9 ∷ [] }
{}

/// A passive actionpoint counts and doesn't fire; once it is set active it fires at its next evaluation, in the same wakeup; set active
/// and passive in one wakeup it is passive.
pub fn passive_evaluations_count()
    ensures passive { sent_along (first_alone 2 2) (woken 0 [] (peek 9 ∷ []) ∷ quiet 1 ∷ quiet 2
        ∷ []) ≡ [] ∷ [] ∷ [] ∷ [] }
    ensures set { sent_along (first_alone 2 2) (woken 0 [] (peek 9 ∷ [])
        ∷ woken 1 (set_active ∷ []) [] ∷ quiet 2 ∷ []) ≡ []
        ∷ (outs.Made (lc_event 18 2 0xE9) ∷ fired_first 0xE9) ∷ [] ∷ [] }
    ensures again { sent_along (first_alone 1 2) (woken 0 [] (peek 9 ∷ []) ∷ quiet 1 ∷ quiet 2
        ∷ woken 3 (set_active ∷ []) [] ∷ []) ≡ [] ∷ fired_first 0xE9 ∷ []
        ∷ (outs.Made (lc_event 18 2 0xEB) ∷ fired_first 0xEB) ∷ [] }
    ensures both { sent_along (first_alone 1 1) (woken 0 (set_active ∷ set_passive ∷ []) (peek 9
        ∷ []) ∷ []) ≡ (outs.Made (lc_event 18 2 0xE8) ∷ outs.Made (lc_event 19 2 0xE8) ∷ []) ∷ [] }
{}

/// Housekeeping shows the state at its place: the outcomes and firings of the earlier wakeups, and what was set before it in this one.
pub fn housekeeping_rows()
    ensures { sent_along (first_alone 1 1) (woken 0 (request ∷ []) (peek 9 ∷ [])
        ∷ woken 1 (request ∷ set_active ∷ request ∷ []) [] ∷ [])
        ≡ (outs.Made (shown 0xE8 0 1 0 0) ∷ fired_first 0xE8)
        ∷ (outs.Made (shown 0xE9 0 0 1 2) ∷ outs.Made (lc_event 18 2 0xE9)
        ∷ outs.Made (shown 0xE9 1 1 1 2) ∷ fired_first 0xE9) ∷ [] }
{}

/// Each code with the shortest and the longest payload of its commands; and the numbers of operators and of words.
pub fn length_rows()
    ensures codes { numbers_of_rows lc_codes ≡ (0 ∷ 0 ∷ 0 ∷ []) ∷ (1 ∷ 0 ∷ 0 ∷ [])
        ∷ (2 ∷ 2 ∷ 2 ∷ []) ∷ (3 ∷ 2 ∷ 2 ∷ []) ∷ [] }
    ensures operators { map watchpoints.operator_of (0 ∷ 1 ∷ 2 ∷ 3 ∷ 4 ∷ 5 ∷ 6 ∷ 7 ∷ 0x0101 ∷ 0x0106
        ∷ 0xFFFF ∷ [])
        ≡ None ∷ Some Less ∷ Some LessOrEqual ∷ Some NotEqual ∷ Some Equal ∷ Some GreaterOrEqual
        ∷ Some Greater ∷ replicate 4 None }
    ensures words { map word_of (0 ∷ 31 ∷ 0x8001 ∷ 0x8002 ∷ 0x8003 ∷ 0x8004 ∷ 32 ∷ 0x0100 ∷ 0x7FFF
        ∷ 0x8000 ∷ 0x8005 ∷ 0x8101 ∷ 0xFFFF ∷ [])
        ≡ Watch 0 ∷ Watch 31 ∷ And ∷ Or ∷ Xor ∷ Not ∷ replicate 7 Unknown }
{}

/// Numbers of actionpoints of which the high byte alone is wrong, and those next to the first and the last.
pub fn number_rows()
    ensures active { map (verdict_at lc_protocol both_ends []) (numbered 2 0x81 0 1
        ∷ numbered 2 0x90 0 0x10
        ∷ numbered 2 0x82 0 2
        ∷ numbered 2 0x91 0 0x11
        ∷ numbered 2 0x80 1 1
        ∷ numbered 2 0x91 1 0x10 ∷ [])
        ≡ Accepted 2 (Switch 1 true) ∷ Accepted 2 (Switch 16 true) ∷ Refused 5 ∷ Refused 4
        ∷ Refused 4 ∷ Refused 4 ∷ [] }
    ensures passive { map (verdict_at lc_protocol both_ends []) (numbered 3 0x80 0 1
        ∷ numbered 3 0x91 0 0x10
        ∷ numbered 3 0x8E 0 0x0F
        ∷ numbered 3 0x81 0 0
        ∷ numbered 3 0x81 1 1
        ∷ numbered 3 0x90 1 0x10 ∷ [])
        ≡ Accepted 3 (Switch 1 false) ∷ Accepted 3 (Switch 16 false) ∷ Refused 5 ∷ Refused 4
        ∷ Refused 4 ∷ Refused 4 ∷ [] }
    ensures failures { map (are_failing 0x0102) (replicate 258 true ∷ replicate 257 true
        ∷ (false ∷ replicate 2 true) ∷ []) ≡ true ∷ false ∷ false ∷ [] }
{}

/// Values, masks and limits with all their bytes, offsets over 255, and an id of which the high byte alone differs.
pub fn value_rows()
    ensures whole { reading (watch_row 3 12 Equal 0xFFFFFFFF 0x89ABCDEF) four_bytes ≡ Tripped }
    ensures parts { map (λ limit. reading (watch_row 3 12 NotEqual 0xFFFFFFFF limit) four_bytes)
        (0x88ABCDEF
        ∷ 0x89AACDEF ∷ 0x89ABCCEF ∷ 0x89ABCDEE ∷ [])
        ≡ replicate 4 Tripped }
    ensures masks { map (λ mask. reading (watch_row 3 12 Equal mask (0x89000000)) four_bytes)
        (0xFF000000
        ∷ 0xFF0000FF ∷ 0xFE000000 ∷ []) ≡ Tripped ∷ Clear ∷ Clear ∷ [] }
    ensures middle { map (λ offset. reading (watch_row 2 offset Equal 0xFFFF 0xABCD) four_bytes) (12
        ∷ 13 ∷ 14 ∷ 15 ∷ []) ≡ Clear ∷ Tripped ∷ Clear ∷ Outside ∷ [] }
    ensures far { map (λ offset. reading (watch_row 1 offset Equal 0xFFFFFFFF 0xF7) longest) (255
        ∷ 256 ∷ 0x01FF ∷ []) ≡ Tripped ∷ Outside ∷ Outside ∷ [] }
    ensures past { reading (watch_row 1 0x0114 Greater 0xFFFFFFFF 5) (peek 9) ≡ Outside }
    ensures other_id { outcome_of (watch_row 1 20 Greater 0xFFFFFFFF 5) (slice_set (peek 9) 0 9
        ∷ []) ≡ Unseen }
{}

/// The last entries of both tables, and what an actionpoint in the first place and one in the last do on the last watchpoint.
pub fn place_rows()
    ensures last_row { actionpoints.row_at (replicate 600 0
        ++ (0 ∷ 1 ∷ 0 ∷ 0x40 ∷ 1 ∷ 2 ∷ 0 ∷ 1 ∷ 0 ∷ 0x1F ∷ 0x80 ∷ 5 ∷ 0 ∷ 0 ∷ 0 ∷ 0 ∷ 0 ∷ 0 ∷ 0 ∷ 0
        ∷ 0 ∷ 0 ∷ 0 ∷ 0 ∷ 0 ∷ 0 ∷ 0 ∷ 0 ∷ 0 ∷ 0 ∷ 0 ∷ 0 ∷ 0 ∷ 0 ∷ 0 ∷ 0 ∷ 0 ∷ 0 ∷ 0 ∷ 0 ∷ [])) 15
        ≡ record {
          state = 1;
          rts = 64;
          failures = 0x0102;
          size = 1;
          words = Watch 31 ∷ Unknown
              ∷ replicate 14 (Watch 0);
        } }
    ensures fires { sent_along ends_watched ((record {
      time = 0x01020304;
      commands = [];
      seen = peek 9
          ∷ [];
    }) ∷ [])
        ≡ (outs.Stored (0x18 ∷ 0xA9 ∷ 0xC0 ∷ 0 ∷ 0 ∷ 3 ∷ 4 ∷ 0x88 ∷ 0 ∷ 1 ∷ [])
        ∷ outs.Made late_event
        ∷ outs.Stored (0x18 ∷ 0xA9 ∷ 0xC0 ∷ 0 ∷ 0 ∷ 3 ∷ 4 ∷ 0xC9 ∷ 0 ∷ 0x40 ∷ [])
        ∷ outs.Made late_event ∷ []) ∷ [] }
{}
