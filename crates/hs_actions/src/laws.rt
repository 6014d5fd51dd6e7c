//! Laws of the definitions, as contracts of functions that do nothing. The rows' bytes are written by hand.
ghost use Rattle.std.specs.Prelude.{◌≡◌, ◌++◌, [], ◌∷◌, map, slice_set, true, false};
ghost use Rattle.bus_pipes.specs.declared.names.Out.TheVariants as outs;
ghost use Rattle.hs_actions.specs.Happenings.{action_of};
ghost use Rattle.hs_actions.specs.Happenings.Happening.{Clears, Limits};
ghost use Rattle.hs_actions.specs.Answers.{performed, items_of};
ghost use Rattle.hs_actions.specs.Outcomes.{act_at};
ghost use Rattle.hs_actions.specs.Rows.{load_bytes, noop_bytes, hs_event, one_act, twice, reset_once, past_after, act_in, heard_once, past_with, late_event};
ghost use Rattle.hs_actions.specs.declared.action.Action.TheVariants.{Reset, Restart, Report, Message};
ghost use Rattle.hs_actions.specs.declared.action.Source.TheVariants.{AppMonitor, EventMonitor};

/// The actions by their numbers.
pub fn number_rows()
    ensures reset { action_of 1 ≡ Reset }
    ensures restart { action_of 2 ≡ Restart }
    ensures report { action_of 3 ≡ Report }
    ensures first_message { action_of 4 ≡ Message 0 }
    ensures last_message { action_of 11 ≡ Message 7 }
{}

/// The table of actions, row by row, for both monitors.
pub fn action_rows()
    ensures reset { performed 1001 (one_act 1) AppMonitor load_bytes (action_of 1) true
        ≡ outs.Made (hs_event 101 0xE9) ∷ outs.Reset ∷ [] }
    ensures no_reset { performed 1001 (one_act 1) AppMonitor load_bytes (action_of 1) false
        ≡ outs.Made (hs_event 105 0xE9) ∷ [] }
    ensures restart { performed 1001 (one_act 1) AppMonitor load_bytes (action_of 2) true
        ≡ outs.Made (hs_event 102 0xE9) ∷ outs.Restart load_bytes ∷ [] }
    ensures report { performed 1001 (one_act 1) AppMonitor load_bytes (action_of 3) true
        ≡ outs.Made (hs_event 103 0xE9) ∷ [] }
    ensures message { performed 1001 (one_act 1) AppMonitor load_bytes (action_of 4) true
        ≡ outs.Stored noop_bytes ∷ outs.Made (hs_event 104 0xE9) ∷ [] }
    ensures quiet_message { performed 1001 (one_act 2) AppMonitor load_bytes (action_of 4) true
        ≡ outs.Stored noop_bytes ∷ [] }
    ensures no_message { performed 1001 (one_act 1) AppMonitor load_bytes (action_of 4) false ≡ [] }
    ensures event_reset { performed 1001 (one_act 1) EventMonitor load_bytes (action_of 1) true
        ≡ outs.Made (hs_event 111 0xE9) ∷ outs.Reset ∷ [] }
    ensures event_no_reset { performed 1001 (one_act 1) EventMonitor load_bytes (action_of 1) false
        ≡ outs.Made (hs_event 115 0xE9) ∷ [] }
    ensures event_restart { performed 1001 (one_act 1) EventMonitor load_bytes (action_of 2) true
        ≡ outs.Made (hs_event 112 0xE9) ∷ outs.Restart load_bytes ∷ [] }
    ensures event_report { performed 1001 (one_act 1) EventMonitor load_bytes (action_of 3) true
        ≡ outs.Made (hs_event 113 0xE9) ∷ outs.Delete load_bytes ∷ [] }
    ensures event_message { performed 1001 (one_act 1) EventMonitor load_bytes (action_of 4) true
        ≡ outs.Stored noop_bytes ∷ outs.Made (hs_event 114 0xE9) ∷ [] }
{}

/// A cooldown of 2 spaces message actions: with two attempts in each of the wakeups 1, 2 and 3 the first goes, and then the first of
/// wakeup 3. A disabled one never goes.
pub fn cooldown_rows()
    ensures first { items_of 1001 (one_act 1) (past_after 2 []) (twice 1) ≡ outs.Stored noop_bytes
        ∷ outs.Made (hs_event 114 0xE9) ∷ [] }
    ensures second { items_of 1002 (one_act 1) (past_after 3 (twice 1)) (twice 2) ≡ [] }
    ensures third { items_of 1003 (one_act 1) (past_after 4 (twice 1 ++ twice 2)) (twice 3)
        ≡ outs.Stored noop_bytes ∷ outs.Made (hs_event 114 0xEB) ∷ [] }
    ensures disabled { items_of 1001 (one_act 0) (past_after 2 []) (twice 1) ≡ [] }
{}

/// Resets go up to the maximum: three of four, another once they are cleared, and none where the maximum was set to 2.
pub fn reset_rows()
    ensures three { items_of 1000 (one_act 1) (past_after 1 []) (reset_once ∷ reset_once
        ∷ reset_once ∷ reset_once ∷ []) ≡ outs.Made (hs_event 101 0xE8) ∷ outs.Reset
        ∷ outs.Made (hs_event 101 0xE8) ∷ outs.Reset ∷ outs.Made (hs_event 101 0xE8) ∷ outs.Reset
        ∷ outs.Made (hs_event 105 0xE8) ∷ [] }
    ensures cleared { items_of 1000 (one_act 1) (past_after 1 (reset_once ∷ reset_once ∷ reset_once
        ∷ Clears ∷ [])) (reset_once ∷ []) ≡ outs.Made (hs_event 101 0xE8) ∷ outs.Reset ∷ [] }
    ensures limited { items_of 1000 (one_act 1) (past_after 1 (reset_once ∷ reset_once ∷ Limits 2
        ∷ [])) (reset_once ∷ []) ≡ outs.Made (hs_event 105 0xE8) ∷ [] }
{}

/// The message actions by their numbers; the first and the last place of the table, each used alone; and a time with all its bytes.
pub fn message_rows()
    ensures numbers { map action_of (4 ∷ 5 ∷ 6 ∷ 7 ∷ 8 ∷ 9 ∷ 10 ∷ 11 ∷ [])
        ≡ Message 0 ∷ Message 1 ∷ Message 2 ∷ Message 3 ∷ Message 4 ∷ Message 5 ∷ Message 6
        ∷ Message 7 ∷ [] }
    ensures first { map (λ n. items_of 0x01020304 (act_in 0 2) (past_after 1 []) (heard_once n 0
        ∷ [])) (4 ∷ 5 ∷ 11 ∷ [])
        ≡ (outs.Stored noop_bytes ∷ outs.Made (late_event 114 3) ∷ []) ∷ [] ∷ [] ∷ [] }
    ensures last { map (λ n. items_of 0x01020304 (act_in 7 2) (past_after 1 []) (heard_once n 0
        ∷ [])) (4 ∷ 10 ∷ 11 ∷ [])
        ≡ [] ∷ [] ∷ (outs.Stored noop_bytes ∷ outs.Made (late_event 114 3) ∷ []) ∷ [] }
{}

/// With the cooldown 0 both attempts of a wakeup go, with 1 the first one, which goes again in the next wakeup; and one of 258 wakeups is
/// over in the 258th behind the sending. One action's cooldown doesn't keep another one back.
pub fn cooldown_edge_rows()
    ensures none { items_of 1001 (act_in 0 0) (past_after 2 []) (twice 1)
        ≡ outs.Stored noop_bytes ∷ outs.Made (hs_event 114 0xE9) ∷ outs.Stored noop_bytes
        ∷ outs.Made (hs_event 114 0xE9) ∷ [] }
    ensures one { items_of 1001 (act_in 0 1) (past_after 2 []) (twice 1) ≡ outs.Stored noop_bytes
        ∷ outs.Made (hs_event 114 0xE9) ∷ [] }
    ensures next { items_of 1002 (act_in 0 1) (past_after 3 (twice 1)) (twice 2)
        ≡ outs.Stored noop_bytes ∷ outs.Made (hs_event 114 0xEA) ∷ [] }
    ensures long { items_of 1000 (act_in 0 258) (past_after 258 (twice 0)) (twice 257) ≡ [] }
    ensures over { items_of 1000 (act_in 0 258) (past_after 259 (twice 0)) (twice 258)
        ≡ outs.Stored noop_bytes ∷ outs.Made (hs_event 114 0xE8) ∷ [] }
    ensures other { items_of 1000 (slice_set (act_in 0 9) 1 (act_at (act_in 1 9) 1))
        (past_after 1 []) (heard_once 4 0
        ∷ heard_once 5 0 ∷ [])
        ≡ outs.Stored noop_bytes ∷ outs.Made (hs_event 114 0xE8) ∷ outs.Stored noop_bytes
        ∷ outs.Made (hs_event 114 0xE8) ∷ [] }
{}

/// Resets made and their maximum over 255.
pub fn reset_edge_rows()
    ensures goes { items_of 1000 (one_act 1) (past_with 0x0101 0x0102 []) (reset_once ∷ [])
        ≡ outs.Made (hs_event 101 0xE8) ∷ outs.Reset ∷ [] }
    ensures full { items_of 1000 (one_act 1) (past_with 0x0102 0x0102 []) (reset_once ∷ [])
        ≡ outs.Made (hs_event 105 0xE8) ∷ [] }
    ensures limited { items_of 1000 (one_act 1) (past_with 2 3 (Limits 0x0200 ∷ [])) (reset_once
        ∷ reset_once ∷ [])
        ≡ outs.Made (hs_event 101 0xE8) ∷ outs.Reset ∷ outs.Made (hs_event 101 0xE8) ∷ outs.Reset
        ∷ [] }
{}
