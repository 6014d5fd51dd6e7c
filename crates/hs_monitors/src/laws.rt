//! What the definitions give in small cases, and the sentence that they make of the countdown. The functions do nothing: their contracts
//! are the laws. The rows' bytes are written by hand.
ghost use Rattle.std.specs.Prelude.{◌≡◌, ◌<◌, ◌-◌, ◌++◌, ◌∷◌, [], ℕ, Bool, true, false, if◌then◌else◌, List, length, map, replicate, slice_set, Some};
ghost use Rattle.bus_pipes.specs.declared.names.Out.TheVariants as outs;
ghost use Rattle.histories.specs.Entries.{wakeups};
ghost use Rattle.histories.specs.Entries.Entry.{Woken, Activated};
ghost use Rattle.commands.specs.Rows.{numbers_of_rows};
ghost use Rattle.commands.specs.Verdicts.{verdict_at};
ghost use Rattle.commands.specs.declared.verdicts.Verdict.TheVariants.{Other, Request, Refused, Accepted};
ghost use Rattle.hs_actions.specs.Outcomes.{act_at};
ghost use Rattle.hs_actions.specs.State.{left_of};
ghost use Rattle.hs_actions.specs.Rows.{load_bytes, noop_bytes, hs_event, late_event, one_act};
ghost use Rattle.hs_monitors.specs.declared.instructions.Instruction.TheVariants.{Plain, Monitor, Listen, Clear, Limit};
ghost use Rattle.hs_monitors.specs.Histories.{HsEntry, Setup};
ghost use Rattle.hs_monitors.specs.Histories.Activation.{Apps};
ghost use Rattle.hs_monitors.specs.Messages.{hs_codes};
ghost use Rattle.hs_monitors.specs.Verdicts.{hs_protocol};
ghost use Rattle.hs_monitors.specs.Acting.{acts, countdown_of};
ghost use Rattle.hs_monitors.specs.Events.{is_event, is_matched};
ghost use Rattle.hs_monitors.specs.Housekeeping.{watching_bits, housekeeping_of};
ghost use Rattle.hs_monitors.specs.Step.{hs_items, resets_made, resets_maximum};
ghost use Rattle.hs_monitors.specs.Cooldowns.{sendings_of, last_leaves};
ghost use Rattle.hs_monitors.specs.Rows.{cam_bytes, hs_info, load_event, enable, disable, deafen, clear, limit_none, request, load_row, load_rows, seven_rows, setup_with, watching, listening, wakeup, load_at, counted, saw, heard, wrong_request, long_request, reset_counts, longest_bytes, longest_event, ends_watched, last_heard, shown};

/// An entry with the cycle count n acts in exactly the check in which its countdown goes from above zero to zero, and in no later check of
/// the watch. The countdown begins at n; each changed check sets it to n, and each other one takes one off it.
pub fn acts_where_the_countdown_ends()
    ensures ends { (n : ℕ) (earlier : List Bool) (this : Bool) → 0 < n → acts n earlier this ≡ true
        → (0 < countdown_of n earlier) × (countdown_of n (earlier ++ this ∷ []) ≡ 0) }
    ensures there { (n : ℕ) (earlier : List Bool) (this : Bool) → 0 < n → 0 < countdown_of n earlier
        → countdown_of n (earlier ++ this ∷ []) ≡ 0 → acts n earlier this ≡ true }
    ensures once { (n : ℕ) (earlier later : List Bool) (this that : Bool)
        → acts n earlier this ≡ true → acts n ((earlier ++ this ∷ []) ++ later) that ≡ false }
    ensures begins { (n : ℕ) → countdown_of n [] ≡ n }
    ensures steps { (n : ℕ) (earlier : List Bool) (this : Bool) → 0 < n → 0 < countdown_of n earlier
        → countdown_of n (earlier ++ this ∷ []) ≡ (if this then n else countdown_of n earlier - 1) }
{}

/// What is left of the cooldown of a message action behind a history is its number in the table less the wakeups since the last sending,
/// and 0 where nothing was sent or more wakeups went by.
pub fn cooldown_counts_from_the_last_sending()
    ensures { (setup : Setup) (history : List HsEntry) (place : ℕ)
        → left_of (act_at setup.tables.acts place).cooldown (length (wakeups history))
        (sendings_of setup history place) ≡ last_leaves (act_at setup.tables.acts place).cooldown
        (length (wakeups history)) (sendings_of setup history place) }
{}

/// A monitor with the cycle count 1 acts in its first check where the counter is 0, and in no later one.
pub fn first_check_acts()
    ensures first { hs_items (watching 1 3) [] (counted 0 0) ≡ outs.Made (hs_event 103 0xE8) ∷ [] }
    ensures second { hs_items (watching 1 3) (saw 0 (0 ∷ [])) (counted 1 0) ≡ [] }
{}

/// A counter that stalls makes its monitor act once, in the third unchanged check of three. A missing counter is unchanged, one that jumps
/// back is changed, and of two with one name the first counts.
pub fn stalled_counter_acts_once()
    ensures first { hs_items (watching 3 2) [] (counted 0 5) ≡ [] }
    ensures third { hs_items (watching 3 2) (saw 0 (5 ∷ 5 ∷ [])) (counted 2 6) ≡ [] }
    ensures before { hs_items (watching 3 2) (saw 0 (5 ∷ 5 ∷ 6 ∷ 6 ∷ [])) (counted 4 6) ≡ [] }
    ensures acts { hs_items (watching 3 2) (saw 0 (5 ∷ 5 ∷ 6 ∷ 6 ∷ 6 ∷ [])) (counted 5 6)
        ≡ outs.Made (hs_event 102 0xED) ∷ outs.Restart load_bytes ∷ [] }
    ensures after { hs_items (watching 3 2) (saw 0 (5 ∷ 5 ∷ 6 ∷ 6 ∷ 6 ∷ 6 ∷ [])) (counted 6 6)
        ≡ [] }
    ensures missing { hs_items (watching 2 2) (Woken (counted 0 5) ∷ Woken (wakeup 1 [] [] [])
        ∷ []) (counted 2 5) ≡ outs.Made (hs_event 102 0xEA) ∷ outs.Restart load_bytes ∷ [] }
    ensures back { hs_items (watching 1 2) (saw 0 (5 ∷ [])) (counted 1 4) ≡ [] }
    ensures twice { hs_items (watching 1 2) (saw 0 (5 ∷ [])) (wakeup 1 [] [] (load_at 5 ∷ load_at 6
        ∷ [])) ≡ outs.Made (hs_event 102 0xE9) ∷ outs.Restart load_bytes ∷ [] }
{}

/// An enable command begins the watch anew; so does the activation of a table. Enabled and then disabled a wakeup is no check, disabled and
/// then enabled it is one.
pub fn enable_refreshes()
    ensures ordered { hs_items (watching 3 2) (saw 0 (5 ∷ 5 ∷ 6 ∷ 6 ∷ [])) (wakeup 4 (enable
        ∷ []) [] (load_at 6 ∷ [])) ≡ outs.Made (hs_info 18 0xEC) ∷ [] }
    ensures before { hs_items (watching 3 2) (saw 0 (5 ∷ 5 ∷ 6 ∷ 6 ∷ [])
        ++ Woken (wakeup 4 (enable ∷ []) [] (load_at 6 ∷ [])) ∷ saw 5 (6 ∷ [])) (counted 6 6) ≡ [] }
    ensures acts { hs_items (watching 3 2) (saw 0 (5 ∷ 5 ∷ 6 ∷ 6 ∷ [])
        ++ Woken (wakeup 4 (enable ∷ []) [] (load_at 6 ∷ [])) ∷ saw 5 (6 ∷ 6 ∷ [])) (counted 7 6)
        ≡ outs.Made (hs_event 102 0xEF) ∷ outs.Restart load_bytes ∷ [] }
    ensures activated { hs_items (watching 10 3) (saw 0 (7 ∷ 7 ∷ [])
        ++ Activated (Apps (load_rows 1 31 1 3)) ∷ []) (counted 2 7) ≡ [] }
    ensures activated_acts { hs_items (watching 10 3) (saw 0 (7 ∷ 7 ∷ [])
        ++ Activated (Apps (load_rows 1 31 1 3)) ∷ saw 2 (7 ∷ [])) (counted 3 7)
        ≡ outs.Made (hs_event 103 0xEB) ∷ [] }
    ensures off { hs_items (watching 1 2) [] (wakeup 0 (enable ∷ disable ∷ []) [] (load_at 0 ∷ []))
        ≡ outs.Made (hs_info 18 0xE8) ∷ outs.Made (hs_info 19 0xE8) ∷ [] }
    ensures on { hs_items (watching 1 2) [] (wakeup 0 (disable ∷ enable ∷ []) [] (load_at 0 ∷ []))
        ≡ outs.Made (hs_info 19 0xE8) ∷ outs.Made (hs_info 18 0xE8) ∷ outs.Made (hs_event 102 0xE8)
        ∷ outs.Restart load_bytes ∷ [] }
    ensures still_off { hs_items (watching 1 2) (Woken (wakeup 0 (disable ∷ []) [] (load_at 0 ∷ []))
        ∷ []) (counted 1 0) ≡ [] }
{}

/// With a cooldown of 2 and two entries that match in each of the wakeups 1, 2 and 3 the message action goes in the first and the third.
pub fn cooldown_spaces_message_actions()
    ensures first { hs_items listening (Woken (wakeup 0 [] [] []) ∷ []) (heard 1)
        ≡ outs.Stored noop_bytes ∷ outs.Made (hs_event 114 0xE9) ∷ [] }
    ensures second { hs_items listening (Woken (wakeup 0 [] [] []) ∷ Woken (heard 1) ∷ []) (heard 2)
        ≡ [] }
    ensures third { hs_items listening (Woken (wakeup 0 [] [] []) ∷ Woken (heard 1)
        ∷ Woken (heard 2) ∷ []) (heard 3) ≡ outs.Stored noop_bytes ∷ outs.Made (hs_event 114 0xEB)
        ∷ [] }
    ensures deaf { hs_items listening [] (wakeup 0 (deafen ∷ []) (load_event 7 ∷ []) [])
        ≡ outs.Made (hs_info 21 0xE8) ∷ [] }
    ensures other { hs_items listening [] (wakeup 0 [] (load_event 8 ∷ []) []) ≡ [] }
{}

/// Three of four resets go where three is the maximum, one where two were made before the history, and one more once code 8 cleared them.
pub fn resets_up_to_the_maximum()
    ensures three { hs_items (setup_with (load_rows 4 28 1 1) (seven_rows 0 16 0) [] 0) []
        (wakeup 0 [] [] []) ≡ outs.Made (hs_event 101 0xE8) ∷ outs.Reset
        ∷ outs.Made (hs_event 101 0xE8) ∷ outs.Reset ∷ outs.Made (hs_event 101 0xE8) ∷ outs.Reset
        ∷ outs.Made (hs_event 105 0xE8) ∷ [] }
    ensures begun { hs_items (setup_with (load_rows 2 30 1 1) (seven_rows 0 16 0) [] 2) []
        (wakeup 0 [] [] []) ≡ outs.Made (hs_event 101 0xE8) ∷ outs.Reset
        ∷ outs.Made (hs_event 105 0xE8) ∷ [] }
    ensures cleared { hs_items (setup_with (load_rows 1 31 1 1) (seven_rows 0 16 0) [] 3) []
        (wakeup 0 (clear ∷ []) [] []) ≡ outs.Made (hs_info 24 0xE8) ∷ outs.Made (hs_event 101 0xE8)
        ∷ outs.Reset ∷ [] }
    ensures limited { hs_items (setup_with (load_rows 1 31 1 1) (seven_rows 0 16 0) [] 0) []
        (wakeup 0 (limit_none ∷ []) [] []) ≡ outs.Made (hs_info 25 0xE8)
        ∷ outs.Made (hs_event 105 0xE8) ∷ [] }
{}

/// The resets made and their maximum, behind a history: those with which it begins, and one more for each reset that is requested. Behind a
/// command of code 8 the resets made are those requested since, and one of code 9 sets the maximum. An activation changes neither.
pub fn resets_are_handed_on()
    ensures made { (setup : Setup) → resets_made setup [] ≡ setup.made }
    ensures most { (setup : Setup) → resets_maximum setup [] ≡ setup.max }
    ensures one { resets_made (setup_with (load_rows 1 31 1 1) (seven_rows 0 16 0) [] 1)
        (Woken (wakeup 0 [] [] []) ∷ []) ≡ 2 }
    ensures full { resets_made (setup_with (load_rows 4 28 1 1) (seven_rows 0 16 0) [] 1)
        (Woken (wakeup 0 [] [] []) ∷ []) ≡ 3 }
    ensures cleared { resets_made (setup_with (load_rows 0 32 0 0) (seven_rows 0 16 0) [] 3)
        (Woken (wakeup 0 (clear ∷ []) [] []) ∷ []) ≡ 0 }
    ensures since { resets_made (setup_with (load_rows 1 31 1 1) (seven_rows 0 16 0) [] 3)
        (Woken (wakeup 0 (clear ∷ []) [] []) ∷ Woken (wakeup 1 [] [] []) ∷ []) ≡ 1 }
    ensures activated { resets_made (setup_with (load_rows 1 31 1 1) (seven_rows 0 16 0) [] 0)
        (Woken (wakeup 0 [] [] []) ∷ Activated (Apps (load_rows 1 31 1 1))
        ∷ Woken (wakeup 1 [] [] []) ∷ []) ≡ 2 }
    ensures limited { resets_maximum (setup_with (load_rows 0 32 0 0) (seven_rows 0 16 0) [] 0)
        (Woken (wakeup 0 (limit_none ∷ []) [] []) ∷ Woken (wakeup 1 [] [] []) ∷ []) ≡ 0 }
    ensures unlimited { resets_maximum (setup_with (load_rows 1 31 1 1) (seven_rows 0 16 0) [] 0)
        (Woken (wakeup 0 (clear ∷ []) [] []) ∷ []) ≡ 3 }
{}

/// The application monitors act before the event monitors, and housekeeping stands at its place among the commands.
pub fn wakeup_rows()
    ensures order { hs_items (setup_with (load_rows 1 31 1 3) (seven_rows 1 15 3) [] 0) []
        (wakeup 1 (enable ∷ []) (load_event 7 ∷ []) []) ≡ outs.Made (hs_info 18 0xE9)
        ∷ outs.Made (hs_event 103 0xE9) ∷ outs.Made (hs_event 113 0xE9) ∷ outs.Delete load_bytes
        ∷ [] }
    ensures shown { hs_items (watching 1 3) (Woken (wakeup 0 [] [] [])
        ∷ []) (wakeup 1 (request ∷ enable ∷ request ∷ []) [] [])
        ≡ outs.Made ((8 ∷ 0xAD ∷ 0xC0 ∷ 0 ∷ 0 ∷ 0x95 ∷ 0 ∷ 0 ∷ 3 ∷ 0xE9 ∷ 0 ∷ 0 ∷ 0 ∷ 0 ∷ 1 ∷ 1 ∷ 0
        ∷ 0 ∷ 0 ∷ 3 ∷ 0 ∷ 0 ∷ 0 ∷ 0 ∷ 0 ∷ 0 ∷ 0 ∷ 0 ∷ []) ++ replicate 128 0xFF)
        ∷ outs.Made (hs_info 18 0xE9) ∷ outs.Made ((8 ∷ 0xAD ∷ 0xC0 ∷ 0 ∷ 0 ∷ 0x95 ∷ 0 ∷ 0 ∷ 3
        ∷ 0xE9 ∷ 0 ∷ 0 ∷ 1 ∷ 0 ∷ 1 ∷ 1 ∷ 0 ∷ 0 ∷ 0 ∷ 3 ∷ 0 ∷ 0 ∷ 0 ∷ 0 ∷ 0 ∷ 0 ∷ 0 ∷ 1 ∷ [])
        ++ replicate 128 0xFF) ∷ outs.Made (hs_event 103 0xE9) ∷ [] }
{}

/// A command of each code, a request, and a packet of another id.
pub fn command_rows()
    ensures noop { verdict_at hs_protocol tt [] (0x18 ∷ 0xAE ∷ 0xC0 ∷ 0 ∷ 0 ∷ 1 ∷ 0 ∷ 0x88 ∷ [])
        ≡ Accepted 0 Plain }
    ensures reset { verdict_at hs_protocol tt [] (0x18 ∷ 0xAE ∷ 0xC0 ∷ 0 ∷ 0 ∷ 1 ∷ 1 ∷ 0x89 ∷ [])
        ≡ Accepted 1 Plain }
    ensures monitor { verdict_at hs_protocol tt [] (0x18 ∷ 0xAE ∷ 0xC0 ∷ 0 ∷ 0 ∷ 1 ∷ 2 ∷ 0x8A ∷ [])
        ≡ Accepted 2 (Monitor true) }
    ensures ignore { verdict_at hs_protocol tt [] (0x18 ∷ 0xAE ∷ 0xC0 ∷ 0 ∷ 0 ∷ 1 ∷ 3 ∷ 0x8B ∷ [])
        ≡ Accepted 3 (Monitor false) }
    ensures listen { verdict_at hs_protocol tt [] (0x18 ∷ 0xAE ∷ 0xC0 ∷ 0 ∷ 0 ∷ 1 ∷ 4 ∷ 0x8C ∷ [])
        ≡ Accepted 4 (Listen true) }
    ensures deafen { verdict_at hs_protocol tt [] (0x18 ∷ 0xAE ∷ 0xC0 ∷ 0 ∷ 0 ∷ 1 ∷ 5 ∷ 0x8D ∷ [])
        ≡ Accepted 5 (Listen false) }
    ensures clear { verdict_at hs_protocol tt [] (0x18 ∷ 0xAE ∷ 0xC0 ∷ 0 ∷ 0 ∷ 1 ∷ 8 ∷ 0x80 ∷ [])
        ≡ Accepted 8 Clear }
    ensures limit { verdict_at hs_protocol tt [] (0x18 ∷ 0xAE ∷ 0xC0 ∷ 0 ∷ 0 ∷ 3 ∷ 9 ∷ 0x80 ∷ 1 ∷ 2
        ∷ []) ≡ Accepted 9 (Limit 0x0102) }
    ensures request { verdict_at hs_protocol tt [] (0x18 ∷ 0xAF ∷ 0xC0 ∷ 0 ∷ 0 ∷ 1 ∷ 0 ∷ 0x89 ∷ [])
        ≡ Request }
    ensures other { verdict_at hs_protocol tt [] (0x18 ∷ 0x88 ∷ 0xC0 ∷ 0 ∷ 0 ∷ 1 ∷ 0 ∷ 0xAE ∷ [])
        ≡ Other }
{}

/// Each refusal.
pub fn refusal_rows()
    ensures checksum { verdict_at hs_protocol tt [] (0x18 ∷ 0xAE ∷ 0xC0 ∷ 0 ∷ 0 ∷ 1 ∷ 0 ∷ 0x89 ∷ [])
        ≡ Refused 1 }
    ensures code { verdict_at hs_protocol tt [] (0x18 ∷ 0xAE ∷ 0xC0 ∷ 0 ∷ 0 ∷ 1 ∷ 6 ∷ 0x8E ∷ [])
        ≡ Refused 2 }
    ensures high_code { verdict_at hs_protocol tt [] (0x18 ∷ 0xAE ∷ 0xC0 ∷ 0 ∷ 0 ∷ 1 ∷ 10 ∷ 0x82
        ∷ []) ≡ Refused 2 }
    ensures long { verdict_at hs_protocol tt [] (0x18 ∷ 0xAE ∷ 0xC0 ∷ 0 ∷ 0 ∷ 2 ∷ 2 ∷ 0x88 ∷ 1 ∷ [])
        ≡ Refused 3 }
    ensures short { verdict_at hs_protocol tt [] (0x18 ∷ 0xAE ∷ 0xC0 ∷ 0 ∷ 0 ∷ 1 ∷ 9 ∷ 0x81 ∷ [])
        ≡ Refused 3 }
{}

/// The housekeeping packet, its fields all different; and the mask, the entries in the first and the last place by themselves.
pub fn housekeeping_rows()
    ensures packet { housekeeping_of 0x01020304
        (record { accepted = 0x11; errors = 0x22 }) true false 0x3344 0x5566 0x7788 0x99AABBCC
        ((record { name = Some load_bytes; sort = 1 })
        ∷ (record { name = Some cam_bytes; sort = 4 })
        ∷ (record { name = Some load_bytes; sort = 0 })
        ∷ []) ((record { name = load_bytes; value = 0x0D0E0F10 })
        ∷ (record { name = load_bytes; value = 1 }) ∷ []) ≡ 8 ∷ 0xAD ∷ 0xC0 ∷ 0 ∷ 0 ∷ 0x21 ∷ 1 ∷ 2
        ∷ 3 ∷ 4 ∷ 0 ∷ 0 ∷ 0x11 ∷ 0x22 ∷ 1 ∷ 0 ∷ 0x33 ∷ 0x44 ∷ 0x55 ∷ 0x66 ∷ 0x77 ∷ 0x88 ∷ 0 ∷ 0
        ∷ 0x99 ∷ 0xAA ∷ 0xBB ∷ 0xCC ∷ 0x0D ∷ 0x0E ∷ 0x0F ∷ 0x10 ∷ 0xFF ∷ 0xFF ∷ 0xFF ∷ 0xFF ∷ 0xFF
        ∷ 0xFF ∷ 0xFF ∷ 0xFF ∷ [] }
    ensures first { watching_bits (load_row 1 3 ∷ replicate 31 (load_row 0 3)) [] ≡ 1 }
    ensures last { watching_bits (replicate 31 (load_row 1 0) ++ load_row 1 3 ∷ []) []
        ≡ 0x80000000 }
    ensures acted { watching_bits (load_row 1 3 ∷ load_row 2 3 ∷ []) ((load_at 0 ∷ []) ∷ []) ≡ 2 }
{}

/// An event message has the id of events and 44 bytes; an entry matches it by name and event.
pub fn event_rows()
    ensures message { is_event (load_event 7) ≡ true }
    ensures other_id { is_event (8 ∷ 9 ∷ replicate 42 0) ≡ false }
    ensures short { is_event (8 ∷ 8 ∷ replicate 41 0) ≡ false }
    ensures long { is_event (load_event 7 ++ 0 ∷ []) ≡ false }
    ensures same { is_matched (load_event 7) (record { name = load_bytes; id = 7; action = 1 })
        ≡ true }
    ensures other_event { is_matched (load_event 7)
        (record { name = load_bytes; id = 8; action = 1 }) ≡ false }
    ensures other_name { is_matched (load_event 7) (record { name = cam_bytes; id = 7; action = 1 })
        ≡ false }
{}

/// Each code with the shortest and the longest payload of its commands; the maximum of resets with a byte less and one more; and requests
/// that give housekeeping whatever else they hold.
pub fn length_rows()
    ensures codes { numbers_of_rows hs_codes
        ≡ (0 ∷ 0 ∷ 0 ∷ []) ∷ (1 ∷ 0 ∷ 0 ∷ []) ∷ (2 ∷ 0 ∷ 0 ∷ []) ∷ (3 ∷ 0 ∷ 0 ∷ [])
        ∷ (4 ∷ 0 ∷ 0 ∷ []) ∷ (5 ∷ 0 ∷ 0 ∷ [])
        ∷ (8 ∷ 0 ∷ 0 ∷ []) ∷ (9 ∷ 2 ∷ 2 ∷ []) ∷ [] }
    ensures limit { map (verdict_at hs_protocol tt []) ((0x18 ∷ 0xAE ∷ 0xC0 ∷ 0 ∷ 0 ∷ 2 ∷ 9 ∷ 0x83
        ∷ 1 ∷ [])
        ∷ (0x18 ∷ 0xAE ∷ 0xC0 ∷ 0 ∷ 0 ∷ 3 ∷ 9 ∷ 0xA1 ∷ 0xFE ∷ 0xDC ∷ [])
        ∷ (0x18 ∷ 0xAE ∷ 0xC0 ∷ 0 ∷ 0 ∷ 4 ∷ 9 ∷ 0x87 ∷ 0 ∷ 1 ∷ 2 ∷ []) ∷ [])
        ≡ Refused 3 ∷ Accepted 9 (Limit 0xFEDC) ∷ Refused 3 ∷ [] }
    ensures requests { map (verdict_at hs_protocol tt []) (wrong_request ∷ long_request ∷ [])
        ≡ Request ∷ Request ∷ [] }
{}

/// An event's number over 255, and names that differ in their last byte alone.
pub fn event_edge_rows()
    ensures number { is_matched longest_event
        (record { name = longest_bytes; id = 0x0107; action = 1 })
        ≡ true }
    ensures low_byte { is_matched longest_event
        (record { name = longest_bytes; id = 7; action = 1 })
        ≡ false }
    ensures high_byte { is_matched longest_event
        (record { name = longest_bytes; id = 0x0207; action = 1 })
        ≡ false }
    ensures last_letter { is_matched longest_event
        (record { name = slice_set longest_bytes 18 0x54; id = 0x0107; action = 1 })
        ≡ false }
    ensures last_byte { is_matched (slice_set longest_event 31 0x54)
        (record { name = longest_bytes; id = 0x0107; action = 1 })
        ≡ false }
    ensures first_letter { is_matched (slice_set longest_event 12 0x42)
        (record { name = longest_bytes; id = 0x0107; action = 1 })
        ≡ false }
    ensures high_id { is_event (slice_set longest_event 0 0x09) ≡ false }
{}

/// Counters that differ in one byte alone are changed, each time.
pub fn counter_rows()
    ensures changed { map (λ v. hs_items (watching 1 2) (saw 0 (0x01020304 ∷ [])) (counted 1 v))
        (0x02020304 ∷ 0x01030304 ∷ 0x01020404 ∷ 0x01020305 ∷ []) ≡ [] ∷ [] ∷ [] ∷ [] ∷ [] }
    ensures unchanged { hs_items (watching 1 2) (saw 0 (0x01020304 ∷ [])) (counted 1 0x01020304)
        ≡ outs.Made (hs_event 102 0xE9) ∷ outs.Restart load_bytes ∷ [] }
    ensures high { hs_items (watching 1 2) [] (counted 0 0x80000000) ≡ [] }
{}

/// An entry that acted stays unwatched: a disable is no refresh, and housekeeping behind it shows that application monitoring is off. An
/// enable behind that refreshes. An entry that didn't act stays watched behind a disable.
pub fn disabled_rows()
    ensures acted { hs_items (watching 1 3) (Woken (counted 0 0)
        ∷ []) (wakeup 1 (disable ∷ request ∷ enable ∷ request ∷ []) [] [])
        ≡ outs.Made (hs_info 19 0xE9) ∷ outs.Made (shown 1 1 0 0 1 0 0)
        ∷ outs.Made (hs_info 18 0xE9) ∷ outs.Made (shown 1 2 0 1 1 0 1)
        ∷ outs.Made (hs_event 103 0xE9) ∷ [] }
    ensures later { hs_items (watching 1 3) (Woken (counted 0 0)
        ∷ Woken (wakeup 1 (disable ∷ []) [] []) ∷ []) (wakeup 2 (request ∷ []) [] [])
        ≡ outs.Made (shown 2 1 0 0 1 0 0) ∷ [] }
    ensures watched { hs_items (watching 3 3) (Woken (counted 0 0)
        ∷ []) (wakeup 1 (disable ∷ request ∷ []) [] [])
        ≡ outs.Made (hs_info 19 0xE9) ∷ outs.Made (shown 1 1 0 0 1 0 1) ∷ [] }
    ensures begins_anew { hs_items (watching 2 3) (Woken (counted 0 0)
        ∷ Woken (wakeup 1 (disable ∷ []) [] []) ∷ []) (wakeup 2 (enable ∷ []) [] [])
        ≡ outs.Made (hs_info 18 0xEA) ∷ [] }
{}

/// The first and the last entry of the application monitors, the last event monitor with each message action, and the last message action.
pub fn place_rows()
    ensures apps { hs_items ends_watched [] (wakeup 0 [] [] []) ≡ outs.Made (hs_event 103 0xE8)
        ∷ [] }
    ensures last_app { hs_items ends_watched (Woken (wakeup 0 [] [] []) ∷ []) (wakeup 1 [] [] [])
        ≡ outs.Made (hs_event 102 0xE9) ∷ outs.Restart cam_bytes ∷ [] }
    ensures last_event { hs_items (last_heard 3) [] (heard 0) ≡ outs.Made (hs_event 113 0xE8)
        ∷ outs.Delete load_bytes ∷ [] }
    ensures last_action { hs_items (last_heard 11) [] (heard 0) ≡ outs.Stored noop_bytes
        ∷ outs.Made (hs_event 114 0xE8) ∷ [] }
    ensures other_action { map (λ n. hs_items (last_heard n) [] (heard 0)) (4 ∷ 10 ∷ []) ≡ [] ∷ []
        ∷ [] }
{}

/// A time with all its bytes; and the message actions sent, which resets and a reset of the counts keep.
pub fn shown_edge_rows()
    ensures time { hs_items (watching 1 3) [] (record {
      time = 0x01020304;
      commands = enable
          ∷ [];
      seen = record { events = []; counters = [] };
    })
        ≡ outs.Made (late_event 18 2) ∷ outs.Made (late_event 103 3) ∷ [] }
    ensures sent { hs_items listening (Woken (heard 0) ∷ Woken (wakeup 1 (disable ∷ reset_counts
        ∷ []) [] []) ∷ []) (wakeup 2 (request ∷ []) [] [])
        ≡ outs.Made (shown 2 0 0 0 1 1 0) ∷ [] }
    ensures behind_resets { hs_items (setup_with (load_rows 1 31 1 1) (seven_rows 1 15 4)
        (one_act 1) 0) (Woken (heard 0)
        ∷ Woken (wakeup 1 (clear ∷ []) [] []) ∷ Woken (heard 2)
        ∷ []) (wakeup 3 (request ∷ []) [] [])
        ≡ outs.Made (shown 3 1 0 1 1 2 0) ∷ [] }
    ensures behind_reset { hs_items listening (Woken (heard 0)
        ∷ []) (wakeup 2 (reset_counts ∷ request ∷ wrong_request ∷ []) (load_event 7 ∷ []) [])
        ≡ outs.Made (hs_info 17 0xEA) ∷ outs.Made (shown 2 0 0 1 1 1 0)
        ∷ outs.Made (shown 2 0 0 1 1 1 0) ∷ [] }
{}
