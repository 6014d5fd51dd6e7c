//! Laws of the definitions, as contracts of functions that do nothing. The rows' bytes are written by hand from the layouts in docs/FILES.md.

ghost use Rattle.std.specs.Prelude.{◌≡◌, ◌↔◌, ℕ, List, [], ◌∷◌, ◌++◌, true, false, map, replicate, slice_index_or, slice_set, Some, None, IsSome};
ghost use Rattle.hs_tables.specs.declared.apps.AppRow.{AppRow};
ghost use Rattle.hs_tables.specs.declared.events.EventRow.{EventRow};
ghost use Rattle.hs_tables.specs.declared.counters.CountRow.{CountRow};
ghost use Rattle.hs_tables.specs.declared.actions.ActRow.{ActRow};
ghost use Rattle.hs_tables.specs.Apps as apps;
ghost use Rattle.hs_tables.specs.Events as events;
ghost use Rattle.hs_tables.specs.Counters as counters;
ghost use Rattle.hs_tables.specs.Actions as actions;
ghost use Rattle.hs_tables.specs.Names.{name_in};
ghost use Rattle.hs_tables.specs.Rows.{name_bytes, longest_bytes, whole_packet, whole_act_bytes, app_bytes, event_bytes, count_bytes, noop_bytes, act_bytes};

/// A used entry that isn't refused has a name, or a packet: where a table was loaded, `entry` is None exactly where the entry isn't used.
pub fn used_entries_are_whole()
    ensures apps { (row : AppRow) → apps.row_reason row ≡ None → apps.is_used row ≡ true
        → IsSome (apps.entry_of row) }
    ensures events { (row : EventRow) → events.row_reason row ≡ None → events.is_used row ≡ true
        → IsSome (events.entry_of row) }
    ensures counters { (row : CountRow) → counters.row_reason row ≡ None
        → counters.is_used row ≡ true → IsSome (counters.entry_of row) }
    ensures actions { (row : ActRow) → actions.row_reason row ≡ None → actions.is_used row ≡ true
        → IsSome (actions.entry_of row) }
{}

/// Of a payload without a fault, an entry answers nothing exactly where it isn't used.
pub fn unused_entries_answer_nothing()
    ensures apps { (payload : List ℕ) (place : ℕ) → apps.rows_fault_of payload ≡ None
        → (apps.entry_of (slice_index_or (apps.rows_of payload) place apps.blank_row) ≡ None)
        ↔ (apps.is_used (slice_index_or (apps.rows_of payload) place apps.blank_row) ≡ false) }
    ensures events { (payload : List ℕ) (place : ℕ) → events.rows_fault_of payload ≡ None
        → (events.entry_of (slice_index_or (events.rows_of payload) place events.blank_row) ≡ None)
        ↔ (events.is_used (slice_index_or (events.rows_of payload) place events.blank_row)
        ≡ false) }
    ensures counters { (payload : List ℕ) (place : ℕ) → counters.rows_fault_of payload ≡ None
        → (counters.entry_of (slice_index_or (counters.rows_of payload) place counters.blank_row)
        ≡ None)
        ↔ (counters.is_used (slice_index_or (counters.rows_of payload) place counters.blank_row)
        ≡ false) }
    ensures actions { (payload : List ℕ) (place : ℕ) → actions.rows_fault_of payload ≡ None
        → (actions.entry_of (slice_index_or (actions.rows_of payload) place actions.blank_row)
        ≡ None)
        ↔ (actions.is_used (slice_index_or (actions.rows_of payload) place actions.blank_row)
        ≡ false) }
{}

/// Payloads of zero bytes have no fault, and spell the tables without used entries.
pub fn blank_tables()
    ensures app_fault { apps.rows_fault_of (replicate 768 0) ≡ None }
    ensures app { apps.rows_of (replicate 768 0) ≡ apps.blank_rows }
    ensures event_fault { events.rows_fault_of (replicate 384 0) ≡ None }
    ensures event { events.rows_of (replicate 384 0) ≡ events.blank_rows }
    ensures count_fault { counters.rows_fault_of (replicate 704 0) ≡ None }
    ensures count { counters.rows_of (replicate 704 0) ≡ counters.blank_rows }
    ensures act_fault { actions.rows_fault_of (replicate 544 0) ≡ None }
    ensures act { actions.rows_of (replicate 544 0) ≡ actions.blank_rows }
{}

/// One entry of each table, byte by byte, with fields that differ.
pub fn entry_rows()
    ensures app { apps.row_at app_bytes 0 ≡ record
        { name = Some name_bytes; cycles = 0x0102; action = 0x0304 } }
    ensures event { events.row_at event_bytes 0
        ≡ record { name = Some name_bytes; id = 0x0102; action = 0x0304 } }
    ensures count { counters.row_at count_bytes 0
        ≡ record { name = Some name_bytes; sort = 0x0102 } }
    ensures act { actions.row_at act_bytes 0 ≡ record
        { state = 0x0102; cooldown = 0x0304; packet = Some noop_bytes } }
{}

/// The reasons of each table, in their order.
pub fn reason_rows()
    ensures app { apps.row_reason (record { name = None; cycles = 1; action = 12 }) ≡ Some 1 }
    ensures app_action { apps.row_reason (record { name = None; cycles = 0; action = 12 })
        ≡ Some 2 }
    ensures app_unused { apps.row_reason (record { name = None; cycles = 0; action = 11 }) ≡ None }
    ensures event { events.row_reason (record { name = None; id = 0; action = 12 }) ≡ Some 1 }
    ensures event_action { events.row_reason (record
        { name = Some name_bytes; id = 0; action = 12 }) ≡ Some 2 }
    ensures event_unused { events.row_reason (record { name = None; id = 7; action = 0 }) ≡ None }
    ensures count { counters.row_reason (record { name = None; sort = 5 }) ≡ Some 1 }
    ensures count_sort { counters.row_reason (record { name = Some name_bytes; sort = 5 })
        ≡ Some 3 }
    ensures count_used { counters.row_reason (record { name = Some name_bytes; sort = 4 }) ≡ None }
    ensures act { actions.row_reason (record { state = 3; cooldown = 0; packet = None }) ≡ Some 4 }
    ensures act_state { actions.row_reason (record
        { state = 3; cooldown = 0; packet = Some noop_bytes }) ≡ Some 5 }
    ensures act_unused { actions.row_reason (record { state = 0; cooldown = 9; packet = None })
        ≡ None }
{}

/// The first and the last entry of each table alone in a payload of zero bytes.
pub fn place_rows()
    ensures first_app { apps.rows_of (app_bytes ++ replicate 744 0)
        ≡ (record { name = Some name_bytes; cycles = 0x0102; action = 0x0304 })
        ∷ replicate 31 apps.blank_row }
    ensures last_app { apps.rows_of (replicate 744 0 ++ app_bytes)
        ≡ replicate 31 apps.blank_row ++ (record
        { name = Some name_bytes; cycles = 0x0102; action = 0x0304 })
        ∷ [] }
    ensures first_event { events.rows_of (event_bytes ++ replicate 360 0)
        ≡ (record { name = Some name_bytes; id = 0x0102; action = 0x0304 })
        ∷ replicate 15 events.blank_row }
    ensures last_event { events.rows_of (replicate 360 0 ++ event_bytes)
        ≡ replicate 15 events.blank_row ++ (record
        { name = Some name_bytes; id = 0x0102; action = 0x0304 })
        ∷ [] }
    ensures first_count { counters.rows_of (count_bytes ++ replicate 682 0)
        ≡ (record { name = Some name_bytes; sort = 0x0102 }) ∷ replicate 31 counters.blank_row }
    ensures last_count { counters.rows_of (replicate 682 0 ++ count_bytes)
        ≡ replicate 31 counters.blank_row ++ (record { name = Some name_bytes; sort = 0x0102 })
        ∷ [] }
    ensures first_act { actions.rows_of (act_bytes ++ replicate 476 0)
        ≡ (record { state = 0x0102; cooldown = 0x0304; packet = Some noop_bytes })
        ∷ replicate 7 actions.blank_row }
    ensures last_act { actions.rows_of (replicate 476 0 ++ act_bytes)
        ≡ replicate 7 actions.blank_row ++ (record
        { state = 0x0102; cooldown = 0x0304; packet = Some noop_bytes })
        ∷ [] }
{}

/// A stored packet of 64 bytes, one that says 65, 8, 7 and 263 bytes, and one of another version and of other sequence flags.
pub fn stored_packet_rows()
    ensures whole { actions.row_at whole_act_bytes 0
        ≡ record { state = 2; cooldown = 0x0506; packet = Some whole_packet } }
    ensures well { actions.row_reason (actions.row_at whole_act_bytes 0) ≡ None }
    ensures lengths { map (λ n. actions.packet_in (slice_set whole_packet 5 n)) (0x3A ∷ 0 ∷ [])
        ≡ None ∷ None ∷ [] }
    ensures least { actions.packet_in (slice_set whole_packet 5 1)
        ≡ Some (0x18 ∷ 0x88 ∷ 0xC0 ∷ 0 ∷ 0 ∷ 1 ∷ 4 ∷ 0xEA ∷ []) }
    ensures high_length { actions.packet_in (slice_set whole_packet 4 1) ≡ None }
    ensures version { actions.packet_in (slice_set whole_packet 0 0x38) ≡ None }
    ensures flags { actions.packet_in (slice_set whole_packet 2 0x80) ≡ None }
    ensures no_command { actions.packet_in (slice_set whole_packet 0 0x08)
        ≡ Some (slice_set whole_packet 0 0x08) }
{}

/// Names of 19 bytes and of 20, without a byte, with a byte behind their end, and with a byte that no name has.
pub fn name_rows()
    ensures longest { name_in (0x99 ∷ longest_bytes ++ 0 ∷ []) 1 ≡ Some (longest_bytes ++ 0 ∷ []) }
    ensures too_long { name_in (longest_bytes ++ 0x54 ∷ []) 0 ≡ None }
    ensures empty { name_in (replicate 20 0) 0 ≡ None }
    ensures behind { name_in (slice_set name_bytes 19 1) 0 ≡ None }
    ensures foreign { map (λ b. name_in (slice_set name_bytes 2 b) 0) (0x20 ∷ 0x2D ∷ 0x2F ∷ 0x3A
        ∷ 0x40 ∷ 0x5B ∷ 0x60 ∷ 0x7B ∷ 0xC1 ∷ [])
        ≡ replicate 9 None }
    ensures known { map (λ b. name_in (slice_set name_bytes 2 b) 0) (0x30 ∷ 0x39 ∷ 0x41 ∷ 0x5A
        ∷ 0x5F ∷ 0x61 ∷ 0x7A ∷ [])
        ≡ map (λ b. Some (slice_set name_bytes 2 b)) (0x30 ∷ 0x39 ∷ 0x41 ∷ 0x5A ∷ 0x5F ∷ 0x61 ∷ 0x7A
        ∷ []) }
{}
