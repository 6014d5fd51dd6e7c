//! What the definitions give in small cases, and sentences that they make. The functions do nothing: their contracts are the laws.
ghost use Rattle.std.specs.Prelude.{◌≡◌, ◌==◌, not, ◌≢◌, ◌≤◌, ◌<◌, ◌++◌, ℕ, List, [], ◌∷◌, length, map, replicate, None, Some, true, false, codes};
ghost use Rattle.histories.specs.Entries.Entry.{Woken, Activated};
ghost use Rattle.std.specs.List.{list_any};
ghost use Rattle.packet_forms.specs.Built.{event_of};
ghost use Rattle.packet_forms.specs.Crc.{crc_of};
ghost use Rattle.packet_forms.specs.Names.{name_of};
ghost use Rattle.bus_pipes.specs.declared.names.Out.TheVariants as outs;
ghost use Rattle.commands.specs.Rows.{numbers_of_rows};
ghost use Rattle.commands.specs.Verdicts.{verdict_at};
ghost use Rattle.commands.specs.declared.verdicts.Verdict.TheVariants.{Other, Request, Refused, Accepted};
ghost use Rattle.memory_window.specs.Memory.{Memory};
ghost use Rattle.cs_slices.specs.declared.instructions.Instruction.TheVariants.{Plain, Whole, Table, Entry, Report};
ghost use Rattle.cs_slices.specs.Tables.{TablePair, pair_of, with_table, entry_in, segments_of, segments_fault_of, blank_segment, blank_segments};
ghost use Rattle.cs_slices.specs.Messages.{cs_codes};
ghost use Rattle.cs_slices.specs.Verdicts.{cs_protocol};
ghost use Rattle.cs_slices.specs.Happenings.{Slice, Happening, slices_among, since_slice, orders_since, slices_since};
ghost use Rattle.cs_slices.specs.Orders.{table_of, is_entry_on, takes_part, breaks_off};
ghost use Rattle.cs_slices.specs.Slices.{offset_at, next_slice};
ghost use Rattle.cs_slices.specs.Passes.{pass_bytes, baseline_at, miscompare_count, pass_count};
ghost use Rattle.cs_slices.specs.Wakeups.{Input};
ghost use Rattle.cs_slices.specs.Histories.{Activation, CsEntry, tables_after, before_slice, happened_of, slice_at};
ghost use Rattle.cs_slices.specs.Telling.{tells_miscompare};
ghost use Rattle.cs_slices.specs.Housekeeping.{flags_of, housekeeping_of};
ghost use Rattle.cs_slices.specs.Answers.{baseline_packet};
ghost use Rattle.cs_slices.specs.Step.{cs_items};
ghost use Rattle.cs_slices.specs.Rows.{three_bytes, three_with, long_entry, second_table, wakeup, woken, active, at, entry_off, entry_on, table_off, whole_off, request, cs_event, shown, sent_along, begins_of, for_table, for_entry, both_ends, places_of, far_entry, far_wakeup, far_report, far_baseline, far_event};

/// A payload of zero bytes has no fault, and spells the table of empty entries.
pub fn blank_table()
    ensures fault { segments_fault_of (replicate 192 0) ≡ None }
    ensures table { segments_of (replicate 192 0) ≡ blank_segments }
{}

/// A payload with one entry, its fields all different; and each fault.
pub fn table_rows()
    ensures first { segments_of ((0 ∷ 2 ∷ 0 ∷ 0 ∷ 0 ∷ 1 ∷ 2 ∷ 3 ∷ 4 ∷ 5 ∷ 6 ∷ 7 ∷ [])
        ++ replicate 180 0) ≡ (record { state = 2; start = 0x00010203; len = 0x04050607 })
        ∷ replicate 15 blank_segment }
    ensures last { segments_of (replicate 180 0
        ++ (0 ∷ 1 ∷ 9 ∷ 9 ∷ 8 ∷ 9 ∷ 0x0A ∷ 0x0B ∷ 0x0C ∷ 0x0D ∷ 0x0E ∷ 0x0F ∷ []))
        ≡ replicate 15 blank_segment ++ (record { state = 1; start = 0x08090A0B; len = 0x0C0D0E0F })
        ∷ [] }
    ensures accepted { segments_fault_of ((0 ∷ 2 ∷ 0 ∷ 0 ∷ 0 ∷ 1 ∷ 2 ∷ 3 ∷ 4 ∷ 5 ∷ 6 ∷ 7 ∷ [])
        ++ replicate 180 0) ≡ None }
    ensures state { segments_fault_of ((0 ∷ 2 ∷ 0 ∷ 0 ∷ 0 ∷ 1 ∷ 2 ∷ 3 ∷ 4 ∷ 5 ∷ 6 ∷ 7 ∷ 0 ∷ 3 ∷ 0
        ∷ 0 ∷ 0 ∷ 0 ∷ 0 ∷ 0 ∷ 0 ∷ 0 ∷ 0 ∷ 0 ∷ []) ++ replicate 168 0)
        ≡ Some (record { entry = 2; reason = 1 }) }
    ensures size { segments_fault_of ((0 ∷ 2 ∷ 0 ∷ 0 ∷ 0 ∷ 0 ∷ 0x10 ∷ 0 ∷ 0 ∷ 0 ∷ 0 ∷ 0 ∷ [])
        ++ replicate 180 0) ≡ Some (record { entry = 1; reason = 2 }) }
{}

/// The next slice is of a place that takes part, and has 1,024 bytes at most. Where it doesn't begin at its entry's first byte it follows
/// the last slice, which is of the same place and didn't end at the entry's end, and since which neither was the place switched off nor did
/// its table become active.
pub fn slices_follow()
    ensures part { (tables : TablePair) (happened : List Happening) (image : Memory) (s : Slice)
        → next_slice tables happened image ≡ Some s
        → (takes_part tables happened s.place ≡ true) × (s.place < 32) }
    ensures short { (tables : TablePair) (happened : List Happening) (image : Memory) (s : Slice)
        → next_slice tables happened image ≡ Some s
        → length s.bytes ≤ 1024 }
    ensures follow { (tables : TablePair) (happened : List Happening) (image : Memory) (s : Slice)
        → next_slice tables happened image ≡ Some s → s.from ≢ 0
        → (earlier : List Slice) × (last : Slice) × (slices_among happened ≡ earlier ++ last ∷ [])
        × (last.place ≡ s.place) × (last.till ≡ s.from) × (last.ends ≡ false) }
    ensures unbroken { (tables : TablePair) (happened : List Happening) (image : Memory) (s : Slice)
        → next_slice tables happened image ≡ Some s → s.from ≢ 0
        → list_any (breaks_off s.place) (since_slice happened) ≡ false }
{}

/// The tables in force are those of the beginning, with the table of each activation as the one of its number.
#[tactic(auto, using(crate::proofs::Histories::tables_begun, crate::proofs::Histories::tables_woken, crate::proofs::Histories::tables_activated))]
pub fn tables_are_those_activated()
    ensures begun { (tables : TablePair) → tables_after tables [] ≡ tables }
    ensures woken { (tables : TablePair) (history : List CsEntry) (input : Input)
        → tables_after tables (history ++ Woken input ∷ []) ≡ tables_after tables history }
    ensures activated { (tables : TablePair) (history : List CsEntry) (a : Activation)
        → tables_after tables (history ++ Activated a ∷ [])
        ≡ with_table a.number a.table (tables_after tables history) }
{}

/// A pass of three bytes a wakeup: the first is the baseline, and a byte that has changed is a miscompare in each later
/// pass: the baseline stays.
pub fn miscompare_rows()
    ensures first { cs_items (pair_of blank_segments three_bytes) [] (wakeup 0 [] 2) ≡ [] }
    ensures second { cs_items (pair_of blank_segments three_bytes) (Woken (wakeup 0 [] 2)
        ∷ []) (wakeup 1 [] 2) ≡ [] }
    ensures third { cs_items (pair_of blank_segments three_bytes) (Woken (wakeup 0 [] 2)
        ∷ Woken (wakeup 1 [] 2) ∷ []) (wakeup 2 [] 7)
        ≡ outs.Made (event_of (name_of (codes "CS")) 101 3 1002) ∷ [] }
    ensures fourth { cs_items (pair_of blank_segments three_bytes) (Woken (wakeup 0 [] 2)
        ∷ Woken (wakeup 1 [] 2) ∷ Woken (wakeup 2 [] 7) ∷ []) (wakeup 3 [] 7)
        ≡ outs.Made (event_of (name_of (codes "CS")) 101 3 1003) ∷ [] }
    ensures back { cs_items (pair_of blank_segments three_bytes) (Woken (wakeup 0 [] 2)
        ∷ Woken (wakeup 1 [] 7) ∷ []) (wakeup 2 [] 2) ≡ [] }
{}

/// A command of each code, a request, and a packet of another id.
pub fn command_rows()
    ensures noop { verdict_at cs_protocol second_table [] (0x18 ∷ 0x9F ∷ 0xC0 ∷ 0 ∷ 0 ∷ 1 ∷ 0 ∷ 0xB9
        ∷ []) ≡ Accepted 0 Plain }
    ensures reset { verdict_at cs_protocol second_table [] (0x18 ∷ 0x9F ∷ 0xC0 ∷ 0 ∷ 0 ∷ 1 ∷ 1
        ∷ 0xB8 ∷ []) ≡ Accepted 1 Plain }
    ensures on { verdict_at cs_protocol second_table [] (0x18 ∷ 0x9F ∷ 0xC0 ∷ 0 ∷ 0 ∷ 1 ∷ 2 ∷ 0xBB
        ∷ []) ≡ Accepted 2 (Whole true) }
    ensures off { verdict_at cs_protocol second_table [] (0x18 ∷ 0x9F ∷ 0xC0 ∷ 0 ∷ 0 ∷ 1 ∷ 3 ∷ 0xBA
        ∷ []) ≡ Accepted 3 (Whole false) }
    ensures table_on { verdict_at cs_protocol second_table [] (0x18 ∷ 0x9F ∷ 0xC0 ∷ 0 ∷ 0 ∷ 3 ∷ 4
        ∷ 0xBD ∷ 0 ∷ 2 ∷ []) ≡ Accepted 4 (Table 2 true) }
    ensures table_off { verdict_at cs_protocol second_table [] (0x18 ∷ 0x9F ∷ 0xC0 ∷ 0 ∷ 0 ∷ 3 ∷ 5
        ∷ 0xBC ∷ 0 ∷ 2 ∷ []) ≡ Accepted 5 (Table 2 false) }
    ensures entry_on { verdict_at cs_protocol second_table [] (0x18 ∷ 0x9F ∷ 0xC0 ∷ 0 ∷ 0 ∷ 5 ∷ 6
        ∷ 0xB8 ∷ 0 ∷ 2 ∷ 0 ∷ 1 ∷ []) ≡ Accepted 6 (Entry 2 1 true) }
    ensures entry_off { verdict_at cs_protocol second_table [] (0x18 ∷ 0x9F ∷ 0xC0 ∷ 0 ∷ 0 ∷ 5 ∷ 7
        ∷ 0xB9 ∷ 0 ∷ 2 ∷ 0 ∷ 1 ∷ []) ≡ Accepted 7 (Entry 2 1 false) }
    ensures report { verdict_at cs_protocol second_table [] (0x18 ∷ 0x9F ∷ 0xC0 ∷ 0 ∷ 0 ∷ 5 ∷ 8
        ∷ 0xB6 ∷ 0 ∷ 2 ∷ 0 ∷ 1 ∷ []) ≡ Accepted 8 (Report 2 1) }
    ensures request { verdict_at cs_protocol second_table [] (0x18 ∷ 0xA0 ∷ 0xC0 ∷ 0 ∷ 0 ∷ 1 ∷ 0
        ∷ 0x86 ∷ []) ≡ Request }
    ensures other { verdict_at cs_protocol second_table [] (0x18 ∷ 0xA9 ∷ 0xC0 ∷ 0 ∷ 0 ∷ 1 ∷ 0
        ∷ 0x8F ∷ []) ≡ Other }
{}

/// Each refusal.
pub fn refusal_rows()
    ensures checksum { verdict_at cs_protocol second_table [] (0x18 ∷ 0x9F ∷ 0xC0 ∷ 0 ∷ 0 ∷ 1 ∷ 0
        ∷ 0xB8 ∷ []) ≡ Refused 1 }
    ensures code { verdict_at cs_protocol second_table [] (0x18 ∷ 0x9F ∷ 0xC0 ∷ 0 ∷ 0 ∷ 1 ∷ 9 ∷ 0xB0
        ∷ []) ≡ Refused 2 }
    ensures length { verdict_at cs_protocol second_table [] (0x18 ∷ 0x9F ∷ 0xC0 ∷ 0 ∷ 0 ∷ 1 ∷ 4
        ∷ 0xBD ∷ []) ≡ Refused 3 }
    ensures table { verdict_at cs_protocol second_table [] (0x18 ∷ 0x9F ∷ 0xC0 ∷ 0 ∷ 0 ∷ 3 ∷ 4
        ∷ 0xBC ∷ 0 ∷ 3 ∷ []) ≡ Refused 4 }
    ensures table_of_entry { verdict_at cs_protocol second_table [] (0x18 ∷ 0x9F ∷ 0xC0 ∷ 0 ∷ 0 ∷ 5
        ∷ 6 ∷ 0xBA ∷ 0 ∷ 0 ∷ 0 ∷ 1 ∷ []) ≡ Refused 4 }
    ensures entry { verdict_at cs_protocol second_table [] (0x18 ∷ 0x9F ∷ 0xC0 ∷ 0 ∷ 0 ∷ 5 ∷ 7
        ∷ 0xA9 ∷ 0 ∷ 2 ∷ 0 ∷ 0x11 ∷ []) ≡ Refused 5 }
    ensures empty { verdict_at cs_protocol second_table [] (0x18 ∷ 0x9F ∷ 0xC0 ∷ 0 ∷ 0 ∷ 5 ∷ 8
        ∷ 0xB6 ∷ 0 ∷ 1 ∷ 0 ∷ 2 ∷ []) ≡ Refused 6 }
{}

/// The flags, bit by bit.
pub fn flag_rows()
    ensures none { flags_of false false false ≡ 0 }
    ensures cs { flags_of true false false ≡ 1 }
    ensures eeprom { flags_of false true false ≡ 2 }
    ensures memory { flags_of false false true ≡ 4 }
{}

/// Each packet, its fields all different.
pub fn packet_rows()
    ensures housekeeping { housekeeping_of 0x01020304
        (record { accepted = 0x11; errors = 0x22 }) 5 0x0607 0x0809 0x0A0B0C0D ≡ 8 ∷ 0xA4 ∷ 0xC0 ∷ 0
        ∷ 0 ∷ 0x11 ∷ 1 ∷ 2 ∷ 3 ∷ 4 ∷ 0 ∷ 0 ∷ 0x11 ∷ 0x22 ∷ 5 ∷ 0 ∷ 6 ∷ 7 ∷ 8 ∷ 9 ∷ 0x0A ∷ 0x0B
        ∷ 0x0C ∷ 0x0D ∷ [] }
    ensures baseline { baseline_packet 0x01020304 2 11 (Some 0x1234) ≡ 8 ∷ 0xA5 ∷ 0xC0 ∷ 0 ∷ 0
        ∷ 0x0D ∷ 1 ∷ 2 ∷ 3 ∷ 4 ∷ 0 ∷ 0 ∷ 0 ∷ 2 ∷ 0 ∷ 0x0B ∷ 0 ∷ 1 ∷ 0x12 ∷ 0x34 ∷ [] }
    ensures no_baseline { baseline_packet 0x01020304 2 11 None ≡ 8 ∷ 0xA5 ∷ 0xC0 ∷ 0 ∷ 0 ∷ 0x0D ∷ 1
        ∷ 2 ∷ 3 ∷ 4 ∷ 0 ∷ 0 ∷ 0 ∷ 2 ∷ 0 ∷ 0x0B ∷ 0 ∷ 0 ∷ 0 ∷ 0 ∷ [] }
{}

/// A wakeup that switches the EEPROM table off, a command that is refused, a report and a request; and the event of a miscompare.
pub fn wakeup_rows()
    ensures items { cs_items (pair_of three_bytes blank_segments) []
        (wakeup 0 ((0x18 ∷ 0x9F ∷ 0xC0 ∷ 0 ∷ 0 ∷ 3 ∷ 5 ∷ 0xBF ∷ 0 ∷ 1 ∷ [])
        ∷ (0x18 ∷ 0x9F ∷ 0xC0 ∷ 0 ∷ 0 ∷ 5 ∷ 6 ∷ 0xA8 ∷ 0 ∷ 2 ∷ 0 ∷ 0x11 ∷ [])
        ∷ (0x18 ∷ 0x9F ∷ 0xC0 ∷ 0 ∷ 0 ∷ 5 ∷ 8 ∷ 0xB5 ∷ 0 ∷ 1 ∷ 0 ∷ 1 ∷ [])
        ∷ (0x18 ∷ 0xA0 ∷ 0xC0 ∷ 0 ∷ 0 ∷ 1 ∷ 0 ∷ 0x86 ∷ []) ∷ []) 2)
        ≡ outs.Made (8 ∷ 8 ∷ 0xC0 ∷ 0 ∷ 0 ∷ 0x25 ∷ 0 ∷ 0 ∷ 3 ∷ 0xE8 ∷ 0 ∷ 0 ∷ 0x43 ∷ 0x53 ∷ 0 ∷ 0
        ∷ 0 ∷ 0 ∷ 0 ∷ 0 ∷ 0 ∷ 0 ∷ 0 ∷ 0 ∷ 0 ∷ 0 ∷ 0 ∷ 0 ∷ 0 ∷ 0 ∷ 0 ∷ 0 ∷ 0 ∷ 0x15 ∷ 0 ∷ 2 ∷ 0 ∷ 0
        ∷ 0 ∷ 0x42 ∷ 0 ∷ 0 ∷ 0 ∷ 1 ∷ []) ∷ outs.Made (8 ∷ 8 ∷ 0xC0 ∷ 0 ∷ 0 ∷ 0x25 ∷ 0 ∷ 0 ∷ 3 ∷ 0xE8
        ∷ 0 ∷ 0 ∷ 0x43 ∷ 0x53 ∷ 0 ∷ 0 ∷ 0 ∷ 0 ∷ 0 ∷ 0 ∷ 0 ∷ 0 ∷ 0 ∷ 0 ∷ 0 ∷ 0 ∷ 0 ∷ 0 ∷ 0 ∷ 0 ∷ 0
        ∷ 0 ∷ 0 ∷ 5 ∷ 0 ∷ 3 ∷ 0 ∷ 0 ∷ 0 ∷ 0x42 ∷ 0 ∷ 0 ∷ 0 ∷ 1 ∷ [])
        ∷ outs.Made (8 ∷ 0xA5 ∷ 0xC0 ∷ 0 ∷ 0 ∷ 0x0D ∷ 0 ∷ 0 ∷ 3 ∷ 0xE8 ∷ 0 ∷ 0 ∷ 0 ∷ 1 ∷ 0 ∷ 1 ∷ 0
        ∷ 0 ∷ 0 ∷ 0 ∷ []) ∷ outs.Made (8 ∷ 8 ∷ 0xC0 ∷ 0 ∷ 0 ∷ 0x25 ∷ 0 ∷ 0 ∷ 3 ∷ 0xE8 ∷ 0 ∷ 0 ∷ 0x43
        ∷ 0x53 ∷ 0 ∷ 0 ∷ 0 ∷ 0 ∷ 0 ∷ 0 ∷ 0 ∷ 0 ∷ 0 ∷ 0 ∷ 0 ∷ 0 ∷ 0 ∷ 0 ∷ 0 ∷ 0 ∷ 0 ∷ 0 ∷ 0 ∷ 0x18
        ∷ 0 ∷ 2 ∷ 0 ∷ 0 ∷ 0 ∷ 0x42 ∷ 0 ∷ 0 ∷ 0 ∷ 1 ∷ [])
        ∷ outs.Made (8 ∷ 0xA4 ∷ 0xC0 ∷ 0 ∷ 0 ∷ 0x11 ∷ 0 ∷ 0 ∷ 3 ∷ 0xE8 ∷ 0 ∷ 0 ∷ 2 ∷ 1 ∷ 5 ∷ 0 ∷ 0
        ∷ 0 ∷ 0 ∷ 0 ∷ 0 ∷ 0 ∷ 0 ∷ 0 ∷ []) ∷ [] }
    ensures miscompare { cs_items (pair_of blank_segments three_bytes) (Woken (wakeup 0 [] 2)
        ∷ []) (wakeup 1 [] 7) ≡ outs.Made (8 ∷ 8 ∷ 0xC0 ∷ 0 ∷ 0 ∷ 0x25 ∷ 0 ∷ 0 ∷ 3 ∷ 0xE9 ∷ 0 ∷ 0
        ∷ 0x43 ∷ 0x53 ∷ 0 ∷ 0 ∷ 0 ∷ 0 ∷ 0 ∷ 0 ∷ 0 ∷ 0 ∷ 0 ∷ 0 ∷ 0 ∷ 0 ∷ 0 ∷ 0 ∷ 0 ∷ 0 ∷ 0 ∷ 0 ∷ 0
        ∷ 0x65 ∷ 0 ∷ 3 ∷ 0 ∷ 0 ∷ 0 ∷ 0x42 ∷ 0 ∷ 0 ∷ 0 ∷ 1 ∷ []) ∷ [] }
{}

/// An activation in the middle of a pass: the entry is read from its first byte on. One of the other table leaves the pass as it is, and so
/// does one before it began.
pub fn activations_begin_passes()
    ensures alone { begins_of (pair_of blank_segments long_entry) (at 0 ∷ at 1 ∷ at 2 ∷ at 3 ∷ [])
        ≡ 0 ∷ 1024 ∷ 2048 ∷ 0 ∷ [] }
    ensures middle { begins_of (pair_of blank_segments long_entry) (at 0 ∷ at 1
        ∷ active 2 long_entry ∷ at 2 ∷ at 3 ∷ at 4 ∷ at 5 ∷ []) ≡ 0 ∷ 1024 ∷ 0 ∷ 1024 ∷ 2048 ∷ 0
        ∷ [] }
    ensures last { begins_of (pair_of blank_segments long_entry) (at 0 ∷ at 1 ∷ at 2
        ∷ active 2 long_entry ∷ at 3 ∷ at 4 ∷ []) ≡ 0 ∷ 1024 ∷ 2048 ∷ 0 ∷ 1024 ∷ [] }
    ensures other { begins_of (pair_of blank_segments long_entry) (at 0 ∷ at 1
        ∷ active 1 blank_segments ∷ at 2 ∷ at 3 ∷ []) ≡ 0 ∷ 1024 ∷ 2048 ∷ 0 ∷ [] }
    ensures before_all { begins_of (pair_of blank_segments blank_segments) (active 2 long_entry
        ∷ at 0 ∷ at 1 ∷ []) ≡ 0 ∷ 1024 ∷ [] }
    ensures first_table { begins_of (pair_of long_entry blank_segments) (at 0 ∷ active 1 long_entry
        ∷ at 1 ∷ active 2 long_entry ∷ at 2 ∷ []) ≡ 0 ∷ 0 ∷ 1024 ∷ [] }
    ensures none { begins_of (pair_of blank_segments long_entry) (at 0 ∷ active 2 blank_segments
        ∷ at 1 ∷ []) ≡ 0 ∷ [] }
{}

/// An activation behind a baseline: the next whole pass is the baseline, and what differs from it is told. One of the other table forgets
/// nothing. The counts stay.
pub fn activations_forget_baselines()
    ensures kept { sent_along (pair_of blank_segments three_bytes) (at 0 ∷ woken 1 [] 7
        ∷ woken 2 [] 7 ∷ []) ≡ [] ∷ (cs_event 101 3 0xE9 ∷ []) ∷ (cs_event 101 3 0xEA ∷ []) ∷ [] }
    ensures forgotten { sent_along (pair_of blank_segments three_bytes) (at 0 ∷ woken 1 [] 7
        ∷ active 2 three_bytes ∷ woken 2 [] 7 ∷ at 3 ∷ woken 4 [] 7 ∷ []) ≡ []
        ∷ (cs_event 101 3 0xE9 ∷ []) ∷ [] ∷ [] ∷ (cs_event 101 3 0xEB ∷ []) ∷ [] ∷ [] }
    ensures other { sent_along (pair_of blank_segments three_bytes) (at 0 ∷ active 1 blank_segments
        ∷ woken 1 [] 7 ∷ []) ≡ [] ∷ [] ∷ (cs_event 101 3 0xE9 ∷ []) ∷ [] }
    ensures twice { sent_along (pair_of blank_segments three_bytes) (at 0 ∷ active 2 three_bytes
        ∷ woken 1 [] 7 ∷ active 2 three_bytes ∷ at 2 ∷ []) ≡ [] ∷ [] ∷ [] ∷ [] ∷ [] ∷ [] }
    ensures counted { sent_along (pair_of blank_segments three_bytes) (at 0 ∷ woken 1 [] 7
        ∷ active 2 three_bytes ∷ woken 2 (request ∷ []) 7 ∷ woken 3 (request ∷ []) 7 ∷ []) ≡ []
        ∷ (cs_event 101 3 0xE9 ∷ []) ∷ [] ∷ (shown 0xEA 1 2 ∷ []) ∷ (shown 0xEB 1 3 ∷ []) ∷ [] }
{}

/// An activation behind commands: the entries are on by their state in the table, whatever was switched before. A later command counts, and
/// tables and CS stay as they were switched. Refusals go by the table in force.
pub fn activations_switch_entries()
    ensures off { begins_of (pair_of blank_segments three_bytes) (at 0 ∷ woken 1 (entry_off ∷ []) 2
        ∷ at 2 ∷ []) ≡ 0 ∷ [] }
    ensures on_again { begins_of (pair_of blank_segments three_bytes) (at 0
        ∷ woken 1 (entry_off ∷ []) 2 ∷ active 2 three_bytes ∷ at 2 ∷ []) ≡ 0 ∷ 0 ∷ [] }
    ensures off_again { begins_of (pair_of blank_segments (three_with 2)) (woken 0 (entry_on ∷ []) 2
        ∷ active 2 (three_with 2) ∷ at 1 ∷ []) ≡ 0 ∷ [] }
    ensures later { begins_of (pair_of blank_segments three_bytes) (at 0 ∷ active 2 (three_with 2)
        ∷ woken 1 (entry_on ∷ []) 2 ∷ []) ≡ 0 ∷ 0 ∷ [] }
    ensures other { begins_of (pair_of blank_segments three_bytes) (woken 0 (entry_off ∷ []) 2
        ∷ active 1 blank_segments ∷ at 1 ∷ []) ≡ [] }
    ensures table_stays { begins_of (pair_of blank_segments three_bytes) (woken 0 (table_off ∷ []) 2
        ∷ active 2 three_bytes ∷ at 1 ∷ []) ≡ [] }
    ensures whole_stays { begins_of (pair_of blank_segments three_bytes) (woken 0 (whole_off ∷ []) 2
        ∷ active 2 three_bytes ∷ at 1 ∷ []) ≡ [] }
    ensures refused { sent_along (pair_of blank_segments three_bytes) (woken 0 (entry_off ∷ []) 2
        ∷ active 2 blank_segments ∷ woken 1 (entry_off ∷ []) 2 ∷ []) ≡ (cs_event 23 2 0xE8 ∷ [])
        ∷ [] ∷ (cs_event 6 3 0xE9 ∷ []) ∷ [] }
{}

/// Once a table became active, no entry of it has a baseline, its next slice begins at its first byte, and it is on by its state in the
/// table. The next wakeup tells no miscompare of it.
pub fn tables_are_forgotten()
    ensures baseline { (tables : TablePair) (history : List CsEntry) (a : Activation) (place : ℕ)
        → a.number ≡ table_of place → baseline_at place (happened_of tables (history ++ Activated a
        ∷ [])) ≡ None }
    ensures pass { (tables : TablePair) (history : List CsEntry) (a : Activation) (place : ℕ)
        → a.number ≡ table_of place
        → offset_at place (slices_among (happened_of tables (history ++ Activated a ∷ [])))
        (since_slice (happened_of tables (history ++ Activated a ∷ []))) ≡ 0 }
    ensures entry { (tables : TablePair) (history : List CsEntry) (a : Activation) (place : ℕ)
        → a.number ≡ table_of place
        → is_entry_on (tables_after tables (history ++ Activated a
        ∷ [])) place (orders_since (table_of place) (happened_of tables (history ++ Activated a
        ∷ []))) ≡ (entry_in (tables_after tables (history ++ Activated a ∷ [])) place).state ==
        1 }
    ensures untold { (tables : TablePair) (history : List CsEntry) (a : Activation) (input : Input)
        (s : Slice) → slice_at tables (history ++ Activated a ∷ []) input ≡ Some s
        → a.number ≡ table_of s.place
        → list_any tells_miscompare (cs_items tables (history ++ Activated a ∷ []) input) ≡ false }
{}

/// The other table keeps all this, and the counts of miscompares and of whole passes stay.
pub fn other_tables_are_kept()
    ensures baseline { (tables : TablePair) (history : List CsEntry) (a : Activation) (place : ℕ)
        → a.number ≢ table_of place → baseline_at place (happened_of tables (history ++ Activated a
        ∷ [])) ≡ baseline_at place (happened_of tables history) }
    ensures pass { (tables : TablePair) (history : List CsEntry) (a : Activation) (place : ℕ)
        → a.number ≢ table_of place
        → offset_at place (slices_among (happened_of tables (history ++ Activated a ∷ [])))
        (since_slice (happened_of tables (history ++ Activated a ∷ [])))
        ≡ offset_at place (slices_among (happened_of tables history))
        (since_slice (happened_of tables history)) }
    ensures entry { (tables : TablePair) (history : List CsEntry) (a : Activation) (place : ℕ)
        → a.number ≢ table_of place → place < 32
        → is_entry_on (tables_after tables (history ++ Activated a
        ∷ [])) place (orders_since (table_of place) (happened_of tables (history ++ Activated a
        ∷ []))) ≡ is_entry_on (tables_after tables history) place
        (orders_since (table_of place) (happened_of tables history)) }
    ensures miscompares { (tables : TablePair) (history : List CsEntry) (a : Activation) (table : ℕ)
        → miscompare_count table (happened_of tables (history ++ Activated a ∷ []))
        ≡ miscompare_count table (happened_of tables history) }
    ensures passes { (tables : TablePair) (history : List CsEntry) (a : Activation)
        → pass_count (slices_among (happened_of tables (history ++ Activated a ∷ [])))
        ≡ pass_count (slices_among (happened_of tables history)) }
{}

/// The event of a miscompare stands among the items of a wakeup exactly where the wakeup's slice ends at its entry's end, the entry has a
/// baseline, and the bytes that were read in the slice's pass have another CRC.
pub fn miscompares_are_told()
    ensures none { (tables : TablePair) (history : List CsEntry) (input : Input)
        → slice_at tables history input ≡ None
        → list_any tells_miscompare (cs_items tables history input) ≡ false }
    ensures unfinished { (tables : TablePair) (history : List CsEntry) (input : Input) (s : Slice)
        → slice_at tables history input ≡ Some s → s.ends ≡ false
        → list_any tells_miscompare (cs_items tables history input) ≡ false }
    ensures first { (tables : TablePair) (history : List CsEntry) (input : Input) (s : Slice)
        → slice_at tables history input ≡ Some s
        → baseline_at s.place (before_slice (tables_after tables history)
        (happened_of tables history) input) ≡ None
        → list_any tells_miscompare (cs_items tables history input) ≡ false }
    ensures later { (tables : TablePair) (history : List CsEntry) (input : Input) (s : Slice)
        (base : ℕ) → slice_at tables history input ≡ Some s → s.ends ≡ true
        → baseline_at s.place (before_slice (tables_after tables history)
        (happened_of tables history) input) ≡ Some base
        → list_any tells_miscompare (cs_items tables history input)
        ≡ not (base == crc_of 0 (pass_bytes s.place
        (slices_since (table_of s.place) (before_slice (tables_after tables history)
        (happened_of tables history) input) ++ s ∷ []))) }
{}

/// Each code with the shortest and the longest payload of its commands.
pub fn length_rows()
    ensures codes { numbers_of_rows cs_codes
        ≡ (0 ∷ 0 ∷ 0 ∷ []) ∷ (1 ∷ 0 ∷ 0 ∷ []) ∷ (2 ∷ 0 ∷ 0 ∷ []) ∷ (3 ∷ 0 ∷ 0 ∷ [])
        ∷ (4 ∷ 2 ∷ 2 ∷ []) ∷ (5 ∷ 2 ∷ 2 ∷ [])
        ∷ (6 ∷ 4 ∷ 4 ∷ []) ∷ (7 ∷ 4 ∷ 4 ∷ []) ∷ (8 ∷ 4 ∷ 4 ∷ []) ∷ [] }
{}

/// Numbers of tables and entries of which the high byte alone is wrong, and those next to the first and the last.
pub fn number_rows()
    ensures tables { map (verdict_at cs_protocol second_table []) (for_table 4 0xBF 0 0
        ∷ for_table 4 0xBE 0 1
        ∷ for_table 4 0xBD 0 2
        ∷ for_table 4 0xBC 0 3
        ∷ for_table 4 0xBC 1 2
        ∷ for_table 5 0xBE 0 0
        ∷ for_table 5 0xBF 0 1
        ∷ for_table 5 0xBD 2 1 ∷ [])
        ≡ Refused 4 ∷ Accepted 4 (Table 1 true) ∷ Accepted 4 (Table 2 true) ∷ Refused 4 ∷ Refused 4
        ∷ Refused 4 ∷ Accepted 5 (Table 1 false) ∷ Refused 4 ∷ [] }
    ensures of_entries { map (verdict_at cs_protocol second_table []) (for_entry 6 0xB9 (1 ∷ 2 ∷ 0
        ∷ 1 ∷ [])
        ∷ for_entry 7 0xB8 (1 ∷ 2 ∷ 0 ∷ 1 ∷ [])
        ∷ for_entry 8 0xB7 (1 ∷ 2 ∷ 0 ∷ 1 ∷ []) ∷ []) ≡ Refused 4 ∷ Refused 4 ∷ Refused 4 ∷ [] }
    ensures entries { map (verdict_at cs_protocol second_table []) (for_entry 6 0xB9 (0 ∷ 2 ∷ 1 ∷ 1
        ∷ [])
        ∷ for_entry 7 0xB8 (0 ∷ 2 ∷ 1 ∷ 1 ∷ [])
        ∷ for_entry 8 0xB7 (0 ∷ 2 ∷ 1 ∷ 1 ∷ [])
        ∷ for_entry 8 0xB7 (0 ∷ 2 ∷ 0 ∷ 0 ∷ []) ∷ []) ≡ Refused 5 ∷ Refused 5 ∷ Refused 5
        ∷ Refused 5 ∷ [] }
    ensures ends { map (verdict_at cs_protocol (pair_of both_ends blank_segments) [])
        (for_entry 6 0xBB (0
        ∷ 1 ∷ 0 ∷ 1 ∷ [])
        ∷ for_entry 7 0xAB (0 ∷ 1 ∷ 0 ∷ 0x10 ∷ [])
        ∷ for_entry 8 0xB6 (0 ∷ 1 ∷ 0 ∷ 2 ∷ [])
        ∷ for_entry 8 0xBB (0 ∷ 1 ∷ 0 ∷ 0x0F ∷ [])
        ∷ for_entry 8 0xA7 (0 ∷ 2 ∷ 0 ∷ 0x10 ∷ []) ∷ [])
        ≡ Accepted 6 (Entry 1 1 true) ∷ Accepted 7 (Entry 1 16 false) ∷ Refused 6 ∷ Refused 6
        ∷ Refused 6 ∷ [] }
    ensures states { map (λ n. segments_fault_of (n ∷ 1 ∷ 0 ∷ 0 ∷ 1 ∷ 2 ∷ 3 ∷ 4 ∷ 1 ∷ 0 ∷ 0 ∷ 0
        ∷ replicate 180 0)) (0 ∷ 1 ∷ []) ≡ None ∷ Some (record { entry = 1; reason = 1 }) ∷ [] }
    ensures last { segments_fault_of (replicate 180 0 ++ (0 ∷ 2 ∷ replicate 10 0))
        ≡ Some (record { entry = 16; reason = 2 }) }
{}

/// The ring goes over the first and the last entry of the EEPROM table and then over those of the memory table.
pub fn place_rows()
    ensures ring { places_of (pair_of both_ends both_ends) (at 0 ∷ at 1 ∷ at 2 ∷ at 3 ∷ at 4 ∷ [])
        ≡ 0 ∷ 15 ∷ 16 ∷ 31 ∷ 0 ∷ [] }
    ensures eeprom { places_of (pair_of both_ends blank_segments) (at 0 ∷ at 1 ∷ at 2 ∷ []) ≡ 0 ∷ 15
        ∷ 0 ∷ [] }
{}

/// A pass at an address with all its bytes, and its report at such a time.
pub fn wide_rows()
    ensures report { cs_items (pair_of far_entry blank_segments) (Woken (far_wakeup 0x01020303 [])
        ∷ []) (far_wakeup 0x01020304 (far_report ∷ []))
        ≡ outs.Made far_baseline ∷ outs.Made far_event ∷ [] }
{}
