//! Laws of the definitions, as contracts of functions that do nothing. The rows' bytes are written by hand from the layouts in docs/FILES.md.

ghost use Rattle.std.specs.Prelude.{◌≡◌, ◌↔◌, ◌⊎◌, ℕ, ◌<◌, List, [], ◌∷◌, ◌++◌, map, replicate, take, true, Some, None, Ok, nat_eq};
ghost use Rattle.std.specs.List.{All, IsDistinct};
ghost use Rattle.std.specs.List.Sorted.{IsPermutation};
ghost use Rattle.table_files.specs.declared.fault.EntryFault.{EntryFault};
ghost use Rattle.sc_tables.specs.declared.absolute.Timed.{Timed};
ghost use Rattle.sc_tables.specs.declared.relative.Relative.{Relative};
ghost use Rattle.sc_tables.specs.Absolute.{timed_form, timed_at, timed_size, numbers_of, comes_before, in_order, stored_ats, ats_of, ats_fault_of};
ghost use Rattle.sc_tables.specs.Relative.{relative_form, relative_at, relative_size, stored_rts, rts_of, rts_fault_of};
ghost use Rattle.sc_tables.specs.Places.{AreInOrder};
ghost use Rattle.sc_tables.specs.Spelling.{timed_spelled, relative_spelled, AreTimed, AreRelative, Spells, Fails};
ghost use Rattle.sc_tables.specs.Rows.{nine_bytes, eight_bytes, timed_bytes, relative_bytes, three_timed, numbered, changed, long_bytes};

/// The commands of an absolute time sequence are those that are stored, each before those with a later time, and at one time before those with
/// a higher number.
pub fn commands_are_in_order()
    ensures test { (a b : Timed) → (comes_before a b ≡ true)
        ↔ ((a.tag < b.tag) ⊎ ((a.tag ≡ b.tag) × (a.number < b.number))) }
    ensures moved { (commands : List Timed) → IsPermutation commands (in_order commands) }
    ensures order { (commands : List Timed) → IsDistinct nat_eq (numbers_of commands)
        → AreInOrder (in_order commands) }
    ensures loaded { (payload : List ℕ) → All (λ b. b < 256) payload → AreInOrder (ats_of payload) }
{}

/// A payload gives commands exactly where it spells them, with nothing but zero bytes behind them.
pub fn payloads_spell_their_commands()
    ensures absolute { (payload : List ℕ) (commands : List Timed) → All (λ b. b < 256) payload
        → (stored_ats payload ≡ Ok commands) ↔ Spells timed_spelled AreTimed payload commands }
    ensures relative { (payload : List ℕ) (commands : List Relative) → All (λ b. b < 256) payload
        → (stored_rts payload ≡ Ok commands)
        ↔ Spells relative_spelled AreRelative payload commands }
{}

/// A payload is refused exactly where something else stands behind the commands that it spells: the entry behind them, with its first reason.
pub fn faults_stand_behind_commands()
    ensures absolute { (payload : List ℕ) (fault : EntryFault) → All (λ b. b < 256) payload
        → (ats_fault_of payload ≡ Some fault)
        ↔ Fails timed_form timed_spelled AreTimed payload fault }
    ensures relative { (payload : List ℕ) (fault : EntryFault) → All (λ b. b < 256) payload
        → (rts_fault_of payload ≡ Some fault)
        ↔ Fails relative_form relative_spelled AreRelative payload fault }
{}

/// One entry of each kind, byte by byte, with fields that differ.
pub fn entry_rows()
    ensures timed { timed_at (timed_bytes ++ 0x99 ∷ [])
        ≡ record { number = 0x0123; tag = 0x04050607; packet = nine_bytes } }
    ensures timed_size { timed_size (timed_bytes ++ 0x99 ∷ []) ≡ 15 }
    ensures relative { relative_at (relative_bytes ++ 0x99 ∷ [])
        ≡ record { tag = 0x0102; packet = nine_bytes } }
    ensures relative_size { relative_size (relative_bytes ++ 0x99 ∷ []) ≡ 11 }
{}

/// Commands by time and then by number; an entry that ends at the payload's end; zero bytes behind the last entry, and nothing but zero bytes.
pub fn payload_rows()
    ensures order { ats_of three_timed ≡ record { number = 3; tag = 0x0100; packet = eight_bytes }
        ∷ record { number = 5; tag = 0x0200; packet = nine_bytes }
        ∷ record { number = 7; tag = 0x0200; packet = eight_bytes } ∷ [] }
    ensures zeros { map ats_of ((numbered 0x00 0x09 ++ replicate 5 0) ∷ replicate 20 0 ∷ [] ∷ [])
        ≡ (record { number = 9; tag = 0x0200; packet = eight_bytes } ∷ []) ∷ [] ∷ [] ∷ [] }
    ensures relative { rts_of (relative_bytes ++ (0x00 ∷ 0x00 ∷ eight_bytes))
        ≡ record { tag = 0x0102; packet = nine_bytes } ∷ record { tag = 0; packet = eight_bytes }
        ∷ [] }
    ensures relative_zeros { map rts_of ((relative_bytes ++ replicate 12 0) ∷ replicate 3 0 ∷ []
        ∷ []) ≡ (record { tag = 0x0102; packet = nine_bytes } ∷ []) ∷ [] ∷ [] ∷ [] }
    ensures well { map ats_fault_of (three_timed ∷ (numbered 0x03 0xE8 ++ replicate 5 0)
        ∷ (0x00 ∷ 0x01 ∷ 0x00 ∷ 0x00 ∷ 0x00 ∷ 0x00 ∷ long_bytes 250) ∷ [] ∷ []) ≡ replicate 4 None }
    ensures relative_well { map rts_fault_of ((0x00 ∷ 0x00 ∷ long_bytes 250) ∷ relative_bytes ∷ []
        ∷ []) ≡ replicate 3 None }
{}

/// The reasons of absolute time sequences, in the order in which they are asked.
pub fn absolute_reason_rows()
    ensures short { map ats_fault_of (take 13 (numbered 0x00 0x00) ∷ (0x01 ∷ [])
        ∷ (numbered 0x00 0x01 ++ 0x01 ∷ []) ∷ []) ≡ Some (record { entry = 1; reason = 4 })
        ∷ Some (record { entry = 1; reason = 4 }) ∷ Some (record { entry = 2; reason = 4 }) ∷ [] }
    ensures number { map (λ n. ats_fault_of (0x03 ∷ n ∷ replicate 4 0 ++ replicate 8 0x20)) (0xE9
        ∷ 0xE8 ∷ []) ≡ Some (record { entry = 1; reason = 1 })
        ∷ Some (record { entry = 1; reason = 3 }) ∷ [] }
    ensures number_zero { ats_fault_of (numbered 0x00 0x00)
        ≡ Some (record { entry = 1; reason = 1 }) }
    ensures twice { map (λ n. ats_fault_of (three_timed ++ (0x00 ∷ n ∷ replicate 12 0x20))) (0x05
        ∷ 0x06 ∷ []) ≡ Some (record { entry = 4; reason = 2 })
        ∷ Some (record { entry = 4; reason = 3 }) ∷ [] }
    ensures packet { map (λ p. ats_fault_of (0x00 ∷ 0x01 ∷ replicate 4 0 ++ p)) (changed 0 0x38
        ∷ changed 2 0x80 ∷ changed 0 0x08 ∷ changed 0 0x10 ∷ changed 5 0x00 ∷ changed 5 0xFA ∷ [])
        ≡ replicate 6 (Some (record { entry = 1; reason = 3 })) }
    ensures long { map (λ p. ats_fault_of (0x00 ∷ 0x01 ∷ replicate 4 0 ++ p)) (changed 5 0x02
        ∷ long_bytes 249 ∷ []) ≡ replicate 2 (Some (record { entry = 1; reason = 4 })) }
{}

/// The reasons of relative time sequences, in the order in which they are asked.
pub fn relative_reason_rows()
    ensures short { map rts_fault_of (take 9 (0x00 ∷ 0x00 ∷ eight_bytes)
        ∷ (relative_bytes ++ 0x01 ∷ []) ∷ []) ≡ Some (record { entry = 1; reason = 4 })
        ∷ Some (record { entry = 2; reason = 4 }) ∷ [] }
    ensures packet { map (λ p. rts_fault_of (0x00 ∷ 0x01 ∷ p)) (changed 0 0x38 ∷ changed 2 0x80
        ∷ changed 0 0x08 ∷ changed 0 0x10 ∷ changed 5 0x00 ∷ changed 5 0xFA ∷ [])
        ≡ replicate 6 (Some (record { entry = 1; reason = 3 })) }
    ensures long { map (λ p. rts_fault_of (0x00 ∷ 0x01 ∷ p)) (changed 5 0x02 ∷ long_bytes 249 ∷ [])
        ≡ replicate 2 (Some (record { entry = 1; reason = 4 })) }
{}

/// Commands of an absolute sequence whose times and numbers differ in their high bytes; and the first, second and last of a relative one.
pub fn order_rows()
    ensures times { ats_of ((1 ∷ 2 ∷ 2 ∷ 0 ∷ 0 ∷ 1 ∷ eight_bytes)
        ++ (3 ∷ 1 ∷ 1 ∷ 0 ∷ 0 ∷ 2 ∷ nine_bytes) ++ (2 ∷ 3 ∷ 2 ∷ 0 ∷ 0 ∷ 1 ∷ nine_bytes)
        ++ (1 ∷ 4 ∷ 1 ∷ 0xFF ∷ 0 ∷ 0 ∷ eight_bytes))
        ≡ record { number = 0x0301; tag = 0x01000002; packet = nine_bytes }
        ∷ record { number = 0x0104; tag = 0x01FF0000; packet = eight_bytes }
        ∷ record { number = 0x0102; tag = 0x02000001; packet = eight_bytes }
        ∷ record { number = 0x0203; tag = 0x02000001; packet = nine_bytes } ∷ [] }
    ensures twice { map (λ n. ats_fault_of (numbered 1 2 ++ numbered n 2)) (2 ∷ 1 ∷ []) ≡ None
        ∷ Some (record { entry = 2; reason = 2 }) ∷ [] }
    ensures relative { rts_of ((0xFE ∷ 0xDC ∷ nine_bytes) ++ (0xBA ∷ 0x98 ∷ eight_bytes)
        ++ (1 ∷ 0 ∷ long_bytes 250))
        ≡ record { tag = 0xFEDC; packet = nine_bytes }
        ∷ record { tag = 0xBA98; packet = eight_bytes }
        ∷ record { tag = 0x0100; packet = long_bytes 250 } ∷ [] }
{}
