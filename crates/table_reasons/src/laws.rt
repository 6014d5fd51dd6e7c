//! Laws of the definitions, as contracts of functions that do nothing.
ghost use Rattle.std.specs.Prelude.{◌≡◌, ◌≤◌, false, ◌∷◌, ◌++◌, [], ℕ, List, Some, true, codes, replicate};
ghost use Rattle.table_files.specs.declared.fault.EntryFault.{EntryFault};
ghost use Rattle.table_files.specs.declared.kinds.TableKind.{TableKind};
ghost use Rattle.table_files.specs.declared.kinds.TableKind.TheVariants.{AppMon, EventMon, ExeCount, MsgActs, Dwell, Eeprom, Rts, Wdt, Adt};
ghost use Rattle.table_forms.specs.Judging.{entry_fault_of};
ghost use Rattle.table_reasons.specs.Reasons.{is_sequence, is_there, sequence_reason, reason_of};
ghost use Rattle.table_reasons.specs.Told.{fault_told};

/// Each reason for which the loader of a table refuses an entry has a sentence, and so has each of a sequence's reasons, 1 to 4.
pub fn refusals_have_words()
    ensures entries { (kind : TableKind) (payload : List ℕ) (fault : EntryFault)
        → is_sequence kind ≡ false → entry_fault_of kind payload ≡ Some fault
        → is_there (reason_of kind fault.reason) ≡ true }
    ensures sequences { (r : ℕ) → 1 ≤ r → r ≤ 4 → is_there (sequence_reason r) ≡ true }
{}

/// Literal sentences: with a number of an entry, with one of the head, and without a number.
pub fn told_in_words()
    ensures entry { fault_told AppMon (replicate 94 0 ++ 0 ∷ 15
        ∷ replicate 672 0) (record { entry = 4; reason = 2 })
        ≡ codes "application monitors, entry 4: action 15 is over 11 (reason 12)" }
    ensures head { fault_told (Dwell 3) (1 ∷ 2 ∷ replicate 202 0) (record { entry = 0; reason = 2 })
        ≡ codes "dwell table 3, entry 0: the enabled flag 258 is over 1 (reason 12)" }
    ensures sequence { fault_told (Rts 64) [] (record { entry = 2; reason = 4 })
        ≡ codes
        "relative sequence 64, entry 2: the entry runs past the end of the sequence (reason 14)" }
{}

/// Literal sentences of the other kinds of tables, each with a number that stands where docs/FILES.md has it.
pub fn numbers_in_words()
    ensures event { fault_told EventMon (replicate 22 0 ++ 1 ∷ 0
        ∷ replicate 360 0) (record { entry = 1; reason = 2 })
        ≡ codes "event monitors, entry 1: action 256 is over 11 (reason 12)" }
    ensures counter { fault_told ExeCount (replicate 42 0 ++ 0 ∷ 9
        ∷ replicate 660 0) (record { entry = 2; reason = 3 })
        ≡ codes "execution counters, entry 2: type 9 is over 4 (reason 13)" }
    ensures action { fault_told MsgActs (replicate 136 0 ++ 0 ∷ 3
        ∷ replicate 406 0) (record { entry = 3; reason = 5 })
        ≡ codes "message actions, entry 3: state 3 is over 2 (reason 15)" }
    ensures dwell_length { fault_told (Dwell 4) (replicate 12 0 ++ 0 ∷ 3
        ∷ replicate 190 0) (record { entry = 2; reason = 1 })
        ≡ codes "dwell table 4, entry 2: length 3 isn't 0, 1, 2 or 4 (reason 11)" }
    ensures address { fault_told (Dwell 1) (replicate 12 0 ++ 0 ∷ 2 ∷ 0 ∷ 1 ∷ 0 ∷ 1 ∷ 162 ∷ 3
        ∷ replicate 184 0) (record { entry = 2; reason = 3 })
        ≡ codes
        "dwell table 1, entry 2: address 0x0001A203 isn't a multiple of the length (reason 13)" }
    ensures checksum { fault_told Eeprom (replicate 12 0 ++ 0 ∷ 4
        ∷ replicate 178 0) (record { entry = 2; reason = 1 })
        ≡ codes "EEPROM checksums, entry 2: state 4 is over 2 (reason 11)" }
    ensures watch_type { fault_told Wdt (replicate 16 0 ++ 0 ∷ 5
        ∷ replicate 494 0) (record { entry = 2; reason = 1 })
        ≡ codes "watchpoints, entry 2: type 5 is over 3 (reason 11)" }
    ensures operator { fault_told Wdt (replicate 22 0 ++ 0 ∷ 7
        ∷ replicate 488 0) (record { entry = 2; reason = 2 })
        ≡ codes "watchpoints, entry 2: operator 7 isn't 1 to 6 (reason 12)" }
    ensures point_state { fault_told Adt (replicate 40 0 ++ 0 ∷ 6
        ∷ replicate 598 0) (record { entry = 2; reason = 1 })
        ≡ codes "actionpoints, entry 2: state 6 is over 2 (reason 11)" }
    ensures started { fault_told Adt (replicate 42 0 ++ 0 ∷ 65
        ∷ replicate 596 0) (record { entry = 2; reason = 2 })
        ≡ codes
        "actionpoints, entry 2: sequence 65 isn't 1 to 64, or the number of failures is 0 (reason 12)" }
{}
