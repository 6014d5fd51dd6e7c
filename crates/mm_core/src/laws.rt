//! What the definitions give in small cases. The functions do nothing: their contracts are the rows.
ghost use Rattle.std.specs.Prelude.{◌≡◌, [], ◌∷◌, length, map, replicate, false, true};
ghost use Rattle.memory_window.specs.declared.operations.MemOp.TheVariants as ops;
ghost use Rattle.bus_pipes.specs.declared.names.Out.TheVariants as outs;
ghost use Rattle.commands.specs.Rows.{numbers_of_rows};
ghost use Rattle.commands.specs.Verdicts.{verdict_at};
ghost use Rattle.commands.specs.declared.verdicts.Verdict.TheVariants.{Other, Request, Refused, Accepted};
ghost use Rattle.mm_core.specs.declared.instructions.Instruction.TheVariants.{Plain, Peek, Poke, Load, LoadFile, Fill, Protect, Dump};
ghost use Rattle.mm_core.specs.Messages.{mm_codes};
ghost use Rattle.mm_core.specs.Verdicts.{mm_protocol};
ghost use Rattle.mm_core.specs.Housekeeping.{open_regions, housekeeping_of};
ghost use Rattle.mm_core.specs.Answers.{peek_packet, dump_packet, dump_items};
ghost use Rattle.mm_core.specs.Step.{mm_items, mm_operations};
ghost use Rattle.mm_core.specs.Rows.{three_areas, seen_three, eight_regions, seen_wide, seen_eight, fill_with, dump_with, peek_with, region_with, load_with, wide_commands, late_event};

/// A command of each code, a request, and a packet of another id.
pub fn command_rows()
    ensures noop { verdict_at mm_protocol seen_three [] (0x18 ∷ 0x88 ∷ 0xC0 ∷ 0 ∷ 0 ∷ 1 ∷ 0 ∷ 0xAE
        ∷ []) ≡ Accepted 0 Plain }
    ensures reset { verdict_at mm_protocol seen_three [] (0x18 ∷ 0x88 ∷ 0xC0 ∷ 0 ∷ 0 ∷ 1 ∷ 1 ∷ 0xAF
        ∷ []) ≡ Accepted 1 Plain }
    ensures peek { verdict_at mm_protocol seen_three [] (0x18 ∷ 0x88 ∷ 0xC0 ∷ 0 ∷ 0 ∷ 6 ∷ 2 ∷ 0xA9
        ∷ 0x10 ∷ 0 ∷ 0 ∷ 0x10 ∷ 2 ∷ []) ≡ Accepted 2 (Peek 16 0x1002) }
    ensures poke { verdict_at mm_protocol seen_three [] (0x18 ∷ 0x88 ∷ 0xC0 ∷ 0 ∷ 0 ∷ 0x0A ∷ 3
        ∷ 0x12 ∷ 0x20 ∷ 0 ∷ 0 ∷ 0x10 ∷ 4 ∷ 0x21 ∷ 0x43 ∷ 0x65 ∷ 0x87 ∷ [])
        ≡ Accepted 3 (Poke 32 0x1004 0x21436587) }
    ensures load { verdict_at mm_protocol seen_three [] (0x18 ∷ 0x88 ∷ 0xC0 ∷ 0 ∷ 0 ∷ 0x0A ∷ 4
        ∷ 0x2C ∷ 0 ∷ 0 ∷ 0x10 ∷ 4 ∷ 4 ∷ 0x4D ∷ 0xD1 ∷ 0xD2 ∷ 0xD3 ∷ [])
        ≡ Accepted 4 (Load 0x1004 0x044D (0xD1 ∷ 0xD2 ∷ 0xD3 ∷ [])) }
    ensures load_file { verdict_at mm_protocol seen_three [] (0x18 ∷ 0x88 ∷ 0xC0 ∷ 0 ∷ 0 ∷ 3 ∷ 5
        ∷ 0xA8 ∷ 0 ∷ 1 ∷ []) ≡ Accepted 5 (LoadFile 1) }
    ensures fill { verdict_at mm_protocol seen_three [] (0x18 ∷ 0x88 ∷ 0xC0 ∷ 0 ∷ 0 ∷ 0x0A ∷ 8
        ∷ 0x16 ∷ 0 ∷ 0 ∷ 0x10 ∷ 1 ∷ 0 ∷ 0 ∷ 0 ∷ 0x0F ∷ 0xA5 ∷ [])
        ≡ Accepted 8 (Fill 0x1001 0x0F 0xA5) }
    ensures dump { verdict_at mm_protocol seen_three [] (0x18 ∷ 0x88 ∷ 0xC0 ∷ 0 ∷ 0 ∷ 9 ∷ 0x0D
        ∷ 0xB7 ∷ 0 ∷ 0 ∷ 0x10 ∷ 2 ∷ 0 ∷ 0 ∷ 0 ∷ 0x0E ∷ []) ≡ Accepted 13 (Dump 0x1002 0x0E) }
    ensures enable { verdict_at mm_protocol seen_three [] (0x18 ∷ 0x88 ∷ 0xC0 ∷ 0 ∷ 0 ∷ 2 ∷ 0x0B
        ∷ 0xA4 ∷ 2 ∷ []) ≡ Accepted 11 (Protect 2 false) }
    ensures disable { verdict_at mm_protocol seen_three [] (0x18 ∷ 0x88 ∷ 0xC0 ∷ 0 ∷ 0 ∷ 2 ∷ 0x0C
        ∷ 0xA3 ∷ 2 ∷ []) ≡ Accepted 12 (Protect 2 true) }
    ensures request { verdict_at mm_protocol seen_three [] (0x18 ∷ 0x89 ∷ 0xC0 ∷ 0 ∷ 0 ∷ 1 ∷ 0
        ∷ 0xAF ∷ []) ≡ Request }
    ensures other { verdict_at mm_protocol seen_three [] (0x18 ∷ 0x90 ∷ 0xC0 ∷ 0 ∷ 0 ∷ 1 ∷ 0 ∷ 0xB6
        ∷ []) ≡ Other }
{}

/// Each refusal.
pub fn refusal_rows()
    ensures checksum { verdict_at mm_protocol seen_three [] (0x18 ∷ 0x88 ∷ 0xC0 ∷ 0 ∷ 0 ∷ 1 ∷ 0
        ∷ 0xAF ∷ []) ≡ Refused 1 }
    ensures code { verdict_at mm_protocol seen_three [] (0x18 ∷ 0x88 ∷ 0xC0 ∷ 0 ∷ 0 ∷ 1 ∷ 6 ∷ 0xA8
        ∷ []) ≡ Refused 2 }
    ensures length { verdict_at mm_protocol seen_three [] (0x18 ∷ 0x88 ∷ 0xC0 ∷ 0 ∷ 0 ∷ 5 ∷ 2 ∷ 0xB0
        ∷ 8 ∷ 0 ∷ 0 ∷ 0x10 ∷ []) ≡ Refused 3 }
    ensures outside { verdict_at mm_protocol seen_three [] (0x18 ∷ 0x88 ∷ 0xC0 ∷ 0 ∷ 0 ∷ 6 ∷ 2
        ∷ 0xE3 ∷ 8 ∷ 0 ∷ 0 ∷ 0x40 ∷ 0 ∷ []) ≡ Refused 4 }
    ensures unaligned { verdict_at mm_protocol seen_three [] (0x18 ∷ 0x88 ∷ 0xC0 ∷ 0 ∷ 0 ∷ 6 ∷ 2
        ∷ 0xAA ∷ 0x10 ∷ 0 ∷ 0 ∷ 0x10 ∷ 1 ∷ []) ≡ Refused 5 }
    ensures wrong_size { verdict_at mm_protocol seen_three [] (0x18 ∷ 0x88 ∷ 0xC0 ∷ 0 ∷ 0 ∷ 6 ∷ 2
        ∷ 0xBB ∷ 0x20 ∷ 0 ∷ 0 ∷ 0x30 ∷ 0 ∷ []) ≡ Refused 6 }
    ensures protected { verdict_at mm_protocol seen_three [] (0x18 ∷ 0x88 ∷ 0xC0 ∷ 0 ∷ 0 ∷ 0x0A ∷ 3
        ∷ 0x25 ∷ 8 ∷ 0 ∷ 0 ∷ 0x20 ∷ 0 ∷ 0 ∷ 0 ∷ 0 ∷ 0xAB ∷ []) ≡ Refused 7 }
    ensures size { verdict_at mm_protocol seen_three [] (0x18 ∷ 0x88 ∷ 0xC0 ∷ 0 ∷ 0 ∷ 6 ∷ 2 ∷ 0xA3
        ∷ 0x18 ∷ 0 ∷ 0 ∷ 0x10 ∷ 0 ∷ []) ≡ Refused 8 }
    ensures region { verdict_at mm_protocol seen_three [] (0x18 ∷ 0x88 ∷ 0xC0 ∷ 0 ∷ 0 ∷ 2 ∷ 0x0B
        ∷ 0xA7 ∷ 1 ∷ []) ≡ Refused 12 }
    ensures load_length { map (verdict_at mm_protocol seen_three []) ((0x18 ∷ 0x88 ∷ 0xC0 ∷ 0 ∷ 0
        ∷ 7 ∷ 4 ∷ 0xAC ∷ 0 ∷ 0 ∷ 0 ∷ 0 ∷ 0 ∷ 0 ∷ []) ∷ [])
        ≡ Refused 3 ∷ [] }
    ensures load_too_long { verdict_at mm_protocol seen_three [] (0x18 ∷ 0x88 ∷ 0xC0 ∷ 0 ∷ 0 ∷ 0xD0
        ∷ 4 ∷ 0x7B ∷ replicate 207 0) ≡ Refused 3 }
    ensures load_check { map (verdict_at mm_protocol seen_three []) ((0x18 ∷ 0x88 ∷ 0xC0 ∷ 0 ∷ 0
        ∷ 0x0A ∷ 4 ∷ 0x2D ∷ 0 ∷ 0 ∷ 0x10 ∷ 4 ∷ 4 ∷ 0x4C ∷ 0xD1 ∷ 0xD2 ∷ 0xD3 ∷ [])
        ∷ (0x18 ∷ 0x88 ∷ 0xC0 ∷ 0 ∷ 0 ∷ 0x0A ∷ 4 ∷ 0x79 ∷ 0 ∷ 0 ∷ 0x40 ∷ 0 ∷ 4 ∷ 0x4C ∷ 0xD1 ∷ 0xD2
        ∷ 0xD3 ∷ []) ∷ [])
        ≡ Refused 10 ∷ Refused 10 ∷ [] }
    ensures load_access { map (verdict_at mm_protocol seen_three []) ((0x18 ∷ 0x88 ∷ 0xC0 ∷ 0 ∷ 0
        ∷ 0x0A ∷ 4 ∷ 0x26 ∷ 0 ∷ 0 ∷ 0x10 ∷ 0x0E ∷ 4 ∷ 0x4D ∷ 0xD1 ∷ 0xD2 ∷ 0xD3 ∷ [])
        ∷ (0x18 ∷ 0x88 ∷ 0xC0 ∷ 0 ∷ 0 ∷ 0x0A ∷ 4 ∷ 8 ∷ 0 ∷ 0 ∷ 0x30 ∷ 0 ∷ 4 ∷ 0x4D ∷ 0xD1 ∷ 0xD2
        ∷ 0xD3 ∷ []) ∷ (0x18 ∷ 0x88 ∷ 0xC0 ∷ 0 ∷ 0 ∷ 0x0A ∷ 4 ∷ 0x18 ∷ 0 ∷ 0 ∷ 0x20 ∷ 0 ∷ 4 ∷ 0x4D
        ∷ 0xD1 ∷ 0xD2 ∷ 0xD3 ∷ []) ∷ [])
        ≡ Refused 4 ∷ Refused 5 ∷ Refused 7 ∷ [] }
    ensures load_file { map (verdict_at mm_protocol seen_three []) ((0x18 ∷ 0x88 ∷ 0xC0 ∷ 0 ∷ 0 ∷ 3
        ∷ 5 ∷ 0xA9 ∷ 0 ∷ 0 ∷ []) ∷ (0x18 ∷ 0x88 ∷ 0xC0 ∷ 0 ∷ 0 ∷ 3 ∷ 5 ∷ 0xAA ∷ 0 ∷ 3 ∷ [])
        ∷ (0x18 ∷ 0x88 ∷ 0xC0 ∷ 0 ∷ 0 ∷ 3 ∷ 5 ∷ 0xAA ∷ 1 ∷ 2 ∷ [])
        ∷ (0x18 ∷ 0x88 ∷ 0xC0 ∷ 0 ∷ 0 ∷ 3 ∷ 5 ∷ 0xAB ∷ 0 ∷ 2 ∷ []) ∷ [])
        ≡ Refused 11 ∷ Refused 11 ∷ Refused 11 ∷ Refused 7 ∷ [] }
    ensures fill_length { map (verdict_at mm_protocol seen_three []) ((0x18 ∷ 0x88 ∷ 0xC0 ∷ 0 ∷ 0
        ∷ 0x0A ∷ 8 ∷ 0xBD ∷ 0 ∷ 0 ∷ 0x10 ∷ 0 ∷ 0 ∷ 0 ∷ 0 ∷ 0 ∷ 0 ∷ [])
        ∷ (0x18 ∷ 0x88 ∷ 0xC0 ∷ 0 ∷ 0 ∷ 0x0A ∷ 8 ∷ 0xBD ∷ 0 ∷ 0 ∷ 0x10 ∷ 0 ∷ 0 ∷ 1 ∷ 0 ∷ 1 ∷ 0 ∷ [])
        ∷ (0x18 ∷ 0x88 ∷ 0xC0 ∷ 0 ∷ 0 ∷ 0x0A ∷ 8 ∷ 0xED ∷ 0 ∷ 0 ∷ 0x40 ∷ 0 ∷ 0 ∷ 0 ∷ 0 ∷ 0 ∷ 0 ∷ [])
        ∷ [])
        ≡ Refused 9 ∷ Refused 9 ∷ Refused 9 ∷ [] }
    ensures fill_access { map (verdict_at mm_protocol seen_three []) ((0x18 ∷ 0x88 ∷ 0xC0 ∷ 0 ∷ 0
        ∷ 0x0A ∷ 8 ∷ 0xAC ∷ 0 ∷ 0 ∷ 0x10 ∷ 1 ∷ 0 ∷ 0 ∷ 0 ∷ 0x10 ∷ 0 ∷ [])
        ∷ (0x18 ∷ 0x88 ∷ 0xC0 ∷ 0 ∷ 0 ∷ 0x0A ∷ 8 ∷ 0xBC ∷ 0 ∷ 0 ∷ 0x10 ∷ 0 ∷ 0 ∷ 1 ∷ 0 ∷ 0 ∷ 0 ∷ [])
        ∷ (0x18 ∷ 0x88 ∷ 0xC0 ∷ 0 ∷ 0 ∷ 0x0A ∷ 8 ∷ 0x9E ∷ 0 ∷ 0 ∷ 0x30 ∷ 1 ∷ 0 ∷ 0 ∷ 0 ∷ 2 ∷ 0 ∷ [])
        ∷ (0x18 ∷ 0x88 ∷ 0xC0 ∷ 0 ∷ 0 ∷ 0x0A ∷ 8 ∷ 0x9E ∷ 0 ∷ 0 ∷ 0x30 ∷ 0 ∷ 0 ∷ 0 ∷ 0 ∷ 3 ∷ 0 ∷ [])
        ∷ (0x18 ∷ 0x88 ∷ 0xC0 ∷ 0 ∷ 0 ∷ 0x0A ∷ 8 ∷ 0x9D ∷ 0 ∷ 0 ∷ 0x20 ∷ 0 ∷ 0 ∷ 0 ∷ 0 ∷ 0x10 ∷ 0
        ∷ []) ∷ [])
        ≡ Refused 4 ∷ Refused 4 ∷ Refused 5 ∷ Refused 5 ∷ Refused 7 ∷ [] }
    ensures dump_length { map (verdict_at mm_protocol seen_three []) ((0x18 ∷ 0x88 ∷ 0xC0 ∷ 0 ∷ 0
        ∷ 9 ∷ 0x0D ∷ 0xBB ∷ 0 ∷ 0 ∷ 0x10 ∷ 0 ∷ 0 ∷ 0 ∷ 0 ∷ 0 ∷ [])
        ∷ (0x18 ∷ 0x88 ∷ 0xC0 ∷ 0 ∷ 0 ∷ 9 ∷ 0x0D ∷ 0xB2 ∷ 0 ∷ 0 ∷ 0x10 ∷ 0 ∷ 0 ∷ 0 ∷ 8 ∷ 1 ∷ [])
        ∷ (0x18 ∷ 0x88 ∷ 0xC0 ∷ 0 ∷ 0 ∷ 9 ∷ 0x0D ∷ 0xEB ∷ 0 ∷ 0 ∷ 0x40 ∷ 0 ∷ 0 ∷ 0 ∷ 0 ∷ 0 ∷ [])
        ∷ [])
        ≡ Refused 9 ∷ Refused 9 ∷ Refused 9 ∷ [] }
    ensures dump_access { map (verdict_at mm_protocol seen_three []) ((0x18 ∷ 0x88 ∷ 0xC0 ∷ 0 ∷ 0
        ∷ 9 ∷ 0x0D ∷ 0xAA ∷ 0 ∷ 0 ∷ 0x10 ∷ 1 ∷ 0 ∷ 0 ∷ 0 ∷ 0x10 ∷ [])
        ∷ (0x18 ∷ 0x88 ∷ 0xC0 ∷ 0 ∷ 0 ∷ 9 ∷ 0x0D ∷ 0xB3 ∷ 0 ∷ 0 ∷ 0x10 ∷ 0 ∷ 0 ∷ 0 ∷ 8 ∷ 0 ∷ [])
        ∷ (0x18 ∷ 0x88 ∷ 0xC0 ∷ 0 ∷ 0 ∷ 9 ∷ 0x0D ∷ 0x98 ∷ 0 ∷ 0 ∷ 0x30 ∷ 1 ∷ 0 ∷ 0 ∷ 0 ∷ 2 ∷ [])
        ∷ (0x18 ∷ 0x88 ∷ 0xC0 ∷ 0 ∷ 0 ∷ 9 ∷ 0x0D ∷ 0x98 ∷ 0 ∷ 0 ∷ 0x30 ∷ 0 ∷ 0 ∷ 0 ∷ 0 ∷ 3 ∷ [])
        ∷ [])
        ≡ Refused 4 ∷ Refused 4 ∷ Refused 5 ∷ Refused 5 ∷ [] }
{}

/// The mask of open regions, bit by bit.
pub fn mask_rows()
    ensures first { open_regions (eight_regions (false ∷ true ∷ true ∷ true ∷ true ∷ true ∷ true
        ∷ true ∷ [])) ≡ 0x01 }
    ensures second { open_regions (eight_regions (true ∷ false ∷ true ∷ true ∷ true ∷ true ∷ true
        ∷ true ∷ [])) ≡ 0x02 }
    ensures third { open_regions (eight_regions (true ∷ true ∷ false ∷ true ∷ true ∷ true ∷ true
        ∷ true ∷ [])) ≡ 0x04 }
    ensures fourth { open_regions (eight_regions (true ∷ true ∷ true ∷ false ∷ true ∷ true ∷ true
        ∷ true ∷ [])) ≡ 0x08 }
    ensures fifth { open_regions (eight_regions (true ∷ true ∷ true ∷ true ∷ false ∷ true ∷ true
        ∷ true ∷ [])) ≡ 0x10 }
    ensures sixth { open_regions (eight_regions (true ∷ true ∷ true ∷ true ∷ true ∷ false ∷ true
        ∷ true ∷ [])) ≡ 0x20 }
    ensures seventh { open_regions (eight_regions (true ∷ true ∷ true ∷ true ∷ true ∷ true ∷ false
        ∷ true ∷ [])) ≡ 0x40 }
    ensures eighth { open_regions (eight_regions (true ∷ true ∷ true ∷ true ∷ true ∷ true ∷ true
        ∷ false ∷ [])) ≡ 0x80 }
    ensures no_eeprom { open_regions three_areas ≡ 0 }
{}

/// Each packet, its fields all different.
pub fn packet_rows()
    ensures housekeeping { housekeeping_of 0x01020304 (record { accepted = 0x11; errors = 0x22 })
        (eight_regions (false ∷ true ∷ false ∷ false ∷ true ∷ true ∷ true ∷ false ∷ [])) ≡ 8 ∷ 0x87
        ∷ 0xC0 ∷ 0 ∷ 0 ∷ 9 ∷ 1 ∷ 2 ∷ 3 ∷ 4 ∷ 0 ∷ 0 ∷ 0x11 ∷ 0x22 ∷ 0x8D ∷ 0 ∷ [] }
    ensures peek { peek_packet 0x01020304 32 0x05060708 0x090A0B0C ≡ 8 ∷ 0x8A ∷ 0xC0 ∷ 0 ∷ 0 ∷ 0x0E
        ∷ 1 ∷ 2 ∷ 3 ∷ 4 ∷ 0 ∷ 0 ∷ 0x20 ∷ 5 ∷ 6 ∷ 7 ∷ 8 ∷ 9 ∷ 0x0A ∷ 0x0B ∷ 0x0C ∷ [] }
    ensures dump { dump_packet 0x01020304 0x05060708 (0x21 ∷ 0x22 ∷ 0x23 ∷ []) ≡ 8 ∷ 0x8B ∷ 0xC0 ∷ 0
        ∷ 0 ∷ 0x0E ∷ 1 ∷ 2 ∷ 3 ∷ 4 ∷ 0 ∷ 0 ∷ 5 ∷ 6 ∷ 7 ∷ 8 ∷ 0 ∷ 3 ∷ 0x21 ∷ 0x22 ∷ 0x23 ∷ [] }
    ensures dump_parts { dump_items 0x01020304 0x05060708 (replicate 129 0x21)
        ≡ outs.Made (dump_packet 0x01020304 0x05060708 (replicate 128 0x21))
        ∷ outs.Made (dump_packet 0x01020304 0x05060788 (0x21 ∷ [])) ∷ [] }
    ensures dump_counts { map (λ n. length (dump_items 0 0 (replicate n 0))) (1 ∷ 128 ∷ 129 ∷ 256
        ∷ 2047 ∷ 2048 ∷ []) ≡ 1 ∷ 1 ∷ 2 ∷ 2 ∷ 16 ∷ 16 ∷ [] }
{}

/// A wakeup with a poke of four bytes of which one is written, a peek that reads the image of its beginning, a peek that is refused, an
/// EEPROM enable, and a request.
pub fn wakeup_rows()
    ensures items { mm_items [] (record {
      time = 1001;
      commands = (0x18 ∷ 0x88 ∷ 0xC0 ∷ 0 ∷ 0 ∷ 0x0A
          ∷ 3 ∷ 0xB0 ∷ 8 ∷ 0 ∷ 0 ∷ 0x10 ∷ 1 ∷ 0x12 ∷ 0x34 ∷ 0x56 ∷ 0x7F ∷ [])
          ∷ (0x18 ∷ 0x88 ∷ 0xC0 ∷ 0 ∷ 0 ∷ 6 ∷ 2 ∷ 0xAB ∷ 0x10 ∷ 0 ∷ 0 ∷ 0x10 ∷ 0 ∷ [])
          ∷ (0x18 ∷ 0x88 ∷ 0xC0 ∷ 0 ∷ 0 ∷ 6 ∷ 2 ∷ 0xA3 ∷ 0x18 ∷ 0 ∷ 0 ∷ 0x10 ∷ 0 ∷ [])
          ∷ (0x18 ∷ 0x88 ∷ 0xC0 ∷ 0 ∷ 0 ∷ 2 ∷ 0x0B ∷ 0xA4 ∷ 2 ∷ [])
          ∷ (0x18 ∷ 0x89 ∷ 0xC0 ∷ 0 ∷ 0 ∷ 1 ∷ 0 ∷ 0xAF ∷ []) ∷ [];
      seen = seen_three;
    })
        ≡ outs.Made (8 ∷ 8 ∷ 0xC0 ∷ 0 ∷ 0 ∷ 0x25 ∷ 0 ∷ 0 ∷ 3 ∷ 0xE9 ∷ 0 ∷ 0 ∷ 0x4D ∷ 0x4D ∷ 0 ∷ 0
        ∷ 0 ∷ 0 ∷ 0 ∷ 0 ∷ 0 ∷ 0 ∷ 0 ∷ 0 ∷ 0 ∷ 0 ∷ 0 ∷ 0 ∷ 0 ∷ 0 ∷ 0 ∷ 0 ∷ 0 ∷ 0x13 ∷ 0 ∷ 2 ∷ 0 ∷ 0
        ∷ 0 ∷ 0x42 ∷ 0 ∷ 0 ∷ 0 ∷ 1 ∷ []) ∷ outs.Made (8 ∷ 0x8A ∷ 0xC0 ∷ 0 ∷ 0 ∷ 0x0E ∷ 0 ∷ 0 ∷ 3
        ∷ 0xE9 ∷ 0 ∷ 0 ∷ 0x10 ∷ 0 ∷ 0 ∷ 0x10 ∷ 0 ∷ 0 ∷ 0 ∷ 0xA1 ∷ 0xB2 ∷ [])
        ∷ outs.Made (8 ∷ 8 ∷ 0xC0 ∷ 0 ∷ 0 ∷ 0x25 ∷ 0 ∷ 0 ∷ 3 ∷ 0xE9 ∷ 0 ∷ 0 ∷ 0x4D ∷ 0x4D ∷ 0 ∷ 0
        ∷ 0 ∷ 0 ∷ 0 ∷ 0 ∷ 0 ∷ 0 ∷ 0 ∷ 0 ∷ 0 ∷ 0 ∷ 0 ∷ 0 ∷ 0 ∷ 0 ∷ 0 ∷ 0 ∷ 0 ∷ 0x12 ∷ 0 ∷ 2 ∷ 0 ∷ 0
        ∷ 0 ∷ 0x42 ∷ 0 ∷ 0 ∷ 0 ∷ 1 ∷ []) ∷ outs.Made (8 ∷ 8 ∷ 0xC0 ∷ 0 ∷ 0 ∷ 0x25 ∷ 0 ∷ 0 ∷ 3 ∷ 0xE9
        ∷ 0 ∷ 0 ∷ 0x4D ∷ 0x4D ∷ 0 ∷ 0 ∷ 0 ∷ 0 ∷ 0 ∷ 0 ∷ 0 ∷ 0 ∷ 0 ∷ 0 ∷ 0 ∷ 0 ∷ 0 ∷ 0 ∷ 0 ∷ 0 ∷ 0
        ∷ 0 ∷ 0 ∷ 8 ∷ 0 ∷ 3 ∷ 0 ∷ 0 ∷ 0 ∷ 0x42 ∷ 0 ∷ 0 ∷ 0 ∷ 1 ∷ [])
        ∷ outs.Made (8 ∷ 8 ∷ 0xC0 ∷ 0 ∷ 0 ∷ 0x25 ∷ 0 ∷ 0 ∷ 3 ∷ 0xE9 ∷ 0 ∷ 0 ∷ 0x4D ∷ 0x4D ∷ 0 ∷ 0
        ∷ 0 ∷ 0 ∷ 0 ∷ 0 ∷ 0 ∷ 0 ∷ 0 ∷ 0 ∷ 0 ∷ 0 ∷ 0 ∷ 0 ∷ 0 ∷ 0 ∷ 0 ∷ 0 ∷ 0 ∷ 0x1B ∷ 0 ∷ 2 ∷ 0 ∷ 0
        ∷ 0 ∷ 0x42 ∷ 0 ∷ 0 ∷ 0 ∷ 1 ∷ []) ∷ outs.Made (8 ∷ 0x87 ∷ 0xC0 ∷ 0 ∷ 0 ∷ 9 ∷ 0 ∷ 0 ∷ 3 ∷ 0xE9
        ∷ 0 ∷ 0 ∷ 3 ∷ 1 ∷ 0 ∷ 0 ∷ []) ∷ [] }
    ensures operations { mm_operations (record {
      time = 1001;
      commands = (0x18 ∷ 0x88 ∷ 0xC0 ∷ 0 ∷ 0
          ∷ 0x0A ∷ 3 ∷ 0xB0 ∷ 8 ∷ 0 ∷ 0 ∷ 0x10 ∷ 1 ∷ 0x12 ∷ 0x34 ∷ 0x56 ∷ 0x7F ∷ [])
          ∷ (0x18 ∷ 0x88 ∷ 0xC0 ∷ 0 ∷ 0 ∷ 6 ∷ 2 ∷ 0xAB ∷ 0x10 ∷ 0 ∷ 0 ∷ 0x10 ∷ 0 ∷ [])
          ∷ (0x18 ∷ 0x88 ∷ 0xC0 ∷ 0 ∷ 0 ∷ 6 ∷ 2 ∷ 0xA3 ∷ 0x18 ∷ 0 ∷ 0 ∷ 0x10 ∷ 0 ∷ [])
          ∷ (0x18 ∷ 0x88 ∷ 0xC0 ∷ 0 ∷ 0 ∷ 2 ∷ 0x0B ∷ 0xA4 ∷ 2 ∷ [])
          ∷ (0x18 ∷ 0x89 ∷ 0xC0 ∷ 0 ∷ 0 ∷ 1 ∷ 0 ∷ 0xAF ∷ []) ∷ [];
      seen = seen_three;
    })
        ≡ ops.Poke 8 0x1001 0x7F ∷ ops.Protect 2 false ∷ [] }
{}

/// A wakeup with a load, a load of a file and a fill, and with a dump that reads the image of its beginning.
pub fn load_rows()
    ensures items { mm_items [] (record {
      time = 1001;
      commands = (0x18 ∷ 0x88 ∷ 0xC0 ∷ 0 ∷ 0 ∷ 0x0A
          ∷ 4 ∷ 0x2C ∷ 0 ∷ 0 ∷ 0x10 ∷ 4 ∷ 4 ∷ 0x4D ∷ 0xD1 ∷ 0xD2 ∷ 0xD3 ∷ [])
          ∷ (0x18 ∷ 0x88 ∷ 0xC0 ∷ 0 ∷ 0 ∷ 3 ∷ 5 ∷ 0xA8 ∷ 0 ∷ 1 ∷ [])
          ∷ (0x18 ∷ 0x88 ∷ 0xC0 ∷ 0 ∷ 0 ∷ 0x0A ∷ 8 ∷ 0x57 ∷ 0 ∷ 0 ∷ 0x10 ∷ 0 ∷ 0 ∷ 0 ∷ 0 ∷ 4 ∷ 0xEE
          ∷ []) ∷ (0x18 ∷ 0x88 ∷ 0xC0 ∷ 0 ∷ 0 ∷ 9 ∷ 0x0D ∷ 0xBF ∷ 0 ∷ 0 ∷ 0x10 ∷ 0 ∷ 0 ∷ 0 ∷ 0 ∷ 4
          ∷ []) ∷ [];
      seen = seen_three;
    }) ≡ outs.Made (8 ∷ 8 ∷ 0xC0 ∷ 0 ∷ 0 ∷ 0x25 ∷ 0 ∷ 0 ∷ 3 ∷ 0xE9
        ∷ 0 ∷ 0 ∷ 0x4D ∷ 0x4D ∷ 0 ∷ 0 ∷ 0 ∷ 0 ∷ 0 ∷ 0 ∷ 0 ∷ 0 ∷ 0 ∷ 0 ∷ 0 ∷ 0 ∷ 0 ∷ 0 ∷ 0 ∷ 0 ∷ 0
        ∷ 0 ∷ 0 ∷ 0x14 ∷ 0 ∷ 2 ∷ 0 ∷ 0 ∷ 0 ∷ 0x42 ∷ 0 ∷ 0 ∷ 0 ∷ 1 ∷ [])
        ∷ outs.Made (8 ∷ 8 ∷ 0xC0 ∷ 0 ∷ 0 ∷ 0x25 ∷ 0 ∷ 0 ∷ 3 ∷ 0xE9 ∷ 0 ∷ 0 ∷ 0x4D ∷ 0x4D ∷ 0 ∷ 0
        ∷ 0 ∷ 0 ∷ 0 ∷ 0 ∷ 0 ∷ 0 ∷ 0 ∷ 0 ∷ 0 ∷ 0 ∷ 0 ∷ 0 ∷ 0 ∷ 0 ∷ 0 ∷ 0 ∷ 0 ∷ 0x15 ∷ 0 ∷ 2 ∷ 0 ∷ 0
        ∷ 0 ∷ 0x42 ∷ 0 ∷ 0 ∷ 0 ∷ 1 ∷ []) ∷ outs.Made (8 ∷ 8 ∷ 0xC0 ∷ 0 ∷ 0 ∷ 0x25 ∷ 0 ∷ 0 ∷ 3 ∷ 0xE9
        ∷ 0 ∷ 0 ∷ 0x4D ∷ 0x4D ∷ 0 ∷ 0 ∷ 0 ∷ 0 ∷ 0 ∷ 0 ∷ 0 ∷ 0 ∷ 0 ∷ 0 ∷ 0 ∷ 0 ∷ 0 ∷ 0 ∷ 0 ∷ 0 ∷ 0
        ∷ 0 ∷ 0 ∷ 0x18 ∷ 0 ∷ 2 ∷ 0 ∷ 0 ∷ 0 ∷ 0x42 ∷ 0 ∷ 0 ∷ 0 ∷ 1 ∷ [])
        ∷ outs.Made (8 ∷ 0x8B ∷ 0xC0 ∷ 0 ∷ 0 ∷ 0x0F ∷ 0 ∷ 0 ∷ 3 ∷ 0xE9 ∷ 0 ∷ 0 ∷ 0 ∷ 0 ∷ 0x10 ∷ 0
        ∷ 0 ∷ 4 ∷ 0xA1 ∷ 0xB2 ∷ 0xC3 ∷ 0xD4 ∷ [])
        ∷ outs.Made (8 ∷ 8 ∷ 0xC0 ∷ 0 ∷ 0 ∷ 0x25 ∷ 0 ∷ 0 ∷ 3 ∷ 0xE9 ∷ 0 ∷ 0 ∷ 0x4D ∷ 0x4D ∷ 0 ∷ 0
        ∷ 0 ∷ 0 ∷ 0 ∷ 0 ∷ 0 ∷ 0 ∷ 0 ∷ 0 ∷ 0 ∷ 0 ∷ 0 ∷ 0 ∷ 0 ∷ 0 ∷ 0 ∷ 0 ∷ 0 ∷ 0x1D ∷ 0 ∷ 2 ∷ 0 ∷ 0
        ∷ 0 ∷ 0x42 ∷ 0 ∷ 0 ∷ 0 ∷ 1 ∷ []) ∷ [] }
    ensures operations { mm_operations (record {
      time = 1001;
      commands = (0x18 ∷ 0x88 ∷ 0xC0 ∷ 0 ∷ 0
          ∷ 0x0A ∷ 4 ∷ 0x2C ∷ 0 ∷ 0 ∷ 0x10 ∷ 4 ∷ 4 ∷ 0x4D ∷ 0xD1 ∷ 0xD2 ∷ 0xD3 ∷ [])
          ∷ (0x18 ∷ 0x88 ∷ 0xC0 ∷ 0 ∷ 0 ∷ 3 ∷ 5 ∷ 0xA8 ∷ 0 ∷ 1 ∷ [])
          ∷ (0x18 ∷ 0x88 ∷ 0xC0 ∷ 0 ∷ 0 ∷ 0x0A ∷ 8 ∷ 0x57 ∷ 0 ∷ 0 ∷ 0x10 ∷ 0 ∷ 0 ∷ 0 ∷ 0 ∷ 4 ∷ 0xEE
          ∷ []) ∷ (0x18 ∷ 0x88 ∷ 0xC0 ∷ 0 ∷ 0 ∷ 9 ∷ 0x0D ∷ 0xBF ∷ 0 ∷ 0 ∷ 0x10 ∷ 0 ∷ 0 ∷ 0 ∷ 0 ∷ 4
          ∷ []) ∷ [];
      seen = seen_three;
    }) ≡ ops.Bytes 0x1004 (0xD1 ∷ 0xD2 ∷ 0xD3 ∷ [])
        ∷ ops.FromFile 1 0x1008 2 ∷ ops.Fill 0x1000 4 0xEE ∷ [] }
{}

/// Each code with the shortest and the longest payload of its commands; and loads of 1 and of 200 bytes, of none and of 201.
pub fn length_rows()
    ensures codes { numbers_of_rows mm_codes
        ≡ (0 ∷ 0 ∷ 0 ∷ []) ∷ (1 ∷ 0 ∷ 0 ∷ []) ∷ (2 ∷ 5 ∷ 5 ∷ []) ∷ (3 ∷ 9 ∷ 9 ∷ [])
        ∷ (4 ∷ 7 ∷ 206 ∷ []) ∷ (5 ∷ 2 ∷ 2 ∷ [])
        ∷ (8 ∷ 9 ∷ 9 ∷ []) ∷ (11 ∷ 1 ∷ 1 ∷ []) ∷ (12 ∷ 1 ∷ 1 ∷ []) ∷ (13 ∷ 8 ∷ 8 ∷ []) ∷ [] }
    ensures one { verdict_at mm_protocol seen_wide [] (load_with 8 0xBC 0x7B 0xC0 1)
        ≡ Accepted 4 (Load 0xFEDCBA99 0x7BC0 (0xA5 ∷ [])) }
    ensures most { verdict_at mm_protocol seen_wide [] (load_with 0xCF 0x50 0x8F 0xBA 200)
        ≡ Accepted 4 (Load 0xFEDCBA99 0x8FBA (replicate 200 0xA5)) }
    ensures past { map (verdict_at mm_protocol seen_wide []) ((load_with 7 0xAD 0 0 0)
        ∷ (load_with 0xD0 0xD9 0xC8 0xCE 201) ∷ []) ≡ Refused 3 ∷ Refused 3 ∷ [] }
{}

/// Addresses over 0xFFFF, and the lengths of fills and dumps: the most, one more, and lengths that differ in their high bytes alone.
pub fn address_rows()
    ensures fills { map (verdict_at mm_protocol seen_wide []) (fill_with 8 (0xFE ∷ 0xDC ∷ 0xBA
        ∷ 0x99 ∷ 0 ∷ 1 ∷ 0 ∷ 0 ∷ [])
        ∷ fill_with 0x6F (0xFE ∷ 0xDC ∷ 0xBA ∷ 0x99 ∷ 0 ∷ 0 ∷ 0xAB ∷ 0xCD ∷ [])
        ∷ fill_with 9 (0xFE ∷ 0xDC ∷ 0xBA ∷ 0x99 ∷ 0 ∷ 1 ∷ 0 ∷ 1 ∷ [])
        ∷ fill_with 9 (0xFE ∷ 0xDC ∷ 0xBA ∷ 0x99 ∷ 1 ∷ 0 ∷ 0 ∷ 1 ∷ []) ∷ [])
        ≡ Accepted 8 (Fill 0xFEDCBA99 0x10000 0xA5) ∷ Accepted 8 (Fill 0xFEDCBA99 0xABCD 0xA5)
        ∷ Refused 9 ∷ Refused 9 ∷ [] }
    ensures dumps { map (verdict_at mm_protocol seen_wide []) (dump_with 0xA2 (0xFE ∷ 0xDC ∷ 0xBA
        ∷ 0x99 ∷ 0 ∷ 0 ∷ 8 ∷ 0 ∷ [])
        ∷ dump_with 0xA9 (0xFE ∷ 0xDC ∷ 0xBA ∷ 0x99 ∷ 0 ∷ 0 ∷ 1 ∷ 2 ∷ [])
        ∷ dump_with 0xAA (0xFE ∷ 0xDC ∷ 0xBA ∷ 0x99 ∷ 0 ∷ 1 ∷ 0 ∷ 1 ∷ [])
        ∷ dump_with 0xAA (0xFE ∷ 0xDC ∷ 0xBA ∷ 0x99 ∷ 1 ∷ 0 ∷ 0 ∷ 1 ∷ []) ∷ [])
        ≡ Accepted 13 (Dump 0xFEDCBA99 0x0800) ∷ Accepted 13 (Dump 0xFEDCBA99 0x0102) ∷ Refused 9
        ∷ Refused 9 ∷ [] }
    ensures peeks { map (verdict_at mm_protocol seen_wide []) (peek_with 0x81 (0xFE ∷ 0xDC ∷ 0 ∷ 0
        ∷ [])
        ∷ peek_with 0x80 (0xFE ∷ 0xDD ∷ 0xFF ∷ 0xFF ∷ [])
        ∷ peek_with 0x86 (0xFE ∷ 0xDB ∷ 0xFF ∷ 0xFF ∷ [])
        ∷ peek_with 0x83 (0xFE ∷ 0xDE ∷ 0 ∷ 0 ∷ [])
        ∷ peek_with 0x81 (0 ∷ 0 ∷ 0xBA ∷ 0x98 ∷ []) ∷ [])
        ≡ Accepted 2 (Peek 8 0xFEDC0000) ∷ Accepted 2 (Peek 8 0xFEDDFFFF) ∷ Refused 4 ∷ Refused 4
        ∷ Refused 4 ∷ [] }
    ensures high { map (verdict_at mm_protocol seen_three []) (peek_with 0xB2 (0 ∷ 1 ∷ 0x10 ∷ 0
        ∷ [])
        ∷ peek_with 0xB2 (1 ∷ 0 ∷ 0x10 ∷ 0 ∷ [])
        ∷ peek_with 0xB3 (0 ∷ 0 ∷ 0x10 ∷ 0 ∷ []) ∷ [])
        ≡ Refused 4 ∷ Refused 4 ∷ Accepted 2 (Peek 8 0x1000) ∷ [] }
    ensures operations { mm_operations (record
        { time = 0x01020304; commands = wide_commands; seen = seen_wide })
        ≡ ops.Poke 16 0xFEDCBA98 0xCDEF ∷ ops.Bytes 0xFEDCBA99 (0xD1 ∷ 0xD2 ∷ 0xD3 ∷ [])
        ∷ ops.Fill 0xFEDCBA99 0x0102 0xA5 ∷ [] }
    ensures items { mm_items [] (record {
      time = 0x01020304;
      commands = wide_commands;
      seen
          = seen_wide;
    })
        ≡ outs.Made (late_event 19) ∷ outs.Made (late_event 20) ∷ outs.Made (late_event 24) ∷ [] }
{}

/// EEPROM enable and disable of no region, of the first and the last of eight, and of numbers behind it.
pub fn region_rows()
    ensures enable { map (verdict_at mm_protocol seen_eight []) (region_with 0x0B 0xA6 0
        ∷ region_with 0x0B 0xA7 1
        ∷ region_with 0x0B 0xAE 8
        ∷ region_with 0x0B 0xAF 9
        ∷ region_with 0x0B 0x27 0x81 ∷ [])
        ≡ Refused 12 ∷ Accepted 11 (Protect 1 false) ∷ Accepted 11 (Protect 8 false) ∷ Refused 12
        ∷ Refused 12 ∷ [] }
    ensures disable { map (verdict_at mm_protocol seen_eight []) (region_with 0x0C 0xA1 0
        ∷ region_with 0x0C 0xA0 1
        ∷ region_with 0x0C 0xA9 8
        ∷ region_with 0x0C 0xA8 9
        ∷ region_with 0x0C 0x20 0x81 ∷ [])
        ≡ Refused 12 ∷ Accepted 12 (Protect 1 true) ∷ Accepted 12 (Protect 8 true) ∷ Refused 12
        ∷ Refused 12 ∷ [] }
{}
