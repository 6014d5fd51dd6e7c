//! What the definitions give in small cases, and the sentences that users rely on. The functions do nothing: their contracts are the
//! laws. The rows' bytes are written by hand.
ghost use Rattle.std.specs.Prelude.{◌≡◌, ◌<◌, ◌≤◌, ℕ, List, [], ◌∷◌, ◌++◌, length, drop, map, replicate, filter_map, slice_set, Some, None, true, false};
ghost use Rattle.std.specs.List.{All};
ghost use Rattle.bus_pipes.specs.declared.names.Out.TheVariants.{Made, Stored};
ghost use Rattle.histories.specs.Entries.Entry.{Woken, Activated};
ghost use Rattle.commands.specs.Rows.{numbers_of_rows};
ghost use Rattle.commands.specs.Verdicts.{verdict_at};
ghost use Rattle.commands.specs.declared.verdicts.Verdict.TheVariants.{Other, Request, Refused, Accepted};
ghost use Rattle.sc_sequences.specs.declared.instructions.Instruction.TheVariants.{Plain, StartAts, StopAts, StartRts, StopRts, DisableRts, EnableRts, SwitchAts, JumpAts};
ghost use Rattle.sc_sequences.specs.Messages.{sc_codes};
ghost use Rattle.sc_sequences.specs.Verdicts.{sc_protocol};
ghost use Rattle.sc_sequences.specs.Histories.{Input, ScEntry, Beginning, Activation, activation_at, input_of, begun_at, sequences_of, tables_after};
ghost use Rattle.sc_sequences.specs.Sequences.{Sequence, is_running, at_place, head_time};
ghost use Rattle.sc_sequences.specs.Orders.{after_orders};
ghost use Rattle.sc_sequences.specs.Turns.{Sequences, next_place, turns};
ghost use Rattle.sc_sequences.specs.Laws.{departures, right_packet, stored_in, LeavesNoneBefore, AreTimed, AreTablesTimed, AreEntriesTimed, ComesFirst};
ghost use Rattle.sc_sequences.specs.State.{Stands, IsReady, sequence_place, runs_in, activation_of};
ghost use Rattle.table_files.specs.declared.kinds.TableKind.{TableKind};
ghost use Rattle.table_files.specs.declared.kinds.TableKind.TheVariants.{Ats, Rts, Dwell};
ghost use Rattle.sc_tables.specs.Commands.{TimedCommand, commands_in};
ghost use Rattle.sc_sequences.specs.declared.state.Sc.{Sc};
ghost use Rattle.sc_sequences.specs.declared.instructions.Instruction.{Instruction};
ghost use Rattle.sc_sequences.specs.Housekeeping.{running_mask, enabled_mask, report_of, housekeeping_of};
ghost use Rattle.sc_sequences.specs.Rows.{mm_noop, md_noop, cs_noop, bad_noop, bare, numbered, jump_to, request, told, timed, peek, no_tables, with_ats, with_rts, begun, at_second, all_running, waiting_one, at_any, one_in_first, start_heard, sent_behind, sent_each_second, numbered_wide, told_late, shown};

/// At one time an absolute sequence goes before relative ones, and these by their numbers, in whatever order they were started.
pub fn ats_leaves_before_rts()
    ensures { sent_each_second (with_ats 0 (timed 1002 mm_noop
        ∷ []) (with_rts 2 (timed 1 md_noop ∷ []) (with_rts 3 (timed 1 cs_noop ∷ []) no_tables)))
        ([] ∷ (numbered 2 0x8E 1 ∷ numbered 7 0x88 2 ∷ numbered 7 0x89 3 ∷ numbered 4 0x8A 3
        ∷ numbered 4 0x8B 2 ∷ []) ∷ [] ∷ [] ∷ [])
        ≡ [] ∷ (told 18 2 1 ∷ told 23 2 1 ∷ told 23 2 1 ∷ told 20 2 1 ∷ told 20 2 1 ∷ [])
        ∷ (Stored mm_noop ∷ told 103 2 2 ∷ Stored md_noop ∷ told 104 2 2 ∷ Stored cs_noop
        ∷ told 104 2 2 ∷ []) ∷ [] ∷ [] }
{}

/// Of ten commands at one time eight leave in the first wakeup, and two in the next.
pub fn eight_turns_a_frame()
    ensures { sent_each_second (with_ats 0 (timed 1002 (peek 0xB2 1) ∷ timed 1002 (peek 0xB1 2)
        ∷ timed 1002 (peek 0xB0 3) ∷ timed 1002 (peek 0xB7 4) ∷ timed 1002 (peek 0xB6 5)
        ∷ timed 1002 (peek 0xB5 6) ∷ timed 1002 (peek 0xB4 7) ∷ timed 1002 (peek 0xBB 8)
        ∷ timed 1002 (peek 0xBA 9) ∷ timed 1002 (peek 0xB9 10) ∷ []) no_tables)
        ([] ∷ (numbered 2 0x8E 1 ∷ []) ∷ [] ∷ [] ∷ [] ∷ [])
        ≡ [] ∷ (told 18 2 1 ∷ [])
        ∷ (Stored (peek 0xB2 1) ∷ Stored (peek 0xB1 2) ∷ Stored (peek 0xB0 3) ∷ Stored (peek 0xB7 4)
        ∷ Stored (peek 0xB6 5) ∷ Stored (peek 0xB5 6) ∷ Stored (peek 0xB4 7)
        ∷ Stored (peek 0xBB 8) ∷ [])
        ∷ (Stored (peek 0xBA 9) ∷ Stored (peek 0xB9 10) ∷ told 103 2 3 ∷ []) ∷ [] ∷ [] }
{}

/// A start skips the commands before its time, those of its own second not. It is refused where none remains.
pub fn late_start_skips()
    ensures skips { sent_each_second (with_ats 0 (timed 1000 mm_noop ∷ timed 1001 md_noop
        ∷ timed 1003 cs_noop ∷ timed 1004 mm_noop ∷ []) no_tables)
        ([] ∷ [] ∷ (numbered 2 0x8E 1 ∷ []) ∷ [] ∷ [] ∷ (numbered 2 0x8E 1 ∷ []) ∷ [])
        ≡ [] ∷ [] ∷ (told 18 2 2 ∷ []) ∷ (Stored cs_noop ∷ [])
        ∷ (Stored mm_noop ∷ told 103 2 4 ∷ []) ∷ (told 7 3 5 ∷ []) ∷ [] }
    ensures same_second { sent_each_second (with_ats 1 (timed 1000 mm_noop ∷ timed 1001 md_noop
        ∷ []) no_tables) ([] ∷ (numbered 2 0x8D 2 ∷ []) ∷ [])
        ≡ [] ∷ (told 18 2 1 ∷ Stored md_noop ∷ told 103 2 1 ∷ []) ∷ [] }
{}

/// The first relative sequence begins with the run. A wrong checksum stops it, and no end is told.
pub fn bad_first_command_stops_rts()
    ensures { sent_each_second (with_rts 1 (timed 0 bad_noop ∷ timed 1 mm_noop ∷ []) no_tables) ([]
        ∷ [] ∷ [] ∷ []) ≡ (told 102 3 0 ∷ []) ∷ [] ∷ [] ∷ [] }
{}

/// Tags of a relative sequence count from when the command before left, not from when it was due: here it waits behind eight others.
pub fn tags_count_from_leaving()
    ensures { sent_each_second (with_ats 0 (replicate 8 (timed 1002 mm_noop))
        (with_rts 2 (timed 1 md_noop ∷ timed 2 cs_noop ∷ []) no_tables))
        ([] ∷ (numbered 2 0x8E 1 ∷ numbered 7 0x88 2 ∷ numbered 4 0x8B 2 ∷ []) ∷ [] ∷ [] ∷ [] ∷ []
        ∷ [])
        ≡ [] ∷ (told 18 2 1 ∷ told 23 2 1 ∷ told 20 2 1 ∷ [])
        ∷ (replicate 8 (Stored mm_noop) ++ told 103 2 2 ∷ []) ∷ (Stored md_noop ∷ []) ∷ []
        ∷ (Stored cs_noop ∷ told 104 2 5 ∷ []) ∷ [] }
{}

/// A wrong checksum in an absolute sequence: at its head, in the middle and at its end it goes on. In a relative one it stops it.
pub fn wrong_checksums()
    ensures absolute { sent_each_second (with_ats 0 (timed 1000 bad_noop ∷ timed 1000 mm_noop
        ∷ timed 1001 bad_noop ∷ timed 1001 mm_noop ∷ timed 1002 bad_noop ∷ []) no_tables)
        ((numbered 2 0x8E 1 ∷ []) ∷ [] ∷ [] ∷ [] ∷ [])
        ≡ (told 18 2 0 ∷ told 101 3 0 ∷ Stored mm_noop ∷ []) ∷ (told 101 3 1 ∷ Stored mm_noop ∷ [])
        ∷ (told 101 3 2 ∷ told 103 2 2 ∷ []) ∷ [] ∷ [] }
    ensures relative { sent_each_second (with_rts 1 (timed 0 mm_noop ∷ timed 0 bad_noop
        ∷ timed 0 mm_noop ∷ []) no_tables) ([] ∷ [] ∷ []) ≡ (Stored mm_noop ∷ told 102 3 0 ∷ [])
        ∷ [] ∷ [] }
    ensures last { sent_each_second (with_rts 1 (timed 0 mm_noop ∷ timed 0 bad_noop
        ∷ []) no_tables) ([] ∷ [] ∷ []) ≡ (Stored mm_noop ∷ told 102 3 0 ∷ []) ∷ [] ∷ [] }
{}

/// A jump to a time before all tags skips none, one to a tag keeps that command, and one behind all is refused. What left doesn't come back.
pub fn jumps_go_forward()
    ensures { sent_each_second (with_ats 0 (timed 1001 mm_noop ∷ timed 1003 md_noop
        ∷ timed 1003 cs_noop ∷ timed 1005 md_noop ∷ timed 1006 mm_noop ∷ []) no_tables)
        ((numbered 2 0x8E 1 ∷ []) ∷ [] ∷ (jump_to 0x66 0xE7 ∷ []) ∷ (jump_to 0x6A 0xEB ∷ [])
        ∷ (jump_to 0x68 0xE9 ∷ jump_to 0x6D 0xEC ∷ jump_to 0x6F 0xEE ∷ [])
        ∷ (jump_to 0x6E 0xEF ∷ []) ∷ [] ∷ [])
        ≡ (told 18 2 0 ∷ []) ∷ (Stored mm_noop ∷ []) ∷ (told 25 2 2 ∷ [])
        ∷ (told 25 2 3 ∷ Stored md_noop ∷ Stored cs_noop ∷ [])
        ∷ (told 25 2 4 ∷ told 25 2 4 ∷ told 25 2 4 ∷ []) ∷ (told 7 3 5 ∷ [])
        ∷ (Stored mm_noop ∷ told 103 2 6 ∷ []) ∷ [] }
{}

/// A switch while commands of both absolute sequences are due: those of the one that stops don't leave, and it starts anew without what is past.
pub fn switch_leaves_the_old_list()
    ensures { sent_each_second (with_ats 0 (timed 1001 mm_noop ∷ timed 1002 md_noop
        ∷ timed 1003 mm_noop ∷ []) (with_ats 1 (timed 1000 cs_noop ∷ timed 1001 cs_noop
        ∷ timed 1004 cs_noop ∷ []) no_tables))
        ((numbered 2 0x8E 1 ∷ []) ∷ (bare 8 0x87 ∷ []) ∷ [] ∷ (bare 8 0x87 ∷ [])
        ∷ (bare 8 0x87 ∷ []) ∷ [])
        ≡ (told 18 2 0 ∷ []) ∷ (told 24 2 1 ∷ Stored cs_noop ∷ []) ∷ []
        ∷ (told 24 2 3 ∷ Stored mm_noop ∷ told 103 2 3 ∷ []) ∷ (told 8 3 4 ∷ []) ∷ [] }
{}

/// A relative sequence that stops itself, one that starts itself again, and one that disables itself: each by its own command, which it
/// hears a second later.
pub fn sequences_that_command_themselves()
    ensures stops { sent_each_second (with_rts 1 (timed 0 (numbered 5 0x89 1) ∷ timed 3 mm_noop
        ∷ []) no_tables) ([] ∷ (numbered 5 0x89 1 ∷ []) ∷ [] ∷ [] ∷ [])
        ≡ (Stored (numbered 5 0x89 1) ∷ []) ∷ (told 21 2 1 ∷ []) ∷ [] ∷ [] ∷ [] }
    ensures starts { sent_each_second (with_rts 1 (timed 0 (numbered 4 0x88 1) ∷ []) no_tables) ([]
        ∷ (numbered 4 0x88 1 ∷ []) ∷ (numbered 4 0x88 1 ∷ []) ∷ [])
        ≡ (Stored (numbered 4 0x88 1) ∷ told 104 2 0 ∷ [])
        ∷ (told 20 2 1 ∷ Stored (numbered 4 0x88 1) ∷ told 104 2 1 ∷ [])
        ∷ (told 20 2 2 ∷ Stored (numbered 4 0x88 1) ∷ told 104 2 2 ∷ []) ∷ [] }
    ensures disables { sent_each_second (with_rts 1 (timed 0 (numbered 6 0x8A 1) ∷ timed 2 mm_noop
        ∷ []) no_tables) ([] ∷ (numbered 6 0x8A 1 ∷ []) ∷ [] ∷ (numbered 4 0x88 1 ∷ []) ∷ [])
        ≡ (Stored (numbered 6 0x8A 1) ∷ []) ∷ (told 22 2 1 ∷ [])
        ∷ (Stored mm_noop ∷ told 104 2 2 ∷ []) ∷ (told 9 3 3 ∷ []) ∷ [] }
{}

/// Tag 0 behind tag 0 leaves in the same wakeup. The first relative sequence counts from the start, also where the first wakeup comes later,
/// and what was due meanwhile leaves then. Tags of 65,535 seconds, and the last second that there is.
pub fn times_at_the_edges()
    ensures zeros { sent_each_second (with_rts 1 (replicate 9 (timed 0 mm_noop)) no_tables) ([] ∷ []
        ∷ []) ≡ replicate 8 (Stored mm_noop) ∷ (Stored mm_noop ∷ told 104 2 1 ∷ []) ∷ [] }
    ensures held { sent_behind (begun (with_rts 1 (timed 0 mm_noop ∷ timed 2 md_noop
        ∷ []) no_tables)) [] (at_second 3 [] ∷ at_second 4 [] ∷ at_second 5 [] ∷ [])
        ≡ (Stored mm_noop ∷ []) ∷ [] ∷ (Stored md_noop ∷ told 104 2 5 ∷ []) ∷ [] }
    ensures later { sent_behind (begun (with_ats 0 (timed 1001 mm_noop ∷ timed 1002 md_noop
        ∷ timed 1010 cs_noop ∷ []) no_tables)) [] (at_second 0 (numbered 2 0x8E 1 ∷ [])
        ∷ at_second 5 [] ∷ []) ≡ (told 18 2 0 ∷ []) ∷ (Stored mm_noop ∷ Stored md_noop ∷ []) ∷ [] }
    ensures longest { sent_behind (begun (with_rts 1 (timed 65535 mm_noop ∷ timed 0 md_noop
        ∷ timed 1 cs_noop ∷ []) no_tables)) [] (input_of 66534 [] ∷ input_of 66535 [] ∷ []) ≡ []
        ∷ (Stored mm_noop ∷ Stored md_noop ∷ []) ∷ [] }
    ensures last { sent_behind (begun_at 4294967290 (with_rts 1 (timed 5 mm_noop
        ∷ timed 65535 md_noop ∷ []) no_tables)) [] (input_of 4294967294 [] ∷ input_of 4294967295 []
        ∷ []) ≡ [] ∷ (Stored mm_noop ∷ []) ∷ [] }
{}

/// The refusals of each command, in the order in which they are asked; each by the sequences at its place among the commands.
pub fn refusals_in_order()
    ensures absolute { sent_behind (begun (with_ats 0 (timed 1000 mm_noop ∷ timed 1005 mm_noop
        ∷ []) (with_ats 1 (timed 1001 cs_noop ∷ []) no_tables))) [] (at_second 2
        (numbered 2 0x8F 0 ∷ numbered 2 0x8C 3 ∷ bare 8 0x87 ∷ jump_to 0x69 0xE8 ∷ numbered 2 0x8D 2
        ∷ numbered 2 0x8E 1 ∷ numbered 2 0x8E 1 ∷ numbered 2 0x8D 2 ∷ numbered 2 0x8F 0
        ∷ bare 8 0x87 ∷ jump_to 0x6F 0xEE ∷ bare 3 0x8C ∷ bare 3 0x8C ∷ []) ∷ [])
        ≡ (told 4 3 2 ∷ told 4 3 2 ∷ told 8 3 2 ∷ told 8 3 2 ∷ told 7 3 2 ∷ told 18 2 2 ∷ told 6 3 2
        ∷ told 6 3 2 ∷ told 4 3 2 ∷ told 7 3 2 ∷ told 7 3 2 ∷ told 19 2 2 ∷ told 19 2 2 ∷ [])
        ∷ [] }
    ensures not_loaded { sent_behind (begun (with_ats 0 (timed 1005 mm_noop ∷ []) no_tables)) []
        (at_second 2 (numbered 2 0x8D 2 ∷ numbered 2 0x8E 1 ∷ numbered 2 0x8D 2 ∷ bare 8 0x87 ∷ [])
        ∷ [])
        ≡ (told 5 3 2 ∷ told 18 2 2 ∷ told 5 3 2 ∷ told 5 3 2 ∷ []) ∷ [] }
    ensures relative { sent_behind (begun (with_rts 2 (timed 5 md_noop ∷ []) no_tables)) []
        (at_second 2
        (numbered 4 0x89 0 ∷ numbered 4 0xC8 0x41 ∷ numbered 4 0x8A 3 ∷ numbered 4 0x8B 2
        ∷ numbered 7 0x88 2 ∷ numbered 4 0x8B 2 ∷ numbered 4 0x8B 2 ∷ numbered 6 0x89 2
        ∷ numbered 4 0x8B 2 ∷ numbered 7 0x89 3 ∷ numbered 7 0x8A 0 ∷ numbered 5 0xC9 0x41
        ∷ numbered 6 0x8B 0 ∷ numbered 5 0x8B 3 ∷ numbered 5 0x8A 2 ∷ numbered 6 0x88 3 ∷ [])
        ∷ at_second 7 [] ∷ [])
        ≡ (told 4 3 2 ∷ told 4 3 2 ∷ told 5 3 2 ∷ told 9 3 2 ∷ told 23 2 2 ∷ told 20 2 2
        ∷ told 6 3 2 ∷ told 22 2 2 ∷ told 9 3 2 ∷ told 5 3 2 ∷ told 4 3 2 ∷ told 4 3 2
        ∷ told 4 3 2 ∷ told 21 2 2 ∷ told 21 2 2 ∷ told 22 2 2 ∷ []) ∷ [] ∷ [] }
{}

/// An activation changes what is started next. Whether a relative sequence is enabled stays.
pub fn activations_change_the_next_start()
    ensures loaded { sent_behind (begun no_tables)
        (Activated (record { place = 0; commands = timed 1003 mm_noop ∷ [] })
        ∷ []) (at_second 2 (numbered 2 0x8E 1 ∷ []) ∷ at_second 3 [] ∷ []) ≡ (told 18 2 2 ∷ [])
        ∷ (Stored mm_noop ∷ told 103 2 3 ∷ []) ∷ [] }
    ensures enabled { sent_behind (begun (with_rts 2 (timed 0 mm_noop ∷ []) no_tables))
        (Woken (at_second 0 (numbered 7 0x88 2 ∷ []))
        ∷ Activated (record { place = 3; commands = timed 0 md_noop ∷ [] })
        ∷ []) (at_second 1 (numbered 4 0x8B 2 ∷ []) ∷ [])
        ≡ (told 20 2 1 ∷ Stored md_noop ∷ told 104 2 1 ∷ []) ∷ [] }
    ensures disabled { sent_behind (begun no_tables)
        (Activated (record { place = 2; commands = timed 0 md_noop ∷ [] })
        ∷ []) (at_second 1 (numbered 4 0x88 1 ∷ []) ∷ []) ≡ (told 9 3 1 ∷ []) ∷ [] }
{}

/// A command of each code, a request, and a packet of another id.
pub fn command_rows()
    ensures noop { verdict_at sc_protocol at_any [] (bare 0 0x8F) ≡ Accepted 0 Plain }
    ensures reset { verdict_at sc_protocol at_any [] (bare 1 0x8E) ≡ Accepted 1 Plain }
    ensures start_ats { verdict_at sc_protocol at_any [] (numbered 2 0x8D 2)
        ≡ Accepted 2 (StartAts 2) }
    ensures stop_ats { verdict_at sc_protocol at_any [] (bare 3 0x8C) ≡ Accepted 3 StopAts }
    ensures start_rts { verdict_at sc_protocol at_any [] (numbered 4 0x8A 3)
        ≡ Accepted 4 (StartRts 3) }
    ensures stop_rts { verdict_at sc_protocol at_any [] (numbered 5 0xC8 0x40)
        ≡ Accepted 5 (StopRts 64) }
    ensures disable { verdict_at sc_protocol at_any [] (numbered 6 0xCB 0x40)
        ≡ Accepted 6 (DisableRts 64) }
    ensures enable { verdict_at sc_protocol at_any [] (numbered 7 0x89 3)
        ≡ Accepted 7 (EnableRts 3) }
    ensures switch { verdict_at sc_protocol at_any (StartAts 1 ∷ []) (bare 8 0x87)
        ≡ Accepted 8 SwitchAts }
    ensures jump { verdict_at sc_protocol at_any (StartAts 1 ∷ []) (0x18 ∷ 0xA9 ∷ 0xC0 ∷ 0 ∷ 0 ∷ 5
        ∷ 9 ∷ 0x8A ∷ 0x12 ∷ 0x34 ∷ 0x56 ∷ 0x78 ∷ []) ≡ Accepted 9 (JumpAts 0x12345678) }
    ensures request { verdict_at sc_protocol at_any [] request ≡ Request }
    ensures other { verdict_at sc_protocol at_any [] mm_noop ≡ Other }
{}

/// The refusals that all applications have.
pub fn refusal_rows()
    ensures checksum { verdict_at sc_protocol at_any [] (bare 0 0x8E) ≡ Refused 1 }
    ensures code { verdict_at sc_protocol at_any [] (bare 10 0x85) ≡ Refused 2 }
    ensures long { verdict_at sc_protocol at_any [] (numbered 3 0x8E 0) ≡ Refused 3 }
    ensures short { verdict_at sc_protocol at_any [] (bare 4 0x8B) ≡ Refused 3 }
    ensures jump { verdict_at sc_protocol at_any [] (numbered 9 0x84 0) ≡ Refused 3 }
    ensures high { verdict_at sc_protocol at_any [] (0x18 ∷ 0xA9 ∷ 0xC0 ∷ 0 ∷ 0 ∷ 3 ∷ 2 ∷ 0x8F ∷ 1
        ∷ 1 ∷ []) ≡ Refused 4 }
{}

/// The housekeeping packet, its fields all different; the masks, the first and the last sequence by themselves; and what is shown in wakeups.
pub fn housekeeping_rows()
    ensures packet { housekeeping_of 0x01020304 (record { accepted = 0x11; errors = 0x22 })
        (record {
          ats = 2;
          left = 0x3344;
          sent = 0x5566;
          wrong = 0x7788;
          masks = record
              { running = 0x0102030405060708; enabled = 0x99AABBCCDDEEFF10 };
        })
        ≡ 8 ∷ 0xAA ∷ 0xC0 ∷ 0 ∷ 0 ∷ 0x21 ∷ 1 ∷ 2 ∷ 3 ∷ 4 ∷ 0 ∷ 0 ∷ 0x11 ∷ 0x22 ∷ 2 ∷ 0 ∷ 0x33 ∷ 0x44
        ∷ 0x55 ∷ 0x66 ∷ 0x77 ∷ 0x88 ∷ 0 ∷ 0
        ∷ 1 ∷ 2 ∷ 3 ∷ 4 ∷ 5 ∷ 6 ∷ 7 ∷ 8 ∷ 0x99 ∷ 0xAA ∷ 0xBB ∷ 0xCC ∷ 0xDD ∷ 0xEE ∷ 0xFF ∷ 0x10
        ∷ [] }
    ensures first { running_mask (all_running 3 ++ replicate 63 waiting_one) ≡ 1 }
    ensures last { enabled_mask (replicate 65 waiting_one ++ all_running 1) ≡ 0x8000000000000000 }
    ensures all { running_mask (all_running 66) ≡ 0xFFFFFFFFFFFFFFFF }
    ensures shown { sent_each_second (with_ats 1 (timed 1001 mm_noop ∷ timed 1001 bad_noop
        ∷ timed 1005 mm_noop ∷ []) (with_rts 64 (timed 9 md_noop ∷ []) no_tables))
        ((numbered 2 0x8D 2 ∷ numbered 7 0xCA 0x40 ∷ numbered 4 0xC9 0x40 ∷ request ∷ []) ∷ []
        ∷ (numbered 2 0x8D 2 ∷ numbered 6 0xCB 0x40 ∷ request ∷ []) ∷ [])
        ≡ (told 18 2 0 ∷ told 23 2 0 ∷ told 20 2 0
        ∷ Made (8 ∷ 0xAA ∷ 0xC0 ∷ 0 ∷ 0 ∷ 0x21 ∷ 0 ∷ 0 ∷ 3 ∷ 0xE8 ∷ 0 ∷ 0 ∷ 3 ∷ 0 ∷ 2 ∷ 0 ∷ 0
        ∷ 3 ∷ 0 ∷ 0 ∷ 0 ∷ 0 ∷ 0 ∷ 0 ∷ 0x80 ∷ 0 ∷ 0 ∷ 0 ∷ 0 ∷ 0 ∷ 0 ∷ 0 ∷ 0x80 ∷ 0 ∷ 0 ∷ 0 ∷ 0
        ∷ 0 ∷ 0 ∷ 0 ∷ []) ∷ [])
        ∷ (Stored mm_noop ∷ told 101 3 1 ∷ [])
        ∷ (told 6 3 2 ∷ told 22 2 2 ∷ Made (8 ∷ 0xAA ∷ 0xC0 ∷ 0 ∷ 0 ∷ 0x21 ∷ 0 ∷ 0 ∷ 3 ∷ 0xEA ∷ 0
        ∷ 0 ∷ 4 ∷ 1 ∷ 2 ∷ 0 ∷ 0 ∷ 1 ∷ 0 ∷ 1 ∷ 0 ∷ 1 ∷ 0 ∷ 0 ∷ 0x80 ∷ 0 ∷ 0 ∷ 0 ∷ 0 ∷ 0 ∷ 0 ∷ 0
        ∷ 0 ∷ 0 ∷ 0 ∷ 0 ∷ 0 ∷ 0 ∷ 0 ∷ 0 ∷ []) ∷ []) ∷ [] }
{}

/// Of the next commands of all sequences that are due, the first by time leaves, then absolute before relative, then the lower number; and
/// where none leaves, none is due.
#[tactic(auto, using(crate::proofs::Firsts::next_comes, crate::proofs::Firsts::none_due))]
pub fn first_due_leaves()
    ensures first { (now : ℕ) (all : List Sequence) (place : ℕ) → next_place now all ≡ Some place
        → (time : ℕ) × ComesFirst now all place time }
    ensures none { (now : ℕ) (all : List Sequence) (place time : ℕ) → next_place now all ≡ None
        → head_time (at_place all place) ≡ Some time → now < time }
{}

/// In the turns of a wakeup at most eight commands leave. Each was due. None that is left behind came before one of them, by time, then
/// absolute before relative, then by number. What is sent is the packets of those whose checksum is right, in order.
#[tactic(auto, using(crate::proofs::Departing::few_leave, crate::proofs::Departing::all_due, crate::proofs::Departing::none_before, crate::proofs::Departing::stored_leave))]
pub fn eight_leave_in_order()
    ensures few { (now : ℕ) (s : Sequences) → length (departures 8 now s) ≤ 8 }
    ensures due { (now : ℕ) (s : Sequences) → All (λ d. d.time ≤ now) (departures 8 now s) }
    ensures order { (now : ℕ) (s : Sequences) → AreTimed s.all
        → All (LeavesNoneBefore (turns 8 now s).after.all) (departures 8 now s) }
    ensures sent { (now : ℕ) (s : Sequences) → filter_map stored_in (turns 8 now s).items
        ≡ filter_map right_packet (departures 8 now s) }
{}

/// What was due and came first when the turns of a wakeup ended leaves first in a later one, whatever that one's commands start: unless they
/// stop it or skip it.
#[tactic(auto, using(crate::proofs::Resting::leaves_first))]
pub fn left_behind_leaves_first()
    ensures { (now later place time : ℕ) (all : List Sequence) (orders : List Instruction)
        → AreTimed all → ComesFirst now all place time → now < later
        → head_time (at_place (after_orders later all orders) place) ≡ Some time
        → next_place later (after_orders later all orders) ≡ Some place }
{}

/// A state that stands for a history also stands for it with the activation of a sequence added that doesn't run; so it does by the kind of
/// the table. It can then take a wakeup on the tables with those commands.
#[tactic(auto, using(crate::proofs::Activating::activated_stands, crate::proofs::Activating::kind_activated, crate::proofs::Activating::activated_ready))]
pub fn activation_law()
    ensures stands { (begin : Beginning) (history : List ScEntry) (a : Activation) (sc : Sc)
        → is_running (at_place (sequences_of begin history).all a.place) ≡ false
        → Stands begin history sc → Stands begin (history ++ Activated a ∷ []) sc }
    ensures kind { (begin : Beginning) (history : List ScEntry) (kind : TableKind)
        (tables : List (List TimedCommand)) (a : Activation) (sc : Sc)
        → activation_of kind tables ≡ Some a
        → runs_in (sequences_of begin history).all (sequence_place kind) ≡ false
        → Stands begin history sc → Stands begin (history ++ Activated a ∷ []) sc }
    ensures ready { (tables : List (List TimedCommand)) (place : ℕ) (commands : List TimedCommand)
        (sc : Sc) → ((begin : Beginning) (history : List ScEntry) → Stands begin history sc
        → is_running (at_place (sequences_of begin history).all place) ≡ false)
        → IsReady tables sc → IsReady (slice_set tables place commands) sc }
{}

/// Where a state stands for a history, what is left of each sequence that runs stands at the end of its commands in the tables in force: no
/// sequence that runs was exchanged.
#[tactic(auto, using(crate::proofs::Activating::left_in_table))]
pub fn running_sequences_are_in_force()
    ensures { (begin : Beginning) (history : List ScEntry) (sc : Sc) (place : ℕ) → place < 66
        → is_running (at_place (sequences_of begin history).all place) ≡ true
        → Stands begin history sc
        → (at : ℕ) × (drop at (commands_in (tables_after begin history) place)
        ≡ (at_place (sequences_of begin history).all place).left) }
{}

/// A sequence runs from its start until its last command left, and no other does; the first relative one from the start on.
pub fn running_rows()
    ensures before { runs_in (sequences_of (begun one_in_first) []).all (sequence_place (Ats 1))
        ≡ false }
    ensures started { runs_in (sequences_of (begun one_in_first) (start_heard
        ∷ [])).all (sequence_place (Ats 1)) ≡ true }
    ensures waits { runs_in (sequences_of (begun one_in_first) (start_heard ∷ Woken (at_second 1 [])
        ∷ [])).all (sequence_place (Ats 1)) ≡ true }
    ensures over { runs_in (sequences_of (begun one_in_first) (start_heard ∷ Woken (at_second 2 [])
        ∷ [])).all (sequence_place (Ats 1)) ≡ false }
    ensures other { runs_in (sequences_of (begun one_in_first) (start_heard
        ∷ [])).all (sequence_place (Ats 2)) ≡ false }
    ensures relative { runs_in (sequences_of (begun one_in_first) (start_heard
        ∷ [])).all (sequence_place (Rts 1)) ≡ false }
    ensures first { runs_in (sequences_of (begun (with_rts 1 (timed 1 mm_noop ∷ []) no_tables))
        []).all (sequence_place (Rts 1)) ≡ true }
    ensures second { runs_in (sequences_of (begun (with_rts 1 (timed 1 mm_noop ∷ []) no_tables))
        []).all (sequence_place (Rts 2)) ≡ false }
    ensures none { sequence_place (Dwell 1) ≡ None }
    ensures taken { activation_of (Rts 64) (with_rts 64 (timed 1 mm_noop ∷ []) no_tables)
        ≡ Some (activation_at 65 (timed 1 mm_noop ∷ [])) }
{}

/// The tables in force are those of the beginning, with the commands of each activation in its place.
#[tactic(auto, using(crate::proofs::Loaded::tables_begun, crate::proofs::Loaded::tables_woken, crate::proofs::Loaded::tables_activated))]
pub fn tables_are_those_activated()
    ensures begun { (begin : Beginning) → tables_after begin [] ≡ begin.tables }
    ensures woken { (begin : Beginning) (history : List ScEntry) (input : Input)
        → tables_after begin (history ++ Woken input ∷ []) ≡ tables_after begin history }
    ensures activated { (begin : Beginning) (history : List ScEntry) (a : Activation)
        → tables_after begin (history ++ Activated a ∷ [])
        ≡ slice_set (tables_after begin history) a.place a.commands }
{}

/// In every history whose tables have their absolute sequences in order of time, the sequences are as the sentences above want them.
#[tactic(auto, using(crate::proofs::Reaching::reached_timed))]
pub fn sequences_stay_in_order()
    ensures { (begin : Beginning) (history : List ScEntry) → AreTablesTimed begin.tables
        → AreEntriesTimed history → AreTimed (sequences_of begin history).all }
{}

/// Each code with the shortest and the longest payload of its commands.
pub fn length_rows()
    ensures codes { numbers_of_rows sc_codes
        ≡ (0 ∷ 0 ∷ 0 ∷ []) ∷ (1 ∷ 0 ∷ 0 ∷ []) ∷ (2 ∷ 2 ∷ 2 ∷ []) ∷ (3 ∷ 0 ∷ 0 ∷ [])
        ∷ (4 ∷ 2 ∷ 2 ∷ []) ∷ (5 ∷ 2 ∷ 2 ∷ [])
        ∷ (6 ∷ 2 ∷ 2 ∷ []) ∷ (7 ∷ 2 ∷ 2 ∷ []) ∷ (8 ∷ 0 ∷ 0 ∷ []) ∷ (9 ∷ 4 ∷ 4 ∷ []) ∷ [] }
{}

/// Numbers of sequences over 255 are refused, whatever their low byte; of each command the first and the last number that there is.
pub fn number_rows()
    ensures wide { map (verdict_at sc_protocol at_any []) (numbered_wide 2 0x8F 1 1
        ∷ numbered_wide 2 0x8D 2 0
        ∷ numbered_wide 4 0x89 1 1
        ∷ numbered_wide 4 0xCB 2 0x40
        ∷ numbered_wide 5 0x88 1 1
        ∷ numbered_wide 5 0xCA 2 0x40
        ∷ numbered_wide 6 0x8B 1 1
        ∷ numbered_wide 6 0xC9 2 0x40
        ∷ numbered_wide 7 0x8A 1 1
        ∷ numbered_wide 7 0xC8 2 0x40 ∷ [])
        ≡ replicate 10 (Refused 4) }
    ensures ats { map (verdict_at sc_protocol at_any []) (numbered_wide 2 0x8E 0 1
        ∷ numbered_wide 2 0x8D 0 2 ∷ []) ≡ Accepted 2 (StartAts 1) ∷ Accepted 2 (StartAts 2) ∷ [] }
    ensures start { map (verdict_at sc_protocol at_any []) (numbered_wide 4 0x88 0 1
        ∷ numbered_wide 4 0xC9 0 0x40 ∷ []) ≡ Accepted 4 (StartRts 1) ∷ Accepted 4 (StartRts 64)
        ∷ [] }
    ensures stop { map (verdict_at sc_protocol at_any []) (numbered_wide 5 0x89 0 1
        ∷ numbered_wide 5 0xC8 0 0x40 ∷ []) ≡ Accepted 5 (StopRts 1) ∷ Accepted 5 (StopRts 64)
        ∷ [] }
    ensures disable { map (verdict_at sc_protocol at_any []) (numbered_wide 6 0x8A 0 1
        ∷ numbered_wide 6 0xCB 0 0x40 ∷ []) ≡ Accepted 6 (DisableRts 1) ∷ Accepted 6 (DisableRts 64)
        ∷ [] }
    ensures enable { map (verdict_at sc_protocol at_any []) (numbered_wide 7 0x8B 0 1
        ∷ numbered_wide 7 0xCA 0 0x40 ∷ []) ≡ Accepted 7 (EnableRts 1) ∷ Accepted 7 (EnableRts 64)
        ∷ [] }
{}

/// Times over 2^24: a command leaves at its own time and not at one that has the low bytes of it; and the last relative sequence.
pub fn time_rows()
    ensures late { sent_behind (begun_at 0x01020300 (with_ats 1 (timed 0x01020304 mm_noop
        ∷ timed 0x02020304 md_noop ∷ []) no_tables)) []
        (input_of 0x01020300 (numbered 2 0x8D 2 ∷ []) ∷ input_of 0x01020304 [] ∷ [])
        ≡ (told_late 18 0 ∷ []) ∷ (Stored mm_noop ∷ []) ∷ [] }
    ensures ends { sent_behind (begun_at 0x01020300 (with_ats 0 (timed 0x00020305 mm_noop
        ∷ timed 0x01020305 md_noop ∷ []) no_tables)) []
        (input_of 0x01020300 (numbered 2 0x8E 1 ∷ []) ∷ input_of 0x01020305 [] ∷ [])
        ≡ (told_late 18 0 ∷ []) ∷ (Stored md_noop ∷ told_late 103 5 ∷ []) ∷ [] }
    ensures last { sent_each_second (with_rts 64 (timed 0 md_noop ∷ timed 256 cs_noop
        ∷ []) no_tables) ((numbered 7 0xCA 0x40 ∷ numbered 4 0xC9 0x40 ∷ []) ∷ [] ∷ [])
        ≡ (told 23 2 0 ∷ told 20 2 0 ∷ Stored md_noop ∷ []) ∷ [] ∷ [] }
{}

/// What is shown: commands sent and commands with a wrong checksum, which differ, which a reset of the counts keeps, and of which the low 16
/// bits are shown.
pub fn shown_rows()
    ensures sent { sent_each_second (with_ats 0 (timed 1000 mm_noop ∷ timed 1000 md_noop
        ∷ timed 1001 bad_noop ∷ timed 1005 cs_noop ∷ []) no_tables)
        ((numbered 2 0x8E 1 ∷ []) ∷ [] ∷ (request ∷ bare 1 0x8E ∷ request ∷ []) ∷ [])
        ≡ (told 18 2 0 ∷ Stored mm_noop ∷ Stored md_noop ∷ []) ∷ (told 101 3 1 ∷ [])
        ∷ (shown 2 1 0 1 1 2 1 ∷ told 17 2 2 ∷ shown 2 0 0 1 1 2 1 ∷ []) ∷ [] }
    ensures counted { report_of (record {
      all = replicate 66 waiting_one;
      sent = 0x0001FEDC;
      wrong
          = 0x0002BA98;
    })
        ≡ record {
          ats = 0;
          left = 0;
          sent = 0xFEDC;
          wrong = 0xBA98;
          masks = record
              { running = 0; enabled = 0 };
        } }
{}
