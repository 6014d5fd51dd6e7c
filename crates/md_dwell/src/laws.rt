//! What the definitions give in small cases, and the sentence that they make of rounds. The functions do nothing: their contracts are
//! the laws.
ghost use Rattle.std.specs.Prelude.{◌≡◌, map, ◌≢◌, ◌+◌, ◌*◌, ◌-◌, ◌<◌, ◌++◌, ℕ, List, [], ◌∷◌, length, replicate, true, false, None, Some};
ghost use Rattle.histories.specs.Entries.{wakeups};
ghost use Rattle.histories.specs.Entries.Entry.{Woken, Activated};
ghost use Rattle.bus_pipes.specs.declared.names.Out.TheVariants as outs;
ghost use Rattle.commands.specs.Rows.{numbers_of_rows};
ghost use Rattle.commands.specs.Verdicts.{verdict_at};
ghost use Rattle.commands.specs.declared.verdicts.Verdict.TheVariants.{Other, Request, Refused, Accepted};
ghost use Rattle.memory_window.specs.Memory.{Memory};
ghost use Rattle.md_dwell.specs.declared.tables.DwellEntry.{DwellEntry};
ghost use Rattle.md_dwell.specs.declared.instructions.Instruction.TheVariants.{Plain, Start, Stop, Jam};
ghost use Rattle.md_dwell.specs.Tables.{DwellTable, dwell_of, dwell_fault_of, blank_entry, blank_table};
ghost use Rattle.md_dwell.specs.Lists.{delays, delays_to_last};
ghost use Rattle.md_dwell.specs.Rounds.{round_bytes, round_at};
ghost use Rattle.md_dwell.specs.Messages.{md_codes};
ghost use Rattle.md_dwell.specs.Verdicts.{md_protocol};
ghost use Rattle.md_dwell.specs.Orders.{Input, names};
ghost use Rattle.md_dwell.specs.Histories.{Activation, MdEntry, activation_of, tables_after, started_at};
ghost use Rattle.md_dwell.specs.Housekeeping.{entries_now, is_on, enabled_bits, housekeeping_of};
ghost use Rattle.md_dwell.specs.Answers.{dwell_packet};
ghost use Rattle.md_dwell.specs.Step.{md_items};
ghost use Rattle.md_dwell.specs.State.{Stands, AllBegin};
ghost use Rattle.md_dwell.specs.declared.state.Md.{Md};
ghost use Rattle.md_dwell.specs.Rows.{bytes_in_wakeup, quiet, three_entries, three_bytes, three_bytes_once, enabled_alone, turned_round, woken, woken_with, active, request, start_first, stop_first, jam_third, two_read, three_read, enabled_shown, sent_along, far_bytes, far_tables, masked, jammed};

/// A payload of zero bytes has no fault, and spells the table without entries.
pub fn blank_dwell()
    ensures fault { dwell_fault_of (replicate 204 0) ≡ None }
    ensures table { dwell_of (replicate 204 0) ≡ blank_table }
{}

/// A payload with one entry, its fields all different; the enabled flag; and each fault.
pub fn table_rows()
    ensures entry { dwell_of ((0 ∷ 1 ∷ 0 ∷ 0 ∷ 0 ∷ 4 ∷ 0 ∷ 3 ∷ 0 ∷ 1 ∷ 2 ∷ 8 ∷ [])
        ++ replicate 192 0) ≡ record {
          enabled = true;
          entries
              = (record { len = 4; delay = 3; at = 0x00010208 }) ∷ replicate 24 blank_entry;
        } }
    ensures last { dwell_of (replicate 196 0 ++ (0 ∷ 2 ∷ 5 ∷ 6 ∷ 7 ∷ 8 ∷ 9 ∷ 0x0A ∷ []))
        ≡ record {
          enabled = false;
          entries = replicate 24 blank_entry
              ++ (record { len = 2; delay = 0x0506; at = 0x0708090A }) ∷ [];
        } }
    ensures accepted { dwell_fault_of ((0 ∷ 1 ∷ 0 ∷ 0 ∷ 0 ∷ 4 ∷ 0 ∷ 3 ∷ 0 ∷ 1 ∷ 2 ∷ 8 ∷ [])
        ++ replicate 192 0) ≡ None }
    ensures length { dwell_fault_of ((0 ∷ 1 ∷ 0 ∷ 0 ∷ 0 ∷ 4 ∷ 0 ∷ 3 ∷ 0 ∷ 1 ∷ 2 ∷ 8 ∷ 0 ∷ 3 ∷ 0 ∷ 0
        ∷ 0 ∷ 0 ∷ 0 ∷ 0 ∷ []) ++ replicate 184 0) ≡ Some (record { entry = 2; reason = 1 }) }
    ensures flag { dwell_fault_of ((0 ∷ 2 ∷ 0 ∷ 0 ∷ 0 ∷ 3 ∷ 0 ∷ 0 ∷ 0 ∷ 0 ∷ 0 ∷ 0 ∷ [])
        ++ replicate 192 0) ≡ Some (record { entry = 0; reason = 2 }) }
    ensures alignment { dwell_fault_of ((0 ∷ 0 ∷ 0 ∷ 0 ∷ 0 ∷ 4 ∷ 0 ∷ 0 ∷ 0 ∷ 0 ∷ 0 ∷ 2 ∷ [])
        ++ replicate 192 0) ≡ Some (record { entry = 1; reason = 3 }) }
{}

/// A round ends in the last wakeup exactly where it is `since + r * R + D` for some round r, with R all delays of the list and D those
/// before its last entry, and then it is round r that ends.
pub fn rounds_end_by_number()
    ensures ends { (list : List DwellEntry) (since r : ℕ) (images : List Memory) → 0 < delays list
        → length images - 1 ≡ since + r * delays list + delays_to_last list
        → round_at list since images ≡ Some (round_bytes list since images r) }
    ensures none { (list : List DwellEntry) (since : ℕ) (images : List Memory) → 0 < delays list
        → ((r : ℕ) → length images - 1 ≢ since + r * delays list + delays_to_last list)
        → round_at list since images ≡ None }
{}

/// A table that is enabled and has a delay, and whose stream starts in the next wakeup, begins there with its first entry and has no bytes.
/// A stream starts there before all wakeups, and where no wakeup followed the table's last activation.
pub fn streams_begin_in_the_next_wakeup()
    ensures begin { (tables : List DwellTable) (history : List MdEntry) (md : Md)
        → Stands tables history md → AllBegin tables history md }
    ensures before_all { (n : ℕ) → started_at n []
        ≡ length (wakeups {W = Input} {A = Activation} []) }
    ensures activated { (history : List MdEntry) (n : ℕ) (table : DwellTable)
        → started_at n (history ++ Activated (activation_of n table) ∷ [])
        ≡ length (wakeups (history ++ Activated (activation_of n table) ∷ [])) }
    ensures kept { (history : List MdEntry) (n : ℕ) (a : Activation)
        → started_at n history ≡ length (wakeups history)
        → started_at n (history ++ Activated a ∷ [])
        ≡ length (wakeups (history ++ Activated a ∷ [])) }
{}

/// Three entries of a byte with the delays 0, 2 and 0: packets come in wakeups 2 and 4, the second with two bytes that were read in
/// wakeup 2. With all delays 0 there is none.
pub fn dwell_rounds()
    ensures first { md_items (three_bytes 2) [] (quiet 0) ≡ [] }
    ensures second { md_items (three_bytes 2) (Woken (quiet 0) ∷ []) (quiet 1) ≡ [] }
    ensures third { md_items (three_bytes 2) (Woken (quiet 0) ∷ Woken (quiet 1) ∷ []) (quiet 2)
        ≡ outs.Made (0x08 ∷ 0x91 ∷ 0xC0 ∷ 0 ∷ 0 ∷ 0x0C ∷ 0 ∷ 0 ∷ 3 ∷ 0xEA ∷ 0 ∷ 0 ∷ 0 ∷ 1 ∷ 0 ∷ 3
        ∷ 0xA0 ∷ 0xB0 ∷ 0xC2 ∷ []) ∷ [] }
    ensures fourth { md_items (three_bytes 2) (Woken (quiet 0) ∷ Woken (quiet 1) ∷ Woken (quiet 2)
        ∷ []) (quiet 3) ≡ [] }
    ensures fifth { md_items (three_bytes 2) (Woken (quiet 0) ∷ Woken (quiet 1) ∷ Woken (quiet 2)
        ∷ Woken (quiet 3) ∷ []) (quiet 4)
        ≡ outs.Made (0x08 ∷ 0x91 ∷ 0xC0 ∷ 0 ∷ 0 ∷ 0x0C ∷ 0 ∷ 0 ∷ 3 ∷ 0xEC ∷ 0 ∷ 0 ∷ 0 ∷ 1 ∷ 0 ∷ 3
        ∷ 0xA2 ∷ 0xB2 ∷ 0xC2 ∷ []) ∷ [] }
    ensures no_delay { md_items (three_bytes 0) (Woken (quiet 0) ∷ Woken (quiet 1) ∷ Woken (quiet 2)
        ∷ []) (quiet 3) ≡ [] }
{}

/// A command of each code, a request, and a packet of another id.
pub fn command_rows()
    ensures noop { verdict_at md_protocol (bytes_in_wakeup 0) [] (0x18 ∷ 0x90 ∷ 0xC0 ∷ 0 ∷ 0 ∷ 1 ∷ 0
        ∷ 0xB6 ∷ []) ≡ Accepted 0 Plain }
    ensures reset { verdict_at md_protocol (bytes_in_wakeup 0) [] (0x18 ∷ 0x90 ∷ 0xC0 ∷ 0 ∷ 0 ∷ 1
        ∷ 1 ∷ 0xB7 ∷ []) ≡ Accepted 1 Plain }
    ensures start { verdict_at md_protocol (bytes_in_wakeup 0) [] (0x18 ∷ 0x90 ∷ 0xC0 ∷ 0 ∷ 0 ∷ 3
        ∷ 2 ∷ 0xBC ∷ 0 ∷ 0x0A ∷ []) ≡ Accepted 2 (Start 10) }
    ensures stop { verdict_at md_protocol (bytes_in_wakeup 0) [] (0x18 ∷ 0x90 ∷ 0xC0 ∷ 0 ∷ 0 ∷ 3 ∷ 3
        ∷ 0xB2 ∷ 0 ∷ 5 ∷ []) ≡ Accepted 3 (Stop 5) }
    ensures jam { verdict_at md_protocol (bytes_in_wakeup 0) [] (0x18 ∷ 0x90 ∷ 0xC0 ∷ 0 ∷ 0 ∷ 0x0D
        ∷ 4 ∷ 0xA3 ∷ 0 ∷ 3 ∷ 0 ∷ 7 ∷ 0 ∷ 2 ∷ 0 ∷ 9 ∷ 0 ∷ 0 ∷ 0x10 ∷ 2 ∷ [])
        ≡ Accepted 4 (Jam 3 7 (record { len = 2; delay = 9; at = 0x1002 })) }
    ensures request { verdict_at md_protocol (bytes_in_wakeup 0) [] (0x18 ∷ 0x91 ∷ 0xC0 ∷ 0 ∷ 0 ∷ 1
        ∷ 0 ∷ 0xB7 ∷ []) ≡ Request }
    ensures other { verdict_at md_protocol (bytes_in_wakeup 0) [] (0x18 ∷ 0x88 ∷ 0xC0 ∷ 0 ∷ 0 ∷ 1
        ∷ 0 ∷ 0xAE ∷ []) ≡ Other }
{}

/// Each refusal.
pub fn refusal_rows()
    ensures checksum { verdict_at md_protocol (bytes_in_wakeup 0) [] (0x18 ∷ 0x90 ∷ 0xC0 ∷ 0 ∷ 0 ∷ 1
        ∷ 0 ∷ 0xB7 ∷ []) ≡ Refused 1 }
    ensures code { verdict_at md_protocol (bytes_in_wakeup 0) [] (0x18 ∷ 0x90 ∷ 0xC0 ∷ 0 ∷ 0 ∷ 1 ∷ 5
        ∷ 0xB3 ∷ []) ≡ Refused 2 }
    ensures length { verdict_at md_protocol (bytes_in_wakeup 0) [] (0x18 ∷ 0x90 ∷ 0xC0 ∷ 0 ∷ 0 ∷ 1
        ∷ 2 ∷ 0xB4 ∷ []) ≡ Refused 3 }
    ensures no_table { verdict_at md_protocol (bytes_in_wakeup 0) [] (0x18 ∷ 0x90 ∷ 0xC0 ∷ 0 ∷ 0 ∷ 3
        ∷ 2 ∷ 0xB6 ∷ 0 ∷ 0 ∷ []) ≡ Refused 4 }
    ensures fifth_table { verdict_at md_protocol (bytes_in_wakeup 0) [] (0x18 ∷ 0x90 ∷ 0xC0 ∷ 0 ∷ 0
        ∷ 3 ∷ 3 ∷ 0xA7 ∷ 0 ∷ 0x10 ∷ []) ≡ Refused 4 }
    ensures jammed_table { verdict_at md_protocol (bytes_in_wakeup 0) [] (0x18 ∷ 0x90 ∷ 0xC0 ∷ 0 ∷ 0
        ∷ 0x0D ∷ 4 ∷ 0xA5 ∷ 0 ∷ 5 ∷ 0 ∷ 7 ∷ 0 ∷ 2 ∷ 0 ∷ 9 ∷ 0 ∷ 0 ∷ 0x10 ∷ 2 ∷ []) ≡ Refused 4 }
    ensures entry { verdict_at md_protocol (bytes_in_wakeup 0) [] (0x18 ∷ 0x90 ∷ 0xC0 ∷ 0 ∷ 0 ∷ 0x0D
        ∷ 4 ∷ 0xBE ∷ 0 ∷ 3 ∷ 0 ∷ 0x1A ∷ 0 ∷ 2 ∷ 0 ∷ 9 ∷ 0 ∷ 0 ∷ 0x10 ∷ 2 ∷ []) ≡ Refused 5 }
    ensures entry_length { verdict_at md_protocol (bytes_in_wakeup 0) [] (0x18 ∷ 0x90 ∷ 0xC0 ∷ 0 ∷ 0
        ∷ 0x0D ∷ 4 ∷ 0xA2 ∷ 0 ∷ 3 ∷ 0 ∷ 7 ∷ 0 ∷ 3 ∷ 0 ∷ 9 ∷ 0 ∷ 0 ∷ 0x10 ∷ 2 ∷ []) ≡ Refused 6 }
    ensures read { verdict_at md_protocol (bytes_in_wakeup 0) [] (0x18 ∷ 0x90 ∷ 0xC0 ∷ 0 ∷ 0 ∷ 0x0D
        ∷ 4 ∷ 0x91 ∷ 0 ∷ 3 ∷ 0 ∷ 7 ∷ 0 ∷ 2 ∷ 0 ∷ 9 ∷ 0 ∷ 0 ∷ 0x20 ∷ 0 ∷ []) ≡ Refused 7 }
{}

/// The masks, bit by bit: that of a command and that of housekeeping.
pub fn mask_rows()
    ensures names_first { names 1 1 ≡ true }
    ensures names_not_first { names 14 1 ≡ false }
    ensures enabled_first { enabled_bits (enabled_alone 1) [] [] ≡ 1 }
    ensures names_second { names 2 2 ≡ true }
    ensures names_not_second { names 13 2 ≡ false }
    ensures enabled_second { enabled_bits (enabled_alone 2) [] [] ≡ 2 }
    ensures names_third { names 4 3 ≡ true }
    ensures names_not_third { names 11 3 ≡ false }
    ensures enabled_third { enabled_bits (enabled_alone 3) [] [] ≡ 4 }
    ensures names_fourth { names 8 4 ≡ true }
    ensures names_not_fourth { names 7 4 ≡ false }
    ensures enabled_fourth { enabled_bits (enabled_alone 4) [] [] ≡ 8 }
{}

/// Each packet, its fields all different.
pub fn packet_rows()
    ensures housekeeping { housekeeping_of 0x01020304 (record { accepted = 0x11; errors = 0x22 }) 11
        ≡ 8 ∷ 0x90 ∷ 0xC0 ∷ 0 ∷ 0 ∷ 9 ∷ 1 ∷ 2 ∷ 3 ∷ 4 ∷ 0 ∷ 0 ∷ 0x11 ∷ 0x22 ∷ 0x0B ∷ 0 ∷ [] }
    ensures dwell { dwell_packet 0x01020304 3 (0xA1 ∷ 0xB2 ∷ []) ≡ 8 ∷ 0x93 ∷ 0xC0 ∷ 0 ∷ 0 ∷ 0x0B
        ∷ 1 ∷ 2 ∷ 3 ∷ 4 ∷ 0 ∷ 0 ∷ 0 ∷ 3 ∷ 0 ∷ 2 ∷ 0xA1 ∷ 0xB2 ∷ [] }
{}

/// A wakeup with a start, a refused stop and a request, and a round of three bytes that are read at once.
pub fn wakeup_rows()
    ensures items { md_items three_bytes_once []
        (record {
          time = 1001;
          commands = (0x18 ∷ 0x90 ∷ 0xC0 ∷ 0 ∷ 0 ∷ 3 ∷ 2 ∷ 0xB4 ∷ 0 ∷ 2 ∷ [])
              ∷ (0x18 ∷ 0x90 ∷ 0xC0 ∷ 0 ∷ 0 ∷ 3 ∷ 3 ∷ 0xA7 ∷ 0 ∷ 0x10 ∷ [])
              ∷ (0x18 ∷ 0x91 ∷ 0xC0 ∷ 0 ∷ 0 ∷ 1 ∷ 0 ∷ 0xB7 ∷ []) ∷ [];
          seen = bytes_in_wakeup 0;
        })
        ≡ outs.Made (8 ∷ 8 ∷ 0xC0 ∷ 0 ∷ 0 ∷ 0x25 ∷ 0 ∷ 0 ∷ 3 ∷ 0xE9 ∷ 0 ∷ 0 ∷ 0x4D ∷ 0x44 ∷ 0 ∷ 0
        ∷ 0 ∷ 0 ∷ 0 ∷ 0 ∷ 0 ∷ 0 ∷ 0 ∷ 0 ∷ 0 ∷ 0 ∷ 0 ∷ 0 ∷ 0 ∷ 0 ∷ 0 ∷ 0 ∷ 0 ∷ 0x12 ∷ 0 ∷ 2 ∷ 0 ∷ 0
        ∷ 0 ∷ 0x42 ∷ 0 ∷ 0 ∷ 0 ∷ 1 ∷ []) ∷ outs.Made (8 ∷ 8 ∷ 0xC0 ∷ 0 ∷ 0 ∷ 0x25 ∷ 0 ∷ 0 ∷ 3 ∷ 0xE9
        ∷ 0 ∷ 0 ∷ 0x4D ∷ 0x44 ∷ 0 ∷ 0 ∷ 0 ∷ 0 ∷ 0 ∷ 0 ∷ 0 ∷ 0 ∷ 0 ∷ 0 ∷ 0 ∷ 0 ∷ 0 ∷ 0 ∷ 0 ∷ 0 ∷ 0
        ∷ 0 ∷ 0 ∷ 4 ∷ 0 ∷ 3 ∷ 0 ∷ 0 ∷ 0 ∷ 0x42 ∷ 0 ∷ 0 ∷ 0 ∷ 1 ∷ [])
        ∷ outs.Made (8 ∷ 0x90 ∷ 0xC0 ∷ 0 ∷ 0 ∷ 9 ∷ 0 ∷ 0 ∷ 3 ∷ 0xE9 ∷ 0 ∷ 0 ∷ 1 ∷ 1 ∷ 3 ∷ 0 ∷ [])
        ∷ outs.Made (8 ∷ 0x91 ∷ 0xC0 ∷ 0 ∷ 0 ∷ 0x0C ∷ 0 ∷ 0 ∷ 3 ∷ 0xE9 ∷ 0 ∷ 0 ∷ 0 ∷ 1 ∷ 0 ∷ 3
        ∷ 0xA0 ∷ 0xB0 ∷ 0xC0 ∷ []) ∷ [] }
{}

/// An activation in the middle of a round begins a round in the next wakeup, and nothing that was read before is sent. So it does before
/// the first wakeup; of two between two wakeups the last counts. One of another table leaves the rounds of this one as they are.
pub fn activations_begin_rounds()
    ensures in_round { sent_along (three_bytes 2) (woken 0 ∷ woken 1
        ∷ active 1 (three_entries true 2) ∷ woken 2 ∷ woken 3 ∷ woken 4 ∷ []) ≡ [] ∷ [] ∷ [] ∷ []
        ∷ [] ∷ (three_read 1 0xEC 0xA2 0xB2 0xC4 ∷ []) ∷ [] }
    ensures other { sent_along (three_bytes 2) (woken 0 ∷ active 2 (three_entries true 2) ∷ woken 1
        ∷ woken 2 ∷ woken 3 ∷ []) ≡ [] ∷ [] ∷ [] ∷ (three_read 1 0xEA 0xA0 0xB0 0xC2 ∷ [])
        ∷ (three_read 2 0xEB 0xA1 0xB1 0xC3 ∷ []) ∷ [] }
    ensures last_counts { sent_along (three_bytes 2) (woken 0 ∷ active 1 (three_entries false 3)
        ∷ active 1 turned_round ∷ woken 1 ∷ woken 2 ∷ []) ≡ [] ∷ [] ∷ [] ∷ []
        ∷ (two_read 1 0xEA 0xC1 0xA2 ∷ []) ∷ [] }
    ensures before_all { sent_along (three_bytes 2) (active 1 turned_round ∷ woken 0 ∷ woken 1
        ∷ woken 2 ∷ []) ≡ [] ∷ [] ∷ (two_read 1 0xE9 0xC0 0xA1 ∷ [])
        ∷ (two_read 1 0xEA 0xC1 0xA2 ∷ []) ∷ [] }
{}

/// What an activation gives a table: its entries without what was jammed into the one before, and its enabled flag, whatever was started
/// or stopped. Each table has its own.
pub fn activations_forget()
    ensures jammed { entries_now (three_bytes 2) (woken_with 0 (jam_third ∷ []) ∷ []) [] 1
        ≡ (record { len = 1; delay = 0; at = 0x1000 })
        ∷ (record { len = 1; delay = 2; at = 0x1001 })
        ∷ (record { len = 1; delay = 1; at = 0x1000 }) ∷ replicate 22 blank_entry }
    ensures jam_forgotten { entries_now (three_bytes 2) (woken_with 0 (jam_third ∷ [])
        ∷ active 1 (three_entries true 3) ∷ []) [] 1 ≡ (record { len = 1; delay = 0; at = 0x1000 })
        ∷ (record { len = 1; delay = 3; at = 0x1001 })
        ∷ (record { len = 1; delay = 0; at = 0x1002 }) ∷ replicate 22 blank_entry }
    ensures jammed_later { entries_now (three_bytes 2) (active 1 (three_entries true 3)
        ∷ woken_with 0 (jam_third ∷ []) ∷ []) [] 1 ≡ (record { len = 1; delay = 0; at = 0x1000 })
        ∷ (record { len = 1; delay = 3; at = 0x1001 })
        ∷ (record { len = 1; delay = 1; at = 0x1000 }) ∷ replicate 22 blank_entry }
    ensures jam_kept { entries_now (three_bytes 2) (woken_with 0 (jam_third ∷ [])
        ∷ active 2 turned_round ∷ []) [] 1 ≡ entries_now (three_bytes 2) (woken_with 0 (jam_third
        ∷ []) ∷ []) [] 1 }
    ensures stop_forgotten { is_on (three_bytes 2) (woken_with 0 (stop_first ∷ [])
        ∷ active 1 (three_entries true 2) ∷ []) [] 1 ≡ true }
    ensures start_forgotten { is_on (three_bytes 2) (woken_with 0 (start_first ∷ [])
        ∷ active 1 (three_entries false 2) ∷ []) [] 1 ≡ false }
    ensures stopped_later { is_on (three_bytes 2) (active 1 (three_entries true 2)
        ∷ woken_with 0 (stop_first ∷ []) ∷ []) [] 1 ≡ false }
    ensures stop_kept { is_on (three_bytes 2) (woken_with 0 (stop_first ∷ [])
        ∷ active 2 turned_round ∷ []) [] 1 ≡ false }
    ensures in_force { tables_after (three_bytes 2) (active 4 turned_round ∷ woken 0
        ∷ active 2 (three_entries false 5) ∷ active 2 (three_entries true 6) ∷ [])
        ≡ three_entries true 2 ∷ three_entries true 6 ∷ blank_table ∷ turned_round ∷ [] }
    ensures started { started_at 1 (woken 0 ∷ woken_with 1 (start_first ∷ []) ∷ woken 2
        ∷ active 1 turned_round ∷ active 3 turned_round ∷ []) ≡ 3 }
    ensures started_before { started_at 1 (woken 0 ∷ woken_with 1 (start_first ∷ []) ∷ woken 2
        ∷ active 3 turned_round ∷ []) ≡ 1 }
{}

/// A rehearsal in which two tables are exchanged while they run.
pub fn tables_are_exchanged()
    ensures { sent_along (three_bytes 2) (woken 0 ∷ active 2 turned_round
        ∷ woken_with 1 (request ∷ []) ∷ woken 2 ∷ active 1 (three_entries false 2)
        ∷ woken_with 3 (request ∷ []) ∷ active 1 (three_entries true 2) ∷ woken 4 ∷ woken 5
        ∷ woken 6 ∷ [])
        ≡ [] ∷ [] ∷ (enabled_shown 0xE9 3 ∷ [])
        ∷ (three_read 1 0xEA 0xA0 0xB0 0xC2 ∷ two_read 2 0xEA 0xC1 0xA2 ∷ []) ∷ []
        ∷ (enabled_shown 0xEB 2 ∷ two_read 2 0xEB 0xC2 0xA3 ∷ [])
        ∷ [] ∷ (two_read 2 0xEC 0xC3 0xA4 ∷ []) ∷ (two_read 2 0xED 0xC4 0xA5 ∷ [])
        ∷ (three_read 1 0xEE 0xA4 0xB4 0xC6 ∷ two_read 2 0xEE 0xC5 0xA6 ∷ []) ∷ [] }
{}

/// Each code with the shortest and the longest payload of its commands.
pub fn length_rows()
    ensures codes { numbers_of_rows md_codes ≡ (0 ∷ 0 ∷ 0 ∷ []) ∷ (1 ∷ 0 ∷ 0 ∷ [])
        ∷ (2 ∷ 2 ∷ 2 ∷ []) ∷ (3 ∷ 2 ∷ 2 ∷ []) ∷ (4 ∷ 12 ∷ 12 ∷ []) ∷ [] }
{}

/// Masks and numbers of which one byte alone is wrong, each mask of one table and that of all.
pub fn number_rows()
    ensures starts { map (verdict_at md_protocol far_bytes []) (masked 2 0xB7 0 1
        ∷ masked 2 0xBE 0 8
        ∷ masked 2 0xB9 0 0x0F
        ∷ masked 2 0xA6 0 0x10
        ∷ masked 2 0xB6 1 1
        ∷ masked 2 0xB7 1 0 ∷ [])
        ≡ Accepted 2 (Start 1) ∷ Accepted 2 (Start 8) ∷ Accepted 2 (Start 15) ∷ Refused 4
        ∷ Refused 4 ∷ Refused 4 ∷ [] }
    ensures stops { map (verdict_at md_protocol far_bytes []) (masked 3 0xB6 0 1
        ∷ masked 3 0xBF 0 8
        ∷ masked 3 0xB8 0 0x0F
        ∷ masked 3 0xA7 0 0x10
        ∷ masked 3 0xB7 1 1
        ∷ masked 3 0xB6 1 0 ∷ [])
        ≡ Accepted 3 (Stop 1) ∷ Accepted 3 (Stop 8) ∷ Accepted 3 (Stop 15) ∷ Refused 4 ∷ Refused 4
        ∷ Refused 4 ∷ [] }
    ensures jams { map (verdict_at md_protocol far_bytes []) (jammed 0x98 (0 ∷ 1 ∷ 0 ∷ 1 ∷ 0 ∷ 4
        ∷ 0xFE ∷ 0xDC ∷ 0xFE ∷ 0xDC ∷ 0xBA ∷ 0x98 ∷ [])
        ∷ jammed 0xA0 (0 ∷ 4 ∷ 0 ∷ 0x19 ∷ 0 ∷ 2 ∷ 1 ∷ 2 ∷ 0xFE ∷ 0xDC ∷ 0xBA ∷ 0x9A ∷ []) ∷ [])
        ≡ Accepted 4 (Jam 1 1 (record { len = 4; delay = 0xFEDC; at = 0xFEDCBA98 }))
        ∷ Accepted 4 (Jam 4 25 (record { len = 2; delay = 0x0102; at = 0xFEDCBA9A })) ∷ [] }
    ensures tables { map (verdict_at md_protocol far_bytes []) (jammed 0xBA (0 ∷ 0 ∷ 0 ∷ 1 ∷ 0 ∷ 4
        ∷ 0 ∷ 1 ∷ 0xFE ∷ 0xDC ∷ 0xBA ∷ 0x98 ∷ [])
        ∷ jammed 0xBA (1 ∷ 1 ∷ 0 ∷ 1 ∷ 0 ∷ 4 ∷ 0 ∷ 1 ∷ 0xFE ∷ 0xDC ∷ 0xBA ∷ 0x98 ∷ []) ∷ [])
        ≡ Refused 4 ∷ Refused 4 ∷ [] }
    ensures entries { map (verdict_at md_protocol far_bytes []) (jammed 0xBA (0 ∷ 1 ∷ 0 ∷ 0 ∷ 0 ∷ 4
        ∷ 0 ∷ 1 ∷ 0xFE ∷ 0xDC ∷ 0xBA ∷ 0x98 ∷ [])
        ∷ jammed 0xA0 (0 ∷ 1 ∷ 0 ∷ 0x1A ∷ 0 ∷ 4 ∷ 0 ∷ 1 ∷ 0xFE ∷ 0xDC ∷ 0xBA ∷ 0x98 ∷ [])
        ∷ jammed 0xBA (0 ∷ 1 ∷ 1 ∷ 1 ∷ 0 ∷ 4 ∷ 0 ∷ 1 ∷ 0xFE ∷ 0xDC ∷ 0xBA ∷ 0x98 ∷ []) ∷ [])
        ≡ Refused 5 ∷ Refused 5 ∷ Refused 5 ∷ [] }
    ensures lengths { map (verdict_at md_protocol far_bytes []) (jammed 0xBC (0 ∷ 1 ∷ 0 ∷ 1 ∷ 0 ∷ 3
        ∷ 0 ∷ 1 ∷ 0xFE ∷ 0xDC ∷ 0xBA ∷ 0x98 ∷ [])
        ∷ jammed 0xB7 (0 ∷ 1 ∷ 0 ∷ 1 ∷ 0 ∷ 8 ∷ 0 ∷ 1 ∷ 0xFE ∷ 0xDC ∷ 0xBA ∷ 0x98 ∷ [])
        ∷ jammed 0xBA (0 ∷ 1 ∷ 0 ∷ 1 ∷ 1 ∷ 4 ∷ 0 ∷ 1 ∷ 0xFE ∷ 0xDC ∷ 0xBA ∷ 0x98 ∷ []) ∷ [])
        ≡ Refused 6 ∷ Refused 6 ∷ Refused 6 ∷ [] }
    ensures addresses { map (verdict_at md_protocol (bytes_in_wakeup 0) []) (jammed 0xAD (0 ∷ 1 ∷ 0
        ∷ 1 ∷ 0 ∷ 2 ∷ 0 ∷ 1 ∷ 0 ∷ 0 ∷ 0x10 ∷ 0 ∷ [])
        ∷ jammed 0xAC (0 ∷ 1 ∷ 0 ∷ 1 ∷ 0 ∷ 2 ∷ 0 ∷ 1 ∷ 0 ∷ 1 ∷ 0x10 ∷ 0 ∷ [])
        ∷ jammed 0xAC (0 ∷ 1 ∷ 0 ∷ 1 ∷ 0 ∷ 2 ∷ 0 ∷ 1 ∷ 1 ∷ 0 ∷ 0x10 ∷ 0 ∷ [])
        ∷ jammed 0xAF (0 ∷ 1 ∷ 0 ∷ 1 ∷ 0 ∷ 0 ∷ 0 ∷ 1 ∷ 1 ∷ 0 ∷ 0x10 ∷ 1 ∷ []) ∷ [])
        ≡ Accepted 4 (Jam 1 1 (record { len = 2; delay = 1; at = 0x1000 })) ∷ Refused 7 ∷ Refused 7
        ∷ Accepted 4 (Jam 1 1 (record { len = 0; delay = 1; at = 0x01001001 })) ∷ [] }
{}

/// Jams of the first and the last entry of the first and the last table.
pub fn place_rows()
    ensures first { entries_now (three_bytes 2) (woken_with 0 ((jammed 0xAF (0 ∷ 1 ∷ 0 ∷ 1 ∷ 0 ∷ 1
        ∷ 5 ∷ 6 ∷ 0 ∷ 0 ∷ 0x10 ∷ 3 ∷ [])) ∷ []) ∷ []) [] 1
        ≡ (record { len = 1; delay = 0x0506; at = 0x1003 })
        ∷ (record { len = 1; delay = 2; at = 0x1001 }) ∷
        (record { len = 1; delay = 0; at = 0x1002 })
        ∷ replicate 22 blank_entry }
    ensures last { entries_now (three_bytes 2) (woken_with 0 ((jammed 0xB2 (0 ∷ 4 ∷ 0 ∷ 0x19 ∷ 0 ∷ 1
        ∷ 5 ∷ 6 ∷ 0 ∷ 0 ∷ 0x10 ∷ 3 ∷ [])) ∷ []) ∷ []) [] 4
        ≡ replicate 24 blank_entry ++ (record { len = 1; delay = 0x0506; at = 0x1003 }) ∷ [] }
    ensures other { entries_now (three_bytes 2) (woken_with 0 ((jammed 0xB2 (0 ∷ 4 ∷ 0 ∷ 0x19 ∷ 0
        ∷ 1 ∷ 5 ∷ 6 ∷ 0 ∷ 0 ∷ 0x10 ∷ 3 ∷ [])) ∷ []) ∷ []) [] 3 ≡ replicate 25 blank_entry }
{}

/// A round at an address and a time with all their bytes, and table numbers of which the high byte alone is wrong.
pub fn wide_rows()
    ensures round { md_items far_tables []
        (record { time = 0x01020304; commands = []; seen = far_bytes })
        ≡ outs.Made (8 ∷ 0x94 ∷ 0xC0 ∷ 0 ∷ 0 ∷ 0x0F ∷ 1 ∷ 2 ∷ 3 ∷ 4 ∷ 0 ∷ 0 ∷ 0 ∷ 4 ∷ 0 ∷ 6 ∷ 0xA1
        ∷ 0xB2 ∷ 0xC3 ∷ 0xD4 ∷ 0xC3 ∷ 0xD4 ∷ []) ∷ [] }
    ensures flags { map (λ n. dwell_fault_of (n ∷ 1 ∷ replicate 202 0)) (0 ∷ 1 ∷ []) ≡ None
        ∷ Some (record { entry = 0; reason = 2 }) ∷ [] }
    ensures lengths { map (λ n. dwell_fault_of (0 ∷ 1 ∷ 0 ∷ 0 ∷ n ∷ 1 ∷ replicate 198 0)) (0 ∷ 1
        ∷ []) ≡ None ∷ Some (record { entry = 1; reason = 1 }) ∷ [] }
    ensures last_fault { dwell_fault_of (replicate 196 0 ++ (0 ∷ 4 ∷ 0 ∷ 0 ∷ 1 ∷ 2 ∷ 3 ∷ 2 ∷ []))
        ≡ Some (record { entry = 25; reason = 3 }) }
{}
