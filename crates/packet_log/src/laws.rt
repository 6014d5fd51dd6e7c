//! Laws of the definitions, as contracts of functions that do nothing.

ghost use Rattle.std.specs.Prelude.{◌≡◌, ◌<◌, ◌+◌, ◌%◌, ◌≢◌, ◌++◌, ℕ, List, [], ◌∷◌, true, false, map, Option, Result, Ok, Err, length, take, slice_index_or, codes};
ghost use Rattle.fsw_outside.specs.Told.{WhereTold};
ghost use Rattle.fsw_outside.specs.Written.{AppendsPart, WritesAll};
ghost use Rattle.fsw_outside.specs.declared.traits.Failed.{Failed};
ghost use Rattle.packet_forms.specs.Packets.{message_id};
ghost use Rattle.packet_forms.specs.Names.{name_of};
ghost use Rattle.packet_forms.specs.Built.{command_of, event_of};
ghost use Rattle.bus_pipes.specs.declared.names.PipeName.{PipeName};
ghost use Rattle.packet_log.specs.Blocks.{Waiting, Puts, tells, ends_from, joined, whole_in};
ghost use Rattle.packet_log.specs.Counts.{count_of};
ghost use Rattle.fsw_outside.specs.Tally.{tally_of};
ghost use Rattle.bus_pipes.specs.declared.names.Out.TheVariants as outs;
ghost use Rattle.packet_log.specs.Items.{request_line, item_line};
ghost use Rattle.packet_log.specs.Lines.{packet_line, drop_line};
ghost use Rattle.packet_log.specs.Summaries.{summary_text};

/// A packet more adds one to the count of its id, and leaves the counts of all others.
pub fn counts_go_on()
    ensures none { (id : ℕ) → count_of [] id ≡ 0 }
    ensures same { (made : List (List ℕ)) (p : List ℕ)
        → count_of (made ++ p ∷ []) (message_id p) ≡ (count_of made (message_id p) + 1) % 16384 }
    ensures other { (made : List (List ℕ)) (p : List ℕ) (id : ℕ) → message_id p ≢ id
        → count_of (made ++ p ∷ []) id ≡ count_of made id }
{}

/// Texts stand one behind another, and the last one isn't whole yet: what a sink took of them all ends in a proper first part
/// of the text behind those that end among what it took.
pub fn frames_are_cut()
    ensures cut { (texts : List (List ℕ)) (begun : List ℕ) (taken : ℕ)
        → taken < length (joined texts) + length begun
        → AppendsPart (slice_index_or texts (whole_in texts taken) begun)
        (joined (take (whole_in texts taken) texts)) (take taken (joined texts ++ begun)) }
    ensures ends_none { (start : ℕ) → ends_from start [] ≡ [] }
    ensures ends_more { (texts : List (List ℕ)) (start : ℕ) (text : List ℕ)
        → ends_from start (texts ++ text ∷ []) ≡ ends_from start texts
        ++ (start + length (joined (texts ++ text ∷ []))) ∷ [] }
{}

/// A text given to a block, and then another; a part of one; and what is told where it was given.
pub fn puts_go_on()
    ensures then { (result : Result Unit Failed) (first second : List ℕ) (old middle new : Waiting)
        (one two three : Option (List ℕ)) → Puts {E = Failed} (Ok tt) first old middle one two
        → Puts result second middle new two three
        → Puts result (first ++ second) old new one three }
    ensures part { (error : Failed) (first second : List ℕ) (old new : Waiting)
        (before after : Option (List ℕ)) → Puts (Err error) first old new before after
        → Puts (Err error) (first ++ second) old new before after }
    ensures told { (result : Result Unit Failed) (text : List ℕ) (old new : Waiting)
        (before after : Option (List ℕ)) → Puts result text old new before after
        → WhereTold (tells before old) (tells after new) (WritesAll result text) }
{}

/// Three frames of 3, 0 and 2 bytes, of which a sink took 4: two are whole, and the third is cut behind its first byte.
pub fn worked_cut()
    ensures ends { ends_from 0 ((1 ∷ 2 ∷ 3 ∷ []) ∷ [] ∷ (4 ∷ 5 ∷ []) ∷ []) ≡ 3 ∷ 3 ∷ 5 ∷ [] }
    ensures at_four { whole_in ((1 ∷ 2 ∷ 3 ∷ []) ∷ [] ∷ (4 ∷ 5 ∷ []) ∷ []) 4 ≡ 2 }
    ensures at_three { whole_in ((1 ∷ 2 ∷ 3 ∷ []) ∷ [] ∷ (4 ∷ 5 ∷ []) ∷ []) 3 ≡ 2 }
    ensures at_two { whole_in ((1 ∷ 2 ∷ 3 ∷ []) ∷ [] ∷ (4 ∷ 5 ∷ []) ∷ []) 2 ≡ 0 }
{}

/// The event that answers a no-op of MM, and a no-op that the limit of MM's pipe refuses.
pub fn worked_lines()
    ensures event { packet_line 1 (event_of (name_of (codes "MM")) 16 2 1001)
        ≡ codes
        "1 pkt 0808C0000025000003E900004D4D000000000000000000000000000000000000001000020000004200000001\n" }
    ensures limit { drop_line 0 (record {
      pipe = PipeName.Mm;
      full = false;
      packet = command_of
          0x1888 0 [];
    }) ≡ codes "0 drop MM limit 1888C000000100AE\n" }
    ensures full { drop_line 0 (record {
      pipe = PipeName.Mm;
      full = true;
      packet = command_of 0x1889
          0 [];
    }) ≡ codes "0 drop MM full 1889C000000100AF\n" }
{}

/// The lines of a packet at each pipe that was dropped for each cause.
pub fn drop_rows()
    ensures hs { map (λ full. drop_line 99999 (record {
      pipe = PipeName.Hs;
      full = full;
      packet = 0x18
          ∷ 0xAE ∷ 0xC0 ∷ 0 ∷ 0 ∷ 1 ∷ 0 ∷ 0x88 ∷ [];
    })) (false ∷ true ∷ [])
        ≡ codes "99999 drop HS limit 18AEC00000010088\n"
        ∷ codes "99999 drop HS full 18AEC00000010088\n" ∷ [] }
    ensures events { map (λ full. drop_line 99999 (record {
      pipe = PipeName.HsEv;
      full = full;
      packet = 8
          ∷ 8 ∷ 0xC0 ∷ 0 ∷ 0 ∷ 0x25 ∷ 1 ∷ 2 ∷ 3 ∷ 4 ∷ 0 ∷ 0 ∷ 0x48 ∷ 0x53 ∷ 0 ∷ 0 ∷ 0 ∷ 0 ∷ 0 ∷ 0
          ∷ 0
          ∷ 0 ∷ 0 ∷ 0 ∷ 0 ∷ 0 ∷ 0 ∷ 0 ∷ 0 ∷ 0 ∷ 0 ∷ 0 ∷ 1 ∷ 2 ∷ 0 ∷ 3 ∷ 0 ∷ 0 ∷ 0 ∷ 0x42 ∷ 0 ∷ 0 ∷ 0
          ∷ 1 ∷ [];
    })) (false ∷ true ∷ [])
        ≡ codes
        "99999 drop HS.EV limit 0808C00000250102030400004853000000000000000000000000000000000000010200030000004200000001\n"
        ∷ codes
        "99999 drop HS.EV full 0808C00000250102030400004853000000000000000000000000000000000000010200030000004200000001\n"
        ∷ [] }
    ensures cs { map (λ full. drop_line 99999 (record {
      pipe = PipeName.Cs;
      full = full;
      packet = 0x18
          ∷ 0x9F ∷ 0xC0 ∷ 0 ∷ 0 ∷ 1 ∷ 0 ∷ 0xB9 ∷ [];
    })) (false ∷ true ∷ [])
        ≡ codes "99999 drop CS limit 189FC000000100B9\n"
        ∷ codes "99999 drop CS full 189FC000000100B9\n" ∷ [] }
    ensures sc { map (λ full. drop_line 99999 (record {
      pipe = PipeName.Sc;
      full = full;
      packet = 0x18
          ∷ 0xA9 ∷ 0xC0 ∷ 0 ∷ 0 ∷ 1 ∷ 0 ∷ 0x8F ∷ [];
    })) (false ∷ true ∷ [])
        ≡ codes "99999 drop SC limit 18A9C0000001008F\n"
        ∷ codes "99999 drop SC full 18A9C0000001008F\n" ∷ [] }
    ensures mm { map (λ full. drop_line 99999 (record {
      pipe = PipeName.Mm;
      full = full;
      packet = 0x18
          ∷ 0x88 ∷ 0xC0 ∷ 0 ∷ 0 ∷ 1 ∷ 0 ∷ 0xAE ∷ [];
    })) (false ∷ true ∷ [])
        ≡ codes "99999 drop MM limit 1888C000000100AE\n"
        ∷ codes "99999 drop MM full 1888C000000100AE\n" ∷ [] }
    ensures md { map (λ full. drop_line 99999 (record {
      pipe = PipeName.Md;
      full = full;
      packet = 0x18
          ∷ 0x90 ∷ 0xC0 ∷ 0 ∷ 0 ∷ 1 ∷ 0 ∷ 0xB6 ∷ [];
    })) (false ∷ true ∷ [])
        ≡ codes "99999 drop MD limit 1890C000000100B6\n"
        ∷ codes "99999 drop MD full 1890C000000100B6\n" ∷ [] }
    ensures lc { map (λ full. drop_line 99999 (record {
      pipe = PipeName.Lc;
      full = full;
      packet = 0x18
          ∷ 0xA6 ∷ 0xC0 ∷ 0 ∷ 0 ∷ 1 ∷ 0 ∷ 0x80 ∷ [];
    })) (false ∷ true ∷ [])
        ≡ codes "99999 drop LC limit 18A6C00000010080\n"
        ∷ codes "99999 drop LC full 18A6C00000010080\n" ∷ [] }
    ensures telemetry { map (λ full. drop_line 99999 (record {
      pipe = PipeName.LcTlm;
      full = full;
      packet = 8
          ∷ 0x8A ∷ 0xC0 ∷ 0 ∷ 0 ∷ 0x0E ∷ 1 ∷ 2 ∷ 3 ∷ 4 ∷ 0 ∷ 0 ∷ 8 ∷ 0xFE ∷ 0xDC ∷ 0xBA ∷ 0x98
          ∷ 0x89
          ∷ 0xAB ∷ 0xCD ∷ 0xEF ∷ [];
    })) (false ∷ true ∷ [])
        ≡ codes "99999 drop LC.TLM limit 088AC000000E01020304000008FEDCBA9889ABCDEF\n"
        ∷ codes "99999 drop LC.TLM full 088AC000000E01020304000008FEDCBA9889ABCDEF\n" ∷ [] }
{}

/// The line of each request, names of one byte and of 19; and the line of a packet that was made and of one that was stored.
pub fn request_rows()
    ensures reset { map (λ frame. request_line frame outs.Reset) (0 ∷ 99999 ∷ [])
        ≡ codes "0 reset\n" ∷ codes "99999 reset\n" ∷ [] }
    ensures restart { request_line 10 (outs.Restart (name_of (codes "A")))
        ≡ codes "10 restart A\n" }
    ensures delete { request_line 256 (outs.Delete (name_of (codes "Abcdefghijklmnopq_9")))
        ≡ codes "256 delete Abcdefghijklmnopq_9\n" }
    ensures items { map (item_line 7) (outs.Made (0xFE ∷ 0xDC ∷ 0 ∷ 9 ∷ [])
        ∷ outs.Stored (0xAB ∷ []) ∷ outs.Reset ∷ outs.Restart (name_of (codes "L"))
        ∷ outs.Delete (name_of (codes "L")) ∷ [])
        ≡ codes "7 pkt FEDC0009\n" ∷ codes "7 pkt AB\n" ∷ codes "7 reset\n" ∷ codes "7 restart L\n"
        ∷ codes "7 delete L\n" ∷ [] }
{}

/// Two summaries, byte by byte: of numbers that are written out, and of nine bytes.
pub fn worked_summaries()
    ensures numbers { summary_text 2000 (record { lines = 2621; bytes = 226802; crc = 0x7FC4 })
        ≡ codes "frames 2000\nlines 2621\nbytes 226802\ncrc 7FC4\n" }
    ensures digits { summary_text 0 (tally_of (codes "123456789"))
        ≡ codes "frames 0\nlines 0\nbytes 9\ncrc BB3D\n" }
    ensures line { summary_text 1 (tally_of (codes "0 reset\n"))
        ≡ codes "frames 1\nlines 1\nbytes 8\ncrc 90C9\n" }
{}
