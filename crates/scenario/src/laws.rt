//! Laws of scenario texts, and of readers that stand for them: each function answers nothing, and its
//! contract is the law.

ghost use Rattle.std.specs.Prelude.{◌≡◌, ◌≤◌, ◌<◌, ◌+◌, ◌++◌, ◌∷◌, [], ℕ, Bool, List, false, true, codes, length, slice_index, None, Ok, Err};
ghost use Rattle.scenario.specs.Texts.{Text, Given, Head, Whole, Reading, Bad, Ended, Unended, Open, Grows, AreGood, reading, reads};
ghost use Rattle.scenario.specs.Standing.{Stands, is_finished};
ghost use Rattle.scenario.specs.Drill.{drawn, upper, draws_of, frame_lines, drill_header, drill_text};
ghost use Rattle.scenario.specs.declared.reader.Reader.{Reader};
ghost use Rattle.scenario.specs.declared.reason.Reason.{Reason};
ghost use Rattle.scenario.specs.declared.reason.Reason.TheVariants as reasons;
ghost use Rattle.scenario.specs.declared.frame.App.TheVariants as apps;
ghost use Rattle.memory_window.specs.declared.regions.Kind.TheVariants as kinds;

/// An open text that grows keeps its items and their ends, or its bad line.
pub fn texts_grow()
    ensures { (first more : List ℕ) (end : Bool)
        → Grows (reading (record { bytes = first; closed = false }))
        (reading (record { bytes = first ++ more; closed = end })) }
{}

/// An open text without a bad line has at most 16,777,856 bytes.
pub fn open_texts_are_bounded()
    ensures { (bytes : List ℕ) → (reading (record { bytes = bytes; closed = false })).ending ≡ Open
        → length bytes ≤ 16777856 }
{}

/// The items of a text are a header, and behind it at most 100,000 frames of at most 64 items each, whose
/// upsets lie in the header's map.
pub fn items_are_good()
    ensures { (t : Text) → AreGood (reading t).items }
{}

/// What a reader gave is a first part of the items of its text.
pub fn given_items_come_first()
    ensures { (r : Reader) (t : Text) (gave : List Given) → Stands r t gave → (rest : List Given)
        × ((reading t).items ≡ gave ++ rest) }
{}

/// So it is one header, and then frames within the limits.
pub fn given_items_are_good()
    ensures { (r : Reader) (t : Text) (gave : List Given) → Stands r t gave → AreGood gave }
{}

/// A text is closed exactly where the reader that stands for it was told that no more bytes come.
pub fn closed_is_finished()
    ensures { (r : Reader) (t : Text) (gave : List Given) → Stands r t gave
        → t.closed ≡ is_finished r }
{}

/// Each item has a stop, and a bad line one more.
pub fn items_have_stops()
    ensures items { (t : Text) → length (reading t).items ≤ length (reading t).stops }
    ensures bad { (t : Text) (line : ℕ) (reason : Reason) → (reading t).ending ≡ Bad line reason
        → length (reading t).stops ≡ length (reading t).items + 1 }
{}

/// A stop stays when the text grows.
pub fn stops_stay()
    ensures { (r q : Reading) (n : ℕ) → Grows r q → n < length r.stops
        → slice_index q.stops n ≡ slice_index r.stops n }
{}

/// A comment that ends at byte 16,777,216 of a text is read, and one that ends a byte later isn't.
pub fn worked_ends()
    ensures last { reads (record { sentences = []; lines = 9; bytes = 16777214 })
        (record { bytes = codes "#"; takes = 2 }) ≡ Ok None }
    ensures late { reads (record { sentences = []; lines = 9; bytes = 16777215 })
        (record { bytes = codes "#"; takes = 2 }) ≡ Err reasons.TooLong }
{}

/// What some texts give, computed from the definitions.
pub fn worked_texts()
    ensures empty { (reading (record { bytes = []; closed = true })).ending ≡ Unended 0 }
    ensures whole { reading (record {
      bytes = codes
          "epoch 5\nregion RAM 0 8\nstart\nupset 0x4 9\nhold MM\nactivate 2\ntick\nend";
      closed = true;
    })
        ≡ record {
          items = Head 5 (record { kind = kinds.Ram; start = 0; len = 8 } ∷ [])
              ∷ Whole (record {
                sends = [];
                counters = [];
                upsets = record { at = 4; value = 9 }
                    ∷ [];
                held = apps.Mm ∷ [];
                activations = 2 ∷ [];
              }) ∷ [];
          ending = Ended;
          stops = 29 ∷ 65 ∷ [];
        } }
    ensures packet { (reading (record {
      bytes = codes "epoch 5\nregion RAM 0 8\nstart\nsend 00\n";
      closed = false;
    })).ending ≡ Bad 4 reasons.Packet }
    ensures map { (reading (record {
      bytes = codes
          "epoch 5\nregion RAM 0 8\nregion RAM 4 4\nstart\n";
      closed = false;
    })).ending
        ≡ Bad 4 reasons.Map }
    ensures word { (reading (record {
      bytes = codes "epoch 5\nregion RAM 0 8\nstart\nend\ntick\n";
      closed = true;
    })).ending ≡ Bad 5 reasons.Word }
    ensures number { (reading (record { bytes = codes "epoch 4294000001\n"; closed = true })).ending
        ≡ Bad 1 reasons.Number }
    ensures unfinished { (reading (record {
      bytes = codes "epoch 5\nregion RAM 0 8\nstart\ntick";
      closed = false;
    })).ending ≡ Open }
{}

/// Parts of generated scenarios, computed from the definitions: the first two draws from 7, the header, and frames with each
/// of the three commands, with an upset and without one.
pub fn worked_drills()
    ensures first { upper (drawn 7) ≡ 15648 }
    ensures second { upper (drawn (drawn 7)) ≡ 59866 }
    ensures header { drill_header ≡ codes
        "epoch 1000000\nregion RAM 0 65536\nregion EEPROM 65536 65536\nstart\n" }
    ensures peek { frame_lines (draws_of 7) ≡ codes
        "app LOAD 0\nsend 1888C00000060200080000ED4E\ntick\n" }
    ensures fill { frame_lines (draws_of 4) ≡ codes
        "app LOAD 0\nsend 1888C000000A080F000050E0000000F2E0\ntick\n" }
    ensures upset { frame_lines (draws_of 1) ≡ codes
        "app LOAD 0\nupset 33046 136\nsend 1888C000000A03210800000CF000000073\ntick\n" }
{}

/// A generated scenario is a header and 2,000 frames, and ends well.
pub fn drills_read_well()
    ensures ended { (k : ℕ) → (reading (record { bytes = drill_text k; closed = true })).ending
        ≡ Ended }
    ensures items { (k : ℕ) → length (reading
        (record { bytes = drill_text k; closed = true })).items ≡ 2001 }
{}
