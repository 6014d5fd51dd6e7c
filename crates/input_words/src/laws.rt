//! Literal lines of what a scenario does, as contracts of functions that do nothing.

ghost use Rattle.std.specs.Prelude.{◌≡◌, ◌++◌, ◌∷◌, [], Some, None, codes};
ghost use Rattle.scenario.specs.declared.frame.App.TheVariants as apps;
ghost use Rattle.input_words.specs.Inputs.{activation_words, input_line, numbered_line, files_told};
ghost use Rattle.input_words.specs.Holds.{holds_told};
ghost use Rattle.input_words.specs.Counters.{counters_told};
ghost use Rattle.input_words.specs.Worked.{second, told, one_upset, one_packet, counted, behind_loads};

/// A line of each kind of item. An item's packet is the poke, and the event, of docs/COMMANDS.md.
pub fn worked_inputs()
    ensures upset { told (second 12) (one_upset 0x10200 0x5A)
        ≡ codes "time 1012: > an upset sets the byte at 0x00010200 to 0x5A" ++ 10 ∷ [] }
    ensures frame { told (record { epoch = None; frame = 12 }) (one_upset 0xABCDEF01 7)
        ≡ codes "frame 12: > an upset sets the byte at 0xABCDEF01 to 0x07" ++ 10 ∷ [] }
    ensures command { told (second 0) (one_packet (0x18 ∷ 0x88 ∷ 0xC0 ∷ 0x00 ∷ 0x00 ∷ 0x06 ∷ 0x02
        ∷ 0x33 ∷ 0x08 ∷ 0x00 ∷ 0x00 ∷ 0x10 ∷ 0x80 ∷ []))
        ≡ codes "time 1000: > ground sends mm.peek width=8 address=0x00001080" ++ 10 ∷ [] }
    ensures strange { told (second 0) (one_packet (0x07 ∷ 0xFF ∷ 0xC0 ∷ 0x00 ∷ 0x00 ∷ 0x01 ∷ 0x00
        ∷ 0xAE ∷ []))
        ≡ codes "time 1000: > the scenario sends packet=07FFC000000100AE" ++ 10 ∷ [] }
    ensures activation { input_line (second 3)
        (activation_words 3 (Some (codes "standby, MD.DWELL_TABLE1")))
        ≡ codes "time 1003: > file 3 is to become active: standby, MD.DWELL_TABLE1" ++ 10 ∷ [] }
    ensures missing { input_line (second 3) (activation_words 9 None)
        ≡ codes "time 1003: > file 9 is to become active, and there is no such file" ++ 10 ∷ [] }
{}

/// An application that is held is told in the first frame that holds it, and in the first behind it that doesn't.
pub fn worked_holds()
    ensures held { holds_told (second 1) [] (apps.Mm ∷ apps.Mm ∷ [])
        ≡ codes "time 1001: > MM is held: from here on it isn't woken" ++ 10 ∷ [] }
    ensures still { holds_told (second 2) (apps.Mm ∷ []) (apps.Mm ∷ []) ≡ [] }
    ensures woken { holds_told (second 3) (apps.Mm ∷ []) [] ≡ codes "time 1003: > MM is woken again"
        ++ 10 ∷ [] }
    ensures other { holds_told (second 3) (apps.Hs ∷ []) (apps.Md ∷ [])
        ≡ codes "time 1003: > HS is woken again" ++ 10
        ∷ codes "time 1003: > MD is held: from here on it isn't woken" ++ 10 ∷ [] }
{}

/// The FILEs of a rehearsal.
pub fn worked_files()
    ensures none { files_told [] ≡ codes "> no files" ++ 10 ∷ [] }
    ensures one { numbered_line 12 (codes "dwell1, MD.DWELL_TABLE1")
        ≡ codes "> file 12: dwell1, MD.DWELL_TABLE1" ++ 10 ∷ [] }
{}

/// A counter that advances tells nothing. It is told in the first frame in which it has its last value again, or has none, and in the first
/// one in which it advances again; of two of a name the first counts.
pub fn worked_counters()
    ensures first { counters_told (second 0) (behind_loads []) (counted (codes "LOAD") 5 ∷ [])
        ≡ [] }
    ensures advances { counters_told (second 1) (behind_loads (5 ∷ [])) (counted (codes "LOAD") 6
        ∷ []) ≡ [] }
    ensures stops { counters_told (second 2) (behind_loads (6 ∷ 5 ∷ [])) (counted (codes "LOAD") 6
        ∷ [])
        ≡ codes "time 1002: > LOAD's execution counter stands still with the value 6" ++ 10 ∷ [] }
    ensures missing { counters_told (second 2) (behind_loads (6 ∷ 5 ∷ [])) []
        ≡ codes "time 1002: > LOAD's execution counter stands still with the value 6" ++ 10 ∷ [] }
    ensures stands { counters_told (second 3) (behind_loads (6 ∷ 6 ∷ 5
        ∷ [])) (counted (codes "LOAD") 6 ∷ []) ≡ [] }
    ensures goes_on { counters_told (second 4) (behind_loads (6 ∷ 6 ∷ 5
        ∷ [])) (counted (codes "LOAD") 9 ∷ [])
        ≡ codes "time 1004: > LOAD's execution counter goes on with the value 9" ++ 10 ∷ [] }
    ensures twice { counters_told (second 2) (behind_loads (6 ∷ 5 ∷ [])) (counted (codes "LOAD") 6
        ∷ counted (codes "LOAD") 7 ∷ [])
        ≡ codes "time 1002: > LOAD's execution counter stands still with the value 6" ++ 10 ∷ [] }
{}
