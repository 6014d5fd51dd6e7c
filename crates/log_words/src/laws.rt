//! Literal lines of the log and their sentences, as contracts of functions that do nothing.

ghost use Rattle.std.specs.Prelude.{◌≡◌, Some, None, Ok, codes};
ghost use Rattle.log_words.specs.Worked.{sentence};

/// Lines of the first rehearsal of the README and of docs/SCENARIO.md.
pub fn worked_sentences()
    ensures event { sentence None (codes
        "1 pkt 0808C0010025000003E900004D4D000000000000000000000000000000000000001300020000004200000001")
        ≡ Ok (codes "frame 1: MM: command poke was accepted (event 19)") }
    ensures timed { sentence (Some 1000) (codes
        "1 pkt 0808C0010025000003E900004D4D000000000000000000000000000000000000001300020000004200000001")
        ≡ Ok (codes "time 1001: MM: command poke was accepted (event 19)") }
    ensures refused { sentence None (codes
        "1 pkt 0808C0010025000003E900004D4D000000000000000000000000000000000000000400030000004200000001")
        ≡ Ok (codes
        "frame 1: MM: a command was refused: the bytes lie in no region, or not all in one (event 4)") }
    ensures unknown { sentence None (codes
        "1 pkt 0808C0010025000003E900004E4156000000000000000000000000000000000007FF00020000004200000001")
        ≡ Ok (codes "frame 1: NAV: unknown event 2047 of type 2 (event 2047)") }
    ensures peek { sentence (Some 1000) (codes "2 pkt 088AC000000E000003EA00000800001010000000AB")
        ≡ Ok (codes
        "time 1002: mm.peek time=1002 count=0 width=8 address=0x00001010 value=0x000000AB") }
    ensures stored { sentence None (codes "7 pkt 1888C000000602330800001080")
        ≡ Ok (codes "frame 7: sent on board: mm.peek width=8 address=0x00001080") }
    ensures reset { sentence None (codes "9 reset")
        ≡ Ok (codes
        "frame 9: HS asks for a processor reset: behind this frame all applications start anew, on the first file of each table; memory, its protection and sequence counts stay") }
    ensures restart { sentence None (codes "9 restart LOAD")
        ≡ Ok (codes "frame 9: HS asks to restart LOAD") }
    ensures delete { sentence None (codes "9 delete LOAD")
        ≡ Ok (codes "frame 9: HS asks to delete LOAD") }
    ensures full { sentence (Some 4294000000) (codes "4294967295 drop MM full 1888C000000100AE")
        ≡ Ok (codes "time 8588967295: pipe MM is full, dropped: mm.no_op") }
    ensures limit { sentence None (codes
        "0 drop LC.TLM limit 088AC000000E000003EA00000800001010000000AB")
        ≡ Ok (codes
        "frame 0: pipe LC.TLM holds as many packets of this id as it may, dropped: mm.peek time=1002 count=0 width=8 address=0x00001010 value=0x000000AB") }
    ensures strange { sentence None (codes "3 pkt 07FFC000000100AE")
        ≡ Ok (codes "frame 3: packet=07FFC000000100AE") }
{}
