//! Words in spellings that no example of docs/COMMANDS.md has.
ghost use Rattle.std.specs.Prelude.{◌≡◌, ◌∷◌, [], Some, None, Ok, codes};
ghost use Rattle.row_forms.specs.Words.{words};
ghost use Rattle.telecommands.specs.Commands.{command_said, command_shown};
ghost use Rattle.telecommands.specs.Dictionary.{dictionary};

/// Several tables, in words and in bytes, and a time behind the epoch.
pub fn worked_spellings()
    ensures start { command_said None 1 dictionary (words (codes "md.start tables=1,3,4"))
        ≡ Ok (0x18 ∷ 0x90 ∷ 0xC0 ∷ 0x00 ∷ 0x00 ∷ 0x03 ∷ 0x02 ∷ 0xBB ∷ 0x00 ∷ 0x0D ∷ []) }
    ensures started { command_shown dictionary
        (0x18 ∷ 0x90 ∷ 0xC0 ∷ 0x00 ∷ 0x00 ∷ 0x03 ∷ 0x02 ∷ 0xBB ∷ 0x00 ∷ 0x0D ∷ [])
        ≡ codes "md.start tables=1,3,4" }
    ensures stop { command_said None 1 dictionary (words (codes "md.stop tables=1,3,4"))
        ≡ Ok (0x18 ∷ 0x90 ∷ 0xC0 ∷ 0x00 ∷ 0x00 ∷ 0x03 ∷ 0x03 ∷ 0xBA ∷ 0x00 ∷ 0x0D ∷ []) }
    ensures stopped { command_shown dictionary
        (0x18 ∷ 0x90 ∷ 0xC0 ∷ 0x00 ∷ 0x00 ∷ 0x03 ∷ 0x03 ∷ 0xBA ∷ 0x00 ∷ 0x0D ∷ [])
        ≡ codes "md.stop tables=1,3,4" }
    ensures jump { command_said (Some 1000) 1 dictionary (words (codes "sc.jump_ats time=+0:08:20"))
        ≡ Ok (0x18 ∷ 0xA9 ∷ 0xC0 ∷ 0x00 ∷ 0x00 ∷ 0x05 ∷ 0x09 ∷ 0x5B ∷ 0x00 ∷ 0x00 ∷ 0x05 ∷ 0xDC
        ∷ []) }
{}
