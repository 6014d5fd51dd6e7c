//! What Memory Dwell makes of its commands' words.
ghost use Rattle.std.specs.Prelude.{◌≡◌, ℕ, [], ◌∷◌, Option, Ok, map, codes, slice_index};
ghost use Rattle.packet_forms.specs.Built.{command_of};
ghost use Rattle.packet_forms.specs.MessageIds.{md_command, md_request};
ghost use Rattle.md_dwell.specs.Messages.{md_codes};
ghost use Rattle.md_dwell.specs.Instructions.{md_language};
ghost use Rattle.md_dwell.specs.Decoded.{to_jam, to_nothing, to_start, to_stop};
ghost use Rattle.telecommands.specs.Commands.{command_said};
ghost use Rattle.telecommands.specs.Dictionary.{dictionary};
ghost use Rattle.telecommand_decoding.specs.Decoding.{Decodes, codes_of};

/// The dictionary has exactly the codes that Memory Dwell takes, and the request for its housekeeping. Whatever words stand behind a
/// command's name, the packet that they say is decoded as this instruction with the numbers that they say, in their order.
pub fn md_words_are_decoded()
    ensures codes { codes_of md_command ≡ map (λ row. row.0) md_codes }
    ensures request { (epoch : Option ℕ) (n : ℕ)
        → command_said epoch n dictionary (codes "md.housekeeping" ∷ [])
        ≡ Ok (command_of md_request 0 []) }
    ensures requests { codes_of md_request ≡ 0 ∷ [] }
    ensures no_op { Decodes md_language (codes "md.no_op") 0 (λ ns. to_nothing) }
    ensures reset_counts { Decodes md_language (codes "md.reset_counts") 1 (λ ns. to_nothing) }
    ensures start { Decodes md_language (codes "md.start") 2 (λ ns. to_start (slice_index ns 0)) }
    ensures stop { Decodes md_language (codes "md.stop") 3 (λ ns. to_stop (slice_index ns 0)) }
    ensures jam { Decodes md_language (codes "md.jam") 4
        (λ ns. to_jam (slice_index ns 0) (slice_index ns 1) (slice_index ns 2) (slice_index ns 3)
        (slice_index ns 4)) }
{}
