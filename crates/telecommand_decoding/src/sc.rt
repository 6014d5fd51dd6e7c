//! What Stored Command makes of its commands' words.
ghost use Rattle.std.specs.Prelude.{◌≡◌, ℕ, [], ◌∷◌, Option, Ok, map, codes, slice_index};
ghost use Rattle.packet_forms.specs.Built.{command_of};
ghost use Rattle.packet_forms.specs.MessageIds.{sc_command, sc_request};
ghost use Rattle.sc_sequences.specs.Messages.{sc_codes};
ghost use Rattle.sc_sequences.specs.Instructions.{sc_language};
ghost use Rattle.sc_sequences.specs.Decoded.{to_disable_rts, to_enable_rts, to_jump_ats, to_nothing, to_start_ats, to_start_rts, to_stop_ats, to_stop_rts, to_switch_ats};
ghost use Rattle.telecommands.specs.Commands.{command_said};
ghost use Rattle.telecommands.specs.Dictionary.{dictionary};
ghost use Rattle.telecommand_decoding.specs.Decoding.{Decodes, codes_of};

/// The dictionary has exactly the codes that Stored Command takes, and the request for its housekeeping. Whatever words stand behind a
/// command's name, the packet that they say is decoded as this instruction with the numbers that they say, in their order.
pub fn sc_words_are_decoded()
    ensures codes { codes_of sc_command ≡ map (λ row. row.0) sc_codes }
    ensures request { (epoch : Option ℕ) (n : ℕ)
        → command_said epoch n dictionary (codes "sc.housekeeping" ∷ [])
        ≡ Ok (command_of sc_request 0 []) }
    ensures requests { codes_of sc_request ≡ 0 ∷ [] }
    ensures no_op { Decodes sc_language (codes "sc.no_op") 0 (λ ns. to_nothing) }
    ensures reset_counts { Decodes sc_language (codes "sc.reset_counts") 1 (λ ns. to_nothing) }
    ensures start_ats { Decodes sc_language (codes "sc.start_ats") 2
        (λ ns. to_start_ats (slice_index ns 0)) }
    ensures stop_ats { Decodes sc_language (codes "sc.stop_ats") 3 (λ ns. to_stop_ats) }
    ensures start_rts { Decodes sc_language (codes "sc.start_rts") 4
        (λ ns. to_start_rts (slice_index ns 0)) }
    ensures stop_rts { Decodes sc_language (codes "sc.stop_rts") 5
        (λ ns. to_stop_rts (slice_index ns 0)) }
    ensures disable_rts { Decodes sc_language (codes "sc.disable_rts") 6
        (λ ns. to_disable_rts (slice_index ns 0)) }
    ensures enable_rts { Decodes sc_language (codes "sc.enable_rts") 7
        (λ ns. to_enable_rts (slice_index ns 0)) }
    ensures switch_ats { Decodes sc_language (codes "sc.switch_ats") 8 (λ ns. to_switch_ats) }
    ensures jump_ats { Decodes sc_language (codes "sc.jump_ats") 9
        (λ ns. to_jump_ats (slice_index ns 0)) }
{}
