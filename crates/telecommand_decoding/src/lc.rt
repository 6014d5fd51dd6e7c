//! What Limit Checker makes of its commands' words.
ghost use Rattle.std.specs.Prelude.{◌≡◌, ℕ, [], ◌∷◌, Option, Ok, true, false, map, codes, slice_index};
ghost use Rattle.packet_forms.specs.Built.{command_of};
ghost use Rattle.packet_forms.specs.MessageIds.{lc_command, lc_request};
ghost use Rattle.lc_watch.specs.Messages.{lc_codes};
ghost use Rattle.lc_watch.specs.Instructions.{lc_language};
ghost use Rattle.lc_watch.specs.Decoded.{to_nothing, to_switch};
ghost use Rattle.telecommands.specs.Commands.{command_said};
ghost use Rattle.telecommands.specs.Dictionary.{dictionary};
ghost use Rattle.telecommand_decoding.specs.Decoding.{Decodes, codes_of};

/// The dictionary has exactly the codes that Limit Checker takes, and the request for its housekeeping. Whatever words stand behind a
/// command's name, the packet that they say is decoded as this instruction with the numbers that they say, in their order.
pub fn lc_words_are_decoded()
    ensures codes { codes_of lc_command ≡ map (λ row. row.0) lc_codes }
    ensures request { (epoch : Option ℕ) (n : ℕ)
        → command_said epoch n dictionary (codes "lc.housekeeping" ∷ [])
        ≡ Ok (command_of lc_request 0 []) }
    ensures requests { codes_of lc_request ≡ 0 ∷ [] }
    ensures no_op { Decodes lc_language (codes "lc.no_op") 0 (λ ns. to_nothing) }
    ensures reset_counts { Decodes lc_language (codes "lc.reset_counts") 1 (λ ns. to_nothing) }
    ensures set_active { Decodes lc_language (codes "lc.set_active") 2
        (λ ns. to_switch (slice_index ns 0) true) }
    ensures set_passive { Decodes lc_language (codes "lc.set_passive") 3
        (λ ns. to_switch (slice_index ns 0) false) }
{}
