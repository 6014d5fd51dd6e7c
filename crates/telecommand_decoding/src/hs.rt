//! What Health and Safety makes of its commands' words.
ghost use Rattle.std.specs.Prelude.{◌≡◌, ℕ, [], ◌∷◌, Option, Ok, true, false, map, codes, slice_index};
ghost use Rattle.packet_forms.specs.Built.{command_of};
ghost use Rattle.packet_forms.specs.MessageIds.{hs_command, hs_request};
ghost use Rattle.hs_monitors.specs.Messages.{hs_codes};
ghost use Rattle.hs_monitors.specs.Instructions.{hs_language};
ghost use Rattle.hs_monitors.specs.Decoded.{to_clear, to_limit, to_listen, to_monitor, to_nothing};
ghost use Rattle.telecommands.specs.Commands.{command_said};
ghost use Rattle.telecommands.specs.Dictionary.{dictionary};
ghost use Rattle.telecommand_decoding.specs.Decoding.{Decodes, codes_of};

/// The dictionary has exactly the codes that Health and Safety takes, and the request for its housekeeping. Whatever words stand behind a
/// command's name, the packet that they say is decoded as this instruction with the numbers that they say, in their order.
pub fn hs_words_are_decoded()
    ensures codes { codes_of hs_command ≡ map (λ row. row.0) hs_codes }
    ensures request { (epoch : Option ℕ) (n : ℕ)
        → command_said epoch n dictionary (codes "hs.housekeeping" ∷ [])
        ≡ Ok (command_of hs_request 0 []) }
    ensures requests { codes_of hs_request ≡ 0 ∷ [] }
    ensures no_op { Decodes hs_language (codes "hs.no_op") 0 (λ ns. to_nothing) }
    ensures reset_counts { Decodes hs_language (codes "hs.reset_counts") 1 (λ ns. to_nothing) }
    ensures apps_on { Decodes hs_language (codes "hs.apps_on") 2 (λ ns. to_monitor true) }
    ensures apps_off { Decodes hs_language (codes "hs.apps_off") 3 (λ ns. to_monitor false) }
    ensures events_on { Decodes hs_language (codes "hs.events_on") 4 (λ ns. to_listen true) }
    ensures events_off { Decodes hs_language (codes "hs.events_off") 5 (λ ns. to_listen false) }
    ensures clear_resets { Decodes hs_language (codes "hs.clear_resets") 8 (λ ns. to_clear) }
    ensures max_resets { Decodes hs_language (codes "hs.max_resets") 9
        (λ ns. to_limit (slice_index ns 0)) }
{}
