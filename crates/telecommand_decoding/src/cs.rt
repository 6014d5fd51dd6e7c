//! What Checksum makes of its commands' words.
ghost use Rattle.std.specs.Prelude.{◌≡◌, ℕ, [], ◌∷◌, Option, Ok, true, false, map, codes, slice_index};
ghost use Rattle.packet_forms.specs.Built.{command_of};
ghost use Rattle.packet_forms.specs.MessageIds.{cs_command, cs_request};
ghost use Rattle.cs_slices.specs.Messages.{cs_codes};
ghost use Rattle.cs_slices.specs.Instructions.{cs_language};
ghost use Rattle.cs_slices.specs.Decoded.{to_entry, to_nothing, to_report, to_table, to_whole};
ghost use Rattle.telecommands.specs.Commands.{command_said};
ghost use Rattle.telecommands.specs.Dictionary.{dictionary};
ghost use Rattle.telecommand_decoding.specs.Decoding.{Decodes, codes_of};

/// The dictionary has exactly the codes that Checksum takes, and the request for its housekeeping. Whatever words stand behind a
/// command's name, the packet that they say is decoded as this instruction with the numbers that they say, in their order.
pub fn cs_words_are_decoded()
    ensures codes { codes_of cs_command ≡ map (λ row. row.0) cs_codes }
    ensures request { (epoch : Option ℕ) (n : ℕ)
        → command_said epoch n dictionary (codes "cs.housekeeping" ∷ [])
        ≡ Ok (command_of cs_request 0 []) }
    ensures requests { codes_of cs_request ≡ 0 ∷ [] }
    ensures no_op { Decodes cs_language (codes "cs.no_op") 0 (λ ns. to_nothing) }
    ensures reset_counts { Decodes cs_language (codes "cs.reset_counts") 1 (λ ns. to_nothing) }
    ensures on { Decodes cs_language (codes "cs.on") 2 (λ ns. to_whole true) }
    ensures off { Decodes cs_language (codes "cs.off") 3 (λ ns. to_whole false) }
    ensures table_on { Decodes cs_language (codes "cs.table_on") 4
        (λ ns. to_table (slice_index ns 0) true) }
    ensures table_off { Decodes cs_language (codes "cs.table_off") 5
        (λ ns. to_table (slice_index ns 0) false) }
    ensures entry_on { Decodes cs_language (codes "cs.entry_on") 6
        (λ ns. to_entry (slice_index ns 0) (slice_index ns 1) true) }
    ensures entry_off { Decodes cs_language (codes "cs.entry_off") 7
        (λ ns. to_entry (slice_index ns 0) (slice_index ns 1) false) }
    ensures report { Decodes cs_language (codes "cs.report") 8
        (λ ns. to_report (slice_index ns 0) (slice_index ns 1)) }
{}
