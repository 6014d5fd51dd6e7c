//! What Memory Manager makes of its commands' words.
ghost use Rattle.std.specs.Prelude.{◌≡◌, ℕ, List, [], ◌∷◌, Option, Ok, true, false, map, codes, slice_index};
ghost use Rattle.packet_forms.specs.Built.{command_of};
ghost use Rattle.packet_forms.specs.MessageIds.{mm_command, mm_request};
ghost use Rattle.mm_core.specs.Messages.{mm_codes};
ghost use Rattle.mm_core.specs.Instructions.{mm_language};
ghost use Rattle.mm_core.specs.Decoded.{to_dump, to_fill, to_load_file, to_nothing, to_peek, to_poke, to_protect};
ghost use Rattle.telecommands.specs.Commands.{command_said};
ghost use Rattle.telecommands.specs.Dictionary.{dictionary};
ghost use Rattle.telecommand_decoding.specs.Decoding.{Decodes, codes_of, fields_of};
ghost use Rattle.telecommand_decoding.specs.Loads.{IsLoadDecoded};
ghost use Rattle.row_forms.specs.RowNumbers.{numbers_said};

/// The dictionary has exactly the codes that Memory Manager takes, and the request for its housekeeping. Whatever words stand behind a
/// command's name, the packet that they say is decoded as this instruction with the numbers that they say, in their order.
pub fn mm_words_are_decoded()
    ensures codes { codes_of mm_command ≡ map (λ row. row.0) mm_codes }
    ensures request { (epoch : Option ℕ) (n : ℕ)
        → command_said epoch n dictionary (codes "mm.housekeeping" ∷ [])
        ≡ Ok (command_of mm_request 0 []) }
    ensures requests { codes_of mm_request ≡ 0 ∷ [] }
    ensures no_op { Decodes mm_language (codes "mm.no_op") 0 (λ ns. to_nothing) }
    ensures reset_counts { Decodes mm_language (codes "mm.reset_counts") 1 (λ ns. to_nothing) }
    ensures peek { Decodes mm_language (codes "mm.peek") 2
        (λ ns. to_peek (slice_index ns 0) (slice_index ns 1)) }
    ensures poke { Decodes mm_language (codes "mm.poke") 3
        (λ ns. to_poke (slice_index ns 0) (slice_index ns 1) (slice_index ns 2)) }
    ensures load { (epoch : Option ℕ) (n : ℕ) (ws : List (List ℕ)) (packet : List ℕ)
        → command_said epoch n dictionary (codes "mm.load" ∷ ws) ≡ Ok packet
        → IsLoadDecoded (numbers_said epoch (fields_of (codes "mm.load")) ws) packet }
    ensures load_file { Decodes mm_language (codes "mm.load_file") 5
        (λ ns. to_load_file (slice_index ns 0)) }
    ensures fill { Decodes mm_language (codes "mm.fill") 8
        (λ ns. to_fill (slice_index ns 0) (slice_index ns 1) (slice_index ns 2)) }
    ensures eeprom_enable { Decodes mm_language (codes "mm.eeprom_enable") 11
        (λ ns. to_protect (slice_index ns 0) false) }
    ensures eeprom_disable { Decodes mm_language (codes "mm.eeprom_disable") 12
        (λ ns. to_protect (slice_index ns 0) true) }
    ensures dump { Decodes mm_language (codes "mm.dump") 13
        (λ ns. to_dump (slice_index ns 0) (slice_index ns 1)) }
{}
