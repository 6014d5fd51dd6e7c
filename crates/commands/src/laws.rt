//! The laws of verdicts and answers, and worked rows. The functions do nothing: their contracts are the laws.
ghost use Rattle.std.specs.Prelude.{◌≡◌, ◌<◌, ◌≤◌, ℕ, length, List, [], ◌∷◌, ◌++◌, map, false};
ghost use Rattle.bus_pipes.specs.declared.names.Out.TheVariants as outs;
ghost use Rattle.packet_forms.specs.Packets.{payload_of};
ghost use Rattle.commands.specs.Verdicts.{Protocol, IsListedCommand, orders_in, verdict_at, judged_own, verdicts_on};
ghost use Rattle.commands.specs.Counting.{counts_of};
ghost use Rattle.commands.specs.Answering.{Answers, packet_items, command_items};
ghost use Rattle.commands.specs.Machine.{machine_protocol, machine_answers, machine_name};
ghost use Rattle.commands.specs.declared.verdicts.CodeRow.{CodeRow};
ghost use Rattle.commands.specs.declared.verdicts.Verdict.{Verdict};
ghost use Rattle.commands.specs.declared.verdicts.Verdict.TheVariants.{Other, Request, Refused, Accepted};

/// The verdicts on one packet more; and where refusals don't look at what was ordered, those on each packet by itself.
#[tactic(auto, using(crate::proofs::Heard::verdicts_more, crate::proofs::Plain::each_by_itself))]
pub fn verdicts_law<B, I, E>()
    ensures more { (protocol : Protocol B I E) (basis : B) (done : List (List ℕ)) (p : List ℕ)
        → verdicts_on protocol basis (done ++ p ∷ []) ≡ verdicts_on protocol basis done
        ++ verdict_at protocol basis (orders_in (verdicts_on protocol basis done)) p ∷ [] }
    ensures plain { (protocol : Protocol B I E) (basis : B) (packets : List (List ℕ))
        → ((orders : List I) (instruction : I)
        → protocol.refuses basis orders instruction ≡ protocol.refuses basis [] instruction)
        → verdicts_on protocol basis packets ≡ map (verdict_at protocol basis []) packets }
{}

/// The answers to one packet more.
#[tactic(auto, using(crate::proofs::Plain::answers_more))]
pub fn answers_law<T, I>()
    ensures { (answers : Answers T I) (name : List ℕ) (turn : T) (heard : List (Verdict I))
        (verdict : Verdict I)
        → command_items answers name turn (heard ++ verdict ∷ [])
        ≡ command_items answers name turn heard
        ++ packet_items answers name turn heard verdict }
{}

/// A command is refused with 3 where its payload is shorter or longer than its code's row says; at the shortest and the longest length, and
/// between them, its own refusals decide.
#[tactic(auto, using(crate::proofs::Lengths::too_short, crate::proofs::Lengths::too_long, crate::proofs::Lengths::long_enough))]
pub fn lengths_law<B, I, E>()
    ensures short { (protocol : Protocol B I E) (basis : B) (orders : List I) (row : CodeRow)
        (p : List ℕ)
        → IsListedCommand protocol row p → length (payload_of p) < row.1
        → verdict_at protocol basis orders p ≡ Refused 3 }
    ensures long { (protocol : Protocol B I E) (basis : B) (orders : List I) (row : CodeRow)
        (p : List ℕ)
        → IsListedCommand protocol row p → row.2 < length (payload_of p)
        → verdict_at protocol basis orders p ≡ Refused 3 }
    ensures within { (protocol : Protocol B I E) (basis : B) (orders : List I) (row : CodeRow)
        (p : List ℕ)
        → IsListedCommand protocol row p → row.1 ≤ length (payload_of p)
        → length (payload_of p) ≤ row.2
        → verdict_at protocol basis orders p ≡ judged_own protocol basis orders p }
{}

/// The first three refusals come in order, before a command's own.
pub fn refusal_rows()
    ensures checksum { verdict_at machine_protocol false [] (0x18 ∷ 0x88 ∷ 0xC0 ∷ 0 ∷ 0 ∷ 2 ∷ 6
        ∷ 0xA3 ∷ 9 ∷ []) ≡ Refused 1 }
    ensures code { verdict_at machine_protocol false [] (0x18 ∷ 0x88 ∷ 0xC0 ∷ 0 ∷ 0 ∷ 2 ∷ 6 ∷ 0xA2
        ∷ 9 ∷ []) ≡ Refused 2 }
    ensures long { verdict_at machine_protocol false [] (0x18 ∷ 0x88 ∷ 0xC0 ∷ 0 ∷ 0 ∷ 2 ∷ 3 ∷ 0xA7
        ∷ 9 ∷ []) ≡ Refused 3 }
    ensures short { verdict_at machine_protocol false [] (0x18 ∷ 0x88 ∷ 0xC0 ∷ 0 ∷ 0 ∷ 7 ∷ 4 ∷ 0xAC
        ∷ 0 ∷ 0 ∷ 0 ∷ 0 ∷ 0 ∷ 0 ∷ []) ≡ Refused 3 }
    ensures own { verdict_at machine_protocol false [] (0x18 ∷ 0x88 ∷ 0xC0 ∷ 0 ∷ 0 ∷ 1 ∷ 3 ∷ 0xAD
        ∷ []) ≡ Refused 6 }
    ensures accepted { verdict_at machine_protocol false [] (0x18 ∷ 0x88 ∷ 0xC0 ∷ 0 ∷ 0 ∷ 8 ∷ 4
        ∷ 0xA3 ∷ 0 ∷ 0 ∷ 0 ∷ 0 ∷ 0 ∷ 0 ∷ 0 ∷ []) ≡ Accepted 4 4 }
    ensures request { verdict_at machine_protocol false [] (0x18 ∷ 0x89 ∷ 0xC0 ∷ 0 ∷ 0 ∷ 1 ∷ 0
        ∷ 0xAF ∷ []) ≡ Request }
    ensures wrong_request { verdict_at machine_protocol false [] (0x18 ∷ 0x89 ∷ 0xC0 ∷ 0 ∷ 0 ∷ 1 ∷ 0
        ∷ 0xAE ∷ []) ≡ Request }
    ensures long_request { verdict_at machine_protocol false [] (0x18 ∷ 0x89 ∷ 0xC0 ∷ 0 ∷ 0 ∷ 3
        ∷ 0x7F ∷ 0xD1 ∷ 1 ∷ 2 ∷ []) ≡ Request }
    ensures other { verdict_at machine_protocol false [] (0x18 ∷ 0x90 ∷ 0xC0 ∷ 0 ∷ 0 ∷ 1 ∷ 0 ∷ 0xB6
        ∷ []) ≡ Other }
{}

/// A start, the same again, a stop, the same again: each is judged by what was ordered before it in the wakeup.
pub fn state_rows()
    ensures { verdicts_on machine_protocol false ((0x18 ∷ 0x88 ∷ 0xC0 ∷ 0 ∷ 0 ∷ 1 ∷ 2 ∷ 0xAC ∷ [])
        ∷ (0x18 ∷ 0x88 ∷ 0xC0 ∷ 0 ∷ 0 ∷ 1 ∷ 2 ∷ 0xAC ∷ [])
        ∷ (0x18 ∷ 0x88 ∷ 0xC0 ∷ 0 ∷ 0 ∷ 1 ∷ 3 ∷ 0xAD ∷ [])
        ∷ (0x18 ∷ 0x88 ∷ 0xC0 ∷ 0 ∷ 0 ∷ 1 ∷ 3 ∷ 0xAD ∷ []) ∷ []) ≡ Accepted 2 2 ∷ Refused 5
        ∷ Accepted 3 3 ∷ Refused 6 ∷ [] }
{}

/// A wakeup of that machine: a request shows what was ordered and counted before it, a reset sets both counts to 0 and isn't counted.
pub fn answer_rows()
    ensures items { command_items machine_answers machine_name
        (record {
          time = 1001;
          ran = false;
          earlier = Accepted 0 0 ∷ Refused 2 ∷ Accepted 0 0
              ∷ Refused 3 ∷ Accepted 0 0 ∷ [];
        }) (Accepted 2 2 ∷ Request ∷ Refused 5 ∷ Accepted 1 1
        ∷ Other ∷ Accepted 3 3 ∷ Request ∷ [])
        ≡ outs.Made (8 ∷ 8 ∷ 0xC0 ∷ 0 ∷ 0 ∷ 0x25 ∷ 0 ∷ 0 ∷ 3 ∷ 0xE9 ∷ 0 ∷ 0 ∷ 0x4D ∷ 0x4D ∷ 0 ∷ 0
        ∷ 0 ∷ 0 ∷ 0 ∷ 0 ∷ 0 ∷ 0 ∷ 0 ∷ 0 ∷ 0 ∷ 0 ∷ 0 ∷ 0 ∷ 0 ∷ 0 ∷ 0 ∷ 0 ∷ 0 ∷ 0x12 ∷ 0 ∷ 2 ∷ 0 ∷ 0
        ∷ 0 ∷ 0x42 ∷ 0 ∷ 0 ∷ 0 ∷ 1 ∷ []) ∷ outs.Made (8 ∷ 0x87 ∷ 0xC0 ∷ 0 ∷ 0 ∷ 8 ∷ 0 ∷ 0 ∷ 3 ∷ 0xE9
        ∷ 0 ∷ 0 ∷ 4 ∷ 2 ∷ 1 ∷ []) ∷ outs.Made (8 ∷ 8 ∷ 0xC0 ∷ 0 ∷ 0 ∷ 0x25 ∷ 0 ∷ 0 ∷ 3 ∷ 0xE9 ∷ 0
        ∷ 0 ∷ 0x4D ∷ 0x4D ∷ 0 ∷ 0 ∷ 0 ∷ 0 ∷ 0 ∷ 0 ∷ 0 ∷ 0 ∷ 0 ∷ 0 ∷ 0 ∷ 0 ∷ 0 ∷ 0 ∷ 0 ∷ 0 ∷ 0 ∷ 0
        ∷ 0 ∷ 5 ∷ 0 ∷ 3 ∷ 0 ∷ 0 ∷ 0 ∷ 0x42 ∷ 0 ∷ 0 ∷ 0 ∷ 1 ∷ [])
        ∷ outs.Made (8 ∷ 8 ∷ 0xC0 ∷ 0 ∷ 0 ∷ 0x25 ∷ 0 ∷ 0 ∷ 3 ∷ 0xE9 ∷ 0 ∷ 0 ∷ 0x4D ∷ 0x4D ∷ 0 ∷ 0
        ∷ 0 ∷ 0 ∷ 0 ∷ 0 ∷ 0 ∷ 0 ∷ 0 ∷ 0 ∷ 0 ∷ 0 ∷ 0 ∷ 0 ∷ 0 ∷ 0 ∷ 0 ∷ 0 ∷ 0 ∷ 0x11 ∷ 0 ∷ 2 ∷ 0 ∷ 0
        ∷ 0 ∷ 0x42 ∷ 0 ∷ 0 ∷ 0 ∷ 1 ∷ []) ∷ outs.Made (8 ∷ 8 ∷ 0xC0 ∷ 0 ∷ 0 ∷ 0x25 ∷ 0 ∷ 0 ∷ 3 ∷ 0xE9
        ∷ 0 ∷ 0 ∷ 0x4D ∷ 0x4D ∷ 0 ∷ 0 ∷ 0 ∷ 0 ∷ 0 ∷ 0 ∷ 0 ∷ 0 ∷ 0 ∷ 0 ∷ 0 ∷ 0 ∷ 0 ∷ 0 ∷ 0 ∷ 0 ∷ 0
        ∷ 0 ∷ 0 ∷ 0x13 ∷ 0 ∷ 2 ∷ 0 ∷ 0 ∷ 0 ∷ 0x42 ∷ 0 ∷ 0 ∷ 0 ∷ 1 ∷ [])
        ∷ outs.Made (8 ∷ 0x87 ∷ 0xC0 ∷ 0 ∷ 0 ∷ 8 ∷ 0 ∷ 0 ∷ 3 ∷ 0xE9 ∷ 0 ∷ 0 ∷ 1 ∷ 0 ∷ 0 ∷ []) ∷ [] }
    ensures counts { counts_of {I = ℕ} (Accepted 0 0 ∷ Refused 2 ∷ Accepted 0 0 ∷ Refused 3
        ∷ Accepted 0 0 ∷ []) ≡ record { accepted = 3; errors = 2 } }
{}
