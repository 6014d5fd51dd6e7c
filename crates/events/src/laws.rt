//! Laws of the definitions, as contracts of functions that do nothing.
ghost use Rattle.std.specs.Prelude.{◌≡◌, ℕ, List, map, codes};
ghost use Rattle.events.specs.declared.event.Event.{Event};
ghost use Rattle.events.specs.declared.refusal.Refusal.{Refusal};
ghost use Rattle.events.specs.Events.{event_said};
ghost use Rattle.events.specs.Refusals.{refusal_said};
ghost use Rattle.events.specs.Tables.{placed_event, placed_refusal, event_table, refusal_table};

/// Rows whose texts lie elsewhere tell what these rows do: so what holds of the tables holds of `events` and `refusals`.
pub fn places_say_nothing()
    ensures event { (es : List Event) (application : List ℕ) (number kind : ℕ)
        → event_said (map placed_event es) application number kind
        ≡ event_said es application number kind }
    ensures refusal { (es : List Event) (rs : List Refusal) (application : List ℕ) (code number : ℕ)
        → refusal_said (map placed_event es) (map placed_refusal rs) application code number
        ≡ refusal_said es rs application code number }
{}

/// Literal sentences of events and refusals, of each application and of activations, and of numbers that no row has.
pub fn worked_sentences()
    ensures accepted { event_said event_table (codes "MM") 19 2
        ≡ codes "MM: command poke was accepted" }
    ensures refused { event_said event_table (codes "MM") 4 3
        ≡ codes "MM: a command was refused: the bytes lie in no region, or not all in one" }
    ensures checksum { event_said event_table (codes "HS") 1 3
        ≡ codes "HS: a command was refused: its checksum is wrong" }
    ensures acted { event_said event_table (codes "HS") 105 3
        ≡ codes
        "HS: an application monitor acted, and watches no more: as many resets were made as may be, and none is asked for" }
    ensures dwell { event_said event_table (codes "MD") 20 2
        ≡ codes "MD: command jam was accepted" }
    ensures miscompare { event_said event_table (codes "CS") 101 3
        ≡ codes "CS: the bytes that were read have another CRC than the baseline" }
    ensures ended { event_said event_table (codes "SC") 103 2
        ≡ codes "SC: the absolute sequence ended" }
    ensures fired { event_said event_table (codes "LC") 101 3
        ≡ codes "LC: an actionpoint fired: it starts its relative sequence, and is passive from here on" }
    ensures running { event_said event_table (codes "TBL") 3 3
        ≡ codes "TBL: the file's sequence runs, and its table didn't become active" }
    ensures other_type { event_said event_table (codes "MM") 19 3
        ≡ codes "MM: unknown event 19 of type 3" }
    ensures other_name { event_said event_table (codes "NAV") 65535 2
        ≡ codes "NAV: unknown event 65535 of type 2" }
    ensures poke { refusal_said event_table refusal_table (codes "MM") 3 4
        ≡ codes "MM: command poke was refused: the bytes lie in no region, or not all in one" }
    ensures jam { refusal_said event_table refusal_table (codes "MD") 4 4
        ≡ codes "MD: command jam was refused: the table isn't 1 to 4" }
    ensures length { refusal_said event_table refusal_table (codes "SC") 9 3
        ≡ codes "SC: command jump_ats was refused: its payload has another length" }
    ensures code { refusal_said event_table refusal_table (codes "CS") 99 2
        ≡ codes "CS: command of code 99 was refused: there is no such code" }
    ensures other_reason { refusal_said event_table refusal_table (codes "LC") 2 6
        ≡ codes "LC: command set_active was refused: unknown reason 6" }
{}
