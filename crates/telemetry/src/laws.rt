//! Laws of the definitions, as contracts of functions that do nothing.
ghost use Rattle.std.specs.Prelude.{◌≡◌, ◌<◌, ◌++◌, ℕ, List, Option, None, true, map, codes, Ok};
ghost use Rattle.std.specs.List.{AllByRecursion};
ghost use Rattle.packet_forms.specs.Faults.{fault_of};
ghost use Rattle.packet_forms.specs.Hex.{hex};
ghost use Rattle.row_forms.specs.Words.{words};
ghost use Rattle.telemetry.specs.declared.row.TelemetryRow.{TelemetryRow};
ghost use Rattle.telemetry.specs.Dictionary.{placed, dictionary};
ghost use Rattle.telemetry.specs.Examples.{hs_examples, mm_examples, md_examples, cs_examples, sc_examples, lc_examples, event_examples, strange_packets};
ghost use Rattle.telemetry.specs.Telemetry.{are_good, are_distinct, telemetry_said, telemetry_shown};

/// The words that a packet is shown by say it: whatever the packet, the rows, the epoch and the number of the first word are.
pub fn telemetry_reads_back()
    ensures { (epoch : Option ℕ) (n : ℕ) (rows : List TelemetryRow) (packet : List ℕ)
        → are_good rows ≡ true → are_distinct rows ≡ true → AllByRecursion (λ b. b < 256) packet
        → fault_of packet ≡ None → telemetry_said epoch n rows (words (telemetry_shown rows packet))
        ≡ Ok packet }
{}

/// Rows whose texts lie elsewhere say the words as these rows do, and are shown by the same words: so what holds of the dictionary holds
/// of `telemetry_rows`.
pub fn places_say_nothing()
    ensures said { (epoch : Option ℕ) (n : ℕ) (rows : List TelemetryRow) (ws : List (List ℕ))
        → telemetry_said epoch n (map placed rows) ws ≡ telemetry_said epoch n rows ws }
    ensures shown { (rows : List TelemetryRow) (packet : List ℕ)
        → telemetry_shown (map placed rows) packet ≡ telemetry_shown rows packet }
{}

/// Telemetry packets of Health and Safety: their words say their bytes, and their bytes are shown as their words.
pub fn hs_telemetry_in_words()
    ensures said { map (λ e. telemetry_said None 1 dictionary (words e.text)) hs_examples
        ≡ map (λ e. Ok e.packet) hs_examples }
    ensures shown { map (λ e. telemetry_shown dictionary e.packet) hs_examples
        ≡ map (λ e. e.text) hs_examples }
{}

/// Telemetry packets of Memory Manager: their words say their bytes, and their bytes are shown as their words.
pub fn mm_telemetry_in_words()
    ensures said { map (λ e. telemetry_said None 1 dictionary (words e.text)) mm_examples
        ≡ map (λ e. Ok e.packet) mm_examples }
    ensures shown { map (λ e. telemetry_shown dictionary e.packet) mm_examples
        ≡ map (λ e. e.text) mm_examples }
{}

/// Telemetry packets of Memory Dwell: their words say their bytes, and their bytes are shown as their words.
pub fn md_telemetry_in_words()
    ensures said { map (λ e. telemetry_said None 1 dictionary (words e.text)) md_examples
        ≡ map (λ e. Ok e.packet) md_examples }
    ensures shown { map (λ e. telemetry_shown dictionary e.packet) md_examples
        ≡ map (λ e. e.text) md_examples }
{}

/// Telemetry packets of Checksum: their words say their bytes, and their bytes are shown as their words.
pub fn cs_telemetry_in_words()
    ensures said { map (λ e. telemetry_said None 1 dictionary (words e.text)) cs_examples
        ≡ map (λ e. Ok e.packet) cs_examples }
    ensures shown { map (λ e. telemetry_shown dictionary e.packet) cs_examples
        ≡ map (λ e. e.text) cs_examples }
{}

/// Telemetry packets of Stored Command: their words say their bytes, and their bytes are shown as their words.
pub fn sc_telemetry_in_words()
    ensures said { map (λ e. telemetry_said None 1 dictionary (words e.text)) sc_examples
        ≡ map (λ e. Ok e.packet) sc_examples }
    ensures shown { map (λ e. telemetry_shown dictionary e.packet) sc_examples
        ≡ map (λ e. e.text) sc_examples }
{}

/// Telemetry packets of Limit Checker: their words say their bytes, and their bytes are shown as their words.
pub fn lc_telemetry_in_words()
    ensures said { map (λ e. telemetry_said None 1 dictionary (words e.text)) lc_examples
        ≡ map (λ e. Ok e.packet) lc_examples }
    ensures shown { map (λ e. telemetry_shown dictionary e.packet) lc_examples
        ≡ map (λ e. e.text) lc_examples }
{}

/// Events: their words say their bytes, and their bytes are shown as their words.
pub fn events_in_words()
    ensures said { map (λ e. telemetry_said None 1 dictionary (words e.text)) event_examples
        ≡ map (λ e. Ok e.packet) event_examples }
    ensures shown { map (λ e. telemetry_shown dictionary e.packet) event_examples
        ≡ map (λ e. e.text) event_examples }
{}

/// Packets that no row says are shown as all their bytes: a command, a peek whose subseconds aren't 0, housekeeping that is too long or
/// has another byte than 0 between its fields, an id of no telemetry, an event without a name.
pub fn strange_packets_in_words()
    ensures { map (telemetry_shown dictionary) strange_packets
        ≡ map (λ packet. codes "packet=" ++ hex packet) strange_packets }
{}
