//! Laws of the definitions, as contracts of functions that do nothing.

ghost use Rattle.std.specs.Prelude.{◌≡◌, ◌<◌, ◌++◌, ◌∷◌, [], ℕ, List, Some, None, true, false, Ok, Err, map, flat_map, replicate, codes};
ghost use Rattle.std.specs.List.{AllByRecursion};
ghost use Rattle.packet_forms.specs.Names.{is_name, name_of};
ghost use Rattle.packet_forms.specs.declared.packet.PacketFault.TheVariants as packet_faults;
ghost use Rattle.bus_pipes.specs.declared.names.PipeName.TheVariants as pipes;
ghost use Rattle.bus_pipes.specs.declared.names.Dropped.{Dropped};
ghost use Rattle.bus_pipes.specs.declared.names.Out.TheVariants as outs;
ghost use Rattle.packet_log.specs.Lines.{packet_line, drop_line};
ghost use Rattle.packet_log.specs.Items.{request_line, item_line};
ghost use Rattle.log_lines.specs.declared.line.LogLine.{LogLine};
ghost use Rattle.log_lines.specs.Lines.{line_said, at_frame, dropped};
ghost use Rattle.log_lines.specs.Texts.{line_text, IsPacketOfBytes, IsLine, IsReadAs};
ghost use Rattle.log_lines.specs.Logs.{log_said, cut_in};

use crate::fault::LineFault;
use crate::line::LineItem;

/// The text of each line that there can be is read as it, whatever stands behind it.
pub fn lines_read_back()
    ensures { (line : LogLine) → IsLine line → IsReadAs (line_text line) line }
{}

/// The line of a packet is read as its frame and packet.
pub fn packet_lines_read_back()
    ensures { (frame : ℕ) (packet : List ℕ) → frame < 4294967296 → IsPacketOfBytes packet
        → IsReadAs (packet_line frame packet) (at_frame frame (LineItem.Packet packet)) }
{}

/// The line of a packet that was dropped is read as its frame, pipe, cause and packet.
pub fn drop_lines_read_back()
    ensures { (frame : ℕ) (lost : Dropped) → frame < 4294967296 → IsPacketOfBytes lost.packet
        → IsReadAs (drop_line frame lost) (at_frame frame (LineItem.Drop lost)) }
{}

/// The line of a request is read as its frame and request.
pub fn request_lines_read_back()
    ensures reset { (frame : ℕ) → frame < 4294967296
        → IsReadAs (request_line frame outs.Reset) (at_frame frame LineItem.Reset) }
    ensures restart { (frame : ℕ) (name : List ℕ) → frame < 4294967296 → is_name name ≡ true
        → IsReadAs (request_line frame (outs.Restart name))
        (at_frame frame (LineItem.Restart name)) }
    ensures delete { (frame : ℕ) (name : List ℕ) → frame < 4294967296 → is_name name ≡ true
        → IsReadAs (request_line frame (outs.Delete name)) (at_frame frame (LineItem.Delete name)) }
{}

/// The line of an item that is a packet is read as this packet, whether it was made or stored. Those of requests are `request_line`.
pub fn item_lines_read_back()
    ensures made { (frame : ℕ) (packet : List ℕ) → frame < 4294967296 → IsPacketOfBytes packet
        → IsReadAs (item_line frame (outs.Made packet)) (at_frame frame (LineItem.Packet packet)) }
    ensures stored { (frame : ℕ) (packet : List ℕ) → frame < 4294967296 → IsPacketOfBytes packet
        → IsReadAs (item_line frame (outs.Stored packet))
        (at_frame frame (LineItem.Packet packet)) }
{}

/// A line that says something is the text of what it says, without its LF: no other line says it.
pub fn lines_are_exact()
    ensures { (bytes : List ℕ) (line : LogLine) → line_said bytes ≡ Ok line
        → (line_text line ≡ bytes ++ 10 ∷ []) × IsLine line }
{}

/// A log of lines that there can be says these lines, and behind them what the text behind them says.
pub fn logs_read_back()
    ensures { (lines : List LogLine) (rest : List ℕ) → AllByRecursion IsLine lines
        → (log_said (flat_map line_text lines ++ rest) ≡ map Ok lines ++ log_said rest)
        × ((cut_in rest ≡ None) → cut_in (flat_map line_text lines ++ rest) ≡ None) }
{}

/// A text that says lines alone, and isn't cut off, is the log of these lines.
pub fn logs_are_exact()
    ensures { (text : List ℕ) (lines : List LogLine) → log_said text ≡ map Ok lines
        → cut_in text ≡ None
        → text ≡ flat_map line_text lines }
{}

/// Lines as logs have them, and what they say.
pub fn worked_lines()
    ensures packet { line_said (codes "0 pkt 0891C000000A000003E800000001000100")
        ≡ Ok (at_frame 0 (LineItem.Packet (0x08 ∷ 0x91 ∷ 0xC0 ∷ 0x00 ∷ 0x00 ∷ 0x0A ∷ 0x00 ∷ 0x00
        ∷ 0x03 ∷ 0xE8 ∷ 0x00 ∷ 0x00 ∷ 0x00 ∷ 0x01 ∷ 0x00 ∷ 0x01 ∷ 0x00 ∷ []))) }
    ensures limit { line_said (codes "99999 drop HS.EV limit 18AEC00000010088")
        ≡ Ok (at_frame 99999 (dropped pipes.HsEv false (0x18 ∷ 0xAE ∷ 0xC0 ∷ 0 ∷ 0 ∷ 1 ∷ 0 ∷ 0x88
        ∷ []))) }
    ensures full { line_said (codes "4294967295 drop LC.TLM full 088AC000000100AF")
        ≡ Ok (at_frame 4294967295 (dropped pipes.LcTlm true (0x08 ∷ 0x8A ∷ 0xC0 ∷ 0 ∷ 0 ∷ 1 ∷ 0
        ∷ 0xAF ∷ []))) }
    ensures reset { line_said (codes "7 reset") ≡ Ok (at_frame 7 LineItem.Reset) }
    ensures restart { line_said (codes "10 restart LOAD")
        ≡ Ok (at_frame 10 (LineItem.Restart (name_of (codes "LOAD")))) }
    ensures delete { line_said (codes "256 delete Abcdefghijklmnopq_9")
        ≡ Ok (at_frame 256 (LineItem.Delete (name_of (codes "Abcdefghijklmnopq_9")))) }
{}

/// Lines that are none of the log's, and why.
pub fn worked_faults()
    ensures empty { line_said [] ≡ Err LineFault.Frame }
    ensures zero_in_front { line_said (codes "07 reset") ≡ Err LineFault.Frame }
    ensures over { line_said (codes "4294967296 reset") ≡ Err LineFault.Frame }
    ensures hexadecimal { line_said (codes "0x7 reset") ≡ Err LineFault.Frame }
    ensures word { line_said (codes "7 tick") ≡ Err LineFault.Word }
    ensures two_spaces { line_said (codes "7  reset") ≡ Err LineFault.Word }
    ensures missing { line_said (codes "7 pkt") ≡ Err LineFault.Missing }
    ensures missing_cause { line_said (codes "7 drop MM") ≡ Err LineFault.Missing }
    ensures extra { line_said (codes "7 reset now") ≡ Err LineFault.Extra }
    ensures space_behind { line_said (codes "7 pkt 18AEC00000010088 ") ≡ Err LineFault.Extra }
    ensures pipe { line_said (codes "7 drop TBL full 18AEC00000010088") ≡ Err LineFault.Pipe }
    ensures cause { line_said (codes "7 drop MM over 18AEC00000010088") ≡ Err LineFault.Cause }
    ensures name { line_said (codes "7 restart A-B") ≡ Err LineFault.Name }
    ensures digits { line_said (codes "7 pkt 18aec00000010088") ≡ Err LineFault.Digits }
    ensures odd { line_said (codes "7 pkt 18AEC0000001008") ≡ Err LineFault.Digits }
    ensures size { line_said (codes "7 pkt 18AEC00000020088")
        ≡ Err (LineFault.Packet packet_faults.Length) }
    ensures long { line_said (replicate 641 0x31) ≡ Err LineFault.Long }
{}

/// A log of a whole line, of one that is none, and of one that is cut off.
pub fn worked_log()
    ensures said { log_said (codes "7 reset\nno line\n7 res")
        ≡ Ok (at_frame 7 LineItem.Reset) ∷ Err LineFault.Frame ∷ [] }
    ensures cut { cut_in (codes "7 reset\nno line\n7 res")
        ≡ Some (record { line = 3; fault = LineFault.Cut }) }
    ensures whole { cut_in (codes "7 reset\nno line\n") ≡ None }
    ensures nothing { log_said [] ≡ [] }
{}
