//! What is read of the window.
ghost use Rattle.std.specs.Prelude.{◌≡◌, ◌+◌, ◌≤◌, ◌++◌, length};
ghost use Rattle.memory_window.specs.Window.{seen};
ghost use Rattle.md_dwell.specs.Reading.{value_of, entry_bytes, bytes_of_value};
ghost use Rattle.md_dwell.specs.Verdicts.{is_readable};

use crate::payload::Payload;
use crate::tables::DwellEntry;
use memory_window::Window;

/// Whether an entry has length 0, or its read meets no fault.
#[tactic(auto, unfolding(crate::specs::Reading::value_of, crate::specs::Verdicts::is_readable))]
pub(crate) fn is_readable(window: Window<'_>, entry: DwellEntry) -> bool
    ensures { result ≡ is_readable (seen window.entry) entry }
{
    if entry.len == 0 {
        return true;
    }
    if entry.len == 1 {
        return window.read8(entry.at).is_ok();
    }
    if entry.len == 2 {
        return window.read16(entry.at).is_ok();
    }
    window.read32(entry.at).is_ok()
}

/// Puts the bytes of an entry behind the others.
#[tactic(auto, unfolding(crate::specs::Reading::value_of, crate::specs::Reading::entry_bytes, crate::specs::Reading::bytes_of_value, packet_forms::specs::Numbers::be16_bytes, packet_forms::specs::Numbers::be32_bytes))]
pub(crate) fn read(window: &Window<'_>, entry: DwellEntry, bytes: &mut Payload)
    requires { length bytes.old + 4 ≤ 104 }
    ensures bytes { bytes.new ≡ bytes.old ++ entry_bytes (seen window.now) entry }
    ensures few { length bytes.new ≤ length bytes.old + 4 }
{
    if entry.len == 1 {
        match window.read8(entry.at) {
            Ok(value) => bytes.append(&[value]),
            Err(_) => {}
        }
        return;
    }
    if entry.len == 2 {
        match window.read16(entry.at) {
            Ok(value) => bytes.append(&value.to_be_bytes()),
            Err(_) => {}
        }
        return;
    }
    match window.read32(entry.at) {
        Ok(value) => bytes.append(&value.to_be_bytes()),
        Err(_) => {}
    }
}
