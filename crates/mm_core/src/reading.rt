//! What is read and asked of the window.
ghost use Rattle.std.specs.Prelude.{◌≡◌, ◌+◌, ◌<◌, ◌≤◌, ◌^◌, ◌%◌, length, IsTrue, IfOk, MatchResult, Ok, Err};
ghost use Rattle.memory_window.specs.Operations.{is_size};
ghost use Rattle.memory_window.specs.Access.{CanAsk};
ghost use Rattle.memory_window.specs.Window.{seen};
ghost use Rattle.mm_core.specs.Reading.{value_at, range_at, admission_of, protection_of};

use memory_window::{AccessFault, MemOp, Window};
use table_files::Files;

/// What MM reads beside its packets: the frame's image, and the files that were handed over.
#[derive(Clone, Copy)]
pub(crate) struct Reads<'a> {
    pub(crate) window: Window<'a>,
    pub(crate) files: &'a Files,
}

/// Reads 8, 16 or 32 bits.
#[tactic(auto, unfolding(crate::specs::Reading::value_at))]
pub(crate) fn value_at(window: Window<'_>, size: u8, at: u32) -> Result<u32, AccessFault>
    requires { IsTrue (is_size size) }
    ensures { result ≡ value_at (seen window.entry) size at }
{
    if size == 8 {
        return window.read8(at).map(u32::from);
    }
    if size == 16 {
        return window.read16(at).map(u32::from);
    }
    window.read32(at)
}

/// Whether an EEPROM region is protected, None where the number isn't that of one.
#[tactic(auto, unfolding(crate::specs::Reading::protection_of))]
pub(crate) fn protection_of(window: Window<'_>, region: u8) -> Option<bool>
    ensures { result ≡ protection_of (seen window.entry) region }
{
    window.protected(u32::from(region))
}

/// The bytes of a range.
#[tactic(auto, unfolding(crate::specs::Reading::range_at))]
pub(crate) fn range_at(window: Window<'_>, at: u32, len: u32) -> Result<&[u8], AccessFault>
    requires { 0 < len }
    ensures bytes { MatchResult result (λ bytes. range_at (seen window.entry) at len
        ≡ Ok bytes.now) (λ fault. range_at (seen window.entry) at len ≡ Err fault) }
    ensures len { IfOk result (λ bytes. length bytes.now ≡ len) }
    ensures ends { IfOk result (λ bytes. at + len ≤ 2 ^ 32) }
{
    window.bytes(at, len)
}

/// Whether an operation is admitted.
#[tactic(auto, unfolding(crate::specs::Reading::admission_of))]
pub(crate) fn admission_of(window: Window<'_>, op: &MemOp) -> Result<(), AccessFault>
    requires { CanAsk (seen window) op.now }
    ensures { result ≡ admission_of (seen window.entry) op.now }
{
    window.admits(op)
}

/// The low 8, 16 or 32 bits of a value.
pub(crate) fn low_bits(size: u8, value: u32) -> u32
    requires { IsTrue (is_size size) }
    ensures low { result ≡ value % 2 ^ size }
    ensures fits { result < 2 ^ size }
{
    if size == 8 {
        return value % 0x100;
    }
    if size == 16 {
        return value % 0x1_0000;
    }
    value
}
