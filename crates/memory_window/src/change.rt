//! Changes of the bytes of all regions.
ghost use Rattle.std.specs.Prelude.{◌≡◌, false, length};
ghost use Rattle.std.specs.List.{list_any};
ghost use Rattle.memory_window.specs.Regions.{ends_late, total_of};
ghost use Rattle.memory_window.specs.Memory.{cut, changed};

use crate::regions::Region;

/// What becomes of each byte, by its address and what it was.
pub(crate) trait Change {
    ghost use Rattle.std.specs.Prelude.{ℕ, ◌≡◌, ◌+◌, ◌<◌, ◌≤◌, ◌^◌, length, slice_index};

    ghost byte: { Self → ℕ → ℕ → ℕ };

    ghost is_possible: { Self → Type 0 };

    /// Changes the bytes of a bank whose first byte has the address `at`.
    fn apply(&self, at: u32, bank: &mut [u8])
        requires fits { at + length bank.old ≤ 2 ^ 32 }
        requires possible { is_possible self.now }
        ensures { (k : ℕ) → k < length bank.old
            → slice_index bank.new k ≡ byte self.now (at + k) (slice_index bank.old k) };
}

/// One byte that becomes a value.
#[derive(Clone, Copy)]
pub(crate) struct Upset {
    pub(crate) at: u32,
    pub(crate) value: u8,
}

impl Change for Upset {
    ghost use Rattle.std.specs.Prelude.{nat_eq, if◌then◌else◌};

    ghost byte = { λ u a x. if nat_eq a u.at then u.value else x };

    ghost is_possible = { λ u. Unit {0} };

    fn apply(&self, at: u32, bank: &mut [u8]) {
        if self.at < at {
            return;
        }
        let place = (self.at - at) as usize;
        if place < bank.len() {
            bank[place] = self.value;
        }
    }
}

/// Changes the bytes of each region of a block in which the regions lie side by side.
pub(crate) fn change_all<C: Change>(block: &mut [u8], regions: &[Region], change: &C)
    requires whole { total_of regions.now ≡ length block.old }
    requires within { list_any ends_late regions.now ≡ false }
    requires possible { C.is_possible change.now }
    ensures { cut regions.now block.new ≡ changed (C.byte change.now) (cut regions.now block.old) }
{
    let mut from = 0;
    for region in regions {
        let to = from + region.len as usize;
        change.apply(region.start, &mut block[from..to]);
        from = to;
    }
}
