//! Which reads and ranges memory of a map gives, whatever its bytes are.
ghost use Rattle.std.specs.Prelude.{◌≡◌, ◌<◌, find, IsTrue};
ghost use Rattle.memory_window.specs.Regions.{spans};
ghost use Rattle.memory_window.specs.Operations.{is_size};
ghost use Rattle.memory_window.specs.Fitting.{read_fits, bytes_fit};

use crate::regions::{Map, Region};

impl Map {
    ghost use Rattle.memory_window.specs.Access.{gives_read, gives_bytes};

    /// Whether memory of this map gives a read of `size` bits (8, 16 or 32) at an address.
    pub fn gives_read(&self, size: u8, at: u32) -> bool
        requires { IsTrue (is_size size) }
        ensures { result ≡ gives_read self.now size at }
    {
        let len = u32::from(size / 8);
        fits_read(home(self.regions(), at, len), size, at)
    }

    /// Whether memory of this map gives the `len` bytes from an address on.
    pub fn gives_bytes(&self, at: u32, len: u32) -> bool
        ensures { result ≡ gives_bytes self.now at len }
    {
        fits_range(home(self.regions(), at, len), at, len)
    }
}

/// The region in which a range lies.
fn home(regions: &[Region], at: u32, len: u32) -> Option<Region>
    ensures { result ≡ find (spans at len) regions.now }
{
    regions.iter().copied().find(|region| region.spans(at, len))
}

/// Whether the region in which a read lies gives it.
fn fits_read(region: Option<Region>, size: u8, at: u32) -> bool
    requires { IsTrue (is_size size) }
    ensures { result ≡ read_fits size at region }
{
    let Some(region) = region else {
        return false;
    };
    at % u32::from(size / 8) == 0 && region.kind.allows(size)
}

/// Whether the region in which a range lies gives it.
fn fits_range(region: Option<Region>, at: u32, len: u32) -> bool
    ensures { result ≡ bytes_fit at len region }
{
    let Some(region) = region else {
        return false;
    };
    let unit = region.kind.unit();
    at % unit == 0 && len % unit == 0
}
