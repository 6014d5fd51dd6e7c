//! Crowds whose subjects wait for one another, and what becomes of those that leave.

use super::threads::meet;
use packet_forms::Name;
use std::sync::Arc;
use std::sync::atomic::{AtomicU64, Ordering};
use std::test::Fail;
use subjects::{Crowd, Subject};

type Boxed = Box<dyn Subject + Send>;

fn named(text: &str) -> Result<Name, Fail> {
    Ok(Name::from_text(text).ok_or("no name")?)
}

/// A subject that waits in a cycle until those awaited have begun their own, or for very many turns. Subjects are bits.
struct Waiting {
    name: Name,
    bit: u64,
    awaited: u64,
    begun: Arc<AtomicU64>,
    met: Arc<AtomicU64>,
}

impl Subject for Waiting {
    ghost use Rattle.std.specs.Prelude.{[], ◌∷◌};

    ghost seen = { λ s. record {
      name = s.name;
      plan = record { values = 9 ∷ []; back = 0 };
      at = 0;
    } };

    fn name(&self) -> Name {
        self.name
    }

    fn cycle(&mut self) -> u32 {
        if meet(&self.begun, self.bit, self.awaited) {
            self.met.fetch_or(self.bit, Ordering::SeqCst);
        }
        9
    }

    fn restart(&mut self) {}
}

impl Drop for Waiting {
    fn drop(self) {
        let Waiting {
            name: _,
            bit: _,
            awaited: _,
            begun: _,
            met: _,
        } = self;
    }
}

/// The bit of a subject by its place in a crowd of 64, and those that it waits for: the first and the last wait for each other.
fn bits_at(place: u32) -> (u64, u64) {
    match place {
        0 => (1, 3),
        63 => (2, 3),
        _ => (0, 0),
    }
}

/// A crowd of 64 is worth two workers.
#[test]
fn two_subjects_are_cycled_at_once(rt: HostRuntime) -> Result<(), Fail> {
    let alloc = rt.alloc();
    let begun = Arc::new(alloc, AtomicU64::new(0))?;
    let met = Arc::new(alloc, AtomicU64::new(0))?;
    let mut subjects: Vec<Boxed> = Vec::new(alloc);
    for place in 0..64 {
        let (bit, awaited) = bits_at(place);
        let waiting = Waiting {
            name: named("NAV")?,
            bit,
            awaited,
            begun: Arc::try_clone(&begun)?,
            met: Arc::try_clone(&met)?,
        };
        subjects.push(Box::new(alloc, waiting)?)?;
    }
    assert_eq!(rt; subjects.len(), 64);
    let mut crowd = Crowd::open(alloc, subjects)?;
    crowd.cycle_on(&rt, 2);
    assert_eq!(rt; met.load(Ordering::SeqCst), 3);
    Ok(())
}

/// A subject that counts its cycles and its drops.
struct Counted {
    name: Name,
    cycles: Arc<AtomicU64>,
    drops: Arc<AtomicU64>,
}

impl Subject for Counted {
    ghost use Rattle.std.specs.Prelude.{[], ◌∷◌};

    ghost seen = { λ s. record {
      name = s.name;
      plan = record { values = 9 ∷ []; back = 0 };
      at = 0;
    } };

    fn name(&self) -> Name {
        self.name
    }

    fn cycle(&mut self) -> u32 {
        self.cycles.fetch_add(1, Ordering::SeqCst);
        9
    }

    fn restart(&mut self) {}
}

impl Drop for Counted {
    fn drop(self) {
        let Counted {
            name: _,
            cycles: _,
            drops,
        } = self;
        drops.fetch_add(1, Ordering::SeqCst);
    }
}

#[test]
fn deleted_subjects_are_dropped_once(rt: HostRuntime) -> Result<(), Fail> {
    let alloc = rt.alloc();
    let cycles = Arc::new(alloc, AtomicU64::new(0))?;
    let drops = Arc::new(alloc, AtomicU64::new(0))?;
    let mut subjects: Vec<Boxed> = Vec::new(alloc);
    for text in ["NAV", "PWR", "NAV"] {
        let counted = Counted {
            name: named(text)?,
            cycles: Arc::try_clone(&cycles)?,
            drops: Arc::try_clone(&drops)?,
        };
        subjects.push(Box::new(alloc, counted)?)?;
    }
    assert_eq!(rt; subjects.len(), 3);
    let mut crowd = Crowd::open(alloc, subjects)?;
    crowd.cycle_on(&rt, 3);
    assert_eq!(rt;
        (cycles.load(Ordering::SeqCst), drops.load(Ordering::SeqCst)),
        (3, 0)
    );
    crowd.delete(named("NAV")?);
    assert_eq!(rt; drops.load(Ordering::SeqCst), 2);
    crowd.cycle_on(&rt, 3);
    crowd.delete(named("NAV")?);
    assert_eq!(rt;
        (cycles.load(Ordering::SeqCst), drops.load(Ordering::SeqCst)),
        (4, 2)
    );
    drop(crowd);
    assert_eq!(rt; drops.load(Ordering::SeqCst), 3);
    Ok(())
}
