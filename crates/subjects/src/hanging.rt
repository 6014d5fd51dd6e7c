//! A subject that hangs after a while.

ghost use Rattle.std.specs.Prelude.{◌≡◌, ◌<◌, ◌≤◌};
ghost use Rattle.subjects.specs.Plans.{starting, hanging_plan};

use crate::subject::Subject;
use packet_forms::Name;
use std::marker::Model;

/// A subject that gives 1, 2 and so on up to a last counter, and then that one again and again.
#[derive(Drop)]
pub struct Hanging {
    name: Name,
    after: u32,
    at: u32,
}

impl Model for Hanging {
    ghost use Rattle.std.specs.Prelude.{◌<◌, ◌≤◌};
    ghost use Rattle.subjects.specs.Plans.{Simulated, hanging_plan};

    ghost Value = { Simulated };

    ghost view = { λ s. record { name = s.name; plan = hanging_plan s.after; at = s.at } };

    ghost invariant = { λ s. (s.at < s.after) × (s.after ≤ 1000) };
}

impl Hanging {
    /// A subject that hangs after so many cycles, from 1 to 1,000.
    pub fn new(name: Name, after: u32) -> Hanging
        requires { (0 < after) × (after ≤ 1000) }
        ensures { result ≡ starting name (hanging_plan after) }
    {
        Hanging { name, after, at: 0 }
    }
}

impl Subject for Hanging {
    ghost seen = { λ s. s };

    fn name(&self) -> Name {
        self.name
    }

    fn cycle(&mut self) -> u32 {
        let reading = self.at + 1;
        if reading < self.after {
            self.at = reading;
        }
        reading
    }

    fn restart(&mut self) {
        self.at = 0;
    }
}
