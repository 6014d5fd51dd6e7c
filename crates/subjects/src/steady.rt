//! A subject that always moves.

ghost use Rattle.std.specs.Prelude.{◌≡◌};
ghost use Rattle.subjects.specs.Plans.{starting, steady_plan};

use crate::subject::Subject;
use packet_forms::Name;
use std::marker::Model;

/// A subject that gives 1 and 2 in turn.
#[derive(Drop)]
pub struct Steady {
    name: Name,
    at_second: bool,
}

impl Model for Steady {
    ghost use Rattle.std.specs.Prelude.{if◌then◌else◌};
    ghost use Rattle.subjects.specs.Plans.{Simulated, steady_plan};

    ghost Value = { Simulated };

    ghost view = { λ s. record {
      name = s.name;
      plan = steady_plan;
      at = (if s.at_second then 1 else 0);
    } };
}

impl Steady {
    /// A subject that gives 1 first.
    pub fn new(name: Name) -> Steady
        ensures { result ≡ starting name steady_plan }
    {
        Steady {
            name,
            at_second: false,
        }
    }
}

impl Subject for Steady {
    ghost seen = { λ s. s };

    fn name(&self) -> Name {
        self.name
    }

    fn cycle(&mut self) -> u32 {
        match self.at_second {
            false => {
                self.at_second = true;
                1
            }
            true => {
                self.at_second = false;
                2
            }
        }
    }

    fn restart(&mut self) {
        self.at_second = false;
    }
}
