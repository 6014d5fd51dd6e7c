//! A subject that follows a list.

ghost use Rattle.std.specs.Prelude.{◌≡◌, Some, None, MatchResult};
ghost use Rattle.subjects.specs.Plans.{starting};
ghost use Rattle.subjects.specs.Faults.{plan_fault_of, plan_fault_number};

use crate::subject::Subject;
use packet_forms::Name;
use std::marker::Model;

/// Why a list of counters and a place are no plan. The faults are asked in this order.
#[derive(Clone, Copy, Debug, PartialEq, Eq)]
pub enum PlanFault {
    /// There are no counters.
    Empty,
    /// The place to go back to isn't below the number of counters.
    Back,
}

impl PlanFault {
    /// The number of the fault, from 1 to 2.
    pub fn number(self) -> u8
        ensures { result ≡ plan_fault_number self }
    {
        match self {
            PlanFault::Empty => 1,
            PlanFault::Back => 2,
        }
    }
}

/// A subject that gives the counters of a list, and behind the last one those from a place on again.
#[derive(Drop)]
pub struct Listed {
    name: Name,
    values: Vec<u32>,
    back: u32,
    at: usize,
}

impl Model for Listed {
    ghost use Rattle.std.specs.Prelude.{◌<◌, length};
    ghost use Rattle.subjects.specs.Plans.{Simulated};

    ghost Value = { Simulated };

    ghost view = { λ s. record {
      name = s.name;
      plan = record { values = s.values.items; back = s.back };
      at = s.at;
    } };

    ghost invariant = { λ s. (s.back < length s.values.items) × (s.at < length s.values.items) };
}

impl Listed {
    /// A subject that gives these counters and then goes back to this place, counted from 0; or the first of the faults.
    #[tactic(auto, unfolding(crate::specs::Faults::plan_fault_of))]
    pub fn new(name: Name, values: Vec<u32>, back: u32) -> Result<Listed, PlanFault>
        ensures { MatchResult result (λ s. (plan_fault_of values.items back ≡ None)
            × (s ≡ starting name (record { values = values.items; back = back })))
            (λ fault. plan_fault_of values.items back ≡ Some fault) }
    {
        if values.is_empty() {
            return Err(PlanFault::Empty);
        }
        if values.len() <= back as usize {
            return Err(PlanFault::Back);
        }
        Ok(Listed {
            name,
            values,
            back,
            at: 0,
        })
    }
}

impl Subject for Listed {
    ghost seen = { λ s. s };

    fn name(&self) -> Name {
        self.name
    }

    fn cycle(&mut self) -> u32 {
        let reading = self.values[self.at];
        self.at += 1;
        if self.at == self.values.len() {
            self.at = self.back as usize;
        }
        reading
    }

    fn restart(&mut self) {
        self.at = 0;
    }
}
