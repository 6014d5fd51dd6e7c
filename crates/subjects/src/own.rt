//! The simulated applications that a rehearsal is given by `--subjects`.

ghost use Rattle.std.specs.Prelude.{◌≡◌, ◌≤◌, [], ◌∷◌, IfOk, map, codes, vec_len};
ghost use Rattle.packet_forms.specs.Names.{is_name_text, name_of};
ghost use Rattle.subjects.specs.Plans.{starting};
ghost use Rattle.subjects.specs.Own.{seen_own, own_subjects};

use crate::hanging::Hanging;
use crate::listed::Listed;
use crate::steady::Steady;
use crate::subject::Subject;
use fsw_outside::NoMemory;
use packet_forms::{Name, named};
use std::alloc::Global;

/// One of the three simulated applications.
#[derive(Drop)]
pub enum Own {
    /// It runs on.
    Steady(Steady),
    /// It hangs after a while.
    Hanging(Hanging),
    /// Its counter stays now and then.
    Listed(Listed),
}

impl Subject for Own {
    ghost seen = { seen_own };

    fn name(&self) -> Name {
        match self {
            Own::Steady(subject) => subject.name(),
            Own::Hanging(subject) => subject.name(),
            Own::Listed(subject) => subject.name(),
        }
    }

    fn cycle(&mut self) -> u32 {
        match self {
            Own::Steady(subject) => subject.cycle(),
            Own::Hanging(subject) => subject.cycle(),
            Own::Listed(subject) => subject.cycle(),
        }
    }

    fn restart(&mut self) {
        match self {
            Own::Steady(subject) => subject.restart(),
            Own::Hanging(subject) => subject.restart(),
            Own::Listed(subject) => subject.restart(),
        }
    }
}

/// The counters of the third application.
fn listed_values(alloc: Global) -> Result<Vec<u32>, NoMemory>
    ensures { IfOk result (λ values. values.items ≡ 5 ∷ 5 ∷ 6 ∷ []) }
{
    let mut values = Vec::new(alloc);
    values.push(5)?;
    values.push(5)?;
    values.push(6)?;
    Ok(values)
}

/// The third application.
#[tactic(auto, unfolding(crate::specs::Faults::plan_fault_of, packet_forms::specs::Names::is_name_text))]
fn listed_subject(alloc: Global) -> Result<Listed, NoMemory>
    ensures { IfOk result (λ subject. subject
        ≡ starting (name_of (codes "THM")) (record { values = 5 ∷ 5 ∷ 6 ∷ []; back = 0 })) }
{
    let values = listed_values(alloc)?;
    match Listed::new(named("THM"), values, 0) {
        Ok(subject) => Ok(subject),
        Err(_) => unreachable!(),
    }
}

/// The three applications: `NAV`, which runs on, `PWR`, which hangs after four cycles, and `THM`, whose counters are 5, 5 and 6
/// in turn.
#[tactic(auto, unfolding(packet_forms::specs::Names::is_name_text))]
pub fn own_subjects(alloc: Global) -> Result<Vec<Own>, NoMemory>
    ensures subjects { IfOk result (λ subjects. map seen_own subjects.items ≡ own_subjects) }
    ensures few { IfOk result (λ subjects. vec_len subjects ≤ 64) }
{
    let listed = listed_subject(alloc)?;
    let mut subjects = Vec::with_capacity(alloc, 3)?;
    subjects.push_reserved(Own::Steady(Steady::new(named("NAV"))));
    subjects.push_reserved(Own::Hanging(Hanging::new(named("PWR"), 4)));
    subjects.push_reserved(Own::Listed(listed));
    Ok(subjects)
}
