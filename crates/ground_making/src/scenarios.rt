//! Scenarios among the files that are shown.

ghost use Rattle.std.specs.Prelude.{◌≡◌, ◌≢◌, ◌<◌, ◌+◌, ◌^◌, true, length, IfOk, IfErr, Option, ℕ};
ghost use Rattle.shown_plans.specs.Shown.{is_scenario_text};
ghost use Rattle.ground_making.specs.declared.making.Making.TheVariants as makings;
ghost use Rattle.ground_making.specs.declared.making.Refusal.TheVariants as refusals;
ghost use Rattle.ground_making.specs.Made.{IsPlanIn};
ghost use Rattle.ground_making.specs.Refused.{show_error_refusal, IsRefusedFor};

use crate::making::Refusal;
use shown_plans::{ShowError, show_plan};
use std::alloc::Global;
use telecommands::commands;

impl From<ShowError> for Refusal {
    ghost from_gives = { λ error refusal. refusal ≡ show_error_refusal error };

    fn from(error: ShowError) -> Refusal {
        match error {
            ShowError::Memory(_) => Refusal::Memory,
            other => Refusal::Scenario(other),
        }
    }
}

/// The plan of a scenario: what it says is a scenario with that one's header and frames.
pub(crate) fn plan_of(alloc: Global, text: &[u8]) -> Result<Vec<u8>, Refusal>
    requires short { 1 + length text.now < 2 ^ 32 }
    requires scenario { is_scenario_text text.now ≡ true }
    ensures made { IfOk result (λ plan. IsPlanIn text.now plan.items) }
    ensures refused { IfErr result (λ refusal. (epoch : Option ℕ) → refusal ≢ refusals.Memory
        → IsRefusedFor makings.Text epoch text.now refusal) }
{
    match show_plan(alloc, commands(), text) {
        Ok(plan) => Ok(plan),
        Err(error) => Err(Refusal::from(error)),
    }
}
