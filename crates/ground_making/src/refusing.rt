//! What is told where nothing is made.

ghost use Rattle.std.specs.Prelude.{◌≡◌, ◌≢◌, ◌⊎◌};
ghost use Rattle.ground_files.specs.declared.verb_status.Status.TheVariants as statuses;
ghost use Rattle.ground_making.specs.Causes.{IsToldBy};

use crate::making::Refusal;
use ground_faults::{
    Hint, WantedText, hint_in_book, hint_in_load, hint_in_plan, hint_in_scenario, hint_in_table,
    tell_book_fault, tell_headers, tell_kind, tell_line_ends,
};
use ground_files::Status;
use plan_text::LineReason;
use shown_plans::{ScenarioFault, ShowError};
use std::alloc::AllocError;

/// What helps to mend a fault for which a scenario isn't shown as a plan.
fn hint_of_shown<'a>(text: &'a [u8], error: &ShowError) -> Option<Hint<'a>> {
    match *error {
        ShowError::Scenario(ScenarioFault::Words(line)) => {
            hint_in_scenario(text, line, LineReason::Words)
        }
        ShowError::Scenario(ScenarioFault::Line(line, reason)) => {
            hint_in_scenario(text, line, reason)
        }
        ShowError::Memory(_) | ShowError::Long | ShowError::Plan(_) | ShowError::Differs => None,
    }
}

/// What helps to mend the fault for which a text is refused.
fn hint_of<'a>(text: &'a [u8], refusal: &Refusal) -> Option<Hint<'a>> {
    match refusal {
        Refusal::Text(fault) => hint_in_table(text, fault),
        Refusal::LoadText(fault) => hint_in_load(text, fault),
        Refusal::Plan(fault) => hint_in_plan(text, fault),
        Refusal::Scenario(error) => hint_of_shown(text, error),
        Refusal::Book(fault) => hint_in_book(text, fault),
        Refusal::Entry(_, _) | Refusal::File(_) | Refusal::Long | Refusal::Memory => None,
    }
}

/// The text that is wanted where one is refused.
fn wanted_text(refusal: &Refusal) -> Option<WantedText> {
    match refusal {
        Refusal::Text(_) | Refusal::LoadText(_) => Some(WantedText::Table),
        Refusal::Plan(_) => Some(WantedText::Plan),
        Refusal::Scenario(_) => Some(WantedText::Scenario),
        Refusal::Book(_) => Some(WantedText::Book),
        Refusal::Entry(_, _) | Refusal::File(_) | Refusal::Long | Refusal::Memory => None,
    }
}

/// Tells why a file or a text is refused, and answers the status. Of an entry in a book's table the line of the book is told.
pub fn tell_refusal<R: Eprint + AllocGlobal>(
    rt: &R,
    name: &str,
    bytes: &[u8],
    refusal: &Refusal,
) -> Status
    ensures undone { result ≢ statuses.Done }
    ensures told { IsToldBy refusal.now result }
{
    if let Some(wanted) = wanted_text(refusal) {
        tell_line_ends(rt, name, bytes);
        tell_kind(rt, name, bytes, wanted);
    }
    if let Refusal::Book(fault) = refusal {
        return tell_book_fault(rt, name, bytes, fault);
    }
    if let Refusal::File(fault) = refusal {
        let _told = tell_headers(rt, name, bytes, *fault);
        return Status::FileRefused;
    }
    let _told = match hint_of(bytes, refusal) {
        Some(Hint::Cause(line, cause)) => eprintln!(rt; "{name}: line {line}: {cause}"),
        Some(hint) => eprintln!(rt; "{name}: {refusal}: {hint}"),
        None => eprintln!(rt; "{name}: {refusal}"),
    };
    if *refusal == Refusal::Memory {
        Status::NoMemory
    } else {
        Status::FileRefused
    }
}

/// The status of a file whose entries are refused, once that was told.
pub(crate) fn status_told<R: Eprint + AllocGlobal>(
    rt: &R,
    name: &str,
    told: Result<(), AllocError>,
) -> Status
    ensures { (result ≡ statuses.FileRefused) ⊎ (result ≡ statuses.NoMemory) }
{
    match told {
        Ok(()) => Status::FileRefused,
        Err(error) => tell_refusal(rt, name, &[], &Refusal::from(error)),
    }
}
