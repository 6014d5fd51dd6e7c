//! What a scenario's reader finds in the lines that are made.
ghost use Rattle.std.specs.Prelude.{◌≡◌, [], slice_index, false};
ghost use Rattle.timed_plans.specs.Pages.{written_on};
ghost use Rattle.timed_plans.specs.Checks.{reason_numbered, fault_at_line, answered, GivesCheck};
ghost use Rattle.scenario.specs.Standing.{Stands, is_finished};

use crate::page::Page;
use packet_forms::behind;
use plan_text::{LineReason, PlanError, PlanFault, PlanReason};
use scenario::{Item, Reader};
use std::alloc::{AllocError, Global};

/// A reason of the reader, by its number.
#[tactic(auto, unfolding(crate::specs::Checks::reason_numbered))]
fn reason_numbered(number: u8) -> LineReason
    ensures { result ≡ reason_numbered number }
{
    match number {
        1 => LineReason::Words,
        2 => LineReason::Number,
        3 => LineReason::Packet,
        4 => LineReason::Map,
        5 => LineReason::Items,
        6 => LineReason::Long,
        _ => LineReason::Unended,
    }
}

/// The number at this place, or 0.
fn number_at(numbers: &[u32], place: usize) -> u32
    ensures { result ≡ slice_index numbers.now place }
{
    if place < numbers.len() {
        return numbers[place];
    }
    0
}

/// A fault of a line of the page, counted from 1.
fn fault_at_line(numbers: &[u32], line: u32, reason: u8) -> PlanFault
    ensures { result ≡ fault_at_line numbers.now line reason }
{
    PlanFault {
        line: number_at(numbers, line.saturating_sub(1) as usize),
        reason: PlanReason::Line(reason_numbered(reason)),
    }
}

/// What a reader answers behind the items of a whole text.
pub(crate) fn last_answer(reader: &mut Reader, text: &[u8]) -> Item
    requires { Stands reader.old (record { bytes = []; closed = false }) []
        × (is_finished reader.old ≡ false) }
    ensures { result ≡ answered text.now }
{
    let mut rest = text;
    'items: loop {
        match reader.next() {
            Item::Header => {}
            Item::Frame => {}
            Item::More => {
                if rest.is_empty() {
                    reader.finish();
                } else {
                    let taken = reader.feed(rest);
                    rest = behind(rest, taken);
                }
            }
            Item::End => return Item::End,
            Item::Bad { line, reason } => return Item::Bad { line, reason },
        }
    }
}

/// Reads a page as a scenario is read.
pub(crate) fn check_page(alloc: Global, page: &Page) -> Result<(), PlanError>
    ensures { GivesCheck (written_on page.now) result }
{
    let Ok(mut reader) = Reader::open(alloc) else {
        return Err(PlanError::Memory(AllocError));
    };
    match last_answer(&mut reader, page.text.as_slice()) {
        Item::End => Ok(()),
        Item::Bad { line, reason } => {
            let fault = fault_at_line(page.numbers.as_slice(), line, reason);
            Err(PlanError::Plan(fault))
        }
        Item::Header | Item::Frame | Item::More => {
            let fault = fault_at_line(page.numbers.as_slice(), 0, 7);
            Err(PlanError::Plan(fault))
        }
    }
}
