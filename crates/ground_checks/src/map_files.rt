//! The map of memory of a scenario, a plan or a book.

ghost use Rattle.std.specs.Prelude.{◌≡◌, ◌≢◌, ◌⊎◌, ◌+◌, ◌<◌, ◌^◌, length, true, Some, None, option_map, IfOk, IfErr};
ghost use Rattle.ground_files.specs.declared.verb_status.Status.TheVariants as statuses;
ghost use Rattle.ground_files.specs.Workspaces.{Held, input_taken};
ghost use Rattle.load_books.specs.Books.{is_book_text};
ghost use Rattle.ground_checks.specs.Checked.{IsMapNamed, IsBookNamed, IsMaplessNamed};
ghost use Rattle.ground_faults.specs.HeaderMaps.{map_said};
ghost use Rattle.ground_checks.specs.Maps.{IsPlanMap, IsBookMap, IsMapOf, IsMaplessText, IsMaplessBook};

use crate::book_checks::{is_book, tell_unread_book};
use crate::scenario_names::{Known, known_of};
use ground_faults::{
    Hint, MapFault, UNENDED, WantedText, hint_in_plan, line_cause, scenario_map, tell_kind,
    tell_line_ends,
};
use ground_files::{Status, Workspace, input_name, read_input, tell_no_memory, tell_unread};
use load_books::{book_forms, read_book};
use memory_window::Map;
use packet_forms::{behind, front};
use plan_text::{PlanError, PlanFault, PlanReason};
use std::alloc::{AllocError, Global};
use std::str::from_utf8;
use telecommands::commands;
use timed_plans::schedule_plan;

/// The most bytes of a text: lines are counted in 32 bits.
pub(crate) const MOST_TEXT: usize = 4_294_967_294;

/// Why a text that isn't a book gives no map.
#[derive(Clone, Copy, Debug, PartialEq, Eq)]
enum TextFault {
    /// It is a plan, and this is wrong in it.
    Plan(PlanFault),
    /// It is a scenario, and this line of its header is refused.
    Line { line: u32, reason: u8 },
    Memory,
}

/// What a scenario with this map says.
fn known_with(alloc: Global, map: Map, text: &[u8]) -> Result<Known, TextFault>
    ensures known { IfOk result (λ known. known.map ≡ map) }
    ensures memory { IfErr result (λ fault. fault ≡ TextFault.Memory) }
{
    match known_of(alloc, map, text) {
        Ok(known) => Ok(known),
        Err(_) => Err(TextFault::Memory),
    }
}

/// Whether a line is one of a plan that stands out of its place.
fn is_misplaced(fault: &PlanFault) -> bool {
    matches!(fault.reason, PlanReason::Place)
}

/// The map of a plan, where its header isn't a scenario's: its epoch is a date. `line` and `reason` are what is wrong with it as a scenario's.
fn plan_map(alloc: Global, text: &[u8], line: u32, reason: u8) -> Result<Known, TextFault>
    requires { map_said text.now ≡ None }
    ensures known { IfOk result (λ known. IsPlanMap text.now known.map) }
    ensures none { IfErr result (λ fault. fault ≢ TextFault.Memory → IsMaplessText text.now) }
{
    if text.len() > MOST_TEXT {
        return Err(TextFault::Line { line, reason });
    }
    match schedule_plan(alloc, commands(), text) {
        Ok(scenario) => match scenario_map(alloc, scenario.as_slice()) {
            Ok(map) => known_with(alloc, map, scenario.as_slice()),
            Err(MapFault::Line { line, reason }) => Err(TextFault::Line { line, reason }),
            Err(MapFault::Memory) => Err(TextFault::Memory),
        },
        Err(PlanError::Memory(_)) => Err(TextFault::Memory),
        // A text that is read farther as a plan is one, and so is one whose line is a plan's in another place.
        Err(PlanError::Plan(fault)) if fault.line > line || is_misplaced(&fault) => {
            Err(TextFault::Plan(fault))
        }
        Err(PlanError::Plan(_)) => Err(TextFault::Line { line, reason }),
    }
}

/// The map of a scenario or a plan.
fn text_map(alloc: Global, text: &[u8]) -> Result<Known, TextFault>
    ensures known { IfOk result (λ known. IsMapOf text.now known.map) }
    ensures none { IfErr result (λ fault. fault ≢ TextFault.Memory → IsMaplessText text.now) }
{
    match scenario_map(alloc, text) {
        Ok(map) => known_with(alloc, map, text),
        Err(MapFault::Line { line, reason }) => plan_map(alloc, text, line, reason),
        Err(MapFault::Memory) => Err(TextFault::Memory),
    }
}

/// A line of a text.
fn line_of(text: &[u8], wanted: u32) -> &[u8] {
    let mut start: usize = 0;
    let mut number: u32 = 1;
    'bytes: for place in 0..text.len() {
        if text[place] == b'\n' {
            if number == wanted {
                return front(behind(text, start), place.saturating_sub(start));
            }
            start = place.saturating_add(1);
            number = number.saturating_add(1);
        }
    }
    behind(text, start)
}

/// Tells why a line of a scenario's header is refused, and shows it.
fn tell_line<R: Eprint>(rt: &R, name: &str, text: &[u8], line: u32, reason: u8) -> Status
    ensures { result ≡ statuses.ScenarioRefused }
{
    if reason == UNENDED {
        let _told = eprintln!(rt;
            "{name}: line {line}: the text ends before the line `start`, so that it has no map of memory"
        );
        return Status::ScenarioRefused;
    }
    let bytes = line_of(text, line);
    let cause = line_cause(text, line, reason, bytes);
    let _told = match from_utf8(front(bytes, 200)) {
        Ok(words) => eprintln!(rt; "{name}: line {line}: {cause} (reason {reason}): {words:?}"),
        Err(_) => eprintln!(rt; "{name}: line {line}: {cause} (reason {reason})"),
    };
    Status::ScenarioRefused
}

/// Tells what of a text without a map isn't seen, and that it is something else than a scenario, a plan or a book, where it is so.
fn tell_look<R: Eprint>(rt: &R, name: &str, text: &[u8]) {
    tell_line_ends(rt, name, text);
    tell_kind(rt, name, text, WantedText::Mapped);
}

/// Tells why a scenario or a plan gives no map.
fn tell_text<R: Eprint>(rt: &R, name: &str, text: &[u8], fault: TextFault) -> Status
    ensures { ((result ≡ statuses.ScenarioRefused) × (fault ≢ TextFault.Memory))
        ⊎ (result ≡ statuses.NoMemory) }
{
    match fault {
        TextFault::Plan(fault) => {
            tell_look(rt, name, text);
            let _told = match hint_in_plan(text, &fault) {
                Some(Hint::Cause(line, cause)) => eprintln!(rt; "{name}: line {line}: {cause}"),
                Some(hint) => eprintln!(rt; "{name}: {fault}: {hint}"),
                None => eprintln!(rt; "{name}: {fault}"),
            };
            Status::ScenarioRefused
        }
        TextFault::Line { line, reason } => {
            tell_look(rt, name, text);
            tell_line(rt, name, text, line, reason)
        }
        TextFault::Memory => tell_no_memory(rt),
    }
}

/// The map of a book's plan, or the status, once it was told why there is none.
fn book_map<R: Eprint + AllocGlobal>(rt: &R, name: &str, text: &[u8]) -> Result<Known, Status>
    requires short { 1 + length text.now < 2 ^ 32 }
    requires book { is_book_text text.now ≡ true }
    ensures known { IfOk result (λ known. IsBookMap text.now known.map) }
    ensures status { IfErr result (λ status. (status ≡ statuses.FileRefused)
        ⊎ ((status ≡ statuses.ScenarioRefused) × IsMaplessBook text.now)
        ⊎ (status ≡ statuses.NoMemory)) }
{
    let book = match read_book(rt.alloc(), &book_forms(), text) {
        Ok(book) => book,
        Err(error) => return Err(tell_unread_book(rt, name, text, &error)),
    };
    match scenario_map(rt.alloc(), book.scenario.as_slice()) {
        Ok(map) => match known_of(rt.alloc(), map, book.scenario.as_slice()) {
            Ok(known) => Ok(known),
            Err(_) => Err(tell_no_memory(rt)),
        },
        Err(MapFault::Line { line, reason }) => {
            Err(tell_line(rt, name, book.scenario.as_slice(), line, reason))
        }
        Err(MapFault::Memory) => Err(tell_no_memory(rt)),
    }
}

/// The map of memory of a scenario, a plan or a book and the names that it knows, or the status, once it was told why there is none.
pub(crate) fn read_map<R: Eprint + AllocGlobal, W: Workspace>(
    rt: &R,
    workspace: &mut W,
    path: &str,
) -> Result<Known, Status>
    ensures held { W.held workspace.new ≡ option_map (input_taken path.now)
        (W.held workspace.old) }
    ensures known { IfOk result (λ known. (before : Held) → W.held workspace.old ≡ Some before
        → IsMapNamed path.now before known.map) }
    ensures status { IfErr result (λ status. status ≢ statuses.Done) }
    ensures refused { IfErr result (λ status. status ≡ statuses.FileRefused
        → (before : Held) → W.held workspace.old ≡ Some before → IsBookNamed path.now before) }
    ensures scenario { IfErr result (λ status. status ≡ statuses.ScenarioRefused
        → (before : Held) → W.held workspace.old ≡ Some before → IsMaplessNamed path.now before) }
    ensures others { IfErr result (λ status. (status ≢ statuses.WordsRefused)
        × (status ≢ statuses.Unwanted)) }
{
    let name = input_name(path);
    let text = match read_input(rt.alloc(), workspace, path) {
        Ok(text) => text,
        Err(error) => return Err(tell_unread(rt, name, &error)),
    };
    let text = text.as_slice();
    if is_book(text) {
        return book_map(rt, name, text);
    }
    match text_map(rt.alloc(), text) {
        Ok(known) => Ok(known),
        Err(fault) => Err(tell_text(rt, name, text, fault)),
    }
}
