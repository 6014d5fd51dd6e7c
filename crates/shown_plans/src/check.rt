//! Which texts are scenarios, and what a scenario's reader finds in them.
ghost use Rattle.std.specs.Prelude.{◌≡◌, ◌<◌, ◌+◌, ◌^◌, [], false, length};
ghost use Rattle.row_forms.specs.Words.{words};
ghost use Rattle.scenario.specs.Standing.{Stands, is_finished};
ghost use Rattle.timed_plans.specs.Checks.{answered};
ghost use Rattle.shown_plans.specs.Shown.{is_epoch_line, is_scenario_text};
ghost use Rattle.shown_plans.specs.KeptFrames.{fault_numbered, GivesEnd};

use packet_forms::behind;
use plan_text::LineReason;
use row_forms::split_word;
use scenario::{Item, Reader};
use table_texts::next_line;
use thiserror::Error;

/// Whether a line begins with `epoch`.
fn is_epoch_line(line: &[u8]) -> bool
    ensures { result ≡ is_epoch_line (words line.now) }
{
    match split_word(line) {
        Some((first, _)) => first == b"epoch".as_slice(),
        None => false,
    }
}

/// Whether a text may be a scenario: whether its first line that says something begins with `epoch`, as that of a plan does too.
#[tactic(auto, unfolding(crate::specs::Shown::is_scenario_text))]
pub fn is_scenario_text(text: &[u8]) -> bool
    requires { 1 + length text.now < 2 ^ 32 }
    ensures { result ≡ is_scenario_text text.now }
{
    match next_line(text, 1) {
        Some(line) => is_epoch_line(line.bytes),
        None => false,
    }
}

/// Why a text is no scenario: its first line with a fault, counted from 1, and what is wrong there.
#[derive(Clone, Copy, Debug, PartialEq, Eq, Error)]
pub enum ScenarioFault {
    #[error("line {0}: no line of a scenario begins with this word here, or it has too few words or too many, or a kind, an application or a name isn't in its form")]
    Words(u32),
    #[error("line {0}: {1}")]
    Line(u32, LineReason),
}

/// The fault of a line that is refused for the reason of this number (docs/SCENARIO.md).
#[tactic(auto, unfolding(timed_plans::specs::Checks::reason_numbered))]
fn fault_numbered(line: u32, number: u8) -> ScenarioFault
    ensures { result ≡ fault_numbered line number }
{
    match number {
        1 => ScenarioFault::Words(line),
        2 => ScenarioFault::Line(line, LineReason::Number),
        3 => ScenarioFault::Line(line, LineReason::Packet),
        4 => ScenarioFault::Line(line, LineReason::Map),
        5 => ScenarioFault::Line(line, LineReason::Items),
        6 => ScenarioFault::Line(line, LineReason::Long),
        _ => ScenarioFault::Line(line, LineReason::Unended),
    }
}

/// Reads a whole text, and tells its first line with a fault.
pub(crate) fn read_to_end(reader: &mut Reader, text: &[u8]) -> Result<(), ScenarioFault>
    requires { Stands reader.old (record { bytes = []; closed = false }) []
        × (is_finished reader.old ≡ false) }
    ensures { GivesEnd (answered text.now) result }
{
    let mut rest = text;
    'items: loop {
        match reader.next() {
            Item::Header => {}
            Item::Frame => {}
            Item::More => {
                if rest.is_empty() {
                    reader.finish();
                } else {
                    let taken = reader.feed(rest);
                    rest = behind(rest, taken);
                }
            }
            Item::End => return Ok(()),
            Item::Bad { line, reason } => return Err(fault_numbered(line, reason)),
        }
    }
}
