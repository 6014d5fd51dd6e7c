//! Refusals of commands, by application, code and number.
ghost use Rattle.std.specs.Prelude.{◌≡◌, ◌++◌, OnOk};
ghost use Rattle.events.specs.Refusals.{is_refusal, reason_row, reason_of, refusal_said, command_said, reason_said, text_of};

use crate::decimal::push_numbered;
use crate::event::{Event, find_event};
use std::alloc::AllocError;

/// Why a command of an application may be refused, besides the three refusals that every command may meet.
#[derive(Clone, Copy, Debug)]
pub struct Refusal {
    pub application: &'static str,
    /// The command's code.
    pub code: u8,
    /// The number of the refusal, which is that of its event.
    pub number: u16,
    pub reason: &'static str,
}

/// Whether this is the refusal of a number, of an application's command.
fn is_refusal(refusal: &Refusal, application: &[u8], code: u8, number: u16) -> bool
    ensures { result ≡ is_refusal application.now code number refusal.now }
{
    refusal.number == number
        && refusal.code == code
        && refusal.application.as_bytes() == application
}

/// The reason that stands in the table.
fn find_row(refusals: &[Refusal], application: &[u8], code: u8, number: u16) -> Option<&'static str>
    ensures { text_of result ≡ reason_row refusals.now application.now code number }
{
    for refusal in refusals {
        if is_refusal(refusal, application, code, number) {
            return Some(refusal.reason);
        }
    }
    None
}

/// Why an application refuses a command of this code, by the number of the refusal: 1 to 3 every command may meet.
#[tactic(auto, unfolding(crate::specs::Refusals::reason_of))]
pub fn find_reason(
    refusals: &[Refusal],
    application: &[u8],
    code: u8,
    number: u16,
) -> Option<&'static str>
    ensures { text_of result ≡ reason_of refusals.now application.now code number }
{
    match number {
        1 => Some("its checksum is wrong"),
        2 => Some("there is no such code"),
        3 => Some("its payload has another length"),
        _ => find_row(refusals, application, code, number),
    }
}

/// Appends that a command of this code was refused, and why, as
/// `MM: command poke was refused: the bytes lie in no region, or not all in one`. Code and number stand where no row has them.
#[tactic(auto, unfolding(crate::specs::Refusals::refusal_said))]
pub fn show_refusal(
    events: &[Event],
    refusals: &[Refusal],
    application: &[u8],
    code: u8,
    number: u16,
    out: &mut Vec<u8>,
) -> Result<(), AllocError>
    ensures { OnOk result (out.new.items ≡ out.old.items
        ++ refusal_said events.now refusals.now application.now code number) }
{
    out.extend_from_slice(application)?;
    push_command(
        find_event(events, application, 16 + u16::from(code), 2),
        code,
        out,
    )?;
    push_reason(
        find_reason(refusals, application, code, number),
        number,
        out,
    )
}

/// Appends which command was refused.
fn push_command(event: Option<Event>, code: u8, out: &mut Vec<u8>) -> Result<(), AllocError>
    ensures { OnOk result (out.new.items ≡ out.old.items ++ command_said event code) }
{
    match event {
        Some(event) => {
            out.extend_from_slice(b": command ")?;
            out.extend_from_slice(event.name.as_bytes())
        }
        None => push_numbered(": command of code ", u16::from(code), out),
    }
}

/// Appends why a command was refused.
fn push_reason(
    reason: Option<&'static str>,
    number: u16,
    out: &mut Vec<u8>,
) -> Result<(), AllocError>
    ensures { OnOk result (out.new.items ≡ out.old.items
        ++ reason_said (text_of reason.entry) number) }
{
    match reason {
        Some(reason) => {
            out.extend_from_slice(b" was refused: ")?;
            out.extend_from_slice(reason.as_bytes())
        }
        None => push_numbered(" was refused: unknown reason ", number, out),
    }
}
