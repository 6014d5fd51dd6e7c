//! Things that are counted, in words.

ghost use Rattle.std.specs.Prelude.{◌≡◌, ◌++◌, OnOk, decimal};
ghost use Rattle.packet_forms.specs.Names.{name_text};
ghost use Rattle.ground_summaries.specs.Counts.{ending_said, things_said};
ghost use Rattle.ground_summaries.specs.Told.{error_said, notable_said, counted_said};

use events::{events, show_event};
use ground_tools::{Notable, NotableCount, pipe_name};
use itoa::Buffer;
use packet_forms::Name;
use std::alloc::AllocError;

/// The type of an event that is an error.
pub const ERROR: u16 = 3;

/// Appends a number in decimal digits.
pub fn push_number(out: &mut Vec<u8>, number: u64) -> Result<(), AllocError>
    ensures { OnOk result (out.new.items ≡ out.old.items ++ decimal number) }
{
    let mut buffer = Buffer::new();
    out.extend_from_slice(buffer.format(number).as_bytes())
}

/// Appends a number of things: `1 packet`, `2 packets`.
pub fn push_count(out: &mut Vec<u8>, count: u64, what: &str) -> Result<(), AllocError>
    ensures { OnOk result (out.new.items ≡ out.old.items ++ things_said count what.now) }
{
    push_number(out, count)?;
    push_three(out, " ", what, ending_of(count))
}

/// The ending of what is counted.
fn ending_of(count: u64) -> &'static str
    ensures { result.now ≡ ending_said count }
{
    if count == 1 { "" } else { "s" }
}

/// Appends an event of type 3 as a sentence.
fn push_error(out: &mut Vec<u8>, application: &Name, number: u16) -> Result<(), AllocError>
    ensures { OnOk result (out.new.items
        ≡ out.old.items ++ error_said (name_text application.now) number) }
{
    show_event(events(), application.text().as_bytes(), number, ERROR, out)?;
    out.extend_from_slice(b" (event ")?;
    push_number(out, u64::from(number))?;
    out.extend_from_slice(b")")
}

/// Appends three texts, one behind the other.
pub fn push_three(
    out: &mut Vec<u8>,
    first: &str,
    second: &str,
    third: &str,
) -> Result<(), AllocError>
    ensures { OnOk result (out.new.items ≡ out.old.items
        ++ (first.now ++ (second.now ++ third.now))) }
{
    out.extend_from_slice(first.as_bytes())?;
    out.extend_from_slice(second.as_bytes())?;
    out.extend_from_slice(third.as_bytes())
}

/// Appends what an operator looks at first, as a sentence.
fn push_notable(out: &mut Vec<u8>, what: &Notable) -> Result<(), AllocError>
    ensures { OnOk result (out.new.items ≡ out.old.items ++ notable_said what.now) }
{
    match what {
        Notable::Error {
            application,
            number,
        } => push_error(out, application, *number),
        Notable::Drop { pipe, full: true } => push_three(
            out,
            "pipe ",
            pipe_name(*pipe),
            " was full and dropped a packet",
        ),
        Notable::Drop { pipe, full: false } => push_three(
            out,
            "pipe ",
            pipe_name(*pipe),
            " dropped a packet for its id's limit",
        ),
        Notable::Reset => out.extend_from_slice(b"HS asked for a processor reset"),
        Notable::Restart(name) => push_three(out, "HS asked to restart ", name.text(), ""),
        Notable::Delete(name) => push_three(out, "HS asked to delete ", name.text(), ""),
    }
}

/// Appends what an operator looks at first, and how often it came.
#[tactic(auto, unfolding(crate::specs::Told::counted_said))]
pub fn push_counted(out: &mut Vec<u8>, counted: &NotableCount) -> Result<(), AllocError>
    ensures { OnOk result (out.new.items ≡ out.old.items ++ counted_said counted.now) }
{
    out.extend_from_slice(b"  ")?;
    push_count(out, counted.count, "time")?;
    out.extend_from_slice(b": ")?;
    push_notable(out, &counted.what)?;
    out.extend_from_slice(b"\n")
}
