//! Lines of the scenario, each in its frame.
ghost use Rattle.std.specs.Prelude.{◌≡◌, ◌<◌, ◌+◌, ◌++◌, ◌∷◌, [], ℕ, List, OnOk, map};
ghost use Rattle.std.specs.List.Sorted.{IsNonDecreasingBy, IsStableByKey, IsPermutation};
ghost use Rattle.std.specs.Ordering.{nat_cmp};
ghost use Rattle.plan_text.specs.Lines.{line_text};
ghost use Rattle.timed_plans.specs.declared.scheduled.ScheduledLine.{ScheduledLine as Line};
ghost use Rattle.timed_plans.specs.Schedules.{held_in, texts_in, spread, shown, app_line, counted_in};

use crate::heading::Heading;
use row_forms::push_decimal;
use std::alloc::{AllocError, Global};

/// A line of the scenario.
#[derive(Debug, Drop)]
pub(crate) struct ScheduledLine {
    /// The number of its frame.
    pub(crate) frame: u64,
    /// The number of the plan's line that says it.
    pub(crate) number: u32,
    /// Its text, with the LF.
    pub(crate) text: Vec<u8>,
}

/// Adds a line.
pub(crate) fn add_line(
    alloc: Global,
    frame: u64,
    number: u32,
    text: &[u8],
    lines: &mut Vec<ScheduledLine>,
) -> Result<(), AllocError>
    ensures { OnOk result (held_in lines.new.items ≡ held_in lines.old.items
        ++ record { frame = frame; number = number; text = text.now } ∷ []) }
{
    let text = Vec::from_slice(alloc, text)?;
    lines.push(ScheduledLine {
        frame,
        number,
        text,
    })?;
    Ok(())
}

/// Adds a line in each of the heading's frames, so many frames later.
fn add_each(
    alloc: Global,
    heading: &Heading,
    later: u32,
    number: u32,
    text: &[u8],
    lines: &mut Vec<ScheduledLine>,
) -> Result<(), AllocError>
    ensures { OnOk result (held_in lines.new.items ≡ held_in lines.old.items
        ++ texts_in heading.now later number text.now) }
{
    let last = u64::from(heading.last);
    let mut frame = u64::from(heading.first);
    for _done in 0..heading.count {
        if frame > last {
            return Ok(());
        }
        add_line(alloc, frame + u64::from(later), number, text, lines)?;
        frame += u64::from(heading.step);
    }
    Ok(())
}

/// Adds a line in so many frames from each of the heading's frames on.
pub(crate) fn add_spread(
    alloc: Global,
    heading: &Heading,
    span: u32,
    number: u32,
    text: &[u8],
    lines: &mut Vec<ScheduledLine>,
) -> Result<(), AllocError>
    ensures { OnOk result ((line : List (List ℕ)) → text.now ≡ line_text line
        → held_in lines.new.items ≡ held_in lines.old.items
        ++ map shown (spread span heading.now number line)) }
{
    for later in 0..span {
        add_each(alloc, heading, later, number, text, lines)?;
    }
    Ok(())
}

/// Appends the line of a counter's value.
pub(crate) fn put_app(name: &[u8], value: u32, out: &mut Vec<u8>) -> Result<(), AllocError>
    ensures { OnOk result (out.new.items ≡ out.old.items ++ line_text (app_line name.now value)) }
{
    out.extend_from_slice(b"app ")?;
    out.extend_from_slice(name)?;
    out.push(b' ')?;
    push_decimal(value, out)?;
    out.push(b'\n')?;
    Ok(())
}

/// Adds, in each of the heading's frames, the line of a counter that has the number of the frame, plus 1.
pub(crate) fn add_counts(
    alloc: Global,
    heading: &Heading,
    number: u32,
    name: &[u8],
    lines: &mut Vec<ScheduledLine>,
) -> Result<(), AllocError>
    requires { heading.now.last < 100000 }
    ensures { OnOk result (held_in lines.new.items ≡ held_in lines.old.items
        ++ map shown (counted_in heading.now number name.now)) }
{
    let last = u64::from(heading.last);
    let mut frame = u64::from(heading.first);
    for _done in 0..heading.count {
        if frame > last {
            return Ok(());
        }
        let mut text = Vec::new(alloc);
        put_app(name, frame as u32 + 1, &mut text)?;
        add_line(alloc, frame, number, text.as_slice(), lines)?;
        frame += u64::from(heading.step);
    }
    Ok(())
}

/// Puts lines into the order of their frames. Those of one frame keep their order.
pub(crate) fn sort_lines(lines: &mut Vec<ScheduledLine>) -> Result<(), AllocError>
    ensures rising { OnOk result (IsNonDecreasingBy (λ (l : Line). l.frame) lines.new.items) }
    ensures stable { OnOk result (IsStableByKey
        (λ (l : Line). l.frame) nat_cmp lines.old.items lines.new.items) }
    ensures moved { OnOk result (IsPermutation lines.old.items lines.new.items) }
{
    lines.sort_by_key(|line| line.frame)
}
