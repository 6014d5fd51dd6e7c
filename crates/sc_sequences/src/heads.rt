//! With which command a sequence goes on.
ghost use Rattle.std.specs.Prelude.{◌≡◌, ◌<◌, ◌≤◌, drop, IfSome};
ghost use Rattle.sc_tables.specs.Commands.{commands_in};
ghost use Rattle.sc_sequences.specs.Sequences.{Sequence, has_some, base_at, going_on, from_time, first_time};
ghost use Rattle.sc_sequences.specs.State.{CursorStands};

use crate::cursors::Cursor;
use crate::places::is_relative;
use sc_tables::ScTables;

/// The cursor of a sequence that goes on at the time `now` with command `at`, counted from 0, or ends where there is none.
pub(crate) fn cursor_at(
    tables: &ScTables<'_>,
    place: usize,
    at: u32,
    now: u32,
    enabled: bool,
) -> Cursor
    requires { place < 66 }
    ensures stands { (s : Sequence) → s.loaded ≡ commands_in tables.now place → s.enabled ≡ enabled
        → CursorStands (commands_in tables.now place)
        (going_on place now (drop at (commands_in tables.now place)) s) result }
    ensures at { result.at ≡ at }
    ensures time { IfSome result.next (λ time. time < 8589934592) }
{
    Cursor {
        next: next_at(tables, place, at, now),
        at,
        enabled,
    }
}

/// The time of command `at`, where a sequence goes on with it at the time `now`.
fn next_at(tables: &ScTables<'_>, place: usize, at: u32, now: u32) -> Option<u64>
    requires { place < 66 }
    ensures time { result ≡ first_time (base_at place now)
        (drop at (commands_in tables.now place)) }
    ensures small { IfSome result (λ time. time < 8589934592) }
{
    if at >= tables.len(place) {
        return None;
    }
    Some(base_at(place, now) + u64::from(tables.tag(place, at)))
}

/// What tags count from.
fn base_at(place: usize, now: u32) -> u64
    ensures base { result ≡ base_at place now }
    ensures small { result < 4294967296 }
{
    if is_relative(place) {
        u64::from(now)
    } else {
        0
    }
}

/// Which command of an absolute sequence is the first from `from` on with a tag of `time` or more; their number where none is.
pub(crate) fn first_from(tables: &ScTables<'_>, place: usize, from: u32, time: u32) -> u32
    requires { place < 2 }
    ensures left { drop result (commands_in tables.now place)
        ≡ from_time time (drop from (commands_in tables.now place)) }
    ensures few { result ≤ 1000 }
{
    let count = tables.len(place);
    for at in from..count {
        if tables.tag(place, at) >= time {
            return at;
        }
    }
    count
}

/// Whether a command of an absolute sequence from `from` on has a tag of `time` or more.
pub(crate) fn remains_from(tables: &ScTables<'_>, place: usize, from: u32, time: u32) -> bool
    requires { place < 2 }
    ensures { result ≡ has_some (from_time time (drop from (commands_in tables.now place))) }
{
    first_from(tables, place, from, time) < tables.len(place)
}
