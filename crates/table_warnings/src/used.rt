//! Entries that are used, and unused ones between them.
ghost use Rattle.std.specs.Prelude.{◌≡◌, ◌<◌, ◌≤◌, ◌+◌, length};
ghost use Rattle.table_files.specs.Kinds.{IsTable};
ghost use Rattle.table_warnings.specs.Used.{count_of, is_some_at, used_at, any_used, is_gap};

use packet_forms::be16;
use table_files::TableKind;

/// How many entries a table always has; a sequence has as many as its payload.
pub(crate) fn count_of(kind: TableKind) -> usize
    ensures value { result ≡ count_of kind }
    ensures few { result ≤ 32 }
{
    match kind {
        TableKind::AppMon | TableKind::ExeCount | TableKind::Wdt => 32,
        TableKind::EventMon | TableKind::Eeprom | TableKind::Memory | TableKind::Adt => 16,
        TableKind::MsgActs => 8,
        TableKind::Ats(_) | TableKind::Rts(_) => 0,
        TableKind::Dwell(_) => 25,
    }
}

/// Whether the number of two bytes in a place isn't 0.
fn is_some_at(payload: &[u8], at: usize) -> bool
    requires { at + 2 ≤ length payload.now }
    ensures { result ≡ is_some_at payload.now at }
{
    be16(payload, at) != 0
}

/// Whether the entry in a place of a payload, from 0, is used.
pub(crate) fn is_used(kind: TableKind, payload: &[u8], place: usize) -> bool
    requires table { IsTable kind (length payload.now) }
    requires place { place < count_of kind }
    ensures { result ≡ used_at kind payload.now place }
{
    match kind {
        TableKind::AppMon => {
            is_some_at(payload, 24 * place + 20) && is_some_at(payload, 24 * place + 22)
        }
        TableKind::EventMon => is_some_at(payload, 24 * place + 22),
        TableKind::ExeCount => is_some_at(payload, 22 * place + 20),
        TableKind::MsgActs => is_some_at(payload, 68 * place),
        TableKind::Ats(_) | TableKind::Rts(_) => true,
        TableKind::Dwell(_) => is_some_at(payload, 4 + 8 * place),
        TableKind::Eeprom | TableKind::Memory => is_some_at(payload, 12 * place),
        TableKind::Wdt => is_some_at(payload, 16 * place),
        TableKind::Adt => is_some_at(payload, 40 * place),
    }
}

/// Whether one of so many entries from a place on is used.
fn any_used(kind: TableKind, payload: &[u8], from: usize, count: usize) -> bool
    requires table { IsTable kind (length payload.now) }
    requires places { from + count ≤ count_of kind }
    ensures { result ≡ any_used kind payload.now from count }
{
    if count == 0 {
        return false;
    }
    if is_used(kind, payload, from) {
        return true;
    }
    any_used(kind, payload, from + 1, count - 1)
}

/// Whether an entry is unused, and used ones stand before and behind it.
#[tactic(auto, unfolding(crate::specs::Used::is_gap))]
pub(crate) fn is_gap(kind: TableKind, payload: &[u8], place: usize) -> bool
    requires table { IsTable kind (length payload.now) }
    requires place { place < count_of kind }
    ensures { result ≡ is_gap kind payload.now place }
{
    !is_used(kind, payload, place)
        && any_used(kind, payload, 0, place)
        && any_used(kind, payload, place + 1, count_of(kind) - (place + 1))
}
