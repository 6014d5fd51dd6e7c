//! The places of sequences.
ghost use Rattle.std.specs.Prelude.{◌≡◌, ◌≤◌, ◌<◌, List, IfSome};
ghost use Rattle.sc_tables.specs.Commands.{TimedCommand};
ghost use Rattle.sc_sequences.specs.Sequences.{Sequence, ats_place, rts_place, is_relative, running_ats, is_running, at_place};
ghost use Rattle.sc_sequences.specs.State.{CursorsStand, sequence_place};

use crate::cursors::Cursors;
use table_files::TableKind;

/// The place of absolute sequence `number`; none where there is no such sequence.
pub(crate) fn ats_place(number: u16) -> Option<usize>
    ensures place { result ≡ ats_place number }
    ensures within { IfSome result (λ place. place < 2) }
{
    if number == 0 || number > 2 {
        return None;
    }
    Some(usize::from(number) - 1)
}

/// The place of relative sequence `number`; none where there is no such sequence.
pub(crate) fn rts_place(number: u16) -> Option<usize>
    ensures place { result ≡ rts_place number }
    ensures within { IfSome result (λ place. (2 ≤ place) × (place < 66)) }
{
    if number == 0 || number > 64 {
        return None;
    }
    Some(usize::from(number) + 1)
}

/// The place of the sequence of a kind; none of a kind that isn't one.
pub(crate) fn sequence_place(kind: TableKind) -> Option<usize>
    ensures place { result ≡ sequence_place kind }
    ensures within { IfSome result (λ place. place < 66) }
{
    match kind {
        TableKind::Ats(number) => ats_place(u16::from(number)),
        TableKind::Rts(number) => rts_place(u16::from(number)),
        TableKind::AppMon
        | TableKind::EventMon
        | TableKind::ExeCount
        | TableKind::MsgActs
        | TableKind::Dwell(_)
        | TableKind::Eeprom
        | TableKind::Memory
        | TableKind::Wdt
        | TableKind::Adt => None,
    }
}

/// Whether the sequence in a place is a relative one.
#[inline(always)]
pub(crate) fn is_relative(place: usize) -> bool
    ensures { result ≡ is_relative place }
{
    place >= 2
}

/// Whether the sequence in a place runs.
pub(crate) fn is_running(cursors: &Cursors, place: usize) -> bool
    requires { place < 66 }
    ensures { (tables : List (List TimedCommand)) (all : List Sequence)
        → CursorsStand tables all cursors.now → result ≡ is_running (at_place all place) }
{
    cursors.get(place).next.is_some()
}

/// The place of the absolute sequence that runs.
pub(crate) fn running_ats(cursors: &Cursors) -> Option<usize>
    ensures place { (tables : List (List TimedCommand)) (all : List Sequence)
        → CursorsStand tables all cursors.now → result ≡ running_ats all }
    ensures within { IfSome result (λ place. place < 2) }
{
    if is_running(cursors, 0) {
        return Some(0);
    }
    if is_running(cursors, 1) {
        return Some(1);
    }
    None
}
