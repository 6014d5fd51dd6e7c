//! Names in tables of Health and Safety, and those that somebody has.
ghost use Rattle.std.specs.Prelude.{◌≡◌, ◌<◌, length, IfOk};
ghost use Rattle.std.specs.List.{list_any};
ghost use Rattle.std.specs.Str.{bytes_eq};
ghost use Rattle.table_files.specs.Kinds.{IsTable};
ghost use Rattle.table_warnings.specs.Used.{count_of};
ghost use Rattle.table_warnings.specs.Names.{applications, own_names, is_known, name_at, unknown_at, unknown_names};

use crate::adding::add_warning;
use crate::used::{count_of, is_used};
use crate::warning::Warning;
use packet_forms::Name;
use std::alloc::{AllocError, Global};
use table_files::TableKind;

/// Whether a name is that of an application of the bench.
fn is_application(text: &[u8]) -> bool
    ensures { result ≡ list_any (λ own. bytes_eq text.now own) applications }
{
    text == b"HS".as_slice()
        || text == b"CS".as_slice()
        || text == b"SC".as_slice()
        || text == b"MM".as_slice()
        || text == b"MD".as_slice()
        || text == b"LC".as_slice()
}

/// Whether an entry of a kind may have a name in every scenario: that of an application of the bench, and of an event `TBL` too.
fn is_own(kind: TableKind, text: &[u8]) -> bool
    ensures { result ≡ list_any (λ own. bytes_eq text.now own) (own_names kind) }
{
    match kind {
        TableKind::EventMon => text == b"TBL".as_slice() || is_application(text),
        TableKind::AppMon
        | TableKind::ExeCount
        | TableKind::MsgActs
        | TableKind::Ats(_)
        | TableKind::Rts(_)
        | TableKind::Dwell(_)
        | TableKind::Eeprom
        | TableKind::Memory
        | TableKind::Wdt
        | TableKind::Adt => is_application(text),
    }
}

/// Whether a name has these bytes.
fn is_same(other: &Name, name: &[u8]) -> bool
    ensures { result ≡ bytes_eq other.now name.now }
{
    other.bytes() == name
}

/// Whether one of these is a name.
fn has_name(known: &[Name], name: &[u8]) -> bool
    ensures { result ≡ list_any (λ other. bytes_eq other name.now) known.now }
{
    for other in known {
        if is_same(other, name) {
            return true;
        }
    }
    false
}

/// Whether a name is one of the bench's own, or one of these.
#[tactic(auto, unfolding(crate::specs::Names::is_known))]
fn is_known(kind: TableKind, known: &[Name], name: &Name) -> bool
    ensures { result ≡ is_known kind known.now name.now }
{
    is_own(kind, name.text().as_bytes()) || has_name(known, name.bytes())
}

/// The name in the entry in a place, where it has one.
fn name_at(kind: TableKind, payload: &[u8], place: usize) -> Option<Name>
    requires table { IsTable kind (length payload.now) }
    requires place { place < count_of kind }
    ensures { result ≡ name_at kind payload.now place }
{
    match kind {
        TableKind::AppMon | TableKind::EventMon => {
            Name::from_bytes(&payload[24 * place..24 * place + 20])
        }
        TableKind::ExeCount => Name::from_bytes(&payload[22 * place..22 * place + 20]),
        TableKind::MsgActs
        | TableKind::Ats(_)
        | TableKind::Rts(_)
        | TableKind::Dwell(_)
        | TableKind::Eeprom
        | TableKind::Memory
        | TableKind::Wdt
        | TableKind::Adt => None,
    }
}

/// The warning of the entry in a place: it is used, and has a name that nobody has.
#[tactic(auto, unfolding(crate::specs::Names::unknown_at))]
fn unknown_at(kind: TableKind, known: &[Name], payload: &[u8], place: usize) -> Option<Warning>
    requires table { IsTable kind (length payload.now) }
    requires place { place < count_of kind }
    ensures { result ≡ unknown_at kind known.now payload.now place }
{
    let Some(name) = name_at(kind, payload, place) else {
        return None;
    };
    if is_used(kind, payload, place) && !is_known(kind, known, &name) {
        return Some(Warning::Unknown(place as u32 + 1, name));
    }
    None
}

/// The warnings of used entries of Health and Safety's tables whose name nobody has: no application of the bench, none of these names, which
/// are those that a scenario counts or sends events of, and, in an event monitor, not `TBL`. They stand in the order of the entries.
#[tactic(auto, unfolding(crate::specs::Names::unknown_names))]
pub fn find_unknown_names(
    alloc: Global,
    kind: TableKind,
    known: &[Name],
    payload: &[u8],
) -> Result<Vec<Warning>, AllocError>
    requires { IsTable kind (length payload.now) }
    ensures { IfOk result (λ warnings. warnings.items ≡ unknown_names kind known.now payload.now) }
{
    let mut warnings = Vec::new(alloc);
    for place in 0..count_of(kind) {
        add_warning(unknown_at(kind, known, payload, place), &mut warnings)?;
    }
    Ok(warnings)
}
