//! What the readers of files and of entries say, which the program uses too.
ghost use Rattle.std.specs.Prelude.{◌≡◌, length};
ghost use Rattle.table_files.specs.Kinds.{IsTable};
ghost use Rattle.table_forms.specs.Judging.{entry_fault_of, refusal_of};

use crate::fault::TableFault;
use cs_slices::load_segments;
use hs_tables::{load_appmon, load_eventmon, load_execount, load_msgacts};
use lc_watch::{load_adt, load_wdt};
use md_dwell::load_dwell;
use sc_tables::{load_ats, load_rts};
use table_files::{EntryFault, FileImage, TableKind, read_file};

/// Why a file isn't taken, by the readers of files and of entries that the program uses; None where it is taken.
pub fn find_refusal(file: &[u8]) -> Option<TableFault>
    ensures { result ≡ refusal_of file.now }
{
    match read_file(file) {
        Ok(FileImage::Table { kind, payload }) => match entry_fault(kind, payload) {
            Some(fault) => Some(TableFault::Entry(kind, fault)),
            None => None,
        },
        Ok(FileImage::Load { at: _, bytes: _ }) => None,
        Err(fault) => Some(TableFault::File(fault)),
    }
}

/// The first faulty entry of a table's payload.
fn entry_fault(kind: TableKind, payload: &[u8]) -> Option<EntryFault>
    requires { IsTable kind (length payload.now) }
    ensures { result ≡ entry_fault_of kind payload.now }
{
    match kind {
        TableKind::AppMon => load_appmon(payload).err(),
        TableKind::EventMon => load_eventmon(payload).err(),
        TableKind::ExeCount => load_execount(payload).err(),
        TableKind::MsgActs => load_msgacts(payload).err(),
        TableKind::Ats(_) => load_ats(payload).err(),
        TableKind::Rts(_) => load_rts(payload).err(),
        TableKind::Dwell(_) => load_dwell(payload).err(),
        TableKind::Eeprom | TableKind::Memory => load_segments(payload).err(),
        TableKind::Wdt => load_wdt(payload).err(),
        TableKind::Adt => load_adt(payload).err(),
    }
}
