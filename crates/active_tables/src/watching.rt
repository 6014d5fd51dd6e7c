//! Whether LC is there.

ghost use Rattle.std.specs.Prelude.{◌≡◌, ℕ, List};
ghost use Rattle.table_files.specs.Headers.{Shows};
ghost use Rattle.active_tables.specs.Tables.{is_limits, names_limits, lc_named};

use table_files::{FileImage, Files, TableKind};

/// Whether one of the files is a table of LC.
pub fn names_limit_checker(files: &Files) -> bool
    ensures { result ≡ lc_named files.now }
{
    'files: for i in 0..files.len() {
        if names_limits(files.get(i + 1)) {
            return true;
        }
    }
    false
}

/// Whether a file is a table of LC.
fn names_limits(image: FileImage<'_>) -> bool
    requires { (file : List ℕ) × Shows file image }
    ensures { (file : List ℕ) → Shows file image.entry → result ≡ names_limits file }
{
    match image {
        FileImage::Load { .. } => false,
        FileImage::Table { kind, .. } => is_limits(kind),
    }
}

/// Whether a table of this kind is one of LC.
fn is_limits(kind: TableKind) -> bool
    ensures { result ≡ is_limits kind }
{
    match kind {
        TableKind::Wdt | TableKind::Adt => true,
        TableKind::Dwell(_)
        | TableKind::Eeprom
        | TableKind::Memory
        | TableKind::AppMon
        | TableKind::EventMon
        | TableKind::ExeCount
        | TableKind::MsgActs
        | TableKind::Ats(_)
        | TableKind::Rts(_) => false,
    }
}
