//! The fault of the entries of files.

ghost use Rattle.std.specs.Prelude.{◌≡◌, ℕ, ◌≤◌, Option, option_map, IfSome};
ghost use Rattle.table_files.specs.declared.fault.EntryFault.{EntryFault};
ghost use Rattle.active_tables.specs.Tables.{said_or, fault_at};

use table_files::EntryFault;

/// Why the entries of the files are refused: the first faulty file, counted from 1, and in it the entry and the reason that
/// its loader answers.
#[derive(Clone, Copy, Debug, PartialEq, Eq)]
pub struct TablesFault {
    pub file: u32,
    pub entry: u32,
    pub reason: u8,
}

/// The first fault of a file and of the files behind it: the file's own, where it has one.
pub(crate) fn earlier_fault(
    file: u32,
    fault: Option<EntryFault>,
    behind: Option<TablesFault>,
) -> Option<TablesFault>
    ensures fault { (said : Option (ℕ × EntryFault)) → behind ≡ option_map fault_at said
        → result ≡ option_map fault_at (said_or file fault said) }
    ensures small { IfSome fault (λ fault. fault.reason ≤ 5)
        → IfSome behind (λ fault. fault.reason ≤ 5) → IfSome result (λ fault. fault.reason ≤ 5) }
{
    match fault {
        Some(fault) => Some(TablesFault {
            file,
            entry: fault.entry,
            reason: fault.reason,
        }),
        None => behind,
    }
}
