//! Why a file, a table or its entries are refused.
ghost use Rattle.std.specs.Prelude.{◌≡◌, ◌≤◌};
ghost use Rattle.table_files.specs.Faults.{file_fault_number};

use thiserror::Error;

/// Why a file is refused: the first fault that it has. They are asked in this order, but that the length of both headers
/// is asked, as `Short`, right after the subtype (docs/FILES.md). Only tables have `Partial` and `Name`, only bytes to be
/// loaded have `LoadCrc`.
#[derive(Clone, Copy, Debug, PartialEq, Eq, Error)]
pub enum FileFault {
    #[error("the file ends within its headers")]
    Short,
    #[error("the content type isn't 0x63464531")]
    ContentType,
    #[error("the subtype is of no file that is read")]
    Subtype,
    #[error("the table doesn't begin at offset 0")]
    Partial,
    #[error("no table has this name")]
    Name,
    #[error("the number of bytes isn't the one that the header says, or isn't the table's")]
    Size,
    #[error("the bytes to be loaded have another checksum")]
    LoadCrc,
}

impl FileFault {
    /// The number of the fault, from 1 to 7.
    pub fn number(self) -> u8
        ensures value { result ≡ file_fault_number self }
        ensures least { 1 ≤ result }
        ensures most { result ≤ 7 }
    {
        match self {
            FileFault::Short => 1,
            FileFault::ContentType => 2,
            FileFault::Subtype => 3,
            FileFault::Partial => 4,
            FileFault::Name => 5,
            FileFault::Size => 6,
            FileFault::LoadCrc => 7,
        }
    }
}

/// Why a file isn't added. `File` is asked first; where it holds, `NoMemory` isn't answered.
#[derive(Clone, Copy, Debug, PartialEq, Eq, Error)]
pub enum AddFault {
    #[error("the file is refused")]
    File(FileFault),
    #[error("memory ran out")]
    NoMemory,
}

/// Why the entries of a table are refused: the first faulty entry, counted from 1, and the least reason in it.
/// Entry 0 stands for what precedes the entries.
#[derive(Clone, Copy, Debug, PartialEq, Eq)]
pub struct EntryFault {
    pub entry: u32,
    pub reason: u8,
}
