//! Why the headers of a file are refused, in words.

use crate::file_kinds::{FileKind, file_kind};
use crate::line_ends::{has_order_mark, is_wide};
use crate::wanted::Wanted;
use packet_forms::{be32, behind, crc16, front};
use std::io;
use std::str::from_utf8;
use table_files::{FileFault, TableKind};
use table_forms::{PayloadForm, table_kind, table_layouts};

/// How many bytes the headers of a table have, and those of bytes to be loaded.
const TABLE_HEADERS: usize = 116;

const LOAD_HEADERS: usize = 80;

/// How many of the first bytes are looked at of a file whose beginning isn't known.
const SEEN: usize = 16;

/// How many bytes stand in front of a dwell table's entries, and how many sequences have at most.
const HEAD: usize = 4;

const MOST_ABSOLUTE: usize = 65_536;

const MOST_RELATIVE: usize = 2_048;

/// The subtypes of a table and of a load.
const TABLE: u32 = 8;

const LOAD: u32 = 100;

/// Where the name of a table stands, and how many bytes it has.
const NAME: usize = 76;

const NAME_BYTES: usize = 40;

/// Whether a byte may stand in a text.
fn is_of_text(byte: u8) -> bool {
    byte >= b' ' || byte == b'\n' || byte == b'\r' || byte == b'\t'
}

/// What is told of bytes whose beginning isn't known: where it looks like a text, that it is one.
fn unknown_hint(file: &[u8]) -> Option<&'static str> {
    let beginning = front(file, SEEN);
    if beginning.is_empty() {
        return Some("it is empty");
    }
    if !beginning.iter().all(|byte| is_of_text(*byte)) {
        return None;
    }
    if beginning.iter().any(|byte| *byte == b'\r') {
        return Some("it is a text with carriage returns: save it with LF line ends");
    }
    if beginning.iter().any(|byte| *byte == b'\t') {
        return Some(
            "it is a text with tabs, where a file of a table or of a load is wanted: words stand between spaces",
        );
    }
    Some(
        "it is a text that begins with no word of a table, a load, a plan, a scenario or a book, where a file of a table or of a load is wanted",
    )
}

/// What a text is that was given in the place of a file; none where it is no text.
fn text_hint(file: &[u8]) -> Option<&'static str> {
    if is_wide(file) {
        return Some("it is UTF-16: save it as UTF-8");
    }
    if has_order_mark(file) {
        return Some("it begins with a byte order mark: save it without");
    }
    let Some(kind) = file_kind(file) else {
        return unknown_hint(file);
    };
    match kind {
        FileKind::Image => None,
        FileKind::Manifest => {
            Some("it is the manifest of a book: the files are taken that it names")
        }
        FileKind::Text => Some("it is a text: `groundkit table` makes the file of it"),
        FileKind::Scenario => Some(
            "it is a scenario or a plan, where a file of a table or of a load is wanted",
        ),
        FileKind::Unbegun => Some(
            "it is a scenario or a plan whose first line, `epoch N`, is missing, where a file of a table or of a load is wanted",
        ),
        FileKind::Book => Some("it is a book: `groundkit build` writes its files"),
        FileKind::Parts => Some("it is a book whose first line, `book NAME`, is missing"),
        FileKind::Log => Some("it is a log, where a file of a table or of a load is wanted"),
        FileKind::Rows => Some(
            "it is rows of `groundkit csv`, where a file of a table or of a load is wanted",
        ),
        FileKind::Capture => Some(
            "it is a capture of `groundkit pcap`, where a file of a table or of a load is wanted",
        ),
    }
}

/// The number in four bytes of a file; 0 where they aren't there.
fn number_at(file: &[u8], at: usize) -> u32 {
    let rest = behind(file, at);
    if rest.len() < 4 {
        return 0;
    }
    be32(rest, 0)
}

/// The bytes of a table's name in its file, up to the first that is zero.
fn name_bytes(file: &[u8]) -> &[u8] {
    let field = front(behind(file, NAME), NAME_BYTES);
    let end = field
        .iter()
        .position(|byte| *byte == 0)
        .unwrap_or(field.len());
    front(field, end)
}

/// The name of a table in its file.
fn table_name(file: &[u8]) -> &str {
    from_utf8(name_bytes(file)).unwrap_or("")
}

/// The first byte of a name that is no printable character.
fn strange_byte(name: &[u8]) -> Option<u8> {
    for byte in name {
        if !byte.is_ascii_graphic() && *byte != b' ' {
            return Some(*byte);
        }
    }
    None
}

/// Tells that the name in a file is no table's.
fn tell_unknown<R: Eprint>(rt: &R, name: &str, file: &[u8]) -> io::Result<()> {
    let reason = FileFault::Name.number();
    let tables = Wanted::Table;
    if let Some(byte) = strange_byte(name_bytes(file)) {
        return eprintln!(rt;
            "{name}: the name of a table in its header has the byte 0x{byte:02X}, which no name has: {tables} (reason {reason})"
        );
    }
    let found = table_name(file);
    if found.is_empty() {
        return eprintln!(rt;
            "{name}: its header has no name of a table: {tables} (reason {reason})"
        );
    }
    eprintln!(rt; "{name}: no table has the name {found:?}: {tables} (reason {reason})")
}

/// Tells why the name of a table is refused: there is none, or other bytes stand behind its end.
fn tell_name<R: Eprint>(rt: &R, name: &str, file: &[u8]) -> io::Result<()> {
    let reason = FileFault::Name.number();
    let found = table_name(file);
    if table_kind(found.as_bytes()).is_some() {
        return eprintln!(rt;
            "{name}: bytes that aren't zero stand behind the name {found} in its header (reason {reason})"
        );
    }
    tell_unknown(rt, name, file)
}

/// How many bytes a table has.
#[derive(Clone, Copy, Debug, PartialEq, Eq)]
enum TableSize {
    Exactly(usize),
    AtMost(usize),
}

/// How many bytes the table of this name has behind its headers.
fn wanted_size(table: &str) -> Option<TableSize> {
    let kind = table_kind(table.as_bytes())?;
    let size = match table_layouts().form(kind) {
        PayloadForm::Entries(layout) => {
            TableSize::Exactly(layout.count.saturating_mul(layout.size))
        }
        PayloadForm::Headed(layout) => {
            TableSize::Exactly(
                layout
                    .count
                    .saturating_mul(layout.size)
                    .saturating_add(HEAD),
            )
        }
        PayloadForm::Sequence(_, _) if matches!(kind, TableKind::Rts(_)) => {
            TableSize::AtMost(MOST_RELATIVE)
        }
        PayloadForm::Sequence(_, _) => TableSize::AtMost(MOST_ABSOLUTE),
    };
    Some(size)
}

/// Tells why the number of a table's bytes is refused.
fn tell_table_size<R: Eprint>(rt: &R, name: &str, file: &[u8]) -> io::Result<()> {
    let reason = FileFault::Size.number();
    let said = number_at(file, 72) as usize;
    let there = behind(file, TABLE_HEADERS).len();
    if said != there {
        return eprintln!(rt;
            "{name}: by its subtype, {TABLE}, it is a table, whose header says {said} bytes, and {there} stand behind the headers (reason {reason})"
        );
    }
    let table = table_name(file);
    match wanted_size(table) {
        Some(TableSize::Exactly(wanted)) => eprintln!(rt;
            "{name}: the table {table} has {wanted} bytes, and these are {there} (reason {reason})"
        ),
        Some(TableSize::AtMost(most)) => eprintln!(rt;
            "{name}: the table {table} has at most {most} bytes, and these are {there} (reason {reason})"
        ),
        None => eprintln!(rt; "{name}: the table {table} hasn't {there} bytes (reason {reason})"),
    }
}

/// Tells why the number of bytes to be loaded is refused.
fn tell_load_size<R: Eprint>(rt: &R, name: &str, file: &[u8]) -> io::Result<()> {
    let reason = FileFault::Size.number();
    let said = number_at(file, 68) as usize;
    let there = behind(file, LOAD_HEADERS).len();
    if said != there {
        return eprintln!(rt;
            "{name}: by its subtype, {LOAD}, it is a load, whose header says {said} bytes, and {there} stand behind the headers (reason {reason})"
        );
    }
    eprintln!(rt; "{name}: 1 to 65536 bytes can be loaded, and these are {there} (reason {reason})")
}

/// Tells that the bytes to be loaded have another CRC than the header says.
fn tell_check<R: Eprint>(rt: &R, name: &str, file: &[u8]) -> io::Result<()> {
    let reason = FileFault::LoadCrc.number();
    let said = number_at(file, 72);
    let there = u32::from(crc16(0, behind(file, LOAD_HEADERS)));
    eprintln!(rt;
        "{name}: its header says the CRC 0x{said:08X}, and the bytes to be loaded have 0x{there:08X} (reason {reason})"
    )
}

/// Tells that a file ends within its headers.
fn tell_short<R: Eprint>(rt: &R, name: &str, file: &[u8]) -> io::Result<()> {
    let reason = FileFault::Short.number();
    let there = file.len();
    if number_at(file, 4) == TABLE {
        return eprintln!(rt;
            "{name}: by its subtype, {TABLE}, it is a table, whose headers have {TABLE_HEADERS} bytes, and it has {there} in all (reason {reason})"
        );
    }
    eprintln!(rt;
        "{name}: the file ends within its headers: it has {there} bytes, and the headers of a table have {TABLE_HEADERS}, those of a load {LOAD_HEADERS} (reason {reason})"
    )
}

/// Tells a fault of headers, by what stands in them.
fn tell_field<R: Eprint>(rt: &R, name: &str, file: &[u8], fault: FileFault) -> io::Result<()> {
    let reason = fault.number();
    match fault {
        FileFault::Short => tell_short(rt, name, file),
        FileFault::ContentType => {
            let found = number_at(file, 0);
            eprintln!(rt;
                "{name}: its first four bytes are 0x{found:08X}, and those of a table or a load are 0x63464531 (reason {reason})"
            )
        }
        FileFault::Subtype => {
            let found = number_at(file, 4);
            eprintln!(rt;
                "{name}: its subtype is {found}, and 8, a table, and 100, a load, are taken (reason {reason})"
            )
        }
        FileFault::Partial => {
            let found = number_at(file, 68);
            eprintln!(rt;
                "{name}: its table begins at offset {found}, and whole tables are taken, at offset 0 (reason {reason})"
            )
        }
        FileFault::Name => tell_name(rt, name, file),
        FileFault::Size => {
            if number_at(file, 4) == TABLE {
                tell_table_size(rt, name, file)
            } else {
                tell_load_size(rt, name, file)
            }
        }
        FileFault::LoadCrc => tell_check(rt, name, file),
    }
}

/// The number of the reason for which a file is refused that is longer than any that is taken (docs/FILES.md).
const TOO_LONG: u8 = 9;

/// Tells that a file is longer than any that is taken, or what it is, where its beginning shows that it is no file of a table or of a load.
pub fn tell_long<R: Eprint>(rt: &R, name: &str, beginning: &[u8]) -> io::Result<()> {
    match text_hint(beginning) {
        Some(hint) => eprintln!(rt; "{name}: {hint} (reason {TOO_LONG})"),
        None => eprintln!(rt; "{name}: it has over 65700 bytes (reason {TOO_LONG})"),
    }
}

/// Tells why the headers of a file are refused, by what stands in them, with the number of the reason (docs/FILES.md); of a text what makes
/// the file of it.
pub fn tell_headers<R: Eprint>(
    rt: &R,
    name: &str,
    file: &[u8],
    fault: FileFault,
) -> io::Result<()> {
    let reason = fault.number();
    match text_hint(file) {
        Some(hint) => eprintln!(rt; "{name}: {hint} (reason {reason})"),
        None => tell_field(rt, name, file, fault),
    }
}
