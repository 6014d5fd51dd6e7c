//! The FILEs of a rehearsal, as people know them.

ghost use Rattle.std.specs.Prelude.{◌≡◌};

use crate::second_looks::read_again;
use crate::table_lines::{INDENT, push_table, push_watches};
use ground_files::Workspace;
use input_words::GivenFile;
use packet_forms::{behind, front};
use row_forms::{push_decimal, push_hex};
use std::alloc::{AllocError, Global};
use std::str::from_utf8;
use table_files::{FileImage, TableKind, read_file};

/// Where the name of a table stands in its file, and how many bytes it has at most.
const NAME: usize = 76;

const MOST_NAME: usize = 40;

/// How many bytes of a load are told at most.
const MOST_BYTES: usize = 64;

/// The name of a table in the headers of its file.
pub fn table_name(file: &[u8]) -> &str {
    let field = front(behind(file, NAME), MOST_NAME);
    let size = field
        .iter()
        .position(|byte| *byte == 0)
        .unwrap_or(MOST_NAME);
    from_utf8(front(field, size)).unwrap_or("")
}

/// Appends the first bytes that are to be loaded.
fn push_bytes(bytes: &[u8], lines: &mut Vec<u8>) -> Result<(), AllocError> {
    lines.extend_from_slice(INDENT)?;
    lines.extend_from_slice(b"bytes ")?;
    push_hex(front(bytes, MOST_BYTES), lines)?;
    if bytes.len() > MOST_BYTES {
        lines.extend_from_slice(b" and so on")?;
    }
    lines.extend_from_slice(b"\n")
}

/// A number of FILEs, or of bytes to be loaded: 65,536 at most.
fn small_count(count: usize) -> u32 {
    if count > 65_536 { 65_536 } else { count as u32 }
}

/// Appends the address to which bytes are to be loaded, and how many they are.
fn push_load(at: u32, count: usize, words: &mut Vec<u8>) -> Result<(), AllocError> {
    words.extend_from_slice(b", bytes to be loaded: address=0x")?;
    push_hex(&at.to_be_bytes(), words)?;
    words.extend_from_slice(b" length=")?;
    push_decimal(small_count(count), words)
}

/// Adds the FILE of a name and what it holds, as far as its headers say it; `kinds` are the tables of the FILEs before it, to which its own
/// is added.
pub fn add_file(
    alloc: Global,
    name: &[u8],
    file: &[u8],
    kinds: &mut Vec<TableKind>,
    files: &mut Vec<GivenFile>,
) -> Result<(), AllocError> {
    let number = small_count(files.len()).saturating_add(1);
    let mut words = Vec::from_slice(alloc, name)?;
    let mut lines = Vec::new(alloc);
    match read_file(file) {
        Ok(FileImage::Table { kind, payload }) => {
            words.extend_from_slice(b", ")?;
            words.extend_from_slice(table_name(file).as_bytes())?;
            push_table(alloc, kind, file, kinds.as_slice(), &mut lines)?;
            if kind == TableKind::Wdt {
                push_watches(payload, &mut lines)?;
            }
            kinds.push(kind)?;
        }
        Ok(FileImage::Load { at, bytes }) => {
            push_load(at, bytes.len(), &mut words)?;
            push_bytes(bytes, &mut lines)?;
        }
        Err(_) => {}
    }
    files.push(GivenFile {
        number,
        words,
        lines,
    })?;
    Ok(())
}

/// The FILEs of these paths. Of one that can't be read again nothing is known but its path.
pub(crate) fn given_files<W: Workspace>(
    alloc: Global,
    workspace: &mut W,
    paths: &[&str],
) -> Result<Vec<GivenFile>, AllocError>
    ensures { W.held workspace.new ≡ W.held workspace.old }
{
    let mut files = Vec::new(alloc);
    let mut kinds = Vec::new(alloc);
    for path in paths {
        let name = path.as_bytes();
        match read_again(alloc, workspace, path) {
            Ok(Some(file)) => {
                add_file(alloc, name, file.as_slice(), &mut kinds, &mut files)?;
            }
            _ => add_file(alloc, name, &[], &mut kinds, &mut files)?,
        }
    }
    Ok(files)
}
