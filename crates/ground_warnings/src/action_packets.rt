//! Commands of message actions with a wrong checksum.

use crate::sent_packets::{Checksums, checksums_of, is_wrong_command};
use crate::telling::{PlacedText, entry_line_number};
use hs_tables::load_msgacts;
use table_files::TableKind;

/// How many entries the table of message actions has, and how many bytes.
const ENTRIES: u32 = 8;

const TABLE_BYTES: usize = 544;

/// Warns of an entry, with the line of the text where it stands, if that is known.
fn warn_of_entry<R: Eprint>(
    rt: &R,
    name: &str,
    placed: Option<PlacedText<'_>>,
    entry: u32,
    sums: Checksums,
) {
    // There is no other place to tell it.
    let _told = match entry_line_number(placed, TableKind::MsgActs, entry) {
        Some(line) => eprintln!(rt;
            "{name}: line {line}: warning: the command of entry {entry} has a wrong checksum, so that its application refuses it: {sums}"
        ),
        None => eprintln!(rt;
            "{name}: warning: the command of entry {entry} has a wrong checksum, so that its application refuses it: {sums}"
        ),
    };
}

/// Warns of the used entries of message actions whose command has a wrong checksum.
pub(crate) fn warn_of_actions<R: Eprint>(
    rt: &R,
    name: &str,
    placed: Option<PlacedText<'_>>,
    payload: &[u8],
) {
    if payload.len() != TABLE_BYTES {
        return;
    }
    let Ok(actions) = load_msgacts(payload) else {
        return;
    };
    for place in 0..ENTRIES {
        if let Some(action) = actions.entry(place + 1) {
            if is_wrong_command(&action.packet) {
                let sums = checksums_of(&action.packet);
                warn_of_entry(rt, name, placed, place + 1, sums);
            }
        }
    }
}
