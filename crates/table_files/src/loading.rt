//! The entries of a table's payload, and the first faulty one.
ghost use Rattle.std.specs.Prelude.{◌≡◌, ◌<◌, ◌≤◌, length, None, IfSome};
ghost use Rattle.table_files.specs.Entries.{first_fault, entries_in, where_well};

use crate::fault::EntryFault;

/// An entry of a table that always has as many entries, one after another in its payload.
pub trait Entry: Copy {
    ghost use Rattle.std.specs.Prelude.{ℕ, List, Option};

    /// The entry in a place of a payload, from 0.
    ghost entry_at: { List ℕ → ℕ → Self };

    /// The least reason to refuse an entry.
    ghost reason_of: { Self → Option ℕ };

    ghost PAYLOAD: { ℕ };

    ghost ENTRIES: { ℕ };

    ghost REASONS: { ℕ };

    /// How many bytes the payload of such a table has.
    const PAYLOAD: usize;

    /// How many entries such a table has.
    const ENTRIES: u32;

    /// The largest reason to refuse an entry.
    const REASONS: u8;

    /// An entry that stands in a place before one is read there.
    const BLANK: Self;

    /// The entry in a place of a payload, from 0.
    fn read(payload: &[u8], place: u32) -> Self
        requires whole { length payload.now ≡ PAYLOAD }
        requires within { place < ENTRIES }
        ensures { result ≡ entry_at payload.now place };

    /// The least reason to refuse the entry.
    fn reason(&self) -> Option<u8>
        ensures least { result ≡ reason_of self.now }
        ensures most { IfSome result (λ reason. reason ≤ REASONS) };
}

/// Reads a table's payload into the table's place, and answers the first faulty entry, counted from 1, with its least
/// reason. Where an entry is refused the place stays as it was. Each entry is read once, beside the place, and all are
/// then copied there.
pub fn read_in_place<E: Entry, const N: usize>(
    payload: &[u8],
    place: &mut [E; N],
) -> Option<EntryFault>
    requires whole { length payload.now ≡ E.PAYLOAD }
    requires room { N ≡ E.ENTRIES }
    ensures place { place.new ≡ where_well (entries_in E.entry_at N payload.now) place.old
        (first_fault E.reason_of 1 (entries_in E.entry_at N payload.now)) }
    ensures fault { result ≡ first_fault E.reason_of 1 (entries_in E.entry_at N payload.now) }
    ensures small { IfSome result (λ fault. fault.reason ≤ E.REASONS) }
    ensures same_length { length place.new ≡ N }
{
    let mut entries = [E::BLANK; N];
    match load_entries(payload, &mut entries) {
        Some(fault) => Some(fault),
        None => {
            *place = entries;
            None
        }
    }
}

/// The first faulty entry of a payload, counted from 1, with its least reason. Where there is none, `entries` are the
/// entries of the payload afterwards.
fn load_entries<E: Entry>(payload: &[u8], entries: &mut [E]) -> Option<EntryFault>
    requires whole { length payload.now ≡ E.PAYLOAD }
    requires room { length entries.old ≡ E.ENTRIES }
    ensures fault { result ≡ first_fault E.reason_of 1
        (entries_in E.entry_at E.ENTRIES payload.now) }
    ensures entries { result ≡ None → entries.new ≡ entries_in E.entry_at E.ENTRIES payload.now }
    ensures small { IfSome result (λ fault. fault.reason ≤ E.REASONS) }
{
    for i in 0..E::ENTRIES {
        let entry = E::read(payload, i);
        if let Some(reason) = entry.reason() {
            return Some(EntryFault {
                entry: i + 1,
                reason,
            });
        }
        entries[i as usize] = entry;
    }
    None
}

/// The first faulty entry of a payload, counted from 1, with its least reason. It stores no entry.
pub fn first_fault<E: Entry>(payload: &[u8]) -> Option<EntryFault>
    requires { length payload.now ≡ E.PAYLOAD }
    ensures fault { result ≡ first_fault E.reason_of 1
        (entries_in E.entry_at E.ENTRIES payload.now) }
    ensures small { IfSome result (λ fault. fault.reason ≤ E.REASONS) }
{
    for i in 0..E::ENTRIES {
        if let Some(reason) = E::read(payload, i).reason() {
            return Some(EntryFault {
                entry: i + 1,
                reason,
            });
        }
    }
    None
}

/// Reads the entries of a payload, each into its place. It asks none of them for a fault.
pub fn store_entries<E: Entry>(payload: &[u8], places: &mut [E])
    requires whole { length payload.now ≡ E.PAYLOAD }
    requires room { length places.old ≡ E.ENTRIES }
    ensures entries { places.new ≡ entries_in E.entry_at E.ENTRIES payload.now }
    ensures whole { length places.new ≡ E.ENTRIES }
{
    for i in 0..E::ENTRIES {
        places[i as usize] = E::read(payload, i);
    }
}
