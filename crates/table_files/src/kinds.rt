//! The kinds of tables: their names, and how many bytes their payloads have.
ghost use Rattle.std.specs.Prelude.{◌≡◌, ◌≤◌, map};
ghost use Rattle.table_files.specs.Kinds.{fits_kind, is_padded, known_by, kind_among, named_kind, rts_name, rts_tables};

use packet_forms::are_zeros;

/// Which table a file holds. A number tells tables of one sort apart.
#[derive(Clone, Copy, Debug, PartialEq, Eq)]
pub enum TableKind {
    /// The application monitors.
    AppMon,
    /// The event monitors.
    EventMon,
    /// The execution counters.
    ExeCount,
    /// The message actions.
    MsgActs,
    /// An absolute time sequence, 1 or 2.
    Ats(u8),
    /// A relative time sequence, 1 to 64.
    Rts(u8),
    /// A dwell table, 1 to 4.
    Dwell(u8),
    /// The checksum entries of EEPROM.
    Eeprom,
    /// The checksum entries of memory.
    Memory,
    /// The watchpoints of LC.
    Wdt,
    /// The actionpoints of LC.
    Adt,
}

/// A table that is known by its name.
struct TableRow {
    name: &'static str,
    kind: TableKind,
}

/// The tables whose names are known, without the relative time sequences.
const TABLE_ROWS: [TableRow; 14] = [
    TableRow {
        name: "HS.AppMon_Tbl",
        kind: TableKind::AppMon,
    },
    TableRow {
        name: "HS.EventMon_Tbl",
        kind: TableKind::EventMon,
    },
    TableRow {
        name: "HS.ExeCount_Tbl",
        kind: TableKind::ExeCount,
    },
    TableRow {
        name: "HS.MsgActs_Tbl",
        kind: TableKind::MsgActs,
    },
    TableRow {
        name: "SC.ATS_TBL1",
        kind: TableKind::Ats(1),
    },
    TableRow {
        name: "SC.ATS_TBL2",
        kind: TableKind::Ats(2),
    },
    TableRow {
        name: "MD.DWELL_TABLE1",
        kind: TableKind::Dwell(1),
    },
    TableRow {
        name: "MD.DWELL_TABLE2",
        kind: TableKind::Dwell(2),
    },
    TableRow {
        name: "MD.DWELL_TABLE3",
        kind: TableKind::Dwell(3),
    },
    TableRow {
        name: "MD.DWELL_TABLE4",
        kind: TableKind::Dwell(4),
    },
    TableRow {
        name: "CS.DefEepromTbl",
        kind: TableKind::Eeprom,
    },
    TableRow {
        name: "CS.DefMemoryTbl",
        kind: TableKind::Memory,
    },
    TableRow {
        name: "LC.WDT_Tbl",
        kind: TableKind::Wdt,
    },
    TableRow {
        name: "LC.ADT_Tbl",
        kind: TableKind::Adt,
    },
];

/// How many relative time sequences there are.
const RTS_COUNT: u8 = 64;

impl TableKind {
    /// Whether its payload may have so many bytes.
    pub(crate) fn fits(self, size: usize) -> bool
        ensures { result ≡ fits_kind self size }
    {
        match self {
            TableKind::AppMon => size == 768,
            TableKind::EventMon => size == 384,
            TableKind::ExeCount => size == 704,
            TableKind::MsgActs => size == 544,
            TableKind::Ats(_) => size <= 65_536,
            TableKind::Rts(_) => size <= 2_048,
            TableKind::Dwell(_) => size == 204,
            TableKind::Eeprom | TableKind::Memory => size == 192,
            TableKind::Wdt => size == 512,
            TableKind::Adt => size == 640,
        }
    }
}

/// The kind that the bytes of a name field say: a known name, and zero bytes up to the field's end.
#[tactic(auto, unfolding(crate::specs::Kinds::named_kind))]
pub(crate) fn named_kind(field: &[u8]) -> Option<TableKind>
    ensures { result ≡ named_kind field.now }
{
    match kind_among(&TABLE_ROWS, field) {
        Some(kind) => Some(kind),
        None => sequence_kind(field),
    }
}

/// The kind of the relative time sequence whose name a field has.
fn sequence_kind(field: &[u8]) -> Option<TableKind>
    ensures { result ≡ kind_among rts_tables field.now }
{
    'numbers: for n in 1..RTS_COUNT + 1 {
        if is_padded(&rts_name(n), field) {
            return Some(TableKind::Rts(n));
        }
    }
    None
}

/// The name of relative time sequence n, whose number has three digits.
fn rts_name(n: u8) -> [u8; 13]
    requires { n ≤ 64 }
    ensures { result ≡ rts_name n }
{
    let mut name = *b"SC.RTS_TBL000";
    name[11] = b'0' + n / 10;
    name[12] = b'0' + n % 10;
    name
}

/// The kind of the first of these tables whose name a field has.
fn kind_among(rows: &[TableRow], field: &[u8]) -> Option<TableKind>
    ensures { result ≡ kind_among (map known_by rows.now) field.now }
{
    let mut rest = rows;
    while let [row, others @ ..] = rest {
        if is_padded(row.name.as_bytes(), field) {
            return Some(row.kind);
        }
        rest = others;
    }
    None
}

/// Whether a field begins with a name and has only zero bytes behind it.
#[tactic(auto, unfolding(crate::specs::Kinds::is_padded))]
fn is_padded(name: &[u8], field: &[u8]) -> bool
    ensures { result ≡ is_padded name.now field.now }
{
    if !field.starts_with(name) {
        return false;
    }
    are_zeros(&field[name.len()..])
}
