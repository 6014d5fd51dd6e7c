//! The names of tables.
ghost use Rattle.std.specs.Prelude.{◌≡◌, map, IfSome};
ghost use Rattle.table_files.specs.Kinds.{IsKnown};
ghost use Rattle.table_forms.specs.Names.{kind_said, called, called_by, kinds};

use table_files::TableKind;

/// A table and its name.
#[derive(Clone, Copy, Debug)]
struct TableName {
    name: &'static str,
    kind: TableKind,
}

/// How many tables there are.
const TABLES: usize = 78;

macro_rules! row {
    ($name:expr, $kind:expr) => {
        TableName {
            name: $name,
            kind: $kind,
        }
    };
}

static NAMES: [TableName; TABLES] = [
    row!("HS.AppMon_Tbl", TableKind::AppMon),
    row!("HS.EventMon_Tbl", TableKind::EventMon),
    row!("HS.ExeCount_Tbl", TableKind::ExeCount),
    row!("HS.MsgActs_Tbl", TableKind::MsgActs),
    row!("SC.ATS_TBL1", TableKind::Ats(1)),
    row!("SC.ATS_TBL2", TableKind::Ats(2)),
    row!("MD.DWELL_TABLE1", TableKind::Dwell(1)),
    row!("MD.DWELL_TABLE2", TableKind::Dwell(2)),
    row!("MD.DWELL_TABLE3", TableKind::Dwell(3)),
    row!("MD.DWELL_TABLE4", TableKind::Dwell(4)),
    row!("CS.DefEepromTbl", TableKind::Eeprom),
    row!("CS.DefMemoryTbl", TableKind::Memory),
    row!("LC.WDT_Tbl", TableKind::Wdt),
    row!("LC.ADT_Tbl", TableKind::Adt),
    row!("SC.RTS_TBL001", TableKind::Rts(1)),
    row!("SC.RTS_TBL002", TableKind::Rts(2)),
    row!("SC.RTS_TBL003", TableKind::Rts(3)),
    row!("SC.RTS_TBL004", TableKind::Rts(4)),
    row!("SC.RTS_TBL005", TableKind::Rts(5)),
    row!("SC.RTS_TBL006", TableKind::Rts(6)),
    row!("SC.RTS_TBL007", TableKind::Rts(7)),
    row!("SC.RTS_TBL008", TableKind::Rts(8)),
    row!("SC.RTS_TBL009", TableKind::Rts(9)),
    row!("SC.RTS_TBL010", TableKind::Rts(10)),
    row!("SC.RTS_TBL011", TableKind::Rts(11)),
    row!("SC.RTS_TBL012", TableKind::Rts(12)),
    row!("SC.RTS_TBL013", TableKind::Rts(13)),
    row!("SC.RTS_TBL014", TableKind::Rts(14)),
    row!("SC.RTS_TBL015", TableKind::Rts(15)),
    row!("SC.RTS_TBL016", TableKind::Rts(16)),
    row!("SC.RTS_TBL017", TableKind::Rts(17)),
    row!("SC.RTS_TBL018", TableKind::Rts(18)),
    row!("SC.RTS_TBL019", TableKind::Rts(19)),
    row!("SC.RTS_TBL020", TableKind::Rts(20)),
    row!("SC.RTS_TBL021", TableKind::Rts(21)),
    row!("SC.RTS_TBL022", TableKind::Rts(22)),
    row!("SC.RTS_TBL023", TableKind::Rts(23)),
    row!("SC.RTS_TBL024", TableKind::Rts(24)),
    row!("SC.RTS_TBL025", TableKind::Rts(25)),
    row!("SC.RTS_TBL026", TableKind::Rts(26)),
    row!("SC.RTS_TBL027", TableKind::Rts(27)),
    row!("SC.RTS_TBL028", TableKind::Rts(28)),
    row!("SC.RTS_TBL029", TableKind::Rts(29)),
    row!("SC.RTS_TBL030", TableKind::Rts(30)),
    row!("SC.RTS_TBL031", TableKind::Rts(31)),
    row!("SC.RTS_TBL032", TableKind::Rts(32)),
    row!("SC.RTS_TBL033", TableKind::Rts(33)),
    row!("SC.RTS_TBL034", TableKind::Rts(34)),
    row!("SC.RTS_TBL035", TableKind::Rts(35)),
    row!("SC.RTS_TBL036", TableKind::Rts(36)),
    row!("SC.RTS_TBL037", TableKind::Rts(37)),
    row!("SC.RTS_TBL038", TableKind::Rts(38)),
    row!("SC.RTS_TBL039", TableKind::Rts(39)),
    row!("SC.RTS_TBL040", TableKind::Rts(40)),
    row!("SC.RTS_TBL041", TableKind::Rts(41)),
    row!("SC.RTS_TBL042", TableKind::Rts(42)),
    row!("SC.RTS_TBL043", TableKind::Rts(43)),
    row!("SC.RTS_TBL044", TableKind::Rts(44)),
    row!("SC.RTS_TBL045", TableKind::Rts(45)),
    row!("SC.RTS_TBL046", TableKind::Rts(46)),
    row!("SC.RTS_TBL047", TableKind::Rts(47)),
    row!("SC.RTS_TBL048", TableKind::Rts(48)),
    row!("SC.RTS_TBL049", TableKind::Rts(49)),
    row!("SC.RTS_TBL050", TableKind::Rts(50)),
    row!("SC.RTS_TBL051", TableKind::Rts(51)),
    row!("SC.RTS_TBL052", TableKind::Rts(52)),
    row!("SC.RTS_TBL053", TableKind::Rts(53)),
    row!("SC.RTS_TBL054", TableKind::Rts(54)),
    row!("SC.RTS_TBL055", TableKind::Rts(55)),
    row!("SC.RTS_TBL056", TableKind::Rts(56)),
    row!("SC.RTS_TBL057", TableKind::Rts(57)),
    row!("SC.RTS_TBL058", TableKind::Rts(58)),
    row!("SC.RTS_TBL059", TableKind::Rts(59)),
    row!("SC.RTS_TBL060", TableKind::Rts(60)),
    row!("SC.RTS_TBL061", TableKind::Rts(61)),
    row!("SC.RTS_TBL062", TableKind::Rts(62)),
    row!("SC.RTS_TBL063", TableKind::Rts(63)),
    row!("SC.RTS_TBL064", TableKind::Rts(64)),
];

/// The names of all tables.
fn table_names() -> &'static [TableName]
    ensures { map called_by result.now ≡ map called kinds }
{
    &NAMES
}

/// The kind of the table of a name, where there is one.
pub fn table_kind(name: &[u8]) -> Option<TableKind>
    ensures kind { result ≡ kind_said name.now }
    ensures known { IfSome result IsKnown }
{
    let names = table_names();
    for table in names {
        if table.name.as_bytes() == name {
            return Some(table.kind);
        }
    }
    None
}
