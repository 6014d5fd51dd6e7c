//! The layouts of all kinds of tables.
ghost use Rattle.std.specs.Prelude.{◌≡◌, true};
ghost use Rattle.table_forms.specs.Layouts.{are_layouts, form_of, placed, all_layouts};

use crate::fields;
use row_forms::Field;
use table_files::TableKind;
use table_texts::Layout;

/// What stands in the tables' payloads, and in the headers of files.
#[derive(Clone, Copy, Debug)]
pub struct Layouts {
    pub apps: Layout,
    pub events: Layout,
    pub counters: Layout,
    pub actions: Layout,
    /// The entries of a dwell table, behind its head.
    pub dwells: Layout,
    pub checksums: Layout,
    pub watchpoints: Layout,
    pub actionpoints: Layout,
    /// The 6 bytes in front of each command of an absolute sequence.
    pub absolute: &'static [Field],
    /// The 2 bytes in front of each command of a relative sequence.
    pub relative: &'static [Field],
    /// The 4 bytes in front of a dwell table's entries.
    pub head: &'static [Field],
    /// The 60 bytes of a file's headers of which nothing is asked: the last ones are the description.
    pub header: &'static [Field],
}

/// How the payload of a kind of table is written.
#[derive(Clone, Copy, Debug)]
pub enum PayloadForm {
    /// As entries.
    Entries(Layout),
    /// As a head of 4 bytes, and entries behind it.
    Headed(Layout),
    /// As commands with fields in front, which have so many bytes.
    Sequence(&'static [Field], usize),
}

static LAYOUTS: Layouts = Layouts {
    apps: Layout {
        count: 32,
        size: 24,
        fields: fields::APPS,
        area: 0,
    },
    events: Layout {
        count: 16,
        size: 24,
        fields: fields::EVENTS,
        area: 0,
    },
    counters: Layout {
        count: 32,
        size: 22,
        fields: fields::COUNTERS,
        area: 0,
    },
    actions: Layout {
        count: 8,
        size: 68,
        fields: fields::ACTIONS,
        area: 64,
    },
    dwells: Layout {
        count: 25,
        size: 8,
        fields: fields::DWELLS,
        area: 0,
    },
    checksums: Layout {
        count: 16,
        size: 12,
        fields: fields::CHECKSUMS,
        area: 0,
    },
    watchpoints: Layout {
        count: 32,
        size: 16,
        fields: fields::WATCHPOINTS,
        area: 0,
    },
    actionpoints: Layout {
        count: 16,
        size: 40,
        fields: fields::ACTIONPOINTS,
        area: 0,
    },
    absolute: fields::ABSOLUTE,
    relative: fields::RELATIVE,
    head: fields::HEAD,
    header: fields::HEADER,
};

/// The layouts that docs/FILES.md tells.
pub fn table_layouts() -> &'static Layouts
    ensures listed { placed result.now ≡ all_layouts }
    ensures good { are_layouts result.now ≡ true }
{
    &LAYOUTS
}

impl Layouts {
    /// How the payload of this kind of table is written.
    pub fn form(&self, kind: TableKind) -> PayloadForm
        ensures { result ≡ form_of self.now kind }
    {
        match kind {
            TableKind::AppMon => PayloadForm::Entries(self.apps),
            TableKind::EventMon => PayloadForm::Entries(self.events),
            TableKind::ExeCount => PayloadForm::Entries(self.counters),
            TableKind::MsgActs => PayloadForm::Entries(self.actions),
            TableKind::Ats(_) => PayloadForm::Sequence(self.absolute, 6),
            TableKind::Rts(_) => PayloadForm::Sequence(self.relative, 2),
            TableKind::Dwell(_) => PayloadForm::Headed(self.dwells),
            TableKind::Eeprom | TableKind::Memory => PayloadForm::Entries(self.checksums),
            TableKind::Wdt => PayloadForm::Entries(self.watchpoints),
            TableKind::Adt => PayloadForm::Entries(self.actionpoints),
        }
    }
}
