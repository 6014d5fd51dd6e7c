//! Tables that become active in a run.

ghost use Rattle.std.specs.Prelude.{◌≡◌, ◌<◌, List, [], ◌∷◌, ◌++◌, length};
ghost use Rattle.packet_forms.specs.Names.{is_name_text};
ghost use Rattle.bus_pipes.specs.Held.{adding};
ghost use Rattle.table_files.specs.Kinds.{IsKnown};
ghost use Rattle.memory_window.specs.declared.regions.Region.{Region};
ghost use Rattle.cs_slices.specs.Tables.{TablePair};
ghost use Rattle.cs_slices.specs.Histories.{CsEntry};
ghost use Rattle.cs_slices.specs.State.{Stands as CsStands};
ghost use Rattle.md_dwell.specs.Tables.{DwellTable};
ghost use Rattle.md_dwell.specs.Histories.{MdEntry};
ghost use Rattle.md_dwell.specs.State.{Stands as MdStands, AllGiven};
ghost use Rattle.md_dwell.specs.Given.{TablesGiven};
ghost use Rattle.app_suite.specs.Activations.{can_activate, naming_of, cs_activated, md_activated, TakesTable, tables_name, table_event};

use crate::cs_slot::CsSlot;
use crate::hs_slot::HsSlot;
use crate::md_slot::MdSlot;
use active_tables::Tables;
use bus_pipes::{Outbox, push_event};
use packet_forms::{Name, named};
use table_files::TableKind;

/// What becomes of a line that names a file.
#[derive(Clone, Copy, Debug, PartialEq, Eq)]
pub enum Naming {
    /// Its table is active from then on.
    Accepted,
    /// There is no table of this number, or none that can become active in a run.
    Refused,
    /// The sequence that it would replace runs.
    Running,
}

/// Whether a table of this kind can be made active in a run.
fn can_activate(kind: TableKind) -> bool
    ensures { result ≡ can_activate kind }
{
    match kind {
        TableKind::AppMon
        | TableKind::EventMon
        | TableKind::ExeCount
        | TableKind::Ats(_)
        | TableKind::Rts(_)
        | TableKind::Dwell(_)
        | TableKind::Eeprom
        | TableKind::Memory => true,
        TableKind::MsgActs | TableKind::Wdt | TableKind::Adt => false,
    }
}

/// What becomes of a line that names a table of this kind, by whether its sequence runs.
pub fn naming_of(kind: TableKind, runs: bool) -> Naming
    ensures { result ≡ naming_of runs kind }
{
    if !can_activate(kind) {
        return Naming::Refused;
    }
    match runs {
        true => Naming::Running,
        false => Naming::Accepted,
    }
}

/// The name in the events of activations.
#[tactic(auto, unfolding(crate::specs::Activations::tables_name, packet_forms::specs::Names::is_name_text))]
fn name() -> Name
    ensures { result ≡ tables_name }
{
    named("TBL")
}

/// Tells what became of a line.
pub fn tell(out: &mut Outbox, naming: Naming, time: u32)
    requires { length out.old.items < out.old.room }
    ensures after { out.new ≡ adding out.old (table_event time naming ∷ []) }
    ensures room { out.new.room ≡ out.old.room }
{
    match naming {
        Naming::Accepted => push_event(out, name(), 1, 2, time),
        Naming::Refused => push_event(out, name(), 2, 3, time),
        Naming::Running => push_event(out, name(), 3, 3, time),
    }
}

/// Makes the table of this kind, which the tables have now, the one that HS, CS or MD reads. SC reads its sequences where they lie.
pub fn hand_over(
    tables: &Tables<'_>,
    kind: TableKind,
    hs: &mut HsSlot,
    cs: &mut CsSlot,
    md: &mut MdSlot,
)
    requires { IsKnown kind }
    ensures takes { TakesTable kind tables.now.set hs.old.state.value hs.new.state.value
        cs.old.state.value cs.new.state.value md.old.state.value md.new.state.value }
    ensures given { (regions : List Region) → TablesGiven regions tables.now.set.dwells
        → AllGiven regions md.old.state.value → AllGiven regions md.new.state.value }
{
    hs.state.activate(tables.hs(), kind);
    hand_over_segments(tables, kind, cs);
    hand_over_dwells(tables, kind, md);
}

/// Hands CS the tables in force, where one of checksums became active.
fn hand_over_segments(tables: &Tables<'_>, kind: TableKind, cs: &mut CsSlot)
    ensures { (first : TablePair) (history : List CsEntry)
        → CsStands first history cs.old.state.value
        → CsStands first (history ++ cs_activated kind tables.now.set) cs.new.state.value }
{
    match kind {
        TableKind::Eeprom => cs.state.activate(tables.eeprom(), tables.memory(), 1),
        TableKind::Memory => cs.state.activate(tables.eeprom(), tables.memory(), 2),
        TableKind::AppMon
        | TableKind::EventMon
        | TableKind::ExeCount
        | TableKind::MsgActs
        | TableKind::Ats(_)
        | TableKind::Rts(_)
        | TableKind::Dwell(_)
        | TableKind::Wdt
        | TableKind::Adt => {}
    }
}

/// Hands MD the table that became active, where it is one of dwells.
#[tactic(auto, using(active_tables::proofs::GivenTables::given_at))]
fn hand_over_dwells(tables: &Tables<'_>, kind: TableKind, md: &mut MdSlot)
    requires { IsKnown kind }
    ensures dwells { (first : List DwellTable) (history : List MdEntry)
        → MdStands first history md.old.state.value
        → MdStands first (history ++ md_activated kind tables.now.set.dwells) md.new.state.value }
    ensures given { (regions : List Region) → TablesGiven regions tables.now.set.dwells
        → AllGiven regions md.old.state.value → AllGiven regions md.new.state.value }
{
    if let TableKind::Dwell(n) = kind {
        let dwells = &tables.dwells()[..];
        md.state.activate(n, &dwells[n as usize - 1]);
    }
}
