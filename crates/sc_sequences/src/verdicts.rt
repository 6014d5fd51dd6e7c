//! Which commands are refused.
ghost use Rattle.std.specs.Prelude.{◌≡◌, List};
ghost use Rattle.sc_sequences.specs.Sequences.{Sequence, ats_place, rts_place, running_ats};
ghost use Rattle.sc_sequences.specs.State.{CursorsStand};
ghost use Rattle.sc_sequences.specs.declared.cursors.Cursor.{Cursor};
ghost use Rattle.sc_sequences.specs.Verdicts.{start_ats_refusal, start_rts_refusal, number_refusal, enable_refusal, switch_refusal, jump_refusal, own_refusal};

use crate::cursors::Cursors;
use crate::heads::remains_from;
use crate::instructions::Instruction;
use crate::places::{ats_place, rts_place, running_ats};
use commands::Reason;
use sc_tables::ScTables;

/// Why a command is refused.
#[derive(Clone, Copy, Debug, PartialEq, Eq)]
pub(crate) enum Refusal {
    /// There is no such sequence.
    Number,
    /// The sequence isn't loaded.
    NotLoaded,
    /// The sequence runs, or of absolute ones another does.
    Running,
    /// No command would remain.
    NoneRemains,
    /// No absolute sequence runs.
    NoneRuns,
    /// The sequence is disabled.
    Disabled,
}

impl Reason for Refusal {
    ghost use Rattle.sc_sequences.specs.Verdicts.{number_of};

    ghost number = { number_of };

    fn number(self) -> u8 {
        match self {
            Refusal::Number => 4,
            Refusal::NotLoaded => 5,
            Refusal::Running => 6,
            Refusal::NoneRemains => 7,
            Refusal::NoneRuns => 8,
            Refusal::Disabled => 9,
        }
    }
}

/// A command's own refusal at the time `now`.
pub(crate) fn own_refusal(
    cursors: &Cursors,
    tables: &ScTables<'_>,
    instruction: &Instruction,
    now: u32,
) -> Option<Refusal>
    ensures { (all : List Sequence) → CursorsStand tables.now all cursors.now
        → result ≡ own_refusal now all instruction.now }
{
    match instruction {
        Instruction::Plain => None,
        Instruction::StartAts { number } => start_ats_refusal(cursors, tables, *number, now),
        Instruction::StopAts => None,
        Instruction::StartRts { number } => start_rts_refusal(cursors, tables, *number),
        Instruction::StopRts { number } => number_refusal(*number),
        Instruction::DisableRts { number } => number_refusal(*number),
        Instruction::EnableRts { number } => enable_refusal(tables, *number),
        Instruction::SwitchAts => switch_refusal(cursors, tables, now),
        Instruction::JumpAts { time } => jump_refusal(cursors, tables, *time),
    }
}

/// The refusal to start absolute sequence `number`.
fn start_ats_refusal(
    cursors: &Cursors,
    tables: &ScTables<'_>,
    number: u16,
    now: u32,
) -> Option<Refusal>
    ensures { (all : List Sequence) → CursorsStand tables.now all cursors.now
        → result ≡ start_ats_refusal now all (ats_place number) }
{
    let Some(place) = ats_place(number) else {
        return Some(Refusal::Number);
    };
    if tables.len(place) == 0 {
        return Some(Refusal::NotLoaded);
    }
    if running_ats(cursors).is_some() {
        return Some(Refusal::Running);
    }
    if !remains_from(tables, place, 0, now) {
        return Some(Refusal::NoneRemains);
    }
    None
}

/// The refusal to start relative sequence `number`.
fn start_rts_refusal(cursors: &Cursors, tables: &ScTables<'_>, number: u16) -> Option<Refusal>
    ensures { (all : List Sequence) → CursorsStand tables.now all cursors.now
        → result ≡ start_rts_refusal all (rts_place number) }
{
    let Some(place) = rts_place(number) else {
        return Some(Refusal::Number);
    };
    let cursor = cursors.get(place);
    if tables.len(place) == 0 {
        return Some(Refusal::NotLoaded);
    }
    if !cursor.enabled {
        return Some(Refusal::Disabled);
    }
    if cursor.next.is_some() {
        return Some(Refusal::Running);
    }
    None
}

/// The refusal to stop or disable relative sequence `number`.
fn number_refusal(number: u16) -> Option<Refusal>
    ensures { result ≡ number_refusal (rts_place number) }
{
    match rts_place(number) {
        None => Some(Refusal::Number),
        Some(_) => None,
    }
}

/// The refusal to enable relative sequence `number`.
fn enable_refusal(tables: &ScTables<'_>, number: u16) -> Option<Refusal>
    ensures { (all : List Sequence) (cursors : List Cursor) → CursorsStand tables.now all cursors
        → result ≡ enable_refusal all (rts_place number) }
{
    let Some(place) = rts_place(number) else {
        return Some(Refusal::Number);
    };
    if tables.len(place) == 0 {
        return Some(Refusal::NotLoaded);
    }
    None
}

/// The refusal to switch to the absolute sequence that doesn't run.
fn switch_refusal(cursors: &Cursors, tables: &ScTables<'_>, now: u32) -> Option<Refusal>
    ensures { (all : List Sequence) → CursorsStand tables.now all cursors.now
        → result ≡ switch_refusal now all (running_ats all) }
{
    let Some(place) = running_ats(cursors) else {
        return Some(Refusal::NoneRuns);
    };
    let other = 1 - place;
    if tables.len(other) == 0 {
        return Some(Refusal::NotLoaded);
    }
    if !remains_from(tables, other, 0, now) {
        return Some(Refusal::NoneRemains);
    }
    None
}

/// The refusal to jump to a time in the absolute sequence that runs.
fn jump_refusal(cursors: &Cursors, tables: &ScTables<'_>, time: u32) -> Option<Refusal>
    ensures { (all : List Sequence) → CursorsStand tables.now all cursors.now
        → result ≡ jump_refusal time all (running_ats all) }
{
    let Some(place) = running_ats(cursors) else {
        return Some(Refusal::NoneRuns);
    };
    if !remains_from(tables, place, cursors.get(place).at, time) {
        return Some(Refusal::NoneRemains);
    }
    None
}
