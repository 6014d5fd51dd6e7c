//! What accepted commands make of the cursors.
ghost use Rattle.std.specs.Prelude.{◌≡◌, ◌<◌, ◌≤◌, List, drop};
ghost use Rattle.sc_tables.specs.Commands.{TimedCommand, commands_in};
ghost use Rattle.sc_sequences.specs.Sequences.{Sequence, with_at, going_on, stopped, started_with, started_at, ats_place, rts_place, running_ats};
ghost use Rattle.sc_sequences.specs.Orders.{where_placed, allowed, switched, jumped, obeyed};
ghost use Rattle.sc_sequences.specs.State.{CursorsStand};
ghost use Rattle.sc_sequences.specs.declared.instructions.Instruction.{Instruction};

use crate::cursors::Cursors;
use crate::heads::{cursor_at, first_from};
use crate::instructions::Instruction;
use crate::places::{ats_place, is_relative, rts_place, running_ats};
use sc_tables::ScTables;

/// Does what an accepted command asks for at the time `now`.
pub(crate) fn obey(
    cursors: &mut Cursors,
    tables: &ScTables<'_>,
    instruction: &Instruction,
    now: u32,
)
    ensures { (all : List Sequence) → CursorsStand tables.now all cursors.old
        → CursorsStand tables.now (obeyed now all instruction.now) cursors.new }
{
    match instruction {
        Instruction::Plain => {}
        Instruction::StartAts { number } => start_ats(cursors, tables, *number, now),
        Instruction::StopAts => {
            stop(cursors, 0);
            stop(cursors, 1);
        }
        Instruction::StartRts { number } => start_rts(cursors, tables, *number, now),
        Instruction::StopRts { number } => stop_rts(cursors, *number),
        Instruction::DisableRts { number } => allow(cursors, *number, false),
        Instruction::EnableRts { number } => allow(cursors, *number, true),
        Instruction::SwitchAts => switch_ats(cursors, tables, now),
        Instruction::JumpAts { time } => jump_ats(cursors, tables, *time, now),
    }
}

/// Starts absolute sequence `number` without its commands before now.
fn start_ats(cursors: &mut Cursors, tables: &ScTables<'_>, number: u16, now: u32)
    ensures { (all : List Sequence) → CursorsStand tables.now all cursors.old
        → CursorsStand tables.now (where_placed (ats_place number)
        (λ place. started_at place now) all) cursors.new }
{
    let Some(place) = ats_place(number) else {
        return;
    };
    start(cursors, tables, place, now);
}

/// Starts relative sequence `number`.
fn start_rts(cursors: &mut Cursors, tables: &ScTables<'_>, number: u16, now: u32)
    ensures { (all : List Sequence) → CursorsStand tables.now all cursors.old
        → CursorsStand tables.now (where_placed (rts_place number)
        (λ place. started_at place now) all) cursors.new }
{
    let Some(place) = rts_place(number) else {
        return;
    };
    start(cursors, tables, place, now);
}

/// Starts the sequence in a place.
pub(crate) fn start(cursors: &mut Cursors, tables: &ScTables<'_>, place: usize, now: u32)
    requires { place < 66 }
    ensures { (all : List Sequence) → CursorsStand tables.now all cursors.old
        → CursorsStand tables.now (started_at place now all) cursors.new }
{
    let at = first_at(tables, place, now);
    continue_at(cursors, tables, place, at, now);
}

/// The command with which the sequence in a place begins.
fn first_at(tables: &ScTables<'_>, place: usize, now: u32) -> u32
    requires { place < 66 }
    ensures left { drop result (commands_in tables.now place)
        ≡ started_with place now (commands_in tables.now place) }
    ensures few { result ≤ 1000 }
{
    if is_relative(place) {
        return 0;
    }
    first_from(tables, place, 0, now)
}

/// Lets the sequence in a place go on with command `at` at the time `now`.
pub(crate) fn continue_at(
    cursors: &mut Cursors,
    tables: &ScTables<'_>,
    place: usize,
    at: u32,
    now: u32,
)
    requires place { place < 66 }
    requires few { at ≤ 1000 }
    ensures { (all : List Sequence) → CursorsStand tables.now all cursors.old
        → CursorsStand tables.now (with_at place
        (going_on place now (drop at (commands_in tables.now place))) all) cursors.new }
{
    let cursor = cursors.get(place);
    cursors.set(place, cursor_at(tables, place, at, now, cursor.enabled));
}

/// Stops the sequence in a place.
fn stop(cursors: &mut Cursors, place: usize)
    requires { place < 66 }
    ensures { (tables : List (List TimedCommand)) (all : List Sequence)
        → CursorsStand tables all cursors.old
        → CursorsStand tables (with_at place stopped all) cursors.new }
{
    let mut cursor = cursors.get(place);
    cursor.next = None;
    cursors.set(place, cursor);
}

/// Stops relative sequence `number`.
fn stop_rts(cursors: &mut Cursors, number: u16)
    ensures { (tables : List (List TimedCommand)) (all : List Sequence)
        → CursorsStand tables all cursors.old
        → CursorsStand tables (where_placed (rts_place number) (λ place. with_at place stopped) all)
        cursors.new }
{
    let Some(place) = rts_place(number) else {
        return;
    };
    stop(cursors, place);
}

/// Lets relative sequence `number` be started or not.
fn allow(cursors: &mut Cursors, number: u16, on: bool)
    ensures { (tables : List (List TimedCommand)) (all : List Sequence)
        → CursorsStand tables all cursors.old
        → CursorsStand tables (where_placed (rts_place number)
        (λ place. with_at place (allowed on)) all) cursors.new }
{
    let Some(place) = rts_place(number) else {
        return;
    };
    let mut cursor = cursors.get(place);
    cursor.enabled = on;
    cursors.set(place, cursor);
}

/// Stops the absolute sequence that runs and starts the other.
fn switch_ats(cursors: &mut Cursors, tables: &ScTables<'_>, now: u32)
    ensures { (all : List Sequence) → CursorsStand tables.now all cursors.old
        → CursorsStand tables.now (where_placed (running_ats all) (λ place. switched now place) all)
        cursors.new }
{
    let Some(running) = running_ats(cursors) else {
        return;
    };
    stop(cursors, running);
    start(cursors, tables, 1 - running, now);
}

/// Skips the commands before `time` in the absolute sequence that runs.
fn jump_ats(cursors: &mut Cursors, tables: &ScTables<'_>, time: u32, now: u32)
    ensures { (all : List Sequence) → CursorsStand tables.now all cursors.old
        → CursorsStand tables.now (where_placed (running_ats all)
        (λ place. jumped now time place) all) cursors.new }
{
    let Some(place) = running_ats(cursors) else {
        return;
    };
    let at = first_from(tables, place, cursors.get(place).at, time);
    continue_at(cursors, tables, place, at, now);
}
