//! What is on: CS, its two tables, and their entries.
ghost use Rattle.std.specs.Prelude.{◌≡◌, ◌==◌, ◌<◌, ◌++◌, List, [], ◌∷◌, if◌then◌else◌};
ghost use Rattle.cs_slices.specs.Tables.{TablePair, pair_of, with_table, entry_in};
ghost use Rattle.cs_slices.specs.Instructions.{IsNamed};
ghost use Rattle.cs_slices.specs.Happenings.{Happening, orders_among};
ghost use Rattle.cs_slices.specs.Happenings.Happening.{Ordered, Renewed};
ghost use Rattle.cs_slices.specs.Orders.{table_of, is_table_on, takes_part, some_take_part, turns_off};
ghost use Rattle.cs_slices.specs.Housekeeping.{flags_of};
ghost use Rattle.cs_slices.specs.State.{SwitchesStand};

use crate::instructions::{Instruction, entry_place};
use crate::segments::{Segments, entry_in};
use histories::bits_of;

/// How many places there are: the EEPROM table's 16 entries, and then the memory table's.
pub(crate) const PLACES: usize = 32;

/// Whether CS, its tables and the entries of all places are on.
#[derive(Clone, Copy, Debug, PartialEq, Eq)]
pub(crate) struct Switches {
    cs: bool,
    eeprom: bool,
    memory: bool,
    entries: [bool; PLACES],
}

impl Switches {
    /// At the start CS and both tables are on, and the entries by their state.
    pub(crate) fn start(eeprom: &Segments, memory: &Segments) -> Switches
        ensures { SwitchesStand (pair_of eeprom.now memory.now) [] result }
    {
        let mut entries = [false; PLACES];
        for place in 0..PLACES {
            entries[place] = entry_in(eeprom, memory, place as u8).state == 1;
        }
        Switches {
            cs: true,
            eeprom: true,
            memory: true,
            entries,
        }
    }

    /// Switches what an order asks for.
    pub(crate) fn obey(&mut self, order: &Instruction)
        requires { IsNamed order.now }
        ensures { (tables : TablePair) (happened : List Happening)
            → SwitchesStand tables happened self.old
            → SwitchesStand tables (happened ++ Ordered order.now ∷ []) self.new }
    {
        match order {
            Instruction::Plain => {}
            Instruction::Whole { on } => self.cs = *on,
            Instruction::Table { table, on } => {
                if *table == 1 {
                    self.eeprom = *on;
                } else {
                    self.memory = *on;
                }
            }
            Instruction::Entry { table, number, on } => {
                self.entries[entry_place(*table, *number) as usize] = *on;
            }
            Instruction::Report { .. } => {}
        }
    }

    /// Takes another table of this number: its entries are on by their state.
    pub(crate) fn renew(&mut self, table: u16, segments: &Segments)
        ensures { (tables : TablePair) (happened : List Happening)
            → SwitchesStand tables happened self.old
            → SwitchesStand (with_table table segments.now tables) (happened ++ Renewed table
            ∷ []) self.new }
    {
        let mut entries = [false; PLACES];
        for place in 0..PLACES {
            entries[place] = renewed(self.entries[place], table, segments, place as u8);
        }
        self.entries = entries;
    }

    /// Whether a place takes part.
    pub(crate) fn takes_part(&self, place: u8) -> bool
        requires { place < 32 }
        ensures { (tables : TablePair) (happened : List Happening)
            → SwitchesStand tables happened self.now → result ≡ takes_part tables happened place }
    {
        if !self.cs {
            return false;
        }
        if !self.is_table_on(place) {
            return false;
        }
        self.entries[place as usize]
    }

    /// Whether any place takes part.
    #[inline(always)]
    pub(crate) fn any_takes_part(&self) -> bool
        ensures { (tables : TablePair) (happened : List Happening)
            → SwitchesStand tables happened self.now → result ≡ some_take_part tables happened }
    {
        let mut any = false;
        for place in 0..PLACES {
            any = any | self.takes_part(place as u8);
        }
        any
    }

    /// Whether the table of a place is on.
    fn is_table_on(&self, place: u8) -> bool
        requires { place < 32 }
        ensures { (tables : TablePair) (happened : List Happening)
            → SwitchesStand tables happened self.now
            → result ≡ is_table_on (table_of place) (orders_among happened) }
    {
        if place < 16 { self.eeprom } else { self.memory }
    }

    /// The flags: 1 CS is on, 2 the EEPROM table is, 4 the memory table is.
    #[tactic(auto, unfolding(crate::specs::Housekeeping::flags_of))]
    pub(crate) fn flags(&self) -> u8
        ensures { result ≡ flags_of self.now.cs self.now.eeprom self.now.memory }
    {
        bits_of(&[self.cs, self.eeprom, self.memory]) as u8
    }
}

/// Whether the entry of a place is on once a table of this number became active: one of that table by its state.
fn renewed(was: bool, table: u16, segments: &Segments, place: u8) -> bool
    requires { place < 32 }
    ensures { result ≡ (if table == table_of place
        then (entry_in (pair_of segments.now segments.now) place).state == 1 else was) }
{
    if table != u16::from(place / 16 + 1) {
        return was;
    }
    entry_in(segments, segments, place).state == 1
}

/// Whether an order switches CS, a place's table or its entry off.
pub(crate) fn turns_off(place: u8, order: &Instruction) -> bool
    requires { IsNamed order.now }
    ensures { result ≡ turns_off place order.now }
{
    match order {
        Instruction::Plain => false,
        Instruction::Whole { on } => !*on,
        Instruction::Table { table, on } => !*on && *table == u16::from(place / 16 + 1),
        Instruction::Entry { table, number, on } => !*on && entry_place(*table, *number) == place,
        Instruction::Report { .. } => false,
    }
}
