//! The tables of Stored Command.
ghost use Rattle.std.specs.Prelude.{◌≡◌, ◌+◌, ◌-◌, ◌<◌, ◌≤◌, length, map, slice_set, Some, None, IfSome, IfNone};
ghost use Rattle.sc_tables.specs.Absolute.{ats_of, ats_fault_of};
ghost use Rattle.sc_tables.specs.Relative.{rts_of, rts_fault_of};
ghost use Rattle.sc_tables.specs.Commands.{of_timed, of_relative, AreTables, commands_in, command_at};
ghost use Rattle.sc_tables.specs.Sequences.{ats_commands, rts_commands, tables_of};

use crate::absolute::Place;
use crate::ats::{Ats, COMMANDS};
use crate::loading::{read_in_order, read_relative_places, store_in_order, store_relative_places};
use crate::rts::{COMMANDS as RELATIVE_COMMANDS, Rts};
use crate::sets::RtsSet;
use packet_forms::Packet;
use std::marker::Model;
use table_files::EntryFault;

/// How many absolute time sequences there may be: they have the first places.
const ABSOLUTE: usize = 2;

/// The tables of Stored Command, seen as the list of the commands of its 66 sequences: absolute ones 1 and 2 have the places 0 and 1,
/// relative ones 1 to 64 the places 2 to 65. A sequence that isn't named has no commands.
#[derive(Debug, Drop)]
pub struct ScTables<'f> {
    pub ats: [Option<Ats<'f>>; ABSOLUTE],
    pub rts: RtsSet<'f>,
}

impl<'f> Model for ScTables<'f> {
    ghost use Rattle.std.specs.Prelude.{◌≡◌, List, length};
    ghost use Rattle.sc_tables.specs.Commands.{TimedCommand};
    ghost use Rattle.sc_tables.specs.Sequences.{tables_of};

    ghost Value = { List (List TimedCommand) };

    ghost view = { λ t. tables_of t.ats t.rts };

    ghost invariant = { λ t. (length t.ats ≡ 2) × (length t.rts.all ≡ 64) };
}

impl<'f> ScTables<'f> {
    /// The tables of these sequences.
    pub fn new(ats: [Option<Ats<'f>>; ABSOLUTE], rts: RtsSet<'f>) -> ScTables<'f>
        ensures { result ≡ tables_of ats.entry rts.entry }
    {
        ScTables { ats, rts }
    }

    /// Reads absolute time sequence n, 1 or 2, from a payload, as `load_ats` reads it, and copies the places of its commands once. Where an
    /// entry is refused all sequences stay as they were.
    pub fn read_ats(&mut self, n: u8, payload: &'f [u8]) -> Option<EntryFault>
        requires { (1 ≤ n) × (n ≤ 2) }
        ensures table { IfNone result (self.new
            ≡ slice_set self.old (n - 1) (map of_timed (ats_of payload.now))) }
        ensures kept { IfSome result (λ _. self.new ≡ self.old) }
        ensures fault { result ≡ ats_fault_of payload.now }
        ensures small { IfSome result (λ fault. fault.reason ≤ 4) }
    {
        let mut places = [Place::BLANK; COMMANDS];
        match read_in_order(payload, &mut places) {
            Err(fault) => Some(fault),
            Ok(count) => {
                self.put_ats(n, Ats::of(payload, places, count));
                None
            }
        }
    }

    /// Reads relative time sequence n, from 1 to 64, from a payload of at most 2,048 bytes, as `load_rts` reads it, and copies the places of
    /// its commands once. Where an entry is refused all sequences stay as they were.
    pub fn read_rts(&mut self, n: u8, payload: &'f [u8]) -> Option<EntryFault>
        requires number { (1 ≤ n) × (n ≤ 64) }
        requires size { length payload.now ≤ 2048 }
        ensures table { IfNone result (self.new
            ≡ slice_set self.old (n + 1) (map of_relative (rts_of payload.now))) }
        ensures kept { IfSome result (λ _. self.new ≡ self.old) }
        ensures fault { result ≡ rts_fault_of payload.now }
        ensures small { IfSome result (λ fault. fault.reason ≤ 4) }
    {
        let mut places = [0; RELATIVE_COMMANDS];
        match read_relative_places(payload, &mut places) {
            Err(fault) => Some(fault),
            Ok(count) => {
                self.put_rts(n, Rts::of(payload, places, count));
                None
            }
        }
    }

    /// Stores absolute time sequence n, 1 or 2, of a payload without a fault. It asks none of the entries for one.
    pub fn store_ats(&mut self, n: u8, payload: &'f [u8])
        requires number { (1 ≤ n) × (n ≤ 2) }
        requires well { ats_fault_of payload.now ≡ None }
        ensures { self.new ≡ slice_set self.old (n - 1) (map of_timed (ats_of payload.now)) }
    {
        let mut places = [Place::BLANK; COMMANDS];
        let count = store_in_order(payload, &mut places);
        self.put_ats(n, Ats::of(payload, places, count));
    }

    /// Stores relative time sequence n, from 1 to 64, of a payload without a fault. It asks none of the entries for one.
    pub fn store_rts(&mut self, n: u8, payload: &'f [u8])
        requires number { (1 ≤ n) × (n ≤ 64) }
        requires size { length payload.now ≤ 2048 }
        requires well { rts_fault_of payload.now ≡ None }
        ensures { self.new ≡ slice_set self.old (n + 1) (map of_relative (rts_of payload.now)) }
    {
        let mut places = [0; RELATIVE_COMMANDS];
        let count = store_relative_places(payload, &mut places);
        self.put_rts(n, Rts::of(payload, places, count));
    }

    /// Names absolute time sequence n, 1 or 2.
    fn put_ats(&mut self, n: u8, ats: Ats<'f>)
        requires { (1 ≤ n) × (n ≤ 2) }
        ensures { self.new ≡ slice_set self.old (n - 1) (ats_commands (Some ats.entry)) }
    {
        let all = &mut self.ats[..];
        all[n as usize - 1] = Some(ats);
    }

    /// Names relative time sequence n, from 1 to 64.
    fn put_rts(&mut self, n: u8, rts: Rts<'f>)
        requires { (1 ≤ n) × (n ≤ 64) }
        ensures { self.new ≡ slice_set self.old (n + 1) (rts_commands (Some rts.entry)) }
    {
        self.rts.put(n, rts);
    }

    /// The number of commands of the sequence in a place; 0 where it isn't named.
    pub fn len(&self, place: usize) -> u32
        requires { place < 66 }
        ensures count { result ≡ length (commands_in self.now place) }
        ensures few { result ≤ 1000 }
        ensures tables { AreTables self.now }
    {
        if place < ABSOLUTE {
            let all = &self.ats[..];
            match &all[place] {
                Some(ats) => ats.len(),
                None => 0,
            }
        } else {
            match self.rts.get(place as u8 - 1) {
                Some(rts) => rts.len(),
                None => 0,
            }
        }
    }

    /// The time of command k of the sequence in a place, or the seconds that pass before it leaves.
    pub fn tag(&self, place: usize, k: u32) -> u32
        requires place { place < 66 }
        requires within { k < length (commands_in self.now place) }
        ensures { result ≡ (command_at self.now place k).tag }
    {
        if place < ABSOLUTE {
            let all = &self.ats[..];
            match &all[place] {
                Some(ats) => ats.tag(k),
                None => unreachable!(),
            }
        } else {
            match self.rts.get(place as u8 - 1) {
                Some(rts) => u32::from(rts.tag(k)),
                None => unreachable!(),
            }
        }
    }

    /// The packet of command k of the sequence in a place.
    pub fn command(&self, place: usize, k: u32) -> Packet
        requires place { place < 66 }
        requires within { k < length (commands_in self.now place) }
        ensures { result ≡ (command_at self.now place k).packet }
    {
        if place < ABSOLUTE {
            let all = &self.ats[..];
            match &all[place] {
                Some(ats) => ats.command(k).packet,
                None => unreachable!(),
            }
        } else {
            match self.rts.get(place as u8 - 1) {
                Some(rts) => rts.command(k).packet,
                None => unreachable!(),
            }
        }
    }
}
