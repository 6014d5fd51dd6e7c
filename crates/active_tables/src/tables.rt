//! The tables of the applications, by the files that name them.

ghost use Rattle.std.specs.Prelude.{◌≡◌, ℕ, ◌≤◌, List, length, None, Some, IfSome, IfOk, IfErr};
ghost use Rattle.table_files.specs.Headers.{Shows};
ghost use Rattle.table_files.specs.Files.{file_at, kind_at};
ghost use Rattle.table_files.specs.Kinds.{IsTable};
ghost use Rattle.table_files.specs.declared.kinds.TableKind.{TableKind};
ghost use Rattle.active_tables.specs.Tables.{with_table, with_file, entry_fault, entry_fault_in, tables_fault, tables_of};

use crate::loading::{TablesFault, earlier_fault};
use cs_slices::Segments;
use hs_tables::HsTables;
use lc_watch::{Adt, Wdt};
use md_dwell::Dwell;
use sc_tables::{RtsSet, ScTables};
use std::marker::Model;
use table_files::{EntryFault, FileImage, Files, TableKind};

/// The tables of the applications that are active, and the files that name them. The sequences of SC borrow the files.
#[derive(Drop)]
pub struct Tables<'f> {
    files: &'f Files,
    dwells: [Dwell; 4],
    eeprom: Segments,
    memory: Segments,
    hs: HsTables,
    sc: ScTables<'f>,
    wdt: Wdt,
    adt: Adt,
}

impl<'f> Model for Tables<'f> {
    ghost use Rattle.std.specs.Prelude.{◌≡◌, length};
    ghost use Rattle.active_tables.specs.Tables.{Loaded};

    ghost Value = { Loaded };

    ghost view = { λ t. record {
      files = t.files.now;
      set = record {
        dwells = t.dwells;
        eeprom = t.eeprom;
        memory = t.memory;
        hs = t.hs;
        sc = t.sc;
        wdt = t.wdt;
        adt = t.adt;
      };
    } };

    ghost invariant = { λ t. length t.dwells ≡ 4 };
}

impl<'f> Tables<'f> {
    ghost use Rattle.active_tables.specs.Tables.{blank_tables, AreLoaded};

    /// The tables that are active where none is named: all their bytes are 0.
    #[tactic(auto, unfolding(crate::specs::Tables::blank_tables))]
    fn blank(files: &'f Files) -> Tables<'f>
        ensures { result ≡ record { files = files.now; set = blank_tables } }
    {
        Tables {
            files,
            dwells: [Dwell::blank(); 4],
            eeprom: Segments::blank(),
            memory: Segments::blank(),
            hs: HsTables::blank(),
            sc: ScTables::new([None; 2], RtsSet::empty()),
            wdt: Wdt::blank(),
            adt: Adt::blank(),
        }
    }

    /// Makes the first file of each kind active again.
    pub fn load_again(&mut self)
        requires { tables_fault self.old.files ≡ None }
        ensures { self.new ≡ record { files = self.old.files; set = tables_of self.old.files } }
    {
        match Tables::load(self.files) {
            Ok(tables) => *self = tables,
            Err(_) => unreachable!(),
        }
    }

    /// The tables that the files name, or the first fault that their entries have. A table that isn't named has all its bytes 0, and
    /// of files of one kind the first counts. It takes no memory.
    pub fn load(files: &'f Files) -> Result<Tables<'f>, TablesFault>
        ensures loaded { IfOk result (AreLoaded files.now) }
        ensures fault { IfErr result (λ fault. tables_fault files.now ≡ Some fault) }
        ensures small { IfErr result (λ fault. fault.reason ≤ 5) }
    {
        let mut tables = Tables::blank(files);
        let mut found = None;
        let mut left = files.len();
        'files: while left > 0 {
            let fault = tables.put_file(files.get(left));
            found = earlier_fault(left, fault, found);
            left -= 1;
        }
        match found {
            Some(fault) => Err(fault),
            None => Ok(tables),
        }
    }

    /// The kind of the table that FILE `file` names, counted from 1; None exactly where no table file has this number.
    pub fn kind(&self, file: u32) -> Option<TableKind>
        ensures { result ≡ kind_at self.now.files file }
    {
        self.files.kind(file)
    }

    /// Makes the table of this FILE the active one of its kind.
    pub fn activate(&mut self, file: u32)
        requires { (kind : TableKind) × (kind_at self.old.files file ≡ Some kind) }
        ensures { self.new ≡ record self.old {
          set = with_file self.old.set
              (file_at self.old.files file);
        } }
    {
        let files = self.files();
        let _ = self.put_file(files.get(file));
    }

    /// Makes the table of this FILE the active one of its kind. No entry of any file has a fault, so entries of dwell tables and of sequences
    /// aren't asked for one again.
    pub fn activate_checked(&mut self, file: u32)
        requires named { (kind : TableKind) × (kind_at self.old.files file ≡ Some kind) }
        requires well { tables_fault self.old.files ≡ None }
        ensures { self.new ≡ record self.old {
          set = with_file self.old.set
              (file_at self.old.files file);
        } }
    {
        let files = self.files();
        self.store_file(files.get(file));
    }

    /// The files that were named.
    pub fn files(&self) -> &'f Files
        ensures { result.now ≡ self.now.files }
    {
        self.files
    }

    /// The four dwell tables.
    pub fn dwells(&self) -> &[Dwell; 4]
        ensures dwells { result.now ≡ self.now.set.dwells }
        ensures four { length result.now ≡ 4 }
    {
        &self.dwells
    }

    /// The EEPROM table of CS.
    pub fn eeprom(&self) -> &Segments
        ensures { result.now ≡ self.now.set.eeprom }
    {
        &self.eeprom
    }

    /// The memory table of CS.
    pub fn memory(&self) -> &Segments
        ensures { result.now ≡ self.now.set.memory }
    {
        &self.memory
    }

    /// The tables of HS.
    pub fn hs(&self) -> &HsTables
        ensures { result.now ≡ self.now.set.hs }
    {
        &self.hs
    }

    /// The sequences of SC.
    pub fn sc(&self) -> &ScTables<'f>
        ensures { result.now ≡ self.now.set.sc }
    {
        &self.sc
    }

    /// The watchpoints of LC.
    pub fn wdt(&self) -> &Wdt
        ensures { result.now ≡ self.now.set.wdt }
    {
        &self.wdt
    }

    /// The actionpoints of LC.
    pub fn adt(&self) -> &Adt
        ensures { result.now ≡ self.now.set.adt }
    {
        &self.adt
    }

    /// Puts the table of a file in its place, if it is one and its entries have no fault.
    fn put_file(&mut self, image: FileImage<'f>) -> Option<EntryFault>
        requires { (file : List ℕ) × Shows file image }
        ensures table { (file : List ℕ) → Shows file image.entry
            → self.new ≡ record self.old { set = with_file self.old.set file } }
        ensures fault { (file : List ℕ) → Shows file image.entry → result ≡ entry_fault_in file }
        ensures small { IfSome result (λ fault. fault.reason ≤ 5) }
    {
        match image {
            FileImage::Load { .. } => None,
            FileImage::Table { kind, payload } => self.put(kind, payload),
        }
    }

    /// Puts a table in its place, unless its entries have a fault.
    fn put(&mut self, kind: TableKind, payload: &'f [u8]) -> Option<EntryFault>
        requires { IsTable kind (length payload.now) }
        ensures table { self.new ≡ record self.old
            { set = with_table self.old.set kind payload.now } }
        ensures fault { result ≡ entry_fault kind payload.now }
        ensures small { IfSome result (λ fault. fault.reason ≤ 5) }
    {
        match kind {
            TableKind::Dwell(n) => self.put_dwell(n, payload),
            TableKind::Eeprom => self.eeprom.read(payload),
            TableKind::Memory => self.memory.read(payload),
            TableKind::AppMon => self.hs.apps.read(payload),
            TableKind::EventMon => self.hs.events.read(payload),
            TableKind::ExeCount => self.hs.counts.read(payload),
            TableKind::MsgActs => self.hs.acts.read(payload),
            TableKind::Ats(n) => self.put_ats(n, payload),
            TableKind::Rts(n) => self.put_rts(n, payload),
            TableKind::Wdt => self.wdt.read(payload),
            TableKind::Adt => self.adt.read(payload),
        }
    }

    /// Stores the table of a file without a fault in its place, if it is one.
    fn store_file(&mut self, image: FileImage<'f>)
        requires { (file : List ℕ) × Shows file image × (entry_fault_in file ≡ None) }
        ensures { (file : List ℕ) → Shows file image.entry → entry_fault_in file ≡ None
            → self.new ≡ record self.old { set = with_file self.old.set file } }
    {
        match image {
            FileImage::Load { .. } => {}
            FileImage::Table { kind, payload } => self.store(kind, payload),
        }
    }

    /// Stores a table without a fault in its place. Entries of dwell tables and of sequences aren't asked for one; those of other tables
    /// are, which costs next to nothing beside their reading.
    fn store(&mut self, kind: TableKind, payload: &'f [u8])
        requires table { IsTable kind (length payload.now) }
        requires well { entry_fault kind payload.now ≡ None }
        ensures { self.new ≡ record self.old
            { set = with_table self.old.set kind payload.now } }
    {
        match kind {
            TableKind::Dwell(n) => self.store_dwell(n, payload),
            TableKind::Ats(n) => self.sc.store_ats(n, payload),
            TableKind::Rts(n) => self.sc.store_rts(n, payload),
            TableKind::AppMon
            | TableKind::EventMon
            | TableKind::ExeCount
            | TableKind::MsgActs
            | TableKind::Eeprom
            | TableKind::Memory
            | TableKind::Wdt
            | TableKind::Adt => {
                let _ = self.put(kind, payload);
            }
        }
    }

    /// Stores dwell table n, from 1 to 4, without a fault, in its place.
    fn store_dwell(&mut self, n: u8, payload: &[u8])
        requires number { (1 ≤ n) × (n ≤ 4) }
        requires size { length payload.now ≡ 204 }
        requires well { entry_fault (TableKind.Dwell n) payload.now ≡ None }
        ensures { self.new ≡ record self.old
            { set = with_table self.old.set (TableKind.Dwell n) payload.now } }
    {
        let dwells = &mut self.dwells[..];
        dwells[n as usize - 1].store(payload);
    }

    /// Puts dwell table n, from 1 to 4, in its place.
    fn put_dwell(&mut self, n: u8, payload: &[u8]) -> Option<EntryFault>
        requires number { (1 ≤ n) × (n ≤ 4) }
        requires size { length payload.now ≡ 204 }
        ensures table { self.new ≡ record self.old
            { set = with_table self.old.set (TableKind.Dwell n) payload.now } }
        ensures fault { result ≡ entry_fault (TableKind.Dwell n) payload.now }
        ensures small { IfSome result (λ fault. fault.reason ≤ 5) }
    {
        let dwells = &mut self.dwells[..];
        dwells[n as usize - 1].read(payload)
    }

    /// Puts absolute sequence n, 1 or 2, in its place.
    fn put_ats(&mut self, n: u8, payload: &'f [u8]) -> Option<EntryFault>
        requires { (1 ≤ n) × (n ≤ 2) }
        ensures table { self.new ≡ record self.old
            { set = with_table self.old.set (TableKind.Ats n) payload.now } }
        ensures fault { result ≡ entry_fault (TableKind.Ats n) payload.now }
        ensures small { IfSome result (λ fault. fault.reason ≤ 5) }
    {
        self.sc.read_ats(n, payload)
    }

    /// Puts relative sequence n, from 1 to 64, in its place.
    fn put_rts(&mut self, n: u8, payload: &'f [u8]) -> Option<EntryFault>
        requires number { (1 ≤ n) × (n ≤ 64) }
        requires size { length payload.now ≤ 2048 }
        ensures table { self.new ≡ record self.old
            { set = with_table self.old.set (TableKind.Rts n) payload.now } }
        ensures fault { result ≡ entry_fault (TableKind.Rts n) payload.now }
        ensures small { IfSome result (λ fault. fault.reason ≤ 5) }
    {
        self.sc.read_rts(n, payload)
    }
}
