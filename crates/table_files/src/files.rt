//! The files that were handed over.
ghost use Rattle.std.specs.Prelude.{◌≡◌, ◌<◌, ◌≤◌, [], ◌∷◌, ◌++◌, length, filter, option_map, true, IsOkAnd, OnOk, OnErr, IfErr, IfSome, None};
ghost use Rattle.table_files.specs.Headers.{IsFile, file_fault_of, is_load, Shows};
ghost use Rattle.table_files.specs.Files.{AreFiles, Refuses, file_at, kind_at, loads_of, nth, IsLoadable};

use crate::fault::AddFault;
use crate::headers::{FileImage, find_fault, is_load, load_in};
use crate::kinds::TableKind;
use crate::known_file::KnownFile;
use fsw_outside::NoMemory;
use std::alloc::Global;
use std::marker::Model;

/// The files that were handed over, seen as the list of their bytes in the order of adding. There are at most 100, and
/// `read_file` accepts each. Several may be tables of one kind.
#[derive(Drop)]
pub struct Files {
    files: Vec<KnownFile>,
}

impl Model for Files {
    ghost use Rattle.std.specs.Prelude.{ℕ, List};

    ghost Value = { List (List ℕ) };

    ghost use Rattle.table_files.specs.Files.{AreFiles};

    ghost view = { λ f. f.files.items };

    ghost invariant = { λ f. AreFiles f.files.items };
}

impl Files {
    /// No files. It takes no memory, so the result is Ok.
    pub fn open(alloc: Global) -> Result<Files, NoMemory>
        ensures { IsOkAnd result (λ files. files ≡ []) }
    {
        Ok(Files {
            files: Vec::new(alloc),
        })
    }

    /// How many files there are.
    pub fn len(&self) -> u32
        ensures len { result ≡ length self.now }
        ensures files { AreFiles self.now }
    {
        self.files.len() as u32
    }

    /// Adds a file, whose bytes are moved in. There may be fewer than 100 files before, and `bytes` may have at most
    /// 65,700. After an `Err` the files are as before: `File` where `read_file` refuses the bytes; `NoMemory` comes only
    /// where it accepts them.
    pub fn add(&mut self, bytes: Vec<u8>) -> Result<(), AddFault>
        requires room { length self.old < 100 }
        requires small { length bytes.items ≤ 65700 }
        ensures added { OnOk result (self.new ≡ self.old ++ bytes.items ∷ []) }
        ensures accepted { OnOk result (file_fault_of bytes.items ≡ None) }
        ensures refused { IfErr result (Refuses (file_fault_of bytes.items)) }
        ensures same { OnErr result (self.new ≡ self.old) }
    {
        if let Some(fault) = find_fault(&bytes) {
            return Err(AddFault::File(fault));
        }
        let Ok(()) = self.files.push(KnownFile::new(bytes)) else {
            return Err(AddFault::NoMemory);
        };
        Ok(())
    }

    /// What the file of this number holds, counted from 1 in the order of adding: what `read_file` gives for its bytes.
    pub fn get(&self, file: u32) -> FileImage<'_>
        requires least { 1 ≤ file }
        requires most { file ≤ length self.now }
        ensures { Shows (file_at self.now file) result }
    {
        self.files[file as usize - 1].image()
    }

    /// The kind of the table file of this number, counted from 1 in the order of adding; None exactly where no table file
    /// has it.
    pub fn kind(&self, file: u32) -> Option<TableKind>
        ensures { result ≡ kind_at self.now file }
    {
        if file == 0 {
            return None;
        }
        if file as usize > self.files.len() {
            return None;
        }
        self.files[file as usize - 1].kind()
    }

    /// Address and bytes of the n-th load file, counted from 1 among the load files alone in the order of adding; None
    /// exactly where there is none. There are 1 to 65,536 bytes. Nothing is copied.
    pub fn load(&self, n: u32) -> Option<(u32, &[u8])>
        ensures load { option_map (λ load. (load.0, load.1.now)) result
            ≡ nth (loads_of self.now) n }
        ensures size { IfSome result (λ load. IsLoadable (load.0, load.1.now)) }
    {
        match nth_load(&self.files, n) {
            Some(file) => Some(load_in(file)),
            None => None,
        }
    }
}

/// The n-th load file, counted from 1.
fn nth_load(files: &[KnownFile], n: u32) -> Option<&[u8]>
    ensures file { option_map (λ file. file.now) result ≡ nth (filter is_load files.now) n }
    ensures load { IfSome result (λ file. IsFile file.now × (is_load file.now ≡ true)) }
{
    if n == 0 {
        return None;
    }
    let mut before = n - 1;
    for file in files {
        if is_load(file.bytes()) {
            if before == 0 {
                return Some(file.bytes());
            }
            before -= 1;
        }
    }
    None
}
