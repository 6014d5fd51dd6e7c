//! A shelf of the files that a runtime can open.

ghost use Rattle.std.specs.Prelude.{◌≡◌, ◌+◌, ◌-◌, ◌^◌, ◌<◌, ◌≤◌, min, length, Option, Some, None, is_ok, if◌then◌else◌, IsTrue, IsFalse, IfOk};
ghost use Rattle.std.specs.Io.KnownBytes.{ReadConsumes};
ghost use Rattle.fsw_outside.specs.Told.{WhereTold};
ghost use Rattle.fsw_outside.specs.Causes.{HasCause};
ghost use Rattle.fsw_outside.specs.Files.{Content, Opens, Reads};
ghost use Rattle.fsw_outside.specs.FileShelf.{open_file, has_open_file, fault_count, marked_faults};

use crate::traits::{Failed, Shelf};
use std::fs;
use std::io::Read;
use std::rt::Files;

/// A shelf of the files that a runtime can open. It tells no bytes.
#[derive(Drop)]
pub struct FileShelf<'r, F: Files> {
    rt: &'r F,
    file: Option<F::File>,
    faults: u64,
    mark: u64,
}

impl<'r, F: Files> FileShelf<'r, F> {
    /// A shelf with no file open and no faults.
    pub fn new(rt: &'r F) -> FileShelf<'r, F>
        ensures closed { IsFalse (has_open_file result) }
        ensures faults { fault_count result ≡ 0 }
        ensures mark { marked_faults result ≡ 0 }
    {
        FileShelf {
            rt,
            file: None,
            faults: 0,
            mark: 0,
        }
    }
}

impl<'r, F: Files> Shelf for FileShelf<'r, F> {
    ghost told = { λ shelf. None };

    ghost is_open = { λ shelf. has_open_file shelf };

    ghost faults = { λ shelf. fault_count shelf };

    ghost mark = { λ shelf. marked_faults shelf };

    ghost nothing_left = { λ shelf content tells closed. Prim.cc };

    fn open(&mut self, name: &str) -> Result<(), Failed>
        ensures content { WhereTold {A = Content} None None (Opens name.now result) }
        ensures cause { HasCause {A = Content} None (fault_count self.old)
            (fault_count self.new) result }
        ensures is_open { has_open_file self.new ≡ is_ok result }
        ensures mark { marked_faults self.new ≡ fault_count self.old }
        ensures counted { fault_count self.new
            ≡ (if is_ok result then fault_count self.old
            else min (fault_count self.old + 1) (2 ^ 64 - 1)) }
    {
        self.mark = self.faults;
        self.file = None;
        match fs::open(self.rt, name) {
            Ok(file) => {
                self.file = Some(file);
                Ok(())
            }
            Err(_) => {
                self.faults = self.faults.saturating_add(1);
                Err(Failed)
            }
        }
    }

    fn next(&mut self, buf: &mut [u8]) -> Result<usize, Failed>
        requires opened { IsTrue (has_open_file self.old) }
        requires room { 0 < length buf.old }
        ensures bound { IfOk result (λ n. n ≤ length buf.new) }
        ensures content { WhereTold {A = Content} None None (Reads result buf.new) }
        ensures cause { HasCause {A = Content} None (fault_count self.old)
            (fault_count self.new) result }
        ensures is_open { IsTrue (has_open_file self.new) }
        ensures mark { marked_faults self.new ≡ marked_faults self.old }
        ensures counted { fault_count self.new
            ≡ (if is_ok result then fault_count self.old
            else min (fault_count self.old + 1) (2 ^ 64 - 1)) }
        // It gives what the file gives, where that one tells its bytes.
        ensures handed_on { (file : F.File) × (after : F.File) × (open_file self.old ≡ Some file)
            × (open_file self.new ≡ Some after)
            × ReadConsumes (F.File.remaining file) (F.File.remaining after) result buf.new }
    {
        let Some(file) = &mut self.file else {
            unreachable!();
        };
        match file.read(buf) {
            Ok(count) => Ok(count),
            Err(_) => {
                self.faults = self.faults.saturating_add(1);
                Err(Failed)
            }
        }
    }
}
