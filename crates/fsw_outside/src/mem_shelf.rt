//! A shelf over memory.

ghost use Rattle.std.specs.Prelude.{◌≡◌, ◌+◌, ◌-◌, ◌*◌, ◌^◌, ◌<◌, ◌≤◌, min, [], ◌∷◌, ◌++◌, length, take, drop, Option, Some, None, is_some, is_ok, not, ◌&&◌, IsTrue, IsFalse, IfOk, OnOk, OnErr};
ghost use Rattle.std.specs.Option.{ForSome};
ghost use Rattle.fsw_outside.specs.Files.{file_named};
ghost use Rattle.fsw_outside.specs.Memory.{is_listed, IsPlaceOf};

use crate::traits::{Failed, NoMemory, Shelf};
use std::alloc::Global;

/// A file that is kept in memory.
#[derive(Drop)]
pub(crate) struct StoredFile {
    name: String,
    bytes: Vec<u8>,
}

/// How far a file was read.
#[derive(Clone, Copy)]
pub(crate) struct Place {
    file: usize,
    at: usize,
}

/// A shelf over memory, some calls of which fail.
#[derive(Drop)]
pub struct MemShelf {
    alloc: Global,
    files: Vec<StoredFile>,
    fails: Vec<u32>,
    most: usize,
    reading: Option<Place>,
    last: Option<usize>,
    calls: u64,
    openings: u64,
    faults: u64,
    mark: u64,
    ghost reading_within: { ForSome reading (λ place. place.file < length files.items) },
    ghost last_within: { ForSome last (λ place. place < length files.items) },
    ghost some_most: { 0 < most },
}

impl MemShelf {
    ghost use Rattle.fsw_outside.specs.MemShelf.{content_of, has_open_file, failing_calls, call_count, fault_count, marked_faults, most_bytes};

    /// A shelf without files. The calls with the numbers in `fails` fail, counted from 0 over `open` and `next`.
    pub fn new(alloc: Global, fails: &[u32]) -> Result<MemShelf, NoMemory>
        ensures content { IfOk result (λ shelf. content_of shelf
            ≡ record { files = []; rest = []; openings = 0; name = None }) }
        ensures fails { IfOk result (λ shelf. failing_calls shelf ≡ fails.now) }
        ensures counts { IfOk result (λ shelf. (call_count shelf ≡ 0) × (fault_count shelf ≡ 0)
            × (marked_faults shelf ≡ 0)) }
        ensures closed { IfOk result (λ shelf. IsFalse (has_open_file shelf)) }
        ensures most { IfOk result (λ shelf. most_bytes shelf ≡ 2 ^ 64 - 1) }
    {
        let fails = Vec::from_slice(alloc, fails)?;
        Ok(MemShelf {
            alloc,
            files: Vec::new(alloc),
            fails,
            most: usize::MAX,
            reading: None,
            last: None,
            calls: 0,
            openings: 0,
            faults: 0,
            mark: 0,
        })
    }

    /// As `new`, but a call hands out at most `most` bytes.
    pub fn short(alloc: Global, fails: &[u32], most: u32) -> Result<MemShelf, NoMemory>
        requires { 0 < most }
        ensures content { IfOk result (λ shelf. content_of shelf
            ≡ record { files = []; rest = []; openings = 0; name = None }) }
        ensures fails { IfOk result (λ shelf. failing_calls shelf ≡ fails.now) }
        ensures counts { IfOk result (λ shelf. (call_count shelf ≡ 0) × (fault_count shelf ≡ 0)
            × (marked_faults shelf ≡ 0)) }
        ensures closed { IfOk result (λ shelf. IsFalse (has_open_file shelf)) }
        ensures most { IfOk result (λ shelf. most_bytes shelf ≡ most) }
    {
        let mut shelf = MemShelf::new(alloc, fails)?;
        shelf.most = most as usize;
        Ok(shelf)
    }

    /// Adds a file. Where memory runs out the shelf stays as it was.
    pub fn put(&mut self, name: &str, bytes: &[u8]) -> Result<(), NoMemory>
        requires new_name { file_named (content_of self.old).files name.now ≡ None }
        requires closed { IsFalse (has_open_file self.old) }
        ensures added { OnOk result (content_of self.new ≡ record (content_of self.old) {
          files = (content_of self.old).files ++ (record { name = name.now; bytes = bytes.now })
              ∷ [];
        }) }
        ensures unchanged { OnErr result (content_of self.new ≡ content_of self.old) }
        ensures fails { failing_calls self.new ≡ failing_calls self.old }
        ensures counts { (call_count self.new ≡ call_count self.old)
            × (fault_count self.new ≡ fault_count self.old)
            × (marked_faults self.new ≡ marked_faults self.old) }
        ensures closed { IsFalse (has_open_file self.new) }
        ensures most { most_bytes self.new ≡ most_bytes self.old }
    {
        let name = String::from_str(self.alloc, name)?;
        let bytes = Vec::from_slice(self.alloc, bytes)?;
        self.files.push(StoredFile { name, bytes })?;
        Ok(())
    }
}

impl Shelf for MemShelf {
    ghost use Rattle.fsw_outside.specs.Memory.{can_rise};
    ghost use Rattle.fsw_outside.specs.Closed.{told_rest};
    ghost use Rattle.fsw_outside.specs.Told.{WhereTold};
    ghost use Rattle.fsw_outside.specs.Causes.{HasCause};
    ghost use Rattle.fsw_outside.specs.Files.{Opens, Reads};
    ghost use Rattle.fsw_outside.specs.MemShelf.{content_of, told_content, has_open_file, failing_calls, call_count, fault_count, marked_faults, most_bytes};

    ghost told = { λ shelf. told_content shelf };

    ghost is_open = { λ shelf. has_open_file shelf };

    ghost faults = { λ shelf. fault_count shelf };

    ghost mark = { λ shelf. marked_faults shelf };

    ghost nothing_left = { λ shelf content tells closed. told_rest
        (can_rise shelf.faults && can_rise shelf.openings) shelf.files.items
        shelf.reading shelf.openings shelf.last content tells closed };

    fn open(&mut self, name: &str) -> Result<(), Failed>
        ensures content { WhereTold (told_content self.old) (told_content self.new)
            (Opens name.now result) }
        ensures cause { HasCause (told_content self.new) (fault_count self.old)
            (fault_count self.new) result }
        ensures is_open { has_open_file self.new ≡ is_ok result }
        ensures mark { marked_faults self.new ≡ fault_count self.old }
        // It fails exactly where there is no such file or the call is listed.
        ensures exact { is_ok result ≡ (is_some (file_named (content_of self.old).files name.now)
            && not (is_listed (failing_calls self.old) (call_count self.old))) }
        ensures fails { failing_calls self.new ≡ failing_calls self.old }
        ensures calls { call_count self.new ≡ min (call_count self.old + 1) (2 ^ 64 - 1) }
        ensures most { most_bytes self.new ≡ most_bytes self.old }
    {
        self.mark = self.faults;
        self.openings = self.openings.saturating_add(1);
        self.reading = None;
        self.last = file_place(&self.files, name);
        let fails = is_listed_call(&self.fails, self.calls);
        self.calls = self.calls.saturating_add(1);
        match self.last {
            Some(file) if !fails => {
                self.reading = Some(Place { file, at: 0 });
                Ok(())
            }
            _ => {
                self.faults = self.faults.saturating_add(1);
                Err(Failed)
            }
        }
    }

    fn next(&mut self, buf: &mut [u8]) -> Result<usize, Failed>
        requires opened { IsTrue (has_open_file self.old) }
        requires room { 0 < length buf.old }
        ensures bound { IfOk result (λ n. n ≤ length buf.new) }
        ensures content { WhereTold (told_content self.old) (told_content self.new)
            (Reads result buf.new) }
        ensures cause { HasCause (told_content self.new) (fault_count self.old)
            (fault_count self.new) result }
        ensures is_open { IsTrue (has_open_file self.new) }
        ensures mark { marked_faults self.new ≡ marked_faults self.old }
        // It fails exactly where the call is listed, and hands out as much as may be.
        ensures exact { is_ok result ≡ not (is_listed (failing_calls self.old)
            (call_count self.old)) }
        ensures many { IfOk result (λ n. n ≡ min (most_bytes self.old)
            (min (length (content_of self.old).rest) (length buf.old))) }
        ensures fails { failing_calls self.new ≡ failing_calls self.old }
        ensures calls { call_count self.new ≡ min (call_count self.old + 1) (2 ^ 64 - 1) }
        ensures most { most_bytes self.new ≡ most_bytes self.old }
    {
        let Some(place) = self.reading else {
            unreachable!();
        };
        let fails = is_listed_call(&self.fails, self.calls);
        self.calls = self.calls.saturating_add(1);
        if fails {
            self.faults = self.faults.saturating_add(1);
            return Err(Failed);
        }
        let count = hand_out(&self.files[place.file].bytes, place.at, self.most, buf);
        self.reading = Some(Place {
            file: place.file,
            at: place.at + count,
        });
        Ok(count)
    }
}

/// The place of the first file of this name.
fn file_place(files: &[StoredFile], name: &str) -> Option<usize>
    ensures { IsPlaceOf files.now name.now result }
{
    for (place, file) in files.iter().enumerate() {
        if file.name.as_str() == name {
            return Some(place);
        }
    }
    None
}

/// Whether the call of this number is to fail.
pub(crate) fn is_listed_call(fails: &[u32], call: u64) -> bool
    ensures { result ≡ is_listed fails.now call }
{
    fails.iter().any(|number| u64::from(*number) == call)
}

/// Puts the bytes from a place on at the front of the buffer, as many as may be.
fn hand_out(bytes: &[u8], at: usize, most: usize, buf: &mut [u8]) -> usize
    ensures count { result ≡ min most (min (length (drop at bytes.now)) (length buf.old)) }
    ensures within { result ≤ length bytes.now - at }
    ensures front { take result buf.new ≡ take result (drop at bytes.now) }
{
    let rest = &bytes[at.min(bytes.len())..];
    let count = most.min(rest.len().min(buf.len()));
    buf[..count].copy_from_slice(&rest[..count]);
    count
}
