//! A workspace over memory.

ghost use Rattle.std.specs.Prelude.{◌≡◌, Some, None, [], option_map, is_ok, ◌&&◌, IfOk, IsSome, OnOk, OnErr, string_bytes};
ghost use Rattle.fsw_outside.specs.Files.{file_named};
ghost use Rattle.ground_files.specs.Workspaces.{Held, file_put};
ghost use Rattle.ground_files.specs.Memory.{held_in, first_place};

use crate::stream_names::is_stream;
use crate::workspaces::Workspace;
use std::alloc::{AllocError, Global};
use std::collections::VecDeque;
use std::io::{self, ErrorKind, Write};
use std::mem;

/// A file that is kept.
#[derive(Drop)]
pub(crate) struct KeptFile {
    name: String,
    bytes: Vec<u8>,
}

/// Files by name and the standard streams, in memory.
#[derive(Drop)]
pub struct MemoryFiles {
    alloc: Global,
    files: Vec<KeptFile>,
    input: VecDeque<u8>,
    output: Vec<u8>,
}

/// The place of the file of this name.
fn place_of(files: &[KeptFile], name: &str) -> Option<usize>
    ensures { result ≡ first_place files.now name.now }
{
    for (place, file) in files.iter().enumerate() {
        if file.name.as_str() == name {
            return Some(place);
        }
    }
    None
}

/// Bytes that are to be read.
fn queue_of(alloc: Global, bytes: &[u8]) -> io::Result<VecDeque<u8>>
    ensures { IfOk result (λ queue. queue.items ≡ bytes.now) }
{
    let mut queue = VecDeque::new(alloc);
    queue.write_all(bytes)?;
    Ok(queue)
}

impl MemoryFiles {
    /// No files, standard input with these bytes, and standard output without any.
    pub fn new(alloc: Global, input: &[u8]) -> io::Result<MemoryFiles>
        ensures { IfOk result (λ files. held_in files
            ≡ record { files = []; input = input.now; output = [] }) }
    {
        let input = queue_of(alloc, input)?;
        Ok(MemoryFiles {
            alloc,
            files: Vec::new(alloc),
            input,
            output: Vec::new(alloc),
        })
    }

    /// Puts a file, in the place of one that has the name. Where memory runs out all is as before.
    #[tactic(auto, using(crate::proofs::PlaceLemmas::place_within, crate::proofs::PlaceLemmas::put_at_place, crate::proofs::PlaceLemmas::put_pushed))]
    pub fn put(&mut self, name: &str, bytes: Vec<u8>) -> Result<(), AllocError>
        ensures put { OnOk result (held_in self.new ≡ record (held_in self.old) {
          files = file_put name.now bytes.items (held_in self.old).files;
        }) }
        ensures same { OnErr result (held_in self.new ≡ held_in self.old) }
    {
        match place_of(&self.files, name) {
            Some(place) => self.files[place].bytes = bytes,
            None => {
                let name = String::from_str(self.alloc, name)?;
                self.files.push(KeptFile { name, bytes })?;
            }
        }
        Ok(())
    }

    /// What standard output got.
    pub fn output(&self) -> &[u8]
        ensures { result.now ≡ (held_in self.now).output }
    {
        &self.output
    }
}

impl Workspace for MemoryFiles {
    type Input = VecDeque<u8>;

    type File = VecDeque<u8>;

    type Draft = Vec<u8>;

    ghost held = { λ files. Some (held_in files) };

    fn input(&mut self) -> VecDeque<u8> {
        mem::replace(&mut self.input, VecDeque::new(self.alloc))
    }

    #[tactic(auto, using(crate::proofs::PlaceLemmas::place_within, crate::proofs::PlaceLemmas::named_at))]
    fn open(&mut self, path: &str) -> io::Result<VecDeque<u8>> {
        match place_of(&self.files, path) {
            Some(place) => queue_of(self.alloc, &self.files[place].bytes),
            None => Err(io::Error::from(ErrorKind::NotFound)),
        }
    }

    fn begin(&mut self, _name: &str) -> io::Result<Vec<u8>> {
        Ok(Vec::new(self.alloc))
    }

    fn settle(&mut self, name: &str, draft: Vec<u8>, is_whole: bool) -> io::Result<()> {
        if is_stream(name) {
            self.output.extend_from_slice(&draft)?;
            return Ok(());
        }
        if is_whole {
            self.put(name, draft)?;
        }
        Ok(())
    }

    #[tactic(auto, using(crate::proofs::PlaceLemmas::is_there))]
    fn is_file(&self, path: &str) -> io::Result<bool> {
        match place_of(&self.files, path) {
            Some(_) => Ok(true),
            None => Err(io::Error::from(ErrorKind::NotFound)),
        }
    }

    fn real_path(&self, path: &str) -> Result<String, AllocError> {
        String::from_str(self.alloc, path)
    }

    fn make_folder(&mut self, _path: &str) -> io::Result<()> {
        Ok(())
    }
}
