//! The workspace of a program: a system's files and its standard streams.

ghost use Rattle.std.specs.Prelude.{◌≡◌, None};

use crate::part_files::{PartFile, real_path};
use crate::stream_names::is_stream;
use crate::workspaces::Workspace;
use std::alloc::AllocError;
use std::fs;
use std::io::{self, Printer, Write};
use std::rt::Files;

/// The files and the standard streams that a runtime has. It tells nothing of what they hold.
#[derive(Clone, Copy, Drop)]
pub struct SystemFiles<'r, R> {
    rt: &'r R,
}

impl<'r, R> SystemFiles<'r, R> {
    pub fn new(rt: &'r R) -> SystemFiles<'r, R> {
        SystemFiles { rt }
    }
}

/// An output of a program.
#[derive(Drop)]
pub enum SystemDraft<'r, R: Files + Print> {
    Standard(Printer<'r, R>),
    File(PartFile<'r, R>, R::File),
}

impl<'r, R: Files + Print> Write for SystemDraft<'r, R> {
    fn write(&mut self, bytes: &[u8]) -> io::Result<usize> {
        match self {
            SystemDraft::Standard(to) => to.write(bytes),
            SystemDraft::File(_, to) => to.write(bytes),
        }
    }

    fn flush(&mut self) -> io::Result<()> {
        match self {
            SystemDraft::Standard(to) => to.flush(),
            SystemDraft::File(_, to) => to.flush(),
        }
    }
}

impl<'r, R: Files + Input + Print + AllocGlobal> Workspace for SystemFiles<'r, R> {
    type Input = R::Reader;

    type File = R::File;

    type Draft = SystemDraft<'r, R>;

    ghost held = { λ _. None };

    fn input(&mut self) -> R::Reader {
        self.rt.reader()
    }

    fn open(&mut self, path: &str) -> io::Result<R::File> {
        fs::open(self.rt, path)
    }

    fn begin(&mut self, name: &str) -> io::Result<SystemDraft<'r, R>> {
        if is_stream(name) {
            return Ok(SystemDraft::Standard(io::writer(self.rt)));
        }
        let (part, file) = PartFile::begin(self.rt, name)?;
        Ok(SystemDraft::File(part, file))
    }

    fn settle(&mut self, _name: &str, draft: SystemDraft<'r, R>, is_whole: bool) -> io::Result<()> {
        match draft {
            SystemDraft::File(part, _) if is_whole => part.keep(),
            SystemDraft::File(part, _) => {
                part.drop_part();
                Ok(())
            }
            SystemDraft::Standard(_) => Ok(()),
        }
    }

    fn is_file(&self, path: &str) -> io::Result<bool> {
        Ok(fs::metadata(self.rt, path)?.is_file())
    }

    fn real_path(&self, path: &str) -> Result<String, AllocError> {
        real_path(self.rt, path)
    }

    fn make_folder(&mut self, path: &str) -> io::Result<()> {
        fs::create_dir_all(self.rt, path)
    }
}
