//! Files that are written beside their place, and moved there once they are whole.

use std::alloc::AllocError;
use std::fs::{self, OpenFile, OpenOptions};
use std::io::{self, ErrorKind};
use std::rt::Files;

/// How many names are tried for a file that is written beside its place.
const MOST_PARTS: u32 = 100;

/// A file that is written beside its place and moved there once it is whole. A place that is no regular file, as a device or a pipe,
/// is written itself.
#[derive(Drop)]
pub struct PartFile<'a, R: Files> {
    rt: &'a R,
    place: String,
    part: Option<String>,
}

/// The path behind symbolic links, where there is a file.
pub(crate) fn real_path<R: Files + AllocGlobal>(rt: &R, path: &str) -> Result<String, AllocError> {
    match fs::canonicalize(rt, path) {
        Ok(place) => Ok(place.into_string()),
        Err(_) => String::from_str(rt.alloc(), path),
    }
}

/// Makes a new file beside a place.
fn make_part<R: Files + AllocGlobal>(rt: &R, place: &str) -> io::Result<(String, R::File)> {
    for number in 0..MOST_PARTS {
        let name = format!(in rt.alloc(); "{place}.{number}.part")?;
        let mut options = OpenOptions::new();
        options.write(true).create_new(true);
        match options.open(rt, name.as_str()) {
            Ok(file) => return Ok((name, file)),
            Err(error) => {
                if error.kind() != ErrorKind::AlreadyExists {
                    return Err(error);
                }
            }
        }
    }
    Err(io::Error::from(ErrorKind::AlreadyExists))
}

impl<'a, R: Files + AllocGlobal> PartFile<'a, R> {
    /// Begins a file, which is then written by what is given beside.
    pub fn begin(rt: &'a R, path: &str) -> io::Result<(PartFile<'a, R>, R::File)> {
        let place = real_path(rt, path)?;
        if let Ok(known) = fs::metadata(rt, path) {
            if !known.is_file() {
                let file = OpenOptions::new().write(true).open(rt, path)?;
                let part = None;
                return Ok((PartFile { rt, place, part }, file));
            }
        }
        let (part, file) = make_part(rt, place.as_str())?;
        let part = Some(part);
        Ok((PartFile { rt, place, part }, file))
    }

    /// Moves the file to its place, with the permissions that the one there has.
    fn settle(&self, part: &str) -> io::Result<()> {
        fs::open(self.rt, part)?.sync_all()?;
        if let Ok(known) = fs::metadata(self.rt, self.place.as_str()) {
            let _set = fs::set_permissions(self.rt, part, known.permissions());
        }
        fs::rename(self.rt, part, self.place.as_str())
    }

    /// Says that the file is whole.
    pub fn keep(self) -> io::Result<()> {
        let Some(part) = &self.part else {
            return Ok(());
        };
        let kept = self.settle(part.as_str());
        if kept.is_err() {
            let _removed = fs::remove_file(self.rt, part.as_str());
        }
        kept
    }

    /// Says that the file is none: nothing of it is left.
    pub fn drop_part(self) {
        if let Some(part) = &self.part {
            let _removed = fs::remove_file(self.rt, part.as_str());
        }
    }
}
