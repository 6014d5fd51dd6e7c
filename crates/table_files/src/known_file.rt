//! A file without a fault, and what its headers say.
ghost use Rattle.std.specs.Prelude.{◌≡◌};
ghost use Rattle.table_files.specs.Headers.{IsFile, kind_of_file, Shows};

use crate::headers::{FileImage, TABLE_HEADERS, image_of, load_in};
use crate::kinds::TableKind;
use packet_forms::behind;
use std::marker::Model;

/// A file without a fault, and the kind that its headers say, so that they aren't read each time. It is seen as its bytes.
#[derive(Drop)]
pub(crate) struct KnownFile {
    bytes: Vec<u8>,
    kind: Option<TableKind>,
}

impl Model for KnownFile {
    ghost use Rattle.std.specs.Prelude.{ℕ, List};

    ghost Value = { List ℕ };

    ghost use Rattle.table_files.specs.Files.{IsKnownAs};

    ghost view = { λ f. f.bytes.items };

    ghost invariant = { λ f. IsKnownAs f.bytes.items f.kind };
}

/// The kind of the table of a file without a fault; None where it is to be loaded.
fn kind_in(bytes: &[u8]) -> Option<TableKind>
    requires { IsFile bytes.now }
    ensures { result ≡ kind_of_file bytes.now }
{
    match image_of(bytes) {
        FileImage::Table { kind, payload: _ } => Some(kind),
        FileImage::Load { at: _, bytes: _ } => None,
    }
}

impl KnownFile {
    /// The file of these bytes.
    pub(crate) fn new(bytes: Vec<u8>) -> KnownFile
        requires { IsFile bytes.items }
        ensures { result ≡ bytes.items }
    {
        let kind = kind_in(&bytes);
        KnownFile { bytes, kind }
    }

    /// Its bytes.
    pub(crate) fn bytes(&self) -> &[u8]
        ensures bytes { result.now ≡ self.now }
        ensures file { IsFile self.now }
    {
        &self.bytes
    }

    /// The kind of its table; None where it is to be loaded.
    pub(crate) fn kind(&self) -> Option<TableKind>
        ensures { result ≡ kind_of_file self.now }
    {
        self.kind
    }

    /// What it holds.
    pub(crate) fn image(&self) -> FileImage<'_>
        ensures { Shows self.now result }
    {
        match self.kind {
            Some(kind) => FileImage::Table {
                kind,
                payload: behind(&self.bytes, TABLE_HEADERS),
            },
            None => {
                let (at, bytes) = load_in(&self.bytes);
                FileImage::Load { at, bytes }
            }
        }
    }
}
