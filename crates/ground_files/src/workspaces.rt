//! Files by name and the standard streams.

ghost use Rattle.std.specs.Prelude.{◌≡◌, ℕ, List, [], Option, Some, option_map, false, is_ok, is_some, ◌&&◌, IfOk, OnOk, string_bytes};
ghost use Rattle.fsw_outside.specs.Files.{file_named};
ghost use Rattle.ground_files.specs.Workspaces.{Held, without_input, settled_at, KeepsFiles};

use std::alloc::AllocError;
use std::io::{self, Read, Write};

/// All that a verb reads and writes but what it tells on standard error: files by name, standard input and standard output. One over a
/// system tells nothing of what it holds; one over memory does.
pub trait Workspace {
    /// What is left of standard input.
    type Input: Read + Drop;
    /// A file that is read.
    type File: Read + Drop;
    /// An output that is begun. What is written to it is in its place once it is settled.
    type Draft: Write + Drop;

    /// What is held, where it is told.
    ghost held: { Self → Option Held };

    /// Takes standard input.
    fn input(&mut self) -> Self::Input
        ensures held { held self.new ≡ option_map without_input (held self.old) }
        ensures bytes { (before : Held) → held self.old ≡ Some before
            → Self.Input.remaining result ≡ Some before.input };

    /// Opens a file.
    fn open(&mut self, path: &str) -> io::Result<Self::File>
        ensures held { held self.new ≡ held self.old }
        ensures bytes { IfOk result (λ file. (before : Held) → held self.old ≡ Some before
            → (bytes : List ℕ) × (file_named before.files path.now ≡ Some bytes)
            × (Self.File.remaining file ≡ Some bytes)) };

    /// Begins an output by its name; `-` is standard output.
    fn begin(&mut self, name: &str) -> io::Result<Self::Draft>
        ensures held { held self.new ≡ held self.old }
        ensures empty { IfOk result (λ draft. (before : Held) → held self.old ≡ Some before
            → Self.Draft.contents draft ≡ Some []) };

    /// Ends an output that was begun by this name. A file is moved to its place where it is whole, and else nothing of it is left.
    fn settle(&mut self, name: &str, draft: Self::Draft, is_whole: bool) -> io::Result<()>
        ensures held { OnOk result ((bytes : List ℕ) → Self.Draft.contents draft ≡ Some bytes
            → held self.new ≡ option_map (settled_at name.now bytes is_whole) (held self.old)) }
        ensures dropped { (is_whole && is_ok result) ≡ false
            → KeepsFiles (held self.old) (held self.new) };

    /// Whether a path is that of a regular file, which can be read twice.
    fn is_file(&self, path: &str) -> io::Result<bool>
        ensures file { IfOk result (λ is. (now : Held) → held self.now ≡ Some now
            → is ≡ is_some (file_named now.files path.now)) };

    /// The path behind symbolic links, where there is a file, and else the path. A workspace that tells what it holds has no links.
    fn real_path(&self, path: &str) -> Result<String, AllocError>
        ensures place { IfOk result (λ place. (now : Held) → held self.now ≡ Some now
            → string_bytes place ≡ path.now) };

    /// Makes a folder and those above it, where they aren't there.
    fn make_folder(&mut self, path: &str) -> io::Result<()>
        ensures held { held self.new ≡ held self.old };
}
