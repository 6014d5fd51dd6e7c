//! What a line of a log is made into.

ghost use Rattle.std.specs.Prelude.{◌≡◌, ◌++◌, ℕ, List, OnOk};
ghost use Rattle.log_lines.specs.declared.line.LogLine.{LogLine};

use log_lines::LogLine;
use std::alloc::AllocError;

/// What makes something of each line of a log.
pub trait LineMaker {
    /// What may be made of a line.
    ghost makes: { Self → LogLine → List ℕ → Type 0 };

    /// Appends what is made of a line.
    fn make(&self, line: &LogLine, out: &mut Vec<u8>) -> Result<(), AllocError>
        ensures { OnOk result ((made : List ℕ) × (out.new.items ≡ out.old.items ++ made)
            × makes self.now line.now made) };
}
