//! Where the text of a scenario comes from.

ghost use Rattle.std.specs.Prelude.{◌≡◌, ℕ, ◌<◌, ◌≤◌, Bool, length, Option, IsTrue, IfOk};
ghost use Rattle.fsw_outside.specs.Told.{WhereTold};
ghost use Rattle.fsw_outside.specs.Causes.{HasCause};
ghost use Rattle.fsw_outside.specs.Files.{Content, Reads};

use fsw_outside::{Failed, Shelf};

/// A text that is read piece by piece: a shelf's open file.
pub trait Source {
    /// What is left of the text and where it stands, where it is told.
    ghost told: { Self → Option Content };

    /// Whether there is a text.
    ghost is_open: { Self → Bool };

    /// How often reading has failed.
    ghost faults: { Self → ℕ };

    /// What that count was as the text was opened.
    ghost mark: { Self → ℕ };

    /// Puts the next bytes of the text at the front of `piece`, and answers how many.
    fn read(&mut self, piece: &mut [u8]) -> Result<usize, Failed>
        requires opened { IsTrue (is_open self.old) }
        requires room { 0 < length piece.old }
        ensures bound { IfOk result (λ n. n ≤ length piece.new) }
        ensures content { WhereTold (told self.old) (told self.new) (Reads result piece.new) }
        ensures cause { HasCause (told self.new) (faults self.old) (faults self.new) result }
        ensures is_open { IsTrue (is_open self.new) }
        ensures mark { mark self.new ≡ mark self.old };
}

impl<S: Shelf> Source for S {
    ghost told = { S.told };

    ghost is_open = { S.is_open };

    ghost faults = { S.faults };

    ghost mark = { S.mark };

    fn read(&mut self, piece: &mut [u8]) -> Result<usize, Failed> {
        self.next(piece)
    }
}
