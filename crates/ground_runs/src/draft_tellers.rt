//! Workspaces whose drafts tell their bytes.

ghost use Rattle.std.specs.Prelude.{◌≡◌, Bool, true, false, Some, IsSome, refl};
ghost use Rattle.ground_files.specs.Workspaces.{Held};

use ground_files::{MemoryFiles, SystemFiles, Workspace};
use std::rt::Files;

/// A workspace whose drafts always tell their bytes, or never. They do where it tells what it holds.
pub trait DraftTeller: Workspace {
    /// Whether they tell their bytes.
    ghost are_told: { Bool };

    /// They do, whatever was written to them.
    ghost tells: { (draft : Self.Draft) → are_told ≡ true
        → IsSome (Self.Draft.contents draft) };

    /// They do where the workspace tells what it holds.
    ghost told_over: { (workspace : Self) (before : Held)
        → Self.held workspace ≡ Some before → are_told ≡ true };
}

impl<'r, R: Files + Input + Print + AllocGlobal> DraftTeller for SystemFiles<'r, R> {
    ghost are_told = { false };

    ghost tells = { λ draft told. Prim.cc };

    ghost told_over = { λ workspace before tells. Prim.cc };
}

impl DraftTeller for MemoryFiles {
    ghost are_told = { true };

    ghost tells = { λ draft told. refl };

    ghost told_over = { λ workspace before tells. refl };
}
