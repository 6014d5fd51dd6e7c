//! The two counts.
ghost use Rattle.std.specs.Prelude.{◌≡◌, ℕ, List, [], ◌∷◌, ◌++◌};
ghost use Rattle.commands.specs.Counting.{counts_of};
ghost use Rattle.commands.specs.declared.verdicts.Verdict.{Verdict};
ghost use Rattle.commands.specs.declared.verdicts.Verdict.TheVariants.{Refused, Accepted};

use bus_pipes::Counts;

/// Both counts before the first packet.
pub fn start_counts() -> Counts
    ensures { result ≡ record { accepted = 0; errors = 0 } }
{
    Counts {
        accepted: 0,
        errors: 0,
    }
}

/// Counts one more accepted command: code 1 sets both counts to 0 and isn't counted.
pub fn note_accepted<I>(counts: &mut Counts, code: u8)
    ensures { (verdicts : List (Verdict I)) (instruction : I) → counts.old ≡ counts_of verdicts
        → counts.new ≡ counts_of (verdicts ++ Accepted code instruction ∷ []) }
{
    if code == 1 {
        *counts = start_counts();
        return;
    }
    counts.accepted = counts.accepted.wrapping_add(1);
}

/// Counts one more refused command.
pub fn note_refused<I>(counts: &mut Counts)
    ensures { (verdicts : List (Verdict I)) (reason : ℕ) → counts.old ≡ counts_of verdicts
        → counts.new ≡ counts_of (verdicts ++ Refused reason ∷ []) }
{
    counts.errors = counts.errors.wrapping_add(1);
}
