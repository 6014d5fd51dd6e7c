//! What a crew does, and where it leaves what it made.

use fsw_outside::NoMemory;
use std::alloc::Global;

/// Where a worker leaves what performing a task made.
pub trait Scratch: Send + Drop + Sized {
    /// A scratch on which no task was performed.
    fn fresh(alloc: Global) -> Result<Self, NoMemory>;
}

/// A job of a crew.
pub trait Task: Sync {
    type Work: Scratch;

    /// What performing the task leaves, whatever the scratch held before.
    ghost leaves: { Self → Self.Work → Type 0 };

    /// Does the job, and leaves what it made in the scratch.
    fn perform(&self, scratch: &mut Self::Work)
        ensures { leaves self.now scratch.new };
}
