//! How far a plan has come.

/// How far a plan has come.
#[derive(Clone, Copy, Debug, PartialEq, Eq)]
pub(crate) enum Stage {
    /// Nothing was said.
    Opening,
    /// Behind `epoch N` and before `start`.
    Header(u32),
    /// Behind `start`.
    Frames(Course),
    /// Behind `end`.
    Ended,
}

/// The frame that has come.
#[derive(Clone, Copy, Debug, PartialEq, Eq)]
pub(crate) struct Course {
    /// The second of frame 0.
    pub(crate) epoch: u32,
    /// The frame's number, at most 100,000.
    pub(crate) frame: u32,
    /// How many items the frame has, at most 64.
    pub(crate) items: u32,
}
