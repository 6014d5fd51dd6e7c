//! How far a plan has come.

use crate::heading::Heading;
use calendar_dates::Epoch;

/// How far a plan has come.
#[derive(Clone, Copy, Debug, PartialEq, Eq)]
pub(crate) enum Stage {
    /// Nothing was said.
    Opening,
    /// Behind `epoch` and before `start`.
    Header(Epoch),
    /// Behind `start`.
    Frames(Course),
    /// Behind `end`: how many frames there are, and the number of that line.
    Ended(u32, u32),
}

/// The heading below which the plan has come.
#[derive(Clone, Copy, Debug, PartialEq, Eq)]
pub(crate) struct Course {
    /// The second of frame 0, and its date where there is one.
    pub(crate) epoch: Epoch,
    /// Where the next lines stand.
    pub(crate) heading: Heading,
    /// How many frames the lines so far take.
    pub(crate) frames: u32,
    /// How many lines of frames there are.
    pub(crate) items: u32,
}
