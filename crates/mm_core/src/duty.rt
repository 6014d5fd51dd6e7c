//! What commands of MM change beside its counts.

/// What MM has to do beside answering: nothing, since what commands ask of memory is left to the end of the frame.
#[derive(Clone, Copy, Debug, PartialEq, Eq)]
pub(crate) struct Duty {}
