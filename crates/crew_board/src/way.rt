//! How a crew went about its jobs.

/// How a crew went about its jobs.
#[derive(Clone, Copy, Debug, PartialEq, Eq)]
pub enum Way {
    /// The workers drew them from the claim board; where only one can get a job, it took them in order.
    Shared,
    /// There was no memory for a board: the caller did every job in order.
    Alone,
}
