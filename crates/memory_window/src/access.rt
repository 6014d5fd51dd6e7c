//! What keeps an access to memory from being made.
use thiserror::Error;

/// Why an access is refused: the first fault that it has, in this order.
#[derive(Clone, Copy, Debug, PartialEq, Eq, Error)]
pub enum AccessFault {
    #[error("the range does not lie in one region")]
    Outside,
    #[error("the address or the length is no multiple of the unit")]
    Unaligned,
    #[error("the region is not reached in units of this size")]
    WrongSize,
    #[error("the region is protected")]
    Protected,
}
