//! Why a line is no row.

use std::alloc::AllocError;
use thiserror::Error;

/// What is wrong with a word, or what is wanted in its place.
#[derive(Clone, Copy, Debug, PartialEq, Eq, Error)]
pub enum Reason {
    /// The line ends before the word.
    #[error("a word is missing")]
    Missing,
    /// The row's fields end before the word.
    #[error("there is a word too many")]
    Extra,
    /// The word doesn't begin with the field's key and `=`.
    #[error("another key is wanted")]
    Key,
    #[error("the value is no number from 0 to 255")]
    Number8,
    #[error("the value is no number from 0 to 65535")]
    Number16,
    #[error("the value is no number from 0 to 4294967295")]
    Number32,
    #[error("the value is neither one of the field's words nor a number that fits it")]
    Choice,
    #[error("the value is neither `none` nor a list of rising numbers of bits")]
    Mask,
    #[error("the value is neither a number of seconds nor +H:MM:SS behind an epoch")]
    Time,
    #[error("the value is no name of 1 to 19 letters, digits and underscores")]
    Name,
    #[error("the value isn't made of pairs of hexadecimal digits")]
    Block,
    #[error("the value is no list of 1 to 16 steps of an expression")]
    Expression,
}

/// The first fault of a line: which word, counted from 1, and why.
#[derive(Clone, Copy, Debug, PartialEq, Eq, Error)]
#[error("word {word}: {reason}")]
pub struct RowFault {
    pub word: usize,
    pub reason: Reason,
}

/// Why a line wasn't read.
#[derive(Clone, Copy, Debug, PartialEq, Eq, Error)]
pub enum ReadError {
    #[error("out of memory")]
    Memory(AllocError),
    #[error("{0}")]
    Row(RowFault),
}

/// Why a word wasn't read.
#[derive(Clone, Copy, Debug, PartialEq, Eq)]
pub(crate) enum Refusal {
    Memory(AllocError),
    Because(Reason),
}
