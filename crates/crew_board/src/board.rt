//! The claim board: one word, the number of the next job. Workers draw from it by one fetch-and-add.

use atomic_table::{Join, Play, Seat, Shared, Split, Table, TableRule};
use std::alloc::Global;
use std::collections::LinkedList;

/// What a seat at the board knows. No value of it is made.
pub(crate) struct View {
    /// It is the first seat's, from which the others were split off.
    pub(crate) first: bool,
    /// How many seats it split off.
    pub(crate) split: u64,
    /// The lists of drawn numbers that it has.
    pub(crate) lists: LinkedList<LinkedList<u64>>,
}

/// What is true of the board between any two steps on it. It is told the number of jobs.
pub(crate) struct ClaimRule;

impl TableRule<u8, View, u64> for ClaimRule {
    ghost use Rattle.crew_board.specs.Board.{Keeps, started};

    ghost holds = { Keeps };

    ghost first = { λ _. started };
}

/// A worker draws the next number.
pub(crate) struct Draw;

impl Play<u8, View> for Draw {
    ghost use Rattle.crew_board.specs.Board.{DrawsOne};

    ghost then = { λ _ before found after. DrawsOne before found after };
}

/// A worker's seat is split off the first one.
pub(crate) struct SplitOff;

impl Split<View> for SplitOff {
    ghost use Rattle.crew_board.specs.Board.{split_once_more, seated};

    ghost left = { split_once_more };

    ghost right = { λ _. seated };
}

/// A worker's seat is joined into the first one.
pub(crate) struct JoinIn;

impl Join<View> for JoinIn {
    ghost use Rattle.crew_board.specs.Board.{joined, spent_view};

    ghost both = { joined };

    ghost spent = { spent_view };
}

/// The board with its memory.
pub(crate) type Board = Table<u8, View, u64, ClaimRule, Global>;

/// The board as workers see it.
pub(crate) type Word = Shared<u8, View, u64, ClaimRule>;

/// A seat at the board.
pub(crate) type Seated = Seat<u8, View>;
