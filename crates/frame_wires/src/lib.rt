//! What a frame does with lists of items: sequence counts, pipes and lines; and with upsets.
#![tactic(auto)]

mod sending;

pub use sending::{deliver_lists, has_reset, put_frame, stamp_all, take_unless, upset_all};
