//! The applications in a frame: what each took, its wakeup as a job of a crew, and what it left.
#![tactic(auto)]

mod activations;
mod application;
mod busy;
mod cs_slot;
mod holds;
mod hs_slot;
mod jobs;
mod lc_slot;
mod left;
mod lists;
mod md_slot;
mod mm_slot;
mod reads;
mod sc_slot;
mod slot;
mod slots;
mod wakeups;

pub use activations::{Naming, hand_over, naming_of, tell};
pub use application::Application;
pub use cs_slot::CsSlot;
pub use holds::Holds;
pub use hs_slot::HsSlot;
pub use jobs::{jobs_of, wake_all};
pub use lc_slot::LcSlot;
pub use left::{Left, Next};
pub use lists::in_order;
pub use md_slot::MdSlot;
pub use mm_slot::MmSlot;
pub use reads::Reads;
pub use sc_slot::ScSlot;
pub use slot::{LIST_ROOM, Slot};
pub use slots::Slots;
pub use wakeups::{Job, Scene, Wakeup};
