//! One block of bytes, taken from the allocator once. All pointers of the bench stay in this crate.
#![tactic(auto)]

mod block;
mod store;

pub use store::Store;
