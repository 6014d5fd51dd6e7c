//! The memory of the bench: the map of its regions, the operations on it and the faults of an access.
#![tactic(auto)]

mod access;
mod banks;
mod change;
mod chunk;
mod giving;
mod landing;
pub mod laws;
mod operations;
mod ops;
mod ram;
mod regions;
mod window;

pub use access::AccessFault;
pub use chunk::Chunk;
pub use landing::bank_land;
pub use operations::{MemOp, is_size};
pub use ops::Ops;
pub use ram::Ram;
pub use regions::{Kind, Map, MapFault, Region, is_mapped};
pub use window::Window;
