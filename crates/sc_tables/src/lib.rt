//! The tables of Stored Command: absolute time sequences (ATS) and relative time sequences (RTS).
#![tactic(auto)]

mod absolute;
mod ats;
mod heads;
pub mod laws;
mod loading;
mod reasons;
mod relative;
mod rts;
mod sets;
mod tables;

pub use absolute::Timed;
pub use ats::Ats;
pub use loading::{load_ats, load_rts};
pub use relative::Relative;
pub use rts::Rts;
pub use sets::RtsSet;
pub use tables::ScTables;
