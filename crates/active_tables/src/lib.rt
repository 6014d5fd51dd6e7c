//! The tables that are active, by the files that name them.
#![tactic(auto)]

mod giving;
mod loading;
mod tables;
mod watching;

pub use giving::{EntryPlace, OpenFault, refused_place};
pub use loading::TablesFault;
pub use tables::Tables;
pub use watching::names_limit_checker;
