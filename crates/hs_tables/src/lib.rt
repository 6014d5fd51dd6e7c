//! The tables of Health and Safety: application monitors, event monitors, execution counters and message actions.
#![tactic(auto)]

mod actions;
mod apps;
mod counters;
mod events;
pub mod laws;
mod tables;

pub use actions::{ActEntry, ActRow, MsgActs, load_msgacts};
pub use apps::{AppEntry, AppMon, AppRow, load_appmon};
pub use counters::{CountRow, ExeCount, load_execount};
pub use events::{EventEntry, EventMon, EventRow, load_eventmon};
pub use tables::HsTables;
