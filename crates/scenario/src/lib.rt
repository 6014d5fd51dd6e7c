//! The text of a scenario: its lines, and the header and frames that they give.
#![tactic(auto)]

mod digit_lanes;
mod digit_pairs;
mod drill;
mod frame;
mod item;
pub mod laws;
mod line_buffer;
mod progress;
mod reader;
mod reason;
mod regions;
mod send_list;
mod sentence;
mod words;

pub use drill::Drill;
pub use frame::{App, FrameInput, Upset};
pub use item::Item;
pub use progress::Header;
pub use reader::Reader;
pub use reason::Reason;
pub use words::digits;
