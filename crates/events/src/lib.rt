//! Events and refusals in words: what each number means, by application.
#![tactic(auto)]

mod decimal;
mod event;
mod event_rows;
pub mod laws;
mod refusal;
mod refusal_rows;

pub use event::{Event, EventKind, find_event, show_event};
pub use event_rows::events;
pub use refusal::{Refusal, find_reason, show_refusal};
pub use refusal_rows::refusals;
