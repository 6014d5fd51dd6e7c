//! Telemetry in words, and the packets that it is.
#![tactic(auto)]

mod content;
mod dictionary;
mod fault;
pub mod laws;
mod reading;
mod row;
mod showing;

pub use dictionary::telemetry_rows;
pub use fault::{ReadError, TelemetryFault};
pub use reading::read_telemetry;
pub use row::TelemetryRow;
pub use showing::show_telemetry;
