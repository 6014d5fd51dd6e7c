//! What operators' tools are made of: logs that are told in words as they come, and what they hold in all.
#![tactic(auto)]

mod application;
mod frame_tellers;
mod log_teller;
mod scenario_tellers;
mod survey;
mod told_log;
mod told_pieces;

pub use application::{EventHead, application_of, event_head};
pub use frame_tellers::FrameTeller;
pub use log_teller::{LogTeller, Told};
pub use scenario_tellers::ScenarioTeller;
pub use survey::{Notable, NotableCount, Sender, Survey, pipe_name};
pub use told_log::{ToldLog, Trouble};
