//! What the applications make of telemetry and events: laws that tie the dictionary of telemetry and the table of events to what each
//! application gives.
#![tactic(auto)]

pub mod cs;
pub mod event_making;
pub mod hs;
pub mod lc;
pub mod md;
pub mod mm;
pub mod sc;
