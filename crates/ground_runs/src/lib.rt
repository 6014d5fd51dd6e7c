//! Rehearsals by the call that the program vigil makes, with their log in words, and why one ended.
#![tactic(auto)]

mod asked_run;
mod draft_sinks;
mod draft_tellers;
mod endings;
mod fault_tellers;
mod given_files;
mod rehearsals;
mod rehearsing;
mod run_ends;
mod running;
mod scenario_lines;
mod second_looks;
mod table_lines;
mod told_scenarios;

pub use asked_run::Run;
pub use draft_tellers::DraftTeller;
pub use endings::CauseTeller;
pub use given_files::{add_file, table_name};
pub use rehearsals::Rehearsal;
pub use rehearsing::rehearse_on;
pub use running::{run_rehearsal, run_scenario};
pub use scenario_lines::find_line;
pub use second_looks::{can_be_read_again, read_again};
