//! What a log is made into: sentences, rows of comma-separated fields, a capture of its packets.
#![tactic(auto)]

mod captures;
mod csv_rows;
mod exporting;
mod row_cells;

pub use captures::write_capture;
pub use csv_rows::write_rows;
pub use exporting::{Export, Exported, export_log};
