//! The lines of the log, the sequence counts, and the writing of a whole text.
#![tactic(auto)]

mod block;
mod counts;
pub mod laws;
mod line_ends;
mod line_texts;
mod lines;
mod summary;
mod writing;
mod written;

pub use block::{BLOCK_BYTES, BLOCK_ENDS, Block};
pub use counts::Log;
pub use line_texts::{Line, drop_line, line_of, request_line};
pub use lines::{HEAD_BYTES, Head, LineBuffer, head_of, write_drop, write_item};
pub use summary::{Summary, SummaryText};
pub use writing::{put_bytes, put_text};
