//! Rows: words `KEY=VALUE` of a line, and the bytes that they say.
#![tactic(auto)]

mod fault;
mod field;
pub mod laws;
mod numbers;
mod parts;
mod rows;
mod values;
mod words;

pub use fault::{ReadError, Reason, RowFault};
pub use field::{Choice, Field, Kind, Spelling, Width};
pub use parts::{push_decimal, push_hex, push_zeros};
pub use rows::{behind_key, is_row, read_row, show_row};
pub use values::read_block;
pub use words::{number, split_word};
