//! What is told of refused files and texts: their headers, all refused entries of a table, the line of the text or the book where each stands, and what
//! is wanted there.
#![tactic(auto)]

mod book_entries;
mod book_parts;
mod command_details;
mod entry_details;
mod entry_faults;
mod expression_details;
mod file_kinds;
mod header_maps;
mod headers;
mod hints;
mod line_causes;
mod line_ends;
mod line_words;
mod memory_reads;
mod number_causes;
mod other_texts;
mod packet_causes;
mod plan_causes;
mod region_faults;
mod said_entries;
mod said_raws;
mod telling;
mod wanted;
mod word_causes;

pub use book_entries::{tell_book, tell_book_fault};
pub use book_parts::{PartText, part_texts};
pub use entry_faults::{PAYLOAD, blank_entry, clear_faults};
pub use file_kinds::{WantedText, tell_kind};
pub use header_maps::{MapFault, UNENDED, scenario_map};
pub use headers::{tell_headers, tell_long};
pub use hints::{hint_in_book, hint_in_load, hint_in_plan, hint_in_scenario, hint_in_table};
pub use line_causes::{LineCause, line_cause};
pub use line_ends::tell_line_ends;
pub use memory_reads::tell_read;
pub use region_faults::RegionFault;
pub use telling::{tell_entries, tell_entry, tell_said};
pub use wanted::{ChoiceList, Hint, Wanted, packet_words};
