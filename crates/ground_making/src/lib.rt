//! What a file or a text is made into: tables, loads, their texts, scenarios; and the verbs that read one and write the other.
#![tactic(auto)]

mod books;
mod made_files;
mod making;
mod named_files;
mod refusing;
mod scenarios;
mod shown_files;
mod shown_times;

pub use books::is_book;
pub use made_files::{Wanted, make_one};
pub use making::{MOST_BYTES, Making, Refusal, load_of, look_at};
pub use refusing::tell_refusal;
pub use shown_files::{Shown, show_files};
