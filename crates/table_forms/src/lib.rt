//! Files of tables as text: the layouts of all kinds of tables, and whole files both ways.
#![tactic(auto)]

mod fault;
mod fields;
mod forms;
mod headers;
mod judging;
pub mod laws;
mod layouts;
mod names;
mod payloads;
mod reading;
mod showing;

pub use fault::{ReadError, TableFault};
pub use forms::TextForms;
pub use judging::find_refusal;
pub use layouts::{Layouts, PayloadForm, table_layouts};
pub use names::table_kind;
pub use reading::read_table;
pub use showing::show_table;
