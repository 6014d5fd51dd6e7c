//! What the verbs of groundkit read and write: files and standard streams by the names that the words give, and how a verb ends.
#![tactic(auto)]

mod input_files;
mod memory_files;
mod output_files;
mod part_files;
mod stream_names;
mod system_files;
mod verb_status;
mod workspaces;

pub use input_files::{Source, open_source, read_input};
pub use memory_files::MemoryFiles;
pub use output_files::{put_output, replaces, tell_replaced};
pub use stream_names::{input_name, is_stream, output_name};
pub use system_files::{SystemDraft, SystemFiles};
pub use verb_status::{
    Fault, Status, status_made, status_of, tell_fault, tell_no_memory, tell_unread, tell_unwritten,
};
pub use workspaces::Workspace;
