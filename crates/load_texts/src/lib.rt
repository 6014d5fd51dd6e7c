//! Files to be loaded as text: an address, bytes in hexadecimal digits or from a named file, and the headers.
#![tactic(auto)]

mod addresses;
mod fault;
mod headers;
pub mod laws;
mod loaded;
mod reading;
mod showing;

pub use fault::{LoadFault, ReadError};
pub use headers::header_fields;
pub use loaded::{NamedFile, asked_file};
pub use reading::{is_load_text, read_load};
pub use showing::show_load;
