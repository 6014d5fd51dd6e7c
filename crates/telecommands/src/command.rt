//! A command of an application.

use row_forms::Field;

/// A command: the name that it has in words, its packets' message id and code, and what its payload has.
#[derive(Clone, Copy, Debug)]
pub struct Command {
    pub name: &'static str,
    pub id: u16,
    pub code: u8,
    pub fields: &'static [Field],
}
