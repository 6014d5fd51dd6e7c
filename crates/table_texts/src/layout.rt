//! The layout of a table's entries.

use row_forms::Field;
use telecommands::Command;

/// How many entries a table has, how many bytes each of them has, and what these are.
#[derive(Clone, Copy, Debug)]
pub struct Layout {
    /// 1 to 65,535.
    pub count: usize,
    pub size: usize,
    pub fields: &'static [Field],
    /// How many of an entry's bytes, behind its fields, begin with a telecommand; 0 where none does.
    pub area: usize,
}

/// What the text of a table's entries is read by: its layout, the telecommands, and what times such as `+0:01:00` are counted from,
/// where there is one.
#[derive(Clone, Copy, Debug)]
pub struct TableForm<'a> {
    pub epoch: Option<u32>,
    pub commands: &'a [Command],
    pub layout: Layout,
}
