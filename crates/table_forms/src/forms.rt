//! What texts are read by.

use crate::layouts::Layouts;
use telecommands::Command;

/// What the text of a file is read and shown by: the telecommands, the layouts of tables, and what times such as `+0:01:00` are counted
/// from, where there is one.
#[derive(Clone, Copy, Debug)]
pub struct TextForms<'a> {
    pub epoch: Option<u32>,
    pub commands: &'a [Command],
    pub layouts: &'a Layouts,
}
