//! What books are read by.
ghost use Rattle.std.specs.Prelude.{◌≡◌, true, map};
ghost use Rattle.telecommands.specs.Commands.{are_good};
ghost use Rattle.telecommands.specs.Dictionary.{placed, dictionary};
ghost use Rattle.table_forms.specs.Layouts.{are_layouts, placed as placed_layouts, all_layouts};
ghost use Rattle.load_texts.specs.Headers.{is_header, placed_field, all_fields};

use load_texts::header_fields;
use row_forms::Field;
use table_forms::{Layouts, table_layouts};
use telecommands::{Command, commands};

/// What a book's parts are read by: the telecommands, the layouts of tables, and the fields of a load's headers.
#[derive(Clone, Copy, Debug)]
pub struct BookForms<'a> {
    pub commands: &'a [Command],
    pub layouts: &'a Layouts,
    pub fields: &'a [Field],
}

/// The telecommands of docs/COMMANDS.md, and the layouts of docs/FILES.md.
pub fn book_forms() -> BookForms<'static>
    ensures listed_commands { map placed result.commands.now ≡ dictionary }
    ensures listed_layouts { placed_layouts result.layouts.now ≡ all_layouts }
    ensures listed_fields { map placed_field result.fields.now ≡ all_fields }
    ensures commands { are_good result.commands.now ≡ true }
    ensures layouts { are_layouts result.layouts.now ≡ true }
    ensures fields { is_header result.fields.now ≡ true }
{
    BookForms {
        commands: commands(),
        layouts: table_layouts(),
        fields: header_fields(),
    }
}
