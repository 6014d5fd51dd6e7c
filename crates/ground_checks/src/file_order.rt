//! Files in the order in which they are given: which one of a table is in force, and how `activate` and Memory Manager count them.

ghost use Rattle.std.specs.Prelude.{OnOk};
ghost use Rattle.ground_checks.specs.Checked.{StaysTold};

use std::io::{self, Write};
use table_files::TableKind;

/// What a file holds, as far as its headers say it.
#[derive(Clone, Copy, Debug, PartialEq, Eq)]
pub(crate) enum Holding {
    Table(TableKind),
    Load,
    Unknown,
}

/// A file that was looked at.
#[derive(Drop)]
pub(crate) struct SeenFile<'a> {
    pub path: &'a str,
    /// The path behind symbolic links, where there is one.
    pub place: String,
    pub holding: Holding,
    /// The table's name.
    pub name: String,
    pub is_taken: bool,
}

impl<'a> SeenFile<'a> {
    /// Whether it is the file of another path too.
    fn is_same(&self, other: &SeenFile<'_>) -> bool {
        self.place.as_str() == other.place.as_str()
    }

    /// Whether it holds the table of another file.
    fn has_table_of(&self, other: &SeenFile<'_>) -> bool {
        matches!(self.holding, Holding::Table(_)) && self.holding == other.holding
    }

    /// Whether its table can't become active in a run.
    fn is_fixed(&self) -> bool {
        matches!(
            self.holding,
            Holding::Table(TableKind::MsgActs | TableKind::Wdt | TableKind::Adt)
        )
    }
}

/// The first of the files that holds the table of this one.
fn first_of_table<'a, 'b>(
    files: &'b [SeenFile<'a>],
    file: &SeenFile<'_>,
) -> Option<&'b SeenFile<'a>> {
    for other in files {
        if other.has_table_of(file) {
            return Some(other);
        }
    }
    None
}

/// Whether a file is among others.
fn is_among(files: &[SeenFile<'_>], file: &SeenFile<'_>) -> bool {
    for other in files {
        if other.is_same(file) {
            return true;
        }
    }
    false
}

/// Warns, under its title, of a file whose table an earlier file has. Of a file that is given again that is told.
pub(crate) fn warn_of_place<R: Eprint>(
    rt: &R,
    title: &str,
    before: &[SeenFile<'_>],
    file: &SeenFile<'_>,
) {
    if is_among(before, file) {
        return;
    }
    let Some(first) = first_of_table(before, file) else {
        return;
    };
    let other = first.path;
    let _told = if file.is_fixed() {
        eprintln!(rt;
            "{title}: warning: {other} has the same table and is in force; this one is never used"
        )
    } else {
        eprintln!(rt;
            "{title}: warning: {other} has the same table and is in force; this one stands by"
        )
    };
}

/// What is told behind the path of a file.
fn standing<'a>(before: &[SeenFile<'_>], file: &SeenFile<'a>) -> &'static str {
    if !file.is_taken {
        return " isn't taken";
    }
    match first_of_table(before, file) {
        Some(_) if file.is_fixed() => " is never used",
        Some(_) => " stands by",
        None => "",
    }
}

/// Tells a file by its numbers.
fn tell_place<O: Write>(
    out: &mut O,
    before: &[SeenFile<'_>],
    file: &SeenFile<'_>,
    number: usize,
    load: u32,
) -> io::Result<()>
    ensures { OnOk result (StaysTold (O.contents out.old) (O.contents out.new)) }
{
    let (path, name) = (file.path, file.name.as_str());
    let standing = standing(before, file);
    match file.holding {
        Holding::Table(_) => writeln!(out, "{number} {path} {name}{standing}"),
        Holding::Load => writeln!(out, "{number} {path} load {load}{standing}"),
        Holding::Unknown => writeln!(out, "{number} {path}{standing}"),
    }
}

/// Tells how `activate` counts the files and how `mm.load_file` counts the loads, a line a file.
pub(crate) fn tell_order<O: Write>(out: &mut O, files: &[SeenFile<'_>]) -> io::Result<()>
    ensures { OnOk result (StaysTold (O.contents out.old) (O.contents out.new)) }
{
    let mut loads: u32 = 0;
    'files: for place in 0..files.len() {
        let file = &files[place];
        if file.holding == Holding::Load {
            loads = loads.saturating_add(1);
        }
        tell_place(out, &files[..place], file, place + 1, loads)?;
    }
    Ok(())
}
