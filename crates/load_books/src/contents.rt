//! The parts of a book: its files, and its plan.
ghost use Rattle.std.specs.Prelude.{◌≡◌, ◌<◌, ◌+◌, ◌^◌, length, map, IfSome};
ghost use Rattle.row_forms.specs.Words.{words};
ghost use Rattle.load_books.specs.Cuts.{part_of, parts_from};
ghost use Rattle.load_books.specs.Contents.{loads_behind, place_of, file_text, plan_text, held_by, no_parts, file_added, plan_added, part_added, all_added, error_on, GivesPart, GivesParts};

use crate::cuts::{PartLine, cut_front};
use crate::fault::{BookError, BookFault, BookReason, LineError};
use crate::titles::{FileKind, Title, read_title};
use std::alloc::Global;

/// A file of a book: the number of the line that begins its part, and its text.
#[derive(Clone, Copy, Debug)]
pub(crate) struct FilePart<'a> {
    pub(crate) number: u32,
    pub(crate) kind: FileKind,
    pub(crate) name: &'a [u8],
    pub(crate) text: &'a [u8],
}

/// The plan of a book: the number of the line that begins its part, and its text.
#[derive(Clone, Copy, Debug)]
pub(crate) struct PlanPart<'a> {
    pub(crate) number: u32,
    pub(crate) text: &'a [u8],
}

/// The parts of a book so far.
#[derive(Debug, Drop)]
pub(crate) struct BookParts<'a> {
    pub(crate) files: Vec<FilePart<'a>>,
    pub(crate) plan: Option<PlanPart<'a>>,
}

/// Where a file stands in a book.
#[derive(Clone, Copy, Debug)]
pub(crate) struct Place {
    pub(crate) kind: FileKind,
    /// Its number among all files, from 1.
    pub(crate) file: usize,
    /// The number among loads of the next one at this place, from 1.
    pub(crate) load: usize,
}

/// The number of the next load behind a file.
fn loads_behind(kind: FileKind, load: usize) -> usize
    requires { load + 1 < 2 ^ 64 }
    ensures { result ≡ loads_behind kind load }
{
    match kind {
        FileKind::Table => load,
        FileKind::Load => load + 1,
    }
}

/// Where the file of a name stands.
pub(crate) fn find_place(files: &[FilePart<'_>], name: &[u8]) -> Option<Place>
    ensures { result ≡ place_of 1 1 name.now (map file_text files.now) }
{
    let mut file = 1;
    let mut load = 1;
    for part in files {
        if part.name == name {
            return Some(Place {
                kind: part.kind,
                file,
                load,
            });
        }
        file += 1;
        load = loads_behind(part.kind, load);
    }
    None
}

/// Adds a file whose name no earlier one has.
fn add_file<'a>(file: FilePart<'a>, parts: &mut BookParts<'a>) -> Result<(), LineError>
    ensures { GivesPart (file_added (held_by parts.old) (file_text file.entry)) parts.new result }
{
    if find_place(parts.files.as_slice(), file.name).is_some() {
        return Err(LineError::Because(BookReason::Twice));
    }
    match parts.files.push(file) {
        Ok(()) => Ok(()),
        Err(error) => Err(LineError::Memory(error.into())),
    }
}

/// Sets the plan, where there is none yet.
fn add_plan<'a>(plan: PlanPart<'a>, parts: &mut BookParts<'a>) -> Result<(), LineError>
    ensures { GivesPart (plan_added (held_by parts.old) (plan_text plan.entry)) parts.new result }
{
    if parts.plan.is_some() {
        return Err(LineError::Because(BookReason::Plans));
    }
    parts.plan = Some(plan);
    Ok(())
}

/// Adds the part that a line begins.
fn add_part<'a>(
    part: &PartLine<'a>,
    text: &'a [u8],
    parts: &mut BookParts<'a>,
) -> Result<(), LineError>
    ensures { GivesPart (part_added (held_by parts.old)
        (part_of part.now.number (words part.now.title.now) text.now)) parts.new result }
{
    let number = part.number;
    match read_title(part.title) {
        Ok(Title::File(kind, name)) => add_file(
            FilePart {
                number,
                kind,
                name,
                text,
            },
            parts,
        ),
        Ok(Title::Plan) => add_plan(PlanPart { number, text }, parts),
        Err(reason) => Err(LineError::Because(reason)),
    }
}

/// Why the line of this number wasn't read.
pub(crate) fn error_on(line: u32, error: LineError) -> BookError
    ensures { result ≡ error_on line error }
{
    match error {
        LineError::Memory(error) => BookError::Memory(error),
        LineError::Because(reason) => BookError::Book(BookFault::Line(line, reason)),
    }
}

/// All parts from the one on that a line begins.
pub(crate) fn read_parts<'a>(
    alloc: Global,
    part: Option<PartLine<'a>>,
) -> Result<BookParts<'a>, BookError>
    requires { IfSome part (λ p. p.number + 1 + length p.rest.now < 2 ^ 32) }
    ensures { GivesParts (all_added no_parts (parts_from part.entry)) result }
{
    let mut parts = BookParts {
        files: Vec::new(alloc),
        plan: None,
    };
    let mut next = part;
    'parts: while let Some(line) = next {
        let front = cut_front(line.rest, line.number + 1);
        match add_part(&line, front.text, &mut parts) {
            Ok(()) => next = front.part,
            Err(error) => return Err(error_on(line.number, error)),
        }
    }
    Ok(parts)
}
