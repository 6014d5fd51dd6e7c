//! Lines of a book by their numbers in a part.
ghost use Rattle.std.specs.Prelude.{◌≡◌};
ghost use Rattle.load_books.specs.Lines.{book_line, text_fault, table_fault, load_fault, plan_fault};

use load_texts::LoadFault;
use plan_text::PlanFault;
use table_forms::TableFault;
use table_texts::TextFault;

/// The number in the book of a part's line, where the part begins at line `part`. The largest number stands for those over it.
pub(crate) fn book_line(part: u32, line: u32) -> u32
    ensures { result ≡ book_line part line }
{
    if line > u32::MAX - part {
        return u32::MAX;
    }
    part + line
}

fn text_fault(part: u32, fault: TextFault) -> TextFault
    ensures { result ≡ text_fault part fault }
{
    TextFault {
        line: book_line(part, fault.line),
        fault: fault.fault,
    }
}

/// A fault of a table's text, by the line of the book.
pub(crate) fn table_fault(part: u32, fault: TableFault) -> TableFault
    ensures { result ≡ table_fault part fault }
{
    match fault {
        TableFault::Text(fault) => TableFault::Text(text_fault(part, fault)),
        TableFault::Table(line) => TableFault::Table(book_line(part, line)),
        TableFault::Name(line) => TableFault::Name(book_line(part, line)),
        TableFault::Description(line) => TableFault::Description(book_line(part, line)),
        TableFault::Head(line) => TableFault::Head(book_line(part, line)),
        TableFault::File(fault) => TableFault::File(fault),
        TableFault::Entry(kind, fault) => TableFault::Entry(kind, fault),
    }
}

/// A fault of a load's text, by the line of the book.
pub(crate) fn load_fault(part: u32, fault: LoadFault) -> LoadFault
    ensures { result ≡ load_fault part fault }
{
    match fault {
        LoadFault::Text(fault) => LoadFault::Text(text_fault(part, fault)),
        LoadFault::Description(line) => LoadFault::Description(book_line(part, line)),
        LoadFault::Load(line) => LoadFault::Load(book_line(part, line)),
        LoadFault::Word(line) => LoadFault::Word(book_line(part, line)),
        LoadFault::Size(size) => LoadFault::Size(size),
    }
}

/// A fault of a plan, by the line of the book.
pub(crate) fn plan_fault(part: u32, fault: PlanFault) -> PlanFault
    ensures { result ≡ plan_fault part fault }
{
    PlanFault {
        line: book_line(part, fault.line),
        reason: fault.reason,
    }
}
