//! That a book is read where there is memory, and why books are refused: a call that gave up for want of it would be proved too.
use load_books::{
    BookError, BookFault, BookReason, book_forms, book_manifest, is_book_text, read_book,
};
use std::alloc::Global;
use std::test::Fail;

/// A table, a load that the plan names, and a table that stands by.
const BOOK: &[u8] = b"# A load.\n\
        book night-1\n\
        \n\
        part table dwell\n\
        table MD.DWELL_TABLE1\n\
        head enabled=1 spare=0\n\
        1 length=1 delay=2 address=0x1000\n\
        end\n\
        part load patch\n\
        load address=0x1004\n\
        bytes 01020304\n\
        end\n\
        part table standby\n\
        table MD.DWELL_TABLE1\n\
        head enabled=1 spare=0\n\
        1 length=4 delay=1 address=0x1004\n\
        end\n\
        part plan\n\
        epoch 1000\n\
        region RAM 0x1000 256\n\
        start\n\
        # activate nothing yet\n\
        send  mm.load_file load=patch\n\
        tick\n\
        activate standby\n\
        end at +0:00:03\n";

const SCENARIO: &[u8] = b"epoch 1000\n\
        region RAM 0x1000 256\n\
        start\n\
        send 1888C000000305A80001\n\
        tick\n\
        activate 3\n\
        tick\n\
        tick\n\
        end\n";

/// Its CRCs were computed by another program.
const MANIFEST: &[u8] = b"table dwell 320 A232\n\
        load patch 84 0FB5\n\
        table standby 320 A4F0\n\
        scenario night-1 95 561B\n";

#[test]
fn a_book_is_read(rt: HostRuntime) -> Result<(), Fail> {
    assert!(rt; is_book_text(BOOK));
    let book = read_book(rt.alloc(), &book_forms(), BOOK)?;
    assert_eq!(rt; book.name, b"night-1".as_slice());
    assert_eq!(rt; book.scenario.as_slice(), SCENARIO);
    let manifest = book_manifest(rt.alloc(), &book)?;
    assert_eq!(rt; manifest.as_slice(), MANIFEST);
    Ok(())
}

/// The fault of a book, where it has one.
fn fault_of(alloc: Global, text: &[u8]) -> Option<BookFault> {
    if text.len() > 1000 {
        return None;
    }
    match read_book(alloc, &book_forms(), text) {
        Err(BookError::Book(fault)) => Some(fault),
        _ => None,
    }
}

#[test]
fn faults_have_the_lines_of_the_book(rt: HostRuntime) -> Result<(), Fail> {
    let alloc = rt.alloc();
    let unknown = b"book b\n\npart plan\nepoch 5\nregion RAM 0 4\nstart\nactivate night\nend\n";
    assert_eq!(rt;
        fault_of(alloc, unknown),
        Some(BookFault::Line(7, BookReason::Unknown))
    );
    let load = b"book b\npart load a\nload address=0\nbytes 00\nend\npart plan\nactivate a\n";
    assert_eq!(rt;
        fault_of(alloc, load),
        Some(BookFault::Line(7, BookReason::Activates))
    );
    let twice = b"book b\npart load a\npart load a\npart plan\n";
    assert_eq!(rt;
        fault_of(alloc, twice),
        Some(BookFault::Line(3, BookReason::Twice))
    );
    let asks = b"book b\npart load a\nload address=0\nfile=b\nend\npart plan\n";
    assert_eq!(rt;
        fault_of(alloc, asks),
        Some(BookFault::Line(4, BookReason::Asks))
    );
    let planless = b"\nbook b\npart load a\n";
    assert_eq!(rt;
        fault_of(alloc, planless),
        Some(BookFault::Line(2, BookReason::Planless))
    );
    Ok(())
}

#[test]
fn faults_of_parts_are_told_in_words(rt: HostRuntime) -> Result<(), Fail> {
    let alloc = rt.alloc();
    let table = b"book b\npart table a\n\ntable MD.DWELL_TABLE9\nend\npart plan\n";
    let Some(fault) = fault_of(alloc, table) else {
        return Ok(());
    };
    let told = format!(in alloc; "{}", fault)?;
    assert_eq!(rt;
        told.as_str(),
        "part of line 2: line 4: no table has this name"
    );
    Ok(())
}
