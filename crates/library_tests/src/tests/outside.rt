//! Real files, and writers that are full or refuse a flush.

use fsw_outside::{Failed, FileShelf, MemShelf, MemSink, Shelf, Sink, StdSink};
use std::alloc::Global;
use std::fs;
use std::io::{self, ErrorKind, Write};
use std::process::Abort;
use std::test::Fail;

/// Opens a file, and reads these bytes and its end.
fn check_file(rt: &impl Abort, shelf: &mut impl Shelf, name: &str, bytes: &[u8]) {
    let mut buf = [0u8; 16];
    if shelf.open(name) != Ok(()) {
        panic!(rt; "{name} can't be opened");
    }
    assert_eq!(rt; shelf.next(&mut buf), Ok(bytes.len()));
    assert!(rt; buf.starts_with(bytes));
}

#[test]
fn file_shelf_reads_the_named_file(rt: HostRuntime) -> Result<(), Fail> {
    fs::write(&rt, "outside.txt", "seven\n")?;
    fs::write(&rt, "outside.tyt", "eight.\n")?;
    fs::write(&rt, "outside.txt ", "ninth..\n")?;
    let mut shelf = FileShelf::new(&rt);
    assert_eq!(rt; shelf.open("missing.txt"), Err(Failed));
    check_file(&rt, &mut shelf, "outside.txt", b"seven\n");
    check_file(&rt, &mut shelf, "outside.tyt", b"eight.\n");
    check_file(&rt, &mut shelf, "outside.txt ", b"ninth..\n");
    fs::remove_file(&rt, "outside.txt")?;
    fs::remove_file(&rt, "outside.tyt")?;
    fs::remove_file(&rt, "outside.txt ")?;
    Ok(())
}

/// With ample memory a shelf takes a file and hands it out, and a sink takes what it is given.
#[test]
fn memory_suffices(rt: HostRuntime) -> Result<(), Fail> {
    let alloc: Global = rt.alloc();
    let mut shelf = MemShelf::new(alloc, &[])?;
    assert_eq!(rt; shelf.put("a", b"one"), Ok(()));
    check_file(&rt, &mut shelf, "a", b"one");
    let mut short = MemShelf::short(alloc, &[], 3)?;
    assert_eq!(rt; short.put("a", b"two"), Ok(()));
    check_file(&rt, &mut short, "a", b"two");
    let mut sink = MemSink::new(alloc, &[], 4)?;
    assert_eq!(rt; sink.write(b"abc"), Ok(3));
    let mut short = MemSink::short(alloc, &[], 4, 1)?;
    assert_eq!(rt; short.write(b"abc"), Ok(1));
    Ok(())
}

#[test]
fn std_sink_fails_where_its_writer_is_full(rt: HostRuntime) {
    let mut bytes = [0u8; 3];
    let mut sink = StdSink::new(&mut bytes[..]);
    assert_eq!(rt; sink.write(b"ab"), Ok(2));
    assert_eq!(rt; sink.write(b"cd"), Ok(1));
    assert_eq!(rt; sink.write(b"d"), Err(Failed));
}

/// A writer that takes each piece whole, counts its flushes, and refuses the flush of this number, counted from 0.
#[derive(Drop)]
struct Flushed {
    flushes: u32,
    refused: u32,
    pieces: u32,
}

impl Write for Flushed {
    fn write(&mut self, buf: &[u8]) -> io::Result<usize> {
        self.pieces = self.pieces.saturating_add(1);
        Ok(buf.len())
    }

    fn flush(&mut self) -> io::Result<()> {
        let refused = self.flushes == self.refused;
        self.flushes = self.flushes.saturating_add(1);
        if refused {
            return Err(io::Error::from(ErrorKind::BrokenPipe));
        }
        Ok(())
    }
}

/// A piece is flushed before the next one, and fails where its flush is refused, be it the first.
#[test]
fn std_sink_flushes_behind_each_piece(rt: HostRuntime) {
    for refused in 0..3 {
        let mut writer = Flushed {
            flushes: 0,
            refused,
            pieces: 0,
        };
        for piece in 0..3 {
            let mut sink = StdSink::new(&mut writer);
            let wanted = if piece == refused { Err(Failed) } else { Ok(2) };
            assert_eq!(rt; sink.write(b"ab"), wanted);
            assert_eq!(rt; (writer.pieces, writer.flushes), (piece + 1, piece + 1));
        }
    }
}
