//! Rehearsals over memory, and the log that one must write.

use fsw_outside::{Gate, MemShelf, MemSink, NoMemory, OpenGate};
use rehearsal::{Report, Status, Words, vigil};
use std::alloc::{AllocError, Global};
use std::process::Abort;
use std::test::Fail;
use std::thread::Threads;

/// The header of most scenarios.
pub const HEADER: &str = "epoch 1000\nregion RAM 0x1000 256\nstart\n";

/// One no-op of MM, which is answered in the second frame.
pub const NOOP: &str =
    "epoch 1000\nregion RAM 0x1000 256\nstart\nsend 1888C000000100AE\ntick\ntick\nend\n";

/// How many bytes an output has room for.
const ROOM: u32 = 16_000_000;

/// Which calls of the outside fail, counted from 0, and how many bytes a call moves at most.
#[derive(Clone, Copy)]
pub struct Outside<'a> {
    pub shelf: &'a [u32],
    pub out: &'a [u32],
    pub err: &'a [u32],
    pub most: u32,
}

/// An outside that never fails.
pub const HONEST: Outside<'static> = Outside {
    shelf: &[],
    out: &[],
    err: &[],
    most: 4096,
};

/// What a rehearsal gave.
#[derive(Drop)]
pub struct Ran {
    pub report: Report,
    pub out: MemSink,
    pub err: MemSink,
}

/// These words, as the program takes them.
pub fn words_of(alloc: Global, words: &[&str]) -> Result<Words, NoMemory> {
    let mut given = Words::open(alloc)?;
    for word in words.iter() {
        given.add(word)?;
    }
    Ok(given)
}

/// Runs these words over a shelf whose one file `s` is this text.
pub fn run<R: Threads + Sync + AllocGlobal>(
    rt: &R,
    words: &[&str],
    text: &str,
    outside: &Outside<'_>,
) -> Result<Ran, NoMemory> {
    run_beside(rt, words, text, &[], outside)
}

/// Runs these words over a shelf whose file `s` is this text, and whose files `a` to `f` are the first six of these.
pub fn run_beside<R: Threads + Sync + AllocGlobal>(
    rt: &R,
    words: &[&str],
    text: &str,
    files: &[&[u8]],
    outside: &Outside<'_>,
) -> Result<Ran, NoMemory> {
    run_through(rt, words, text, files, outside, &OpenGate)
}

/// The file of this place, from 0, and an empty one where there is none.
fn nth<'a>(files: &[&'a [u8]], place: usize) -> &'a [u8] {
    match files.get(place) {
        Some(file) => *file,
        None => b"",
    }
}

/// A shelf whose file `s` is this text, and whose files `a` to `f` are the first six of these.
pub fn shelf_of(
    alloc: Global,
    text: &str,
    files: &[&[u8]],
    outside: &Outside<'_>,
) -> Result<MemShelf, NoMemory> {
    let mut shelf = MemShelf::short(alloc, outside.shelf, outside.most.max(1))?;
    shelf.put("s", text.as_bytes())?;
    shelf.put("a", nth(files, 0))?;
    shelf.put("b", nth(files, 1))?;
    shelf.put("c", nth(files, 2))?;
    shelf.put("d", nth(files, 3))?;
    shelf.put("e", nth(files, 4))?;
    shelf.put("f", nth(files, 5))?;
    Ok(shelf)
}

/// Runs these words over such a shelf, where each job and each bank goes through this gate.
pub fn run_through<R: Threads + Sync + AllocGlobal, G: Gate>(
    rt: &R,
    words: &[&str],
    text: &str,
    files: &[&[u8]],
    outside: &Outside<'_>,
    gate: &G,
) -> Result<Ran, NoMemory> {
    let alloc = rt.alloc();
    let most = outside.most.max(1);
    let given = words_of(alloc, words)?;
    let mut shelf = shelf_of(alloc, text, files, outside)?;
    let mut out = MemSink::short(alloc, outside.out, ROOM, most)?;
    let mut err = MemSink::short(alloc, outside.err, 256, most)?;
    let report = vigil(rt, alloc, &given, &mut shelf, &mut out, &mut err, gate);
    Ok(Ran { report, out, err })
}

/// A line that a rehearsal must write.
#[derive(Clone, Copy)]
pub enum Line<'a> {
    /// An event: its application, the frame, the sequence count, the event's number and its type.
    Event(&'a str, u32, u32, u32, u32),
    /// Another line, without its end.
    Text(&'a str),
}

/// Appends an event's line, where the time of frame 0 is 1000.
fn push_event(
    log: &mut String,
    name: &str,
    frame: u32,
    count: u32,
    id: u32,
    kind: u32,
) -> Result<(), AllocError> {
    let flags = 49152 + count % 16384;
    let time = frame.saturating_add(1000);
    write!(log, "{frame} pkt 0808{flags:04X}0025{time:08X}0000")?;
    for byte in name.bytes() {
        write!(log, "{byte:02X}")?;
    }
    for _ in name.len()..20 {
        write!(log, "00")?;
    }
    write!(log, "{id:04X}{kind:04X}0000004200000001\n")
}

/// The log that has these lines.
pub fn log_of(alloc: Global, lines: &[Line<'_>]) -> Result<String, AllocError> {
    let mut log = String::new(alloc);
    for line in lines.iter() {
        match *line {
            Line::Event(name, frame, count, id, kind) => {
                push_event(&mut log, name, frame, count, id, kind)?;
            }
            Line::Text(text) => write!(log, "{text}\n")?,
        }
    }
    Ok(log)
}

/// Asserts that what was written is this text.
pub fn assert_text<R: Abort>(rt: &R, name: &str, written: &[u8], text: &str) {
    let same = written == text.as_bytes();
    let shown = std::str::from_utf8(written).unwrap_or("no text");
    assert!(rt; same, "{name} wrote:\n{shown}and not:\n{text}");
}
