//! What the program is given: its name and its words, or none; and the number that it ends with.

use crate::program::{exit_number, run_program};
use fsw_outside::{MemShelf, MemSink, OpenGate};
use rehearsal::Status;
use std::alloc::Global;
use std::env::Args;
use std::io::{self, ErrorKind};
use std::process::Abort;
use std::test::Fail;
use std::thread::Threads;

/// The texts of a list, as a runtime gives them.
fn args_of<R: AllocGlobal>(rt: &R, texts: &[&str]) -> Result<Args, Fail> {
    let mut given = Vec::new(rt.alloc());
    for text in texts.iter() {
        given.push(String::from_str(rt.alloc(), text)?)?;
    }
    Ok(given.into_iter())
}

/// Asserts that what was written is this text.
fn assert_text<R: Abort>(rt: &R, name: &str, written: &[u8], text: &str) {
    let shown = std::str::from_utf8(written).unwrap_or("no text");
    assert!(rt;
        written == text.as_bytes(),
        "{name} wrote:\n{shown}and not:\n{text}"
    );
}

/// A file of one byte to be loaded, which is 0, as its check is then.
fn load_file(alloc: Global) -> Result<Vec<u8>, Fail> {
    let mut bytes = Vec::new(alloc);
    bytes.extend_from_slice(b"cFE1\x00\x00\x00\x64")?;
    bytes.resize(64, 0)?;
    bytes.extend_from_slice(b"\x00\x00\x10\x00\x00\x00\x00\x01")?;
    bytes.resize(81, 0)?;
    Ok(bytes)
}

/// Asserts how a program ends that is given this, over a shelf whose file `s` has a header and no frame, and whose file `a` is to be
/// loaded.
fn assert_end<R: Threads + Sync + AllocGlobal + Abort>(
    rt: &R,
    given: io::Result<Args>,
    number: u8,
    told: &str,
) -> Result<(), Fail> {
    let alloc = rt.alloc();
    let mut shelf = MemShelf::new(alloc, &[])?;
    shelf.put("s", b"epoch 1000\nregion RAM 0x1000 256\nstart\nend\n")?;
    shelf.put("a", &load_file(alloc)?)?;
    let mut out = MemSink::new(alloc, &[], 256)?;
    let mut err = MemSink::new(alloc, &[], 256)?;
    let ended = run_program(rt, alloc, given, &mut shelf, &mut out, &mut err, &OpenGate);
    assert_eq!(rt; ended, number);
    assert_text(rt, "out", out.bytes(), "");
    assert_text(rt, "err", err.bytes(), told);
    Ok(())
}

#[test]
fn words_behind_the_name_are_rehearsed(rt: HostRuntime) -> Result<(), Fail> {
    let refused = "vigil: words refused\n";
    assert_end(&rt, Ok(args_of(&rt, &["vigil", "s"])?), 0, "")?;
    assert_end(&rt, Ok(args_of(&rt, &["s"])?), 1, refused)?;
    assert_end(&rt, Ok(args_of(&rt, &[])?), 1, refused)?;
    let strange = Ok(args_of(&rt, &["s", "t"])?);
    assert_end(&rt, strange, 4, "vigil: read failed on file 0\n")
}

/// The program's name, a scenario and so many FILEs, the last of which isn't there.
fn many_args<R: AllocGlobal>(rt: &R, files: u32) -> Result<Args, Fail> {
    let alloc = rt.alloc();
    let mut given = Vec::new(alloc);
    given.push(String::from_str(alloc, "vigil")?)?;
    given.push(String::from_str(alloc, "s")?)?;
    for _ in 1..files {
        given.push(String::from_str(alloc, "a")?)?;
    }
    given.push(String::from_str(alloc, "missing")?)?;
    Ok(given.into_iter())
}

/// With ample memory a scenario and up to 100 FILEs are handed on, each in its place; one FILE more is refused.
#[test]
fn memory_suffices_for_any_words(rt: HostRuntime) -> Result<(), Fail> {
    for files in 1..101u32 {
        let told = format!(in rt.alloc(); "vigil: read failed on file {files}\n")?;
        assert_end(&rt, Ok(many_args(&rt, files)?), 4, told.as_str())?;
    }
    let many = Ok(many_args(&rt, 101)?);
    assert_end(&rt, many, 1, "vigil: words refused\n")
}

#[test]
fn missing_words_are_told(rt: HostRuntime) -> Result<(), Fail> {
    let refused = "vigil: words refused\n";
    let strange = Err(io::Error::from(ErrorKind::InvalidData));
    assert_end(&rt, strange, 1, refused)?;
    let other = Err(io::Error::from(ErrorKind::Other));
    assert_end(&rt, other, 1, refused)?;
    let memory = Err(io::Error::from(ErrorKind::OutOfMemory));
    assert_end(&rt, memory, 6, "vigil: out of memory\n")
}

#[test]
fn each_end_has_its_status(rt: HostRuntime) {
    assert_eq!(rt; exit_number(Status::Done), 0);
    assert_eq!(rt; exit_number(Status::WordsRefused), 1);
    assert_eq!(rt; exit_number(Status::FileRefused), 2);
    assert_eq!(rt; exit_number(Status::ScenarioRefused), 3);
    assert_eq!(rt; exit_number(Status::ReadFailed), 4);
    assert_eq!(rt; exit_number(Status::WriteFailed), 5);
    assert_eq!(rt; exit_number(Status::NoMemory), 6);
}
