//! Rehearses cases over the call that the program `vigil` makes, and tells those that don't give what is wanted.
//!
//! A line of standard input is a case's name and its words, with one blank between two. The folder of that name has
//! the case's files and `wanted`: the log, the line on standard error, and a last line with the status.
#![tactic(auto)]

use fsw_outside::{FileShelf, MemSink, NoMemory, OpenGate};
use rehearsal::{Words, vigil_with};
use std::alloc::Global;
use std::fs;
use std::io::{self, ErrorKind};
use std::process::ExitCode;
use std::rt::Files;
use std::thread::Threads;
use subjects::own_subjects;

/// How many bytes the longest log has at most.
const LOG_ROOM: u32 = 2_000_000;

/// How many bytes a line on standard error has at most.
const LINE_ROOM: u32 = 256;

/// What a rehearsal gives that asks for no number of workers is wanted with as many workers as these as well.
const CREW: &str = "--workers 3";

/// Standard input and output know one error of memory.
fn out_of_memory(_: NoMemory) -> io::Error {
    io::Error::from(ErrorKind::OutOfMemory)
}

/// The words behind a case's name.
fn words_of(alloc: Global, case: &str) -> Result<Words, NoMemory> {
    let mut words = Words::open(alloc)?;
    for word in case.split(' ').skip(1) {
        words.add(word)?;
    }
    Ok(words)
}

/// What a rehearsal writes: the log, the line on standard error, and the status.
fn rehearse<R: Threads + Sync + Files + AllocGlobal>(
    rt: &R,
    words: &Words,
) -> Result<String, NoMemory> {
    let alloc = rt.alloc();
    let subjects = own_subjects(alloc)?;
    let mut shelf = FileShelf::new(rt);
    let mut out = MemSink::new(alloc, &[], LOG_ROOM)?;
    let mut err = MemSink::new(alloc, &[], LINE_ROOM)?;
    let report = vigil_with(
        rt, alloc, words, subjects, &mut shelf, &mut out, &mut err, &OpenGate,
    );
    let log = std::str::from_utf8(out.bytes()).unwrap_or("the log is no text\n");
    let line = std::str::from_utf8(err.bytes()).unwrap_or("the line is no text\n");
    let status = report.status as u8;
    Ok(format!(in alloc; "{log}{line}status {status}\n")?)
}

/// Tells the first line in which what was written isn't what is wanted. Lines are cut, since `rt ci` shows little of it.
fn tell_difference<R: Eprint>(rt: &R, case: &str, wanted: &str, written: &str) -> io::Result<()> {
    let mut due = wanted.lines();
    for (before, line) in written.lines().enumerate() {
        let wanted = due.next().unwrap_or("nothing");
        if line != wanted {
            let place = before.saturating_add(1);
            eprintln!(rt;
                "{case}, line {place}\n  wanted:  {wanted:.120}\n  written: {line:.120}"
            )?;
            return Ok(());
        }
    }
    let missing = due.next().unwrap_or("another end of a line");
    eprintln!(rt; "{case}: more is wanted\n  wanted:  {missing:.120}")
}

/// Whether a case gives what its folder wants. A folder without `wanted` wants what no rehearsal gives.
fn is_as_wanted<R: Threads + Sync + Files + Eprint + AllocGlobal>(
    rt: &R,
    case: &str,
) -> io::Result<bool> {
    let alloc = rt.alloc();
    let name = case.split(' ').next().unwrap_or("");
    let path = format!(in alloc; "{name}/wanted")?;
    let wanted = match fs::read_to_string(rt, path.as_str()) {
        Ok(text) => text,
        Err(_) => String::new(alloc),
    };
    let words = words_of(alloc, case).map_err(out_of_memory)?;
    let written = rehearse(rt, &words).map_err(out_of_memory)?;
    let same = written.as_str() == wanted.as_str();
    if !same {
        tell_difference(rt, case, wanted.as_str(), written.as_str())?;
    }
    Ok(same)
}

/// Whether a case gives what is wanted as it stands, and with more workers where it asks for no number of them.
fn holds<R: Threads + Sync + Files + Eprint + AllocGlobal>(rt: &R, case: &str) -> io::Result<bool> {
    let alone = is_as_wanted(rt, case)?;
    match case.split_once(' ') {
        Some((name, words)) if alone && !words.contains("--workers") => {
            let crewed = format!(in rt.alloc(); "{name} {CREW} {words}")?;
            is_as_wanted(rt, crewed.as_str())
        }
        _ => Ok(alone),
    }
}

fn main(rt: HostRuntime) -> io::Result<ExitCode> {
    let mut cases = 0u64;
    let mut wrong = 0u64;
    for case in rt.lines(rt.alloc()) {
        let case = case?;
        cases = cases.saturating_add(1);
        if !holds(&rt, case.as_str())? {
            wrong = wrong.saturating_add(1);
        }
    }
    println!(rt; "{cases} cases, {wrong} not as wanted")?;
    Ok(ExitCode::from((wrong > 0) as u8))
}
