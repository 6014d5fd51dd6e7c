//! Generated scenarios: their summaries, and what their text gives from a file.

use super::runs::{HONEST, Outside, assert_text, run, run_beside};
use super::tables::{apps_file, dwell_file, events_file, load_file, rts_file, segments_file};
use packet_forms::crc16;
use rehearsal::{Report, Status};
use scenario::Drill;
use std::alloc::Global;
use std::process::Abort;
use std::test::Fail;
use std::thread::Threads;

/// What `drill:7` writes without tables.
const SUMMARY: &str = "frames 2000\nlines 2621\nbytes 226802\ncrc 7FC4\n";

/// The output takes one byte at a call, and fails at this call: at the first, beside a line's end, and at the last.
#[test]
fn summary_is_cut(rt: HostRuntime) -> Result<(), Fail> {
    for place in [0, 11, 12, 44] {
        let fails = [place];
        let failing = Outside {
            out: &fails,
            most: 1,
            ..HONEST
        };
        let ran = run(&rt, &["drill:7"], "", &failing)?;
        let written = ran.out.bytes();
        assert!(rt; written.len() == place as usize && SUMMARY.as_bytes().starts_with(written));
        assert_text(&rt, "err", ran.err.bytes(), "vigil: write failed\n");
        assert_eq!(rt; ran.report, Report::at(Status::WriteFailed, 2000));
    }
    Ok(())
}

/// The text of a generated scenario.
fn text_of(alloc: Global, k: u32) -> Result<Vec<u8>, Fail> {
    let mut drill = Drill::start(k.min(999_999));
    let mut text = Vec::new(alloc);
    let mut piece = [0; 100];
    for _ in 0..4000 {
        let count = drill.next(&mut piece);
        text.extend_from_slice(&piece[..count])?;
    }
    Ok(text)
}

/// The summary of this log.
fn summary_of(alloc: Global, log: &[u8]) -> Result<String, Fail> {
    let lines = log.iter().filter(|byte| **byte == b'\n').count();
    let bytes = log.len();
    let check = crc16(0, log);
    Ok(format!(in alloc; "frames 2000\nlines {lines}\nbytes {bytes}\ncrc {check:04X}\n")?)
}

// The words of a drill beside six files, and of its scenario from a file.
const DRILL: [&str; 7] = ["drill:7", "a", "b", "c", "d", "e", "f"];

const FILE: [&str; 7] = ["s", "a", "b", "c", "d", "e", "f"];

/// Asserts that a drill beside these files gives the summary of the log that its scenario gives from a file, and another
/// one than without tables.
fn assert_same<R: Threads + Sync + AllocGlobal + Abort>(
    rt: &R,
    files: &[&[u8]],
) -> Result<(), Fail> {
    let count = files.len().min(6) + 1;
    let text = text_of(rt.alloc(), 7)?;
    let text = std::str::from_utf8(&text).unwrap_or("no text");
    let from_file = run_beside(rt, &FILE[..count], text, files, &HONEST)?;
    assert_eq!(rt; from_file.report, Report::at(Status::Done, 2000));
    let summary = summary_of(rt.alloc(), from_file.out.bytes())?;
    let ran = run_beside(rt, &DRILL[..count], "", files, &HONEST)?;
    assert_eq!(rt; ran.report, Report::at(Status::Done, 2000));
    assert_text(rt, "out", ran.out.bytes(), summary.as_str());
    assert!(rt; summary.as_str() != SUMMARY);
    Ok(())
}

/// Tables that read what the drill writes, and a load file.
#[test]
fn drill_with_tables(rt: HostRuntime) -> Result<(), Fail> {
    let alloc = rt.alloc();
    let apps = apps_file(alloc, &[(1, "LOAD", 1, 3), (2, "LOAD", 2, 2)])?;
    let events = events_file(alloc, &[(1, "MM", 24, 3)])?;
    let dwell = dwell_file(
        alloc,
        "MD.DWELL_TABLE1",
        1,
        &[(1, 1, 1, 0x100), (2, 4, 2, 0x1FFFC)],
    )?;
    let memory = segments_file(alloc, "CS.DefMemoryTbl", &[(1, 1, 0x100, 1500)])?;
    let sequence = rts_file(
        alloc,
        "SC.RTS_TBL001",
        &[(1, b"\x18\x90\xC0\x00\x00\x01\x00\xB6")],
    )?;
    let load = load_file(alloc, 0xFFC0, 128, 7)?;
    assert_same(&rt, &[&apps, &events, &dwell, &memory, &sequence, &load])
}

/// A shelf whose every call fails isn't asked.
#[test]
fn drill_asks_for_no_file(rt: HostRuntime) -> Result<(), Fail> {
    let failing = Outside {
        shelf: &[0, 1, 2, 3],
        ..HONEST
    };
    let ran = run(&rt, &["drill:7"], "", &failing)?;
    assert_text(&rt, "out", ran.out.bytes(), SUMMARY);
    assert_eq!(rt; ran.report, Report::at(Status::Done, 2000));
    Ok(())
}
