//! One rehearsal with one table, each call of whose shelf fails once; and texts that come in pieces.

use super::runs::{HONEST, Line, NOOP, Outside, assert_text, log_of, run_beside};
use super::tables::{apps_file, dwell_file, pad};
use rehearsal::{Report, Status};
use std::alloc::Global;
use std::process::Abort;
use std::test::Fail;
use std::thread::Threads;

/// The log of both frames: the line of the second one, in 95 bytes.
const LOG: [Line<'static>; 1] = [Line::Event("MM", 1, 0, 16, 2)];

/// How a rehearsal must end: its report, its error line, and how many bytes of the log are written.
#[derive(Clone, Copy)]
struct Ending<'a> {
    report: Report,
    told: &'a str,
    written: usize,
}

/// A table of a first read that waits a hundred frames for its second one.
fn table(alloc: Global) -> Result<Vec<u8>, Fail> {
    let entries = [(1, 2, 100, 0x1000), (2, 1, 1, 0x1002)];
    dwell_file(alloc, "MD.DWELL_TABLE1", 1, &entries)
}

/// Asserts how the rehearsal of a no-op ends beside this file.
fn assert_ending<R: Threads + Sync + AllocGlobal + Abort>(
    rt: &R,
    file: &[u8],
    outside: &Outside<'_>,
    ending: &Ending<'_>,
) -> Result<(), Fail> {
    let ran = run_beside(rt, &["s", "a"], NOOP, &[file], outside)?;
    let log = log_of(rt.alloc(), &LOG)?;
    let written = ran.out.bytes();
    assert!(rt; written.len() == ending.written && log.as_bytes().starts_with(written));
    assert_text(rt, "err", ran.err.bytes(), ending.told);
    assert_eq!(rt; ran.report, ending.report);
    Ok(())
}

/// How it ends where a call of the shelf fails, behind so many on the file: no frame, or those handed out.
fn ending_at_call(call: u32, on_file: u32, most: u32) -> Ending<'static> {
    if call < on_file {
        return Ending {
            report: Report::file_unread(1),
            told: "vigil: read failed on file 1\n",
            written: 0,
        };
    }
    let given = call
        .saturating_sub(on_file)
        .saturating_sub(1)
        .saturating_mul(most);
    Ending {
        report: Report::at(
            Status::ReadFailed,
            u32::from(66 <= given) + u32::from(71 <= given),
        ),
        told: "vigil: read failed on file 0\n",
        written: if 71 <= given { 95 } else { 0 },
    }
}

/// On the file there are an opening, a call for each piece, and one that tells its end; and so on the scenario. No call comes
/// behind these.
#[test]
fn each_call_of_the_shelf_fails_once(rt: HostRuntime) -> Result<(), Fail> {
    let file = table(rt.alloc())?;
    let done = Ending {
        report: Report::at(Status::Done, 2),
        told: "",
        written: 95,
    };
    for (most, on_file, calls) in [(1, 322, 399), (4096, 3, 6)] {
        for call in 0..calls {
            let fails = [call];
            let outside = Outside {
                shelf: &fails,
                most,
                ..HONEST
            };
            let ending = ending_at_call(call, on_file, most);
            assert_ending(&rt, &file, &outside, &ending)?;
        }
        let fails = [calls];
        let outside = Outside {
            shelf: &fails,
            most,
            ..HONEST
        };
        assert_ending(&rt, &file, &outside, &done)?;
    }
    Ok(())
}

/// Of two FILEs and the scenario one is told, and nothing is opened behind it.
#[test]
fn shelf_fails_on_a_file(rt: HostRuntime) -> Result<(), Fail> {
    let file = table(rt.alloc())?;
    for (call, number) in [(0, 1), (2, 1), (3, 2), (5, 2), (6, 0), (7, 0)] {
        let fails = [call];
        let outside = Outside {
            shelf: &fails,
            ..HONEST
        };
        let ran = run_beside(&rt, &["s", "a", "b"], NOOP, &[&file, &file], &outside)?;
        assert_eq!(rt; ran.report, Report::file_unread(number), "at {call}");
    }
    Ok(())
}

/// A refusal stays what it is where the output of its line fails.
#[test]
fn error_output_fails(rt: HostRuntime) -> Result<(), Fail> {
    let monitors = [(1, "A", 2, 3), (2, "B", 3, 2), (3, "C", 4, 12)];
    let file = apps_file(rt.alloc(), &monitors)?;
    for most in [1, 4096] {
        let outside = Outside {
            err: &[0],
            most,
            ..HONEST
        };
        let ending = Ending {
            report: Report::file_refused(1, 3, 12),
            told: "",
            written: 0,
        };
        assert_ending(&rt, &file, &outside, &ending)?;
    }
    Ok(())
}

// Scenarios that are refused, with the line, the reason and how many frames there were.
const REFUSED: [(&str, u32, u8, u32); 3] = [
    ("", 0, 7, 0),
    (
        "epoch 1000\nregion RAM 0x1000 256\nregion RAM 0x1080 256\nstart\ntick\nend\n",
        4,
        4,
        0,
    ),
    (
        "epoch 1000\nregion RAM 0x1000 256\nstart\ntick\ntick\njump\n",
        6,
        1,
        2,
    ),
];

/// A refusal doesn't depend on how many bytes a call moves.
#[test]
fn texts_come_in_pieces(rt: HostRuntime) -> Result<(), Fail> {
    for most in [1, 7, 4096] {
        for (text, line, reason, frames) in REFUSED {
            let outside = Outside { most, ..HONEST };
            let ran = run_beside(&rt, &["s"], text, &[], &outside)?;
            assert_eq!(rt;
                ran.report,
                Report::refused(line, reason, frames),
                "at {text}"
            );
        }
    }
    Ok(())
}

#[test]
fn files_are_read_byte_by_byte(rt: HostRuntime) -> Result<(), Fail> {
    let file = dwell_file(rt.alloc(), "MD.DWELL_TABLE1", 1, &[(25, 3, 1, 0)])?;
    for most in [1, 7, 320, 321] {
        let outside = Outside { most, ..HONEST };
        let ran = run_beside(&rt, &["s", "a"], NOOP, &[&file], &outside)?;
        assert_eq!(rt; ran.report, Report::file_refused(1, 25, 11), "at {most}");
    }
    Ok(())
}

/// A file is read to its 65,701st byte and not on: the call behind it, which would fail, isn't made. The call before it is.
#[test]
fn long_file_is_not_read_on(rt: HostRuntime) -> Result<(), Fail> {
    let mut long = Vec::new(rt.alloc());
    pad(&mut long, 65_800)?;
    let told = "vigil: file 1 refused, reason 9, entry 0\n";
    for (call, most) in [(18, 4096), (65_702, 1)] {
        let fails = [call];
        let outside = Outside {
            shelf: &fails,
            most,
            ..HONEST
        };
        let ran = run_beside(&rt, &["s", "a"], NOOP, &[&long], &outside)?;
        assert_eq!(rt; ran.report, Report::file_refused(1, 0, 9));
        assert_text(&rt, "err", ran.err.bytes(), told);
        let last = [call.saturating_sub(1)];
        let outside = Outside {
            shelf: &last,
            most,
            ..HONEST
        };
        let ran = run_beside(&rt, &["s", "a"], NOOP, &[&long], &outside)?;
        assert_eq!(rt; ran.report, Report::file_unread(1));
    }
    Ok(())
}
