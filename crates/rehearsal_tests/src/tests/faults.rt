//! Each call of the outside fails once.

use super::runs::{HEADER, HONEST, Line, NOOP, Outside, assert_text, log_of, run};
use rehearsal::{Report, Status};
use std::test::Fail;

const SCENARIO: &str = "epoch 1000\nregion RAM 0x1000 256\nstart\n\
    send 1888C000000A03050800001010000000AB\nsend 1888C000000602A30800001010\ntick\n\
    send 1888C000000602A30800001010\ntick\ntick\nend\n";

const LINES: [Line<'static>; 5] = [
    Line::Event("MM", 1, 0, 19, 2),
    Line::Text("1 pkt 088AC000000E000003E90000080000101000000000"),
    Line::Event("MM", 1, 1, 18, 2),
    Line::Text("2 pkt 088AC001000E000003EA00000800001010000000AB"),
    Line::Event("MM", 2, 2, 18, 2),
];

/// Each of the output's calls takes a byte, and one of them fails.
#[test]
fn each_write_fails_once(rt: HostRuntime) -> Result<(), Fail> {
    let log = log_of(rt.alloc(), &LINES)?;
    for call in 0..383 {
        let fails = [call];
        let outside = Outside {
            out: &fails,
            most: 1,
            ..HONEST
        };
        let ran = run(&rt, &["s"], SCENARIO, &outside)?;
        let frames = if call < 239 { 1 } else { 2 };
        assert_eq!(rt; ran.report, Report::at(Status::WriteFailed, frames));
        assert_eq!(rt; ran.out.bytes().len(), call as usize);
        assert!(rt; log.as_bytes().starts_with(ran.out.bytes()));
        assert_text(&rt, "err", ran.err.bytes(), "vigil: write failed\n");
    }
    Ok(())
}

/// The shelf hands out a frame and a part of a line, and then fails; and so behind two frames.
#[test]
fn failed_read_ends_the_run(rt: HostRuntime) -> Result<(), Fail> {
    let outside = Outside {
        shelf: &[2],
        ..HONEST
    };
    let told = "vigil: read failed on file 0\n";
    let one = "epoch 1000\nregion RAM 0x1000 256\nstart\nsend 1888C000000100AE\ntick\nti";
    let ran = run(&rt, &["s"], one, &outside)?;
    assert_text(&rt, "out", ran.out.bytes(), "");
    assert_text(&rt, "err", ran.err.bytes(), told);
    assert_eq!(rt; ran.report, Report::at(Status::ReadFailed, 1));
    let two = "epoch 1000\nregion RAM 0x1000 256\nstart\nsend 1888C000000100AE\ntick\ntick\nti";
    let ran = run(&rt, &["s"], two, &outside)?;
    let log = log_of(rt.alloc(), &[Line::Event("MM", 1, 0, 16, 2)])?;
    assert_text(&rt, "out", ran.out.bytes(), log.as_str());
    assert_text(&rt, "err", ran.err.bytes(), told);
    assert_eq!(rt; ran.report, Report::at(Status::ReadFailed, 2));
    Ok(())
}

/// The scenario is read no further than it is run: the shelf's call behind the first piece would fail.
#[test]
fn failed_write_leaves_the_rest_unread(rt: HostRuntime) -> Result<(), Fail> {
    let mut text = String::from_str(rt.alloc(), HEADER)?;
    text.push_str("send 1888C000000100AE\ntick\ntick\n")?;
    for _ in 0..2_000 {
        text.push_str("# x\n")?;
    }
    text.push_str("end\n")?;
    let outside = Outside {
        shelf: &[2],
        out: &[0],
        ..HONEST
    };
    let ran = run(&rt, &["s"], text.as_str(), &outside)?;
    assert_text(&rt, "out", ran.out.bytes(), "");
    assert_text(&rt, "err", ran.err.bytes(), "vigil: write failed\n");
    assert_eq!(rt; ran.report, Report::at(Status::WriteFailed, 1));
    Ok(())
}

/// The empty word is a scenario's name, and no number of workers.
#[test]
fn empty_words(rt: HostRuntime) -> Result<(), Fail> {
    let ran = run(&rt, &[""], NOOP, &HONEST)?;
    assert_text(
        &rt,
        "err",
        ran.err.bytes(),
        "vigil: read failed on file 0\n",
    );
    let ran = run(&rt, &["--workers", "", "s"], NOOP, &HONEST)?;
    assert_text(&rt, "err", ran.err.bytes(), "vigil: words refused\n");
    Ok(())
}
