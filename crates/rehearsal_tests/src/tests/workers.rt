//! A rehearsal of many frames, on any number of workers.

use super::runs::{HONEST, Line, NOOP, Outside, assert_text, log_of, run_beside, run_through};
use super::tables::{apps_file, blank_file, dwell_file, load_file, rts_file, segments_file};
use fsw_outside::Gate;
use rehearsal::{Report, Status};
use std::alloc::{AllocError, Global};
use std::process::Abort;
use std::sync::atomic::{AtomicU64, Ordering};
use std::test::Fail;
use std::thread;
use std::thread::Threads;

const HEADER: &str = "epoch 1000\nregion RAM 0 131072\nregion EEPROM 0x20000 4096\nstart\n";

/// The commands of a frame, by the last digit of its number.
fn commands(digit: u32) -> &'static str {
    match digit {
        1 => "send 18A9C0000003078B0001\nsend 18A9C000000304880001\n",
        7 => "send 1888C000000A08DB000001000000012C5A\nsend 1888C000000305A80001\n",
        8 => "send 1888C00000090D06000000800000012C\nsend 1890C000000302B20004\n",
        9 => "send 1888C000000602A10800020000\nsend 189FC000000508B600020001\n",
        3 => "send 18AFC00000010089\nsend 18A0C00000010086\n",
        _ => "",
    }
}

/// Appends a frame: five execution counters that go on at their own pace, an upset, and commands.
fn push_frame(text: &mut String, frame: u32) -> Result<(), AllocError> {
    write!(
        text,
        "app A {frame}\napp B {}\napp C {}\n",
        frame / 2,
        frame / 3
    )?;
    write!(text, "app D {}\napp E {}\n", frame / 7, frame / 60)?;
    write!(text, "upset {} {}\n", frame % 1000 * 37, frame % 256)?;
    text.push_str(commands(frame % 10))?;
    text.push_str("tick\n")
}

/// A scenario of 300 frames.
fn scenario(alloc: Global) -> Result<String, AllocError> {
    let mut text = String::from_str(alloc, HEADER)?;
    for frame in 0..300 {
        push_frame(&mut text, frame)?;
    }
    text.push_str("end\n")?;
    Ok(text)
}

// The words of a rehearsal beside six files, on sixteen workers and on others.
const ON_SIXTEEN: &[&str] = &["s", "a", "b", "c", "d", "e", "f", "--workers", "16"];

const ON_OTHERS: [&[&str]; 3] = [
    &["--workers", "2", "s", "a", "b", "c", "d", "e", "f"],
    &["--workers", "5", "s", "a", "b", "c", "d", "e", "f"],
    ON_SIXTEEN,
];

/// The no-op of MM.
const MM_NOOP: &[u8] = b"\x18\x88\xC0\x00\x00\x01\x00\xAE";

/// What an event has that tells the end of a relative sequence.
const SEQUENCE_ENDED: &str = "53430000000000000000000000000000000000000068";

/// Five application monitors, two dwell tables, a checksum table, a relative sequence and a load file.
#[test]
fn rehearsal_is_the_same_on_workers(rt: HostRuntime) -> Result<(), Fail> {
    let alloc = rt.alloc();
    let monitors = [
        (1, "A", 2, 3),
        (2, "B", 3, 2),
        (3, "C", 4, 1),
        (4, "D", 8, 3),
        (32, "E", 61, 3),
    ];
    let apps = apps_file(alloc, &monitors)?;
    let first = [(1, 1, 1, 0x100), (2, 4, 2, 0x104)];
    let first = dwell_file(alloc, "MD.DWELL_TABLE1", 1, &first)?;
    let fourth = [(1, 4, 0, 0x20000), (2, 1, 9, 0x80)];
    let fourth = dwell_file(alloc, "MD.DWELL_TABLE4", 1, &fourth)?;
    let memory = [(1, 1, 0x100, 1500), (16, 1, 0, 64)];
    let memory = segments_file(alloc, "CS.DefMemoryTbl", &memory)?;
    let sequence = rts_file(alloc, "SC.RTS_TBL001", &[(1, MM_NOOP), (3, MM_NOOP)])?;
    let load = load_file(alloc, 0xFFC0, 128, 7)?;
    let files: [&[u8]; 6] = [&apps, &first, &fourth, &memory, &sequence, &load];
    compare_runs(&rt, scenario(alloc)?.as_str(), &files)
}

/// The log by the words as they are, on several numbers of workers, and a first part of it where the output fails.
fn compare_runs<R: Threads + Sync + AllocGlobal + Abort>(
    rt: &R,
    text: &str,
    files: &[&[u8]],
) -> Result<(), Fail> {
    let words = ["s", "a", "b", "c", "d", "e", "f"];
    let ran = run_beside(rt, &words, text, files, &HONEST)?;
    assert_eq!(rt; ran.report, Report::at(Status::Done, 300));
    let log = std::str::from_utf8(ran.out.bytes()).unwrap_or("no text");
    assert!(rt; log.contains(SEQUENCE_ENDED));
    for words in ON_OTHERS {
        let on_workers = run_beside(rt, words, text, files, &HONEST)?;
        assert_text(rt, "out on workers", on_workers.out.bytes(), log);
    }
    let failing = Outside {
        out: &[1],
        ..HONEST
    };
    let cut = run_beside(rt, ON_SIXTEEN, text, files, &failing)?;
    assert!(rt; cut.report.status == Status::WriteFailed);
    let written = cut.out.bytes();
    assert!(rt; !written.is_empty() && written.len() < ran.out.bytes().len());
    assert!(rt; ran.out.bytes().starts_with(written));
    Ok(())
}

const TURNS: u64 = 100_000_000;

/// The number of the first bank at a gate.
const BANK: u32 = 64;

/// Counts how often each of eight jobs or banks enters, in a byte each, from the number of the first on. Holds some of them,
/// which are bits, until those awaited have entered, or for very many turns.
#[derive(Drop)]
struct Meeting {
    first: u32,
    counts: AtomicU64,
    entered: AtomicU64,
    met: AtomicU64,
    held: u64,
    awaited: u64,
}

impl Meeting {
    fn new(first: u32, held: u64, awaited: u64) -> Meeting {
        Meeting {
            first,
            counts: AtomicU64::new(0),
            entered: AtomicU64::new(0),
            met: AtomicU64::new(0),
            held,
            awaited,
        }
    }
}

impl Gate for Meeting {
    fn enter(&self, job: u32) {
        let place = job.saturating_sub(self.first);
        if job < self.first || place >= 8 {
            return;
        }
        let bit = 1u64 << place;
        self.counts.fetch_add(1u64 << (8 * place), Ordering::SeqCst);
        self.entered.fetch_or(bit, Ordering::SeqCst);
        if self.held & bit == 0 {
            return;
        }
        let others = self.awaited & (u64::MAX ^ bit);
        for _ in 0..TURNS {
            if self.entered.load(Ordering::SeqCst) & others == others {
                self.met.fetch_or(bit, Ordering::SeqCst);
                return;
            }
            thread::yield_now();
        }
    }
}

/// Runs the no-op by these words beside these files, where some jobs are held until others have entered, and says which were
/// met.
fn met_by<R: Threads + Sync + AllocGlobal + Abort>(
    rt: &R,
    words: &[&str],
    files: &[&[u8]],
    held: u64,
    awaited: u64,
) -> Result<u64, Fail> {
    let gate = Meeting::new(0, held, awaited);
    let ran = run_through(rt, words, NOOP, files, &HONEST, &gate)?;
    let log = log_of(rt.alloc(), &[Line::Event("MM", 1, 0, 16, 2)])?;
    assert_text(rt, "out on workers", ran.out.bytes(), log.as_str());
    Ok(gate.met.load(Ordering::SeqCst))
}

/// Runs the no-op on two workers.
fn met<R: Threads + Sync + AllocGlobal + Abort>(
    rt: &R,
    held: u64,
    awaited: u64,
) -> Result<u64, Fail> {
    met_by(rt, &["--workers", "2", "s"], &[], held, awaited)
}

#[test]
fn two_jobs_at_once(rt: HostRuntime) -> Result<(), Fail> {
    assert_eq!(rt; met(&rt, 3, 3)?, 3);
    Ok(())
}

/// With shares that are fixed beforehand a job that is held would keep another of the same worker from entering.
#[test]
fn jobs_are_drawn(rt: HostRuntime) -> Result<(), Fail> {
    for job in 0..5u32 {
        let held = 1u64 << job;
        assert_eq!(rt; met(&rt, held, 31)?, held);
    }
    Ok(())
}

/// A table of the Limit Checker makes a sixth job: each is drawn, and on six workers all six meet.
#[test]
fn six_jobs_are_drawn(rt: HostRuntime) -> Result<(), Fail> {
    let limits = blank_file(rt.alloc(), "LC.WDT_Tbl", 512)?;
    for job in 0..6u32 {
        let held = 1u64 << job;
        let words = ["--workers", "2", "s", "a"];
        assert_eq!(rt; met_by(&rt, &words, &[&limits], held, 63)?, held);
    }
    let words = ["--workers", "6", "s", "a"];
    assert_eq!(rt; met_by(&rt, &words, &[&limits], 63, 63)?, 63);
    Ok(())
}

/// Four banks, over the first edge of which 32 bytes are filled.
const FILL: &str = "epoch 1000\nregion RAM 0 200000\nstart\n\
    send 1888C000000A08D80000FFF0000000205A\ntick\ntick\ntick\nend\n";

/// Runs the fill on so many workers: each bank enters once, the idle ones too. Says which of those held were met.
fn met_banks<R: Threads + Sync + AllocGlobal + Abort>(
    rt: &R,
    workers: &str,
    held: u64,
) -> Result<u64, Fail> {
    let gate = Meeting::new(BANK, held, held);
    let ran = run_through(rt, &["--workers", workers, "s"], FILL, &[], &HONEST, &gate)?;
    assert_eq!(rt; ran.report, Report::at(Status::Done, 3));
    assert_eq!(rt; gate.counts.load(Ordering::SeqCst), 0x01_01_01_01);
    Ok(gate.met.load(Ordering::SeqCst))
}

#[test]
fn banks_of_a_frame_meet(rt: HostRuntime) -> Result<(), Fail> {
    assert_eq!(rt; met_banks(&rt, "1", 0)?, 0);
    assert_eq!(rt; met_banks(&rt, "2", 3)?, 3);
    assert_eq!(rt; met_banks(&rt, "16", 3)?, 3);
    Ok(())
}
