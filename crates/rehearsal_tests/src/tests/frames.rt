//! Frames of a bench: a command that is answered in the next one, and a sink that fails.
ghost use Rattle.std.specs.Prelude.{IfOk};
ghost use Rattle.scenario.specs.Standing.{Shows};

use frame_exec::{Bench, Tables};
use fsw_outside::{Failed, MemSink, OpenGate};
use memory_window::{Kind, Map, Region};
use scenario::{Header, Item, Reader};
use std::alloc::Global;
use std::test::Fail;
use std::thread::Threads;
use table_files::Files;

/// A reader that shows the first frame of a text.
fn frame_of(alloc: Global, text: &str) -> Result<Reader, Fail>
    ensures { IfOk result Shows }
{
    let mut reader = Reader::open(alloc)?;
    let mut rest = text.as_bytes();
    for _ in 0..20 {
        match reader.next() {
            Item::Frame => return Ok(reader),
            Item::Header => {}
            Item::More => {
                let taken = reader.feed(rest);
                rest = &rest[taken..];
            }
            Item::End => return Err("ended".into()),
            Item::Bad { .. } => return Err("bad".into()),
        }
    }
    Err("no frame".into())
}

/// A run of a frame that sends a no-op to MM and of an empty one: what the second answers, and whether the bench failed.
fn run_noop<R: Threads + Sync>(
    rt: &R,
    alloc: Global,
    sink: &mut MemSink,
) -> Result<(Result<(), Failed>, bool), Fail> {
    let region = Region {
        kind: Kind::Ram,
        start: 0x1000,
        len: 256,
    };
    let Ok(map) = Map::new(&[region]) else {
        return Err("the map is refused".into());
    };
    let header = Header { epoch: 1000, map };
    let first = frame_of(
        alloc,
        "epoch 1000\nregion RAM 0x1000 256\nstart\nsend 1888C000000100AE\ntick\n",
    )?;
    let second = frame_of(alloc, "epoch 1000\nregion RAM 0x1000 256\nstart\ntick\n")?;
    let sends = first.frame();
    let nothing = second.frame();
    if !sends.upsets().is_empty() {
        return Err("an upset".into());
    }
    if !nothing.upsets().is_empty() {
        return Err("an upset".into());
    }
    let files = Files::open(alloc)?;
    let Ok(tables) = Tables::load(&files) else {
        return Err("the tables are refused".into());
    };
    let Ok(mut bench) = Bench::open(alloc, tables, &files, &header, 1) else {
        return Err("the bench isn't opened".into());
    };
    let Ok(()) = bench.frame(rt, sends, &OpenGate, sink) else {
        return Err("the first frame failed".into());
    };
    let answer = bench.frame(rt, nothing, &OpenGate, sink);
    Ok((answer, bench.failed()))
}

const LINE: &str =
    "1 pkt 0808C0000025000003E900004D4D000000000000000000000000000000000000001000020000004200000001\n";

#[test]
fn noop_is_answered_in_the_next_frame(rt: HostRuntime) -> Result<(), Fail> {
    let mut sink = MemSink::new(rt.alloc(), &[], 1000)?;
    assert_eq!(rt; run_noop(&rt, rt.alloc(), &mut sink)?, (Ok(()), false));
    assert_eq!(rt; sink.bytes(), LINE.as_bytes());
    Ok(())
}

#[test]
fn bench_has_failed_where_its_sink_fails(rt: HostRuntime) -> Result<(), Fail> {
    let mut sink = MemSink::new(rt.alloc(), &[0], 1000)?;
    assert_eq!(rt; run_noop(&rt, rt.alloc(), &mut sink)?, (Err(Failed), true));
    assert_eq!(rt; sink.bytes(), b"".as_slice());
    Ok(())
}
