//! Texts whose endings, lines and reasons were written from the rules.

use scenario::{Item, Reader};
use std::alloc::Global;
use std::process::Abort;
use std::test::Fail;

/// How many frames a text gave, and its last answer.
fn read_text(alloc: Global, text: &[u8]) -> Result<(u32, Item), Fail> {
    let mut reader = Reader::open(alloc)?;
    let mut frames: u32 = 0;
    let mut rest = text;
    for _ in 0..20_000_000 {
        match reader.next() {
            Item::Header => {}
            Item::Frame => frames = frames.saturating_add(1),
            Item::More => {
                if rest.is_empty() {
                    reader.finish();
                } else {
                    let taken = reader.feed(rest);
                    rest = &rest[taken..];
                }
            }
            Item::End => return Ok((frames, Item::End)),
            Item::Bad { line, reason } => return Ok((frames, Item::Bad { line, reason })),
        }
    }
    Err("no ending".into())
}

/// Appends a part of a text, in which a `/` stands for an LF.
fn append(text: &mut Vec<u8>, part: &str) -> Result<(), Fail> {
    for byte in part.as_bytes() {
        text.push(if *byte == b'/' { b'\n' } else { *byte })?;
    }
    Ok(())
}

/// A text of a head, a part that stands so many times, and a tail.
fn repeated(
    alloc: Global,
    head: &str,
    part: &str,
    times: u32,
    tail: &str,
) -> Result<Vec<u8>, Fail> {
    let mut text = Vec::new(alloc);
    append(&mut text, if head == "H" { HEAD } else { head })?;
    for _ in 0..times {
        append(&mut text, part)?;
    }
    append(&mut text, tail)?;
    Ok(text)
}

/// Checks one line of `TEXTS`.
fn check_row(rt: &impl Abort, alloc: Global, row: &str) -> Result<(), Fail> {
    let mut columns = row.split('|');
    let frames: u32 = columns.next().unwrap_or("").parse()?;
    let line: u32 = columns.next().unwrap_or("").parse()?;
    let reason: u8 = columns.next().unwrap_or("").parse()?;
    let times: u32 = columns.next().unwrap_or("").parse()?;
    let head = columns.next().unwrap_or("");
    let part = columns.next().unwrap_or("");
    let tail = columns.next().unwrap_or("");
    let text = repeated(alloc, head, part, times, tail)?;
    let seen = read_text(alloc, text.as_slice())?;
    assert_eq!(rt; seen, (frames, answer(line, reason)), "at {row}");
    Ok(())
}

/// The head of most texts below.
const HEAD: &str = "epoch 5/region RAM 0 4/start/";

/// One text a line: how many frames it gives, the line that is told at its end, and its reason, or 0
/// where it ends well; and then how many times its middle part stands, its head, which is `HEAD` where `H`
/// is written, its middle part and its tail. A `/` stands for an LF.
const TEXTS: &str = "\
0|0|7|1|||\n\
0|1|7|1||/|\n\
0|3|7|1||epoch 5/region RAM 0 4/start/|\n\
0|0|0|1||epoch 0000000005/region MEM16 0 4/start/end/|\n\
2|6|1|1||epoch 5/region RAM 0 4/start/tick/tick/jump/|\n\
0|5|1|1||epoch 5/region RAM 0 4/start/hold CS/end/|\n\
0|7|1|1||epoch 5/region RAM 0 4/start/end// # more/tick/|\n\
1|4|7|1||epoch 5/region RAM 0 4/start/tick|\n\
0|0|0|1||  epoch   5  /#/region  RAM 0 4/   /start//end|\n\
0|2|4|1||epoch 5/start/|\n\
0|4|4|1||epoch 5/region RAM 0 8/region RAM 4 4/start/|\n\
0|2|1|1||epoch 5/epoch 5/|\n\
0|1|2|1||epoch 00000000005/|\n\
0|1|2|1||epoch 4294000001/|\n\
0|2|1|1||epoch 4294000000/end/|\n\
0|4|3|1|H|send 0G|\n\
0|4|3|1|H|send 000|\n\
0|4|3|1|H|send 00|\n\
1|0|0|250|epoch 5/region RAM 0 4/start/send 0000C00000F9|00|  /tick/end\n\
0|4|3|251|epoch 5/region RAM 0 4/start/send 0000C00000FA|00|/tick/end\n\
0|4|3|250|epoch 5/region RAM 0 4/start/send 0000C00000F9|00|0/tick/end\n\
0|4|7|1|H|send 1888C00000010301|\n\
0|4|1|1|H|send 1888c000 00010301|\n\
0|4|2|1|H|app LOAD 4294967296|\n\
0|4|2|1|H|app LOAD 00000000001|\n\
0|4|7|1|H|app LOAD 4294967295|\n\
0|4|2|1|H|app LOAD 0x|\n\
0|4|2|1|H|app LOAD 0X10|\n\
0|4|2|1|H|app LOAD 0x1ffffffff|\n\
0|4|1|1|H|app LO-AD 1|\n\
0|4|1|1|H|app ABCDEFGHIJKLMNOPQRST 1|\n\
0|4|7|1|H|app abcdefghij_lmnopqr9 1|\n\
0|4|1|1|H|app LOAD|\n\
0|4|2|1|H|upset 0 256|\n\
0|4|7|1|H|upset 0 255|\n\
0|4|4|1|H|upset 4 1|\n\
0|4|1|1|H|hold XX|\n\
0|4|7|1|H|hold MM |\n\
0|4|1|1|H|hold\tMM|\n\
0|4|1|1|H|hold MM\0|\n\
0|4|1|1|H|hold \u{e9}|\n\
0|4|7|1|H|activate 0|\n\
0|4|2|1|H|activate 4294967296|\n\
0|4|2|1|H|activate MM|\n\
0|4|1|1|H|activate|\n\
0|4|1|1|H|activate 1 2|\n\
0|4|1|1|H|activates 1|\n\
0|2|1|1||epoch 5/activate 1/|\n\
0|5|1|1|H|activate 1/end/|\n\
0|10|4|8|epoch 5/|region RAM 0 4/|region RAM 32 4/\n\
0|10|1|8|epoch 5/|region RAM 0 4/|region ROM 32 4/\n\
0|10|2|8|epoch 5/|region RAM 0 4/|region RAM 32 x/\n\
0|1|7|640|| |\n\
0|1|7|640|| |/\n\
0|1|6|641|| |\n\
0|1|6|641|| |/\n\
0|1|6|5000|| |/end/\n\
0|1|6|634|| |epoch 5/\n\
1|0|0|64|H|hold MM/|tick/end/\n\
1|0|0|63|H|hold MM/|activate 1/tick/end/\n\
1|0|0|64|H|activate 1/|tick/end/\n\
0|68|5|64|H|hold MM/|activate 1/\n\
0|68|5|64|H|activate 1/|hold MM/\n\
0|68|4|64|H|hold MM/|upset 9 1/\n\
0|68|5|65|H|hold MM/|\n\
100000|0|0|100000|H|tick/|end/\n\
100000|100004|6|100001|H|tick/|end/\n\
0|1|7|1||#/|\n\
";

fn answer(line: u32, reason: u8) -> Item {
    if reason == 0 {
        return Item::End;
    }
    Item::Bad { line, reason }
}

#[test]
fn texts_and_their_endings(rt: HostRuntime) -> Result<(), Fail> {
    for row in TEXTS.lines() {
        check_row(&rt, rt.alloc(), row)?;
    }
    Ok(())
}
