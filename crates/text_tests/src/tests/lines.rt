//! That logs are read in pieces of every size, and what the reader says of a fault.
use log_lines::{Answer, LineFault, LineItem, LogFault, LogLine, LogReader, read_line};
use packet_forms::{behind, front};
use std::test::Fail;

const LOG: &[u8] =
    b"0 pkt 0891C000000A000003E800000001000100\n1 drop MM full 1889C000000100AF\n1 restart LOAD\nno line\n2 reset\n2 res";

/// How many lines and faults pieces of this size give, and the fault at the end.
fn read_in_pieces(size: usize) -> (u32, Option<LogFault>, Option<LogFault>) {
    let mut reader = LogReader::new();
    let mut said = LogLine {
        frame: 0,
        item: LineItem::Reset,
    };
    let mut lines: u32 = 0;
    let mut fault = None;
    let mut rest = LOG;
    for _turn in 0..1000 {
        let fed = reader.feed(front(rest, size), &mut said);
        rest = behind(rest, fed.taken);
        match fed.answer {
            Answer::More => {}
            Answer::Line => lines = lines.saturating_add(1),
            Answer::Fault(told) => fault = Some(told),
        }
    }
    (lines, fault, reader.finish())
}

#[test]
fn a_log_is_read_in_pieces_of_any_size(rt: HostRuntime) -> Result<(), Fail> {
    for size in 1..120 {
        let (lines, fault, cut) = read_in_pieces(size);
        assert_eq!(rt; lines, 4);
        assert!(rt;
            fault
                == Some(LogFault {
                    line: 4,
                    fault: LineFault::Frame
                })
        );
        assert!(rt;
            cut == Some(LogFault {
                line: 6,
                fault: LineFault::Cut
            })
        );
    }
    Ok(())
}

#[test]
fn faults_are_told_in_words(rt: HostRuntime) -> Result<(), Fail> {
    let fault = match read_line(b"3 pkt 1888C00000010000AE") {
        Ok(_) => LineFault::Long,
        Err(fault) => fault,
    };
    let text = format!(in rt.alloc(); "{}", LogFault { line: 9, fault })?;
    assert_eq!(rt;
        text.as_str(),
        "line 9: the bytes are no space packet (Length)"
    );
    Ok(())
}
