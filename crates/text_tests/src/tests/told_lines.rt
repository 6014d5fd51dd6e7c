//! That lines are told where there is memory.
use log_lines::{LineItem, LogLine, read_line};
use log_words::{Vocabulary, show_line};
use std::test::Fail;

#[test]
fn lines_are_told(rt: HostRuntime) -> Result<(), Fail> {
    let vocabulary = Vocabulary::of_applications();
    let line = match read_line(b"2 drop MM full 1888C000000100AE") {
        Ok(line) => line,
        Err(_) => LogLine {
            frame: 0,
            item: LineItem::Reset,
        },
    };
    let mut sentence = Vec::new(rt.alloc());
    show_line(&vocabulary, Some(1000), &line, &mut sentence)?;
    assert_eq!(rt;
        sentence.as_slice(),
        b"time 1002: pipe MM is full, dropped: mm.no_op".as_slice()
    );
    Ok(())
}
