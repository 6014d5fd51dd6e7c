//! That sentences are shown where there is memory: a call that gave up for want of it would be proved too.
use events::{events, refusals, show_event, show_refusal};
use std::test::Fail;

#[test]
fn events_and_refusals_are_shown(rt: HostRuntime) -> Result<(), Fail> {
    let mut line = Vec::new(rt.alloc());
    show_event(events(), b"MM", 19, 2, &mut line)?;
    assert_eq!(rt;
        line.as_slice(),
        b"MM: command poke was accepted".as_slice()
    );
    line.clear();
    show_event(events(), b"NAV", 7, 2, &mut line)?;
    assert_eq!(rt;
        line.as_slice(),
        b"NAV: unknown event 7 of type 2".as_slice()
    );
    line.clear();
    show_refusal(events(), refusals(), b"MM", 3, 4, &mut line)?;
    assert_eq!(rt;
        line.as_slice(),
        b"MM: command poke was refused: the bytes lie in no region, or not all in one".as_slice()
    );
    line.clear();
    show_refusal(events(), refusals(), b"MM", 99, 13, &mut line)?;
    assert_eq!(rt;
        line.as_slice(),
        b"MM: command of code 99 was refused: unknown reason 13".as_slice()
    );
    Ok(())
}
