//! That telemetry is read and shown where there is memory: a call that gave up for want of it would be proved too.
use std::test::Fail;
use telemetry::{read_telemetry, show_telemetry, telemetry_rows};

#[test]
fn telemetry_is_read_and_shown(rt: HostRuntime) -> Result<(), Fail> {
    let mut scratch = Vec::new(rt.alloc());
    let line = b"mm.peek time=1001 count=2 width=16 address=0x00001010 value=0x0000BEEF".as_slice();
    let packet = read_telemetry(None, telemetry_rows(), 1, line, &mut scratch)?;
    assert_eq!(rt;
        packet.bytes(),
        b"\x08\x8A\xC0\x02\0\x0E\0\0\x03\xE9\0\0\x10\0\0\x10\x10\0\0\xBE\xEF".as_slice()
    );
    let mut shown = Vec::new(rt.alloc());
    show_telemetry(telemetry_rows(), &packet, &mut shown)?;
    assert_eq!(rt; shown.as_slice(), line);
    Ok(())
}

#[test]
fn bytes_without_a_name_are_read_and_shown(rt: HostRuntime) -> Result<(), Fail> {
    let mut scratch = Vec::new(rt.alloc());
    let line = b"packet=088AC0020002000000".as_slice();
    let packet = read_telemetry(None, telemetry_rows(), 1, line, &mut scratch)?;
    let mut shown = Vec::new(rt.alloc());
    show_telemetry(telemetry_rows(), &packet, &mut shown)?;
    assert_eq!(rt; shown.as_slice(), line);
    Ok(())
}
