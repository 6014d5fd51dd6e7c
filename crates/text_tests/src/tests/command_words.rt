//! That telecommands are read and shown where there is memory: a call that gave up for want of it would be proved too.
use std::test::Fail;
use telecommands::{commands, read_command, show_command};

#[test]
fn a_command_is_read_and_shown(rt: HostRuntime) -> Result<(), Fail> {
    let mut scratch = Vec::new(rt.alloc());
    let packet = read_command(
        None,
        commands(),
        1,
        b"mm.peek width=8 address=0x1080",
        &mut scratch,
    )?;
    assert_eq!(rt;
        packet.bytes(),
        b"\x18\x88\xC0\0\0\x06\x02\x33\x08\0\0\x10\x80".as_slice()
    );
    let mut line = Vec::new(rt.alloc());
    show_command(commands(), &packet, &mut line)?;
    assert_eq!(rt;
        line.as_slice(),
        b"mm.peek width=8 address=0x00001080".as_slice()
    );
    Ok(())
}

#[test]
fn bytes_without_a_name_are_read_and_shown(rt: HostRuntime) -> Result<(), Fail> {
    let mut scratch = Vec::new(rt.alloc());
    let line = b"packet=1888C000000102AC".as_slice();
    let packet = read_command(None, commands(), 1, line, &mut scratch)?;
    let mut shown = Vec::new(rt.alloc());
    show_command(commands(), &packet, &mut shown)?;
    assert_eq!(rt; shown.as_slice(), line);
    Ok(())
}
