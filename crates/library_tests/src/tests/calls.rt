//! Public calls that neither a program nor another test makes.

use bus_pipes::{Bus, Dropped, Drops, Offer, Out, Pipe, PipeName};
use crew_board::laws::claim_law;
use fsw_outside::{Failed, MemSink, Sink};
use hs_tables::{load_appmon, load_eventmon, load_execount, load_msgacts};
use packet_forms::{Name, Packet, be16, be32, command, event, telemetry};
use packet_log::{Log, drop_line, line_of, request_line};
use sc_tables::{load_ats, load_rts};
use std::test::Fail;

const NOOP: &[u8] = b"\x18\x88\xC0\x00\x00\x01\x00\xAE";

fn noop() -> Result<Packet, Fail> {
    Ok(Packet::from_bytes(NOOP).ok().ok_or("no packet")?)
}

fn named(text: &str) -> Result<Name, Fail> {
    Ok(Name::from_text(text).ok_or("no name")?)
}

#[test]
fn packets_are_built_and_read(rt: HostRuntime) -> Result<(), Fail> {
    let made = command(0x1888, 0, b"");
    assert_eq!(rt; made.bytes(), NOOP);
    assert_eq!(rt; (made.mid(), made.code()), (0x1888, 0));
    assert!(rt; made.is_command() && made.checksum_ok() && made.payload().is_empty());
    assert_eq!(rt;
        made.with_sequence(5).bytes(),
        b"\x18\x88\xC0\x05\x00\x01\x00\xAE".as_slice()
    );
    let counted = telemetry(0x08AD, 1001, b"\x01\x02");
    let bytes = b"\x08\xAD\xC0\x00\x00\x07\x00\x00\x03\xE9\x00\x00\x01\x02";
    assert_eq!(rt; counted.bytes(), bytes.as_slice());
    assert!(rt; !counted.is_command());
    assert_eq!(rt; counted.payload(), b"\x01\x02".as_slice());
    assert_eq!(rt; be16(b"\x00\x01\x02", 1), 0x0102);
    assert_eq!(rt; be32(b"\x00\x01\x02\x03\x04", 1), 0x0102_0304);
    Ok(())
}

#[test]
fn lines_of_the_log(rt: HostRuntime) -> Result<(), Fail> {
    let told = event(named("MM")?, 16, 2, 1001);
    let line =
        "1 pkt 0808C0000025000003E900004D4D000000000000000000000000000000000000001000020000004200000001\n";
    assert_eq!(rt; line_of(1, &told).as_str(), line);
    assert_eq!(rt; request_line(7, &Out::Reset).as_str(), "7 reset\n");
    assert_eq!(rt;
        request_line(70, &Out::Restart(named("LOAD")?)).as_str(),
        "70 restart LOAD\n"
    );
    assert_eq!(rt;
        request_line(700, &Out::Delete(named("LOAD")?)).as_str(),
        "700 delete LOAD\n"
    );
    let lost = Dropped {
        pipe: PipeName::HsEv,
        full: true,
        packet: noop()?,
    };
    assert_eq!(rt;
        drop_line(3, &lost).as_str(),
        "3 drop HS.EV full 1888C000000100AE\n"
    );
    let mut sink = MemSink::new(rt.alloc(), &[1], 16)?;
    let mut log = Log::start();
    assert_eq!(rt; log.put(&mut sink, "7 reset\n"), Ok(()));
    assert_eq!(rt; log.put(&mut sink, "8 reset\n"), Err(Failed));
    assert_eq!(rt; (sink.bytes(), sink.faults()), (b"7 reset\n".as_slice(), 1));
    Ok(())
}

/// A pipe of two places that takes one packet of an id.
#[test]
fn a_pipe_keeps_as_many_of_an_id_as_its_limit_says(rt: HostRuntime) -> Result<(), Fail> {
    let packet = noop()?;
    let mut pipe = Pipe::open(rt.alloc(), 2, 1)?;
    assert_eq!(rt; pipe.offer(&packet), Offer::Kept);
    assert_eq!(rt; pipe.offer(&packet), Offer::Limit);
    assert_eq!(rt; pipe.take(), Some(packet));
    assert_eq!(rt; pipe.take(), None);
    Ok(())
}

#[test]
fn a_packet_waits_in_the_pipe_of_its_id(rt: HostRuntime) -> Result<(), Fail> {
    let packet = noop()?;
    let mut bus = Bus::open(rt.alloc(), false)?;
    let mut drops = Drops::open(rt.alloc(), 1)?;
    bus.route(&packet, &mut drops);
    assert!(rt; drops.items().is_empty());
    assert_eq!(rt; bus.take(PipeName::Hs), None);
    assert_eq!(rt; bus.take(PipeName::Mm), Some(packet));
    assert_eq!(rt; bus.take(PipeName::Mm), None);
    Ok(())
}

/// Blank tables load, and none of their entries is used.
#[test]
fn blank_tables_load(rt: HostRuntime) -> Result<(), Fail> {
    let apps = load_appmon(&[0; 768]).ok().ok_or("refused")?;
    assert_eq!(rt; apps.entry(32), None);
    let events = load_eventmon(&[0; 384]).ok().ok_or("refused")?;
    assert_eq!(rt; events.entry(16), None);
    let counts = load_execount(&[0; 704]).ok().ok_or("refused")?;
    assert_eq!(rt; counts.entry(32), None);
    let actions = load_msgacts(&[0; 544]).ok().ok_or("refused")?;
    assert_eq!(rt; actions.entry(8), None);
    Ok(())
}

/// Two commands of an absolute sequence, and one of a relative sequence.
#[test]
fn sequences_load(rt: HostRuntime) -> Result<(), Fail> {
    let timed = b"\x00\x03\x00\x00\x03\xEA\x18\x88\xC0\x00\x00\x01\x00\xAE\
        \x03\xE8\x00\x00\x03\xE9\x18\x90\xC0\x00\x00\x01\x00\xB6";
    let ats = load_ats(timed).ok().ok_or("refused")?;
    assert_eq!(rt; ats.len(), 2);
    let relative = b"\x00\x05\x18\x88\xC0\x00\x00\x01\x00\xAE";
    let rts = load_rts(relative).ok().ok_or("refused")?;
    assert_eq!(rt; rts.len(), 1);
    Ok(())
}

/// A law is a call that does nothing: its contract is what counts.
#[test]
fn claim_law_is_called(_rt: HostRuntime) {
    claim_law();
}
