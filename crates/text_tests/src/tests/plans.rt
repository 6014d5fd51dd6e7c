//! That a plan of two patches is made its scenario where there is memory: a call that gave up for want of it would be proved too.
use plan_text::make_scenario;
use std::test::Fail;
use telecommands::commands;

/// The plan.
const PLAN: &[u8] =
    b"# Two patches and a write to EEPROM, while Memory Manager is held for two seconds.\n\
        epoch 1000\n\
        region RAM 0x1000 256\n\
        region EEPROM 0x10000 1024\n\
        start\n\
        \n\
        # What stands there before.\n\
        send mm.peek width=8 address=0x1080\n\
        send mm.dump address=0x1080 length=4\n\
        \n\
        at +0:00:02\n\
        # The patches come while the application is held.\n\
        hold MM\n\
        send mm.poke width=16 address=0x1010 value=0xBEEF\n\
        send mm.load address=0x1020 bytes=313233343536373839\n\
        frame 3\n\
        hold MM\n\
        \n\
        at +0:00:05\n\
        # A byte is upset, and asked for.\n\
        upset 0x1080 0x5A\n\
        send mm.peek width=8 address=0x1080\n\
        \n\
        at 1007\n\
        # EEPROM is opened, written a second later, closed and read.\n\
        send mm.eeprom_enable region=2\n\
        tick\n\
        send mm.poke width=8 address=0x10010 value=0x5A\n\
        tick\n\
        send mm.eeprom_disable region=2\n\
        send mm.peek width=8 address=0x10010\n\
        end at +0:00:12\n";

/// The scenario that it is.
const SCENARIO: &[u8] = b"epoch 1000\n\
        region RAM 0x1000 256\n\
        region EEPROM 0x10000 1024\n\
        start\n\
        send 1888C000000602330800001080\n\
        send 1888C00000090D3F0000108000000004\n\
        tick\n\
        tick\n\
        hold MM\n\
        send 1888C000000A03E710000010100000BEEF\n\
        send 1888C0000010043C00001020BB3D313233343536373839\n\
        tick\n\
        hold MM\n\
        tick\n\
        tick\n\
        upset 0x1080 0x5A\n\
        send 1888C000000602330800001080\n\
        tick\n\
        tick\n\
        send 1888C00000020BA402\n\
        tick\n\
        send 1888C000000A03E508000100100000005A\n\
        tick\n\
        send 1888C00000020CA302\n\
        send 1888C000000602B20800010010\n\
        tick\n\
        tick\n\
        tick\n\
        end\n";

#[test]
fn the_plan_of_the_page_is_made_its_scenario(rt: HostRuntime) -> Result<(), Fail> {
    let mut scratch = Vec::new(rt.alloc());
    let mut scenario = Vec::new(rt.alloc());
    make_scenario(commands(), PLAN, &mut scratch, &mut scenario)?;
    assert_eq!(rt; scenario.as_slice(), SCENARIO);
    Ok(())
}
