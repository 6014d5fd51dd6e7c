//! That a scenario is shown as a plan where there is memory: a call that gave up for want of it would be proved too.
use shown_plans::show_plan;
use std::test::Fail;
use telecommands::commands;

/// Two runs of ticks, a packet that a command says and one that none says, and a packet whose digits are in lower case.
const SCENARIO: &[u8] = b"epoch 1000\n\
        region  RAM 0x1000 256\n\
        start\n\
        # A byte is asked for.\n\
        send 1888c000000602330800001080\n\
        app NAV 1\n\
        tick\n\
        tick\n\
        send 1888C000000163CD\n\
        hold MM\n\
        tick\n\
        end\n";

/// Its plan.
const PLAN: &[u8] = b"epoch 1000\n\
        region RAM 0x1000 256\n\
        start\n\
        send mm.peek width=8 address=0x00001080\n\
        app NAV 1\n\
        frame 2\n\
        send 1888C000000163CD\n\
        hold MM\n\
        frame 3\n\
        end\n";

#[test]
fn a_scenario_is_shown_as_a_plan(rt: HostRuntime) -> Result<(), Fail> {
    let plan = show_plan(rt.alloc(), commands(), SCENARIO)?;
    assert_eq!(rt; plan.as_slice(), PLAN);
    Ok(())
}
