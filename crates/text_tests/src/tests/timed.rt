//! That a plan is made its scenario where there is memory: a call that gave up for want of it would be proved too.
use std::test::Fail;
use telecommands::commands;
use timed_plans::schedule_plan;

/// Lines in any order of time, a span, a period, a hold of two frames and counters.
const PLAN: &[u8] = b"# NAV hangs for two seconds.\n\
        epoch 1000\n\
        region  RAM 0x1000 256\n\
        start\n\
        every 2s from +0:00:00 to +0:00:05\n\
        send mm.peek width=8 address=0x1080\n\
        from 1000 to 1002\n\
        counter NAV counts\n\
        from 1002 to 1004\n\
        counter NAV stays\n\
        at 1003\n\
        hold MM for 2\n\
        from 1004 to 1006\n\
        counter NAV = 7\n\
        at +0:00:01\n\
        upset 0x1080 0x5A\n\
        send 1888c000000602330800001080\n\
        end at +0:00:06\n";

/// Its scenario.
const SCENARIO: &[u8] = b"epoch 1000\n\
        region RAM 0x1000 256\n\
        start\n\
        send 1888C000000602330800001080\n\
        app NAV 1\n\
        tick\n\
        app NAV 2\n\
        upset 0x1080 0x5A\n\
        send 1888C000000602330800001080\n\
        tick\n\
        send 1888C000000602330800001080\n\
        app NAV 2\n\
        tick\n\
        app NAV 2\n\
        hold MM\n\
        tick\n\
        send 1888C000000602330800001080\n\
        hold MM\n\
        app NAV 7\n\
        tick\n\
        app NAV 7\n\
        tick\n\
        end\n";

#[test]
fn a_plan_in_any_order_is_made_its_scenario(rt: HostRuntime) -> Result<(), Fail> {
    let scenario = schedule_plan(rt.alloc(), commands(), PLAN)?;
    assert_eq!(rt; scenario.as_slice(), SCENARIO);
    Ok(())
}
