//! That a plan with dates is made its scenario where there is memory: a call that gave up for want of it would be proved too.
use std::test::Fail;
use telecommands::commands;
use timed_plans::schedule_plan;

/// Dates, times of day, and one within a telecommand.
const PLAN: &[u8] = b"epoch 1000 is 2026-11-29T18:00:00Z\n\
        region RAM 0x1000 256\n\
        start\n\
        at 2026-11-29T18:00:01Z\n\
        hold MM\n\
        from 18:00:02 to 18:00:04\n\
        hold CS\n\
        at +0:00:04\n\
        send sc.jump_ats time=18:03:05\n\
        end at 2026-11-29T18:00:06Z\n";

/// Its scenario, whose epoch has no date.
const SCENARIO: &[u8] = b"epoch 1000\n\
        region RAM 0x1000 256\n\
        start\n\
        tick\n\
        hold MM\n\
        tick\n\
        hold CS\n\
        tick\n\
        hold CS\n\
        tick\n\
        send 18A9C00000050927000004A1\n\
        tick\n\
        tick\n\
        end\n";

#[test]
fn a_plan_with_dates_is_made_its_scenario(rt: HostRuntime) -> Result<(), Fail> {
    let scenario = schedule_plan(rt.alloc(), commands(), PLAN)?;
    assert_eq!(rt; scenario.as_slice(), SCENARIO);
    Ok(())
}
