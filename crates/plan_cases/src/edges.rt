// Edges of the checks, of overlap over all repetitions, and of the longest gate list.
use crate::records::{ethernet, gigabit, offer, offer_at, two_ports};
use fault::PlanFault;
use line::Ethernet;
use plan::Plan;
use sheet::{FlowRecord, PortRecord};
use std::test::Fail;

#[test]
fn limits_of_an_offer(rt: HostRuntime) -> Result<(), Fail> {
    let mut plan = gigabit(1_000_000)?;
    let offers = [
        (
            FlowRecord::new(7, 100, 500_000, 2_927, &[0, 1]),
            Err(PlanFault::Deadline),
        ),
        (FlowRecord::new(7, 100, 500_000, 2_928, &[0, 1]), Ok(0)),
        (
            FlowRecord::new(7, 100, 500_000, 2_928, &[0, 1]),
            Err(PlanFault::NumberHeld),
        ),
        (FlowRecord::new(8, 100, 62_500, 20_000, &[0]), Ok(864)),
        (
            FlowRecord::new(9, 100, 50_000, 20_000, &[0]),
            Err(PlanFault::Period),
        ),
        (
            FlowRecord::new(9, 100, 500_000, 20_000, &[1, 2]),
            Err(PlanFault::Route { hop: 1 }),
        ),
        (
            FlowRecord::new(9, 100, 500_000, 20_000, &[1, 0, 1]),
            Err(PlanFault::Route { hop: 2 }),
        ),
        (
            FlowRecord::new(9, 1_523, 500_000, 20_000, &[1]),
            Err(PlanFault::Length),
        ),
    ];
    for (flow, answer) in offers {
        assert_eq!(rt; offer(&mut plan, flow), answer);
    }
    Ok(())
}

#[test]
fn all_repetitions_count(rt: HostRuntime) -> Result<(), Fail> {
    let mut plan = gigabit(1_200_000)?;
    assert_eq!(rt;
        offer_at(&mut plan, FlowRecord::new(1, 100, 400_000, 20_000, &[0]), 0),
        Ok(0)
    );
    assert_eq!(rt;
        offer_at(
            &mut plan,
            FlowRecord::new(2, 100, 300_000, 20_000, &[0]),
            200_000
        ),
        Err(PlanFault::Taken)
    );
    assert_eq!(rt;
        offer_at(
            &mut plan,
            FlowRecord::new(2, 100, 300_000, 20_000, &[0]),
            200_864
        ),
        Ok(200_864)
    );
    Ok(())
}

#[test]
fn a_frame_as_long_as_its_period(rt: HostRuntime) -> Result<(), Fail> {
    let port = PortRecord {
        delay: 0,
        processing: 0,
        best_effort: 64,
    };
    let mut plan = two_ports(ethernet(&[1, 1])?, 57_600, port)?;
    assert_eq!(rt;
        offer(&mut plan, FlowRecord::new(1, 64, 57_600, 60_000, &[0])),
        Ok(0)
    );
    let mut buffer = [0; 5];
    assert_eq!(rt; plan.gate_list(0, &mut buffer)?, 1);
    assert!(rt; buffer == [0x80, 0, 0, 0xe1, 0]);
    let mut plan = two_ports(ethernet(&[1, 1])?, 57_599, port)?;
    assert_eq!(rt;
        offer(&mut plan, FlowRecord::new(1, 64, 57_599, 60_000, &[0])),
        Err(PlanFault::WireTime { hop: 0 })
    );
    Ok(())
}

#[test]
fn the_longest_gate_list(rt: HostRuntime) -> Result<(), Fail> {
    let mut plan = gigabit(1_000_000_000)?;
    for number in 1..=64 {
        let start = (u32::from(number) - 1) * 900_000 + 100_000;
        assert_eq!(rt;
            offer_at(
                &mut plan,
                FlowRecord::new(number, 100, 62_500_000, 20_000, &[0]),
                start,
            ),
            Ok(start)
        );
    }
    assert_eq!(rt;
        offer(
            &mut plan,
            FlowRecord::new(65, 100, 62_500_000, 20_000, &[0])
        ),
        Err(PlanFault::Full)
    );
    let mut short = [0x55; 15_364];
    assert_eq!(rt; plan.gate_list(0, &mut short), Err(PlanFault::Buffer));
    assert!(rt; short[0] == 0x55 && short[15_363] == 0x55);
    let mut buffer = [0x55; 15_365];
    assert_eq!(rt; plan.gate_list(0, &mut buffer), Ok(3_073));
    Ok(())
}

#[test]
fn calls_before_set_up(rt: HostRuntime) {
    let mut plan = Plan::new(Ethernet::new());
    assert_eq!(rt; plan.flowspan(), Err(PlanFault::NotSetUp));
    assert_eq!(rt; plan.withdraw(1), Err(PlanFault::NotSetUp));
    assert_eq!(rt; plan.gate_list(0, &mut []), Err(PlanFault::NotSetUp));
    assert_eq!(rt; plan.set_up(1_000, &[]), Err(PlanFault::PortCount));
}
