// The worked case: two ports at 1,000 Mb/s, cycle 1,000,000, flows 7, 9 and 11.
use crate::records::{check_list, gigabit, offer, offer_at};
use fault::PlanFault;
use line::Ethernet;
use plan::Plan;
use sheet::{FlowRecord, GateState};
use std::test::Fail;

// Flows 7 and 9 held.
fn held() -> Result<Plan<Ethernet>, PlanFault> {
    let mut plan = gigabit(1_000_000)?;
    offer(&mut plan, FlowRecord::new(7, 100, 500_000, 20_000, &[0, 1]))?;
    offer(
        &mut plan,
        FlowRecord::new(9, 1_000, 1_000_000, 20_000, &[1]),
    )?;
    Ok(plan)
}

#[test]
fn starts_and_flowspan(rt: HostRuntime) -> Result<(), Fail> {
    let mut plan = held()?;
    assert_eq!(rt; plan.start_of(7)?, 0);
    assert_eq!(rt; plan.start_of(9)?, 2_828);
    assert_eq!(rt;
        offer(&mut plan, FlowRecord::new(11, 64, 300_000, 20_000, &[0])),
        Err(PlanFault::Period)
    );
    assert_eq!(rt; plan.flowspan()?, 10_992);
    plan.withdraw(9)?;
    assert_eq!(rt; plan.start_of(9), Err(PlanFault::NotHeld));
    assert_eq!(rt; plan.flowspan()?, 2_928);
    Ok(())
}

#[test]
fn gate_list_of_port_1(rt: HostRuntime) -> Result<(), Fail> {
    let plan = held()?;
    let mut buffer = [0xaa; 40];
    assert_eq!(rt; plan.gate_list(1, &mut buffer)?, 7);
    let expected = [
        (GateState::Closed, 1_964),
        (GateState::Scheduled, 8_928),
        (GateState::BestEffort, 478_832),
        (GateState::Closed, 12_240),
        (GateState::Scheduled, 864),
        (GateState::BestEffort, 486_896),
        (GateState::Closed, 10_276),
    ];
    check_list(&rt, &buffer, &expected)?;
    assert!(rt; buffer[0..10] == [0, 0, 0, 0x07, 0xac, 0x80, 0, 0, 0x22, 0xe0]);
    assert!(rt; buffer[35..40] == [0xaa; 5]);
    assert_eq!(rt; plan.gate_list(2, &mut buffer), Err(PlanFault::NoPort));
    assert_eq!(rt;
        plan.gate_list(1, &mut buffer[0..34]),
        Err(PlanFault::Buffer)
    );
    Ok(())
}

#[test]
fn chosen_starts(rt: HostRuntime) -> Result<(), Fail> {
    let probe = FlowRecord::new(20, 100, 500_000, 20_000, &[1]);
    let starts = [
        (10_892, Ok(10_892)),
        (10_891, Err(PlanFault::Taken)),
        (1_100, Ok(1_100)),
        (1_101, Err(PlanFault::Taken)),
        (500_000, Err(PlanFault::Start)),
    ];
    for (start, answer) in starts {
        assert_eq!(rt; offer_at(&mut held()?, probe, start), answer);
    }
    Ok(())
}
