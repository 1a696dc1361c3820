// A line with odd times, which no planner can guess: the plan must ask its line.
ghost use Rattle.std.specs.Prelude.{◌+◌, ◌*◌, ◌≤◌};
ghost use Rattle.line.specs.Times.{carried};
ghost use Rattle.std.proofs.Common.{arith, rules};
ghost use Rattle.line.specs.Carried.{carried_within, carried_by_cases};

use crate::records::{check_list, offer, two_ports};
use fault::PlanFault;
use line::Line;
use sheet::{FlowRecord, GateState, PortRecord};
use std::test::Fail;

// Two ports that take 101 and 233 ns for every frame of 64 to 777 octets: other numbers, by another formula, than any other line.
#[derive(Clone, Copy)]
pub(crate) struct Odd;

impl Line for Odd {
    const LARGEST: u16 = 777;

    ghost LARGEST = { 777 };

    ghost meaning = { λ _. record { ports = 2; time = λ q l. carried 2 777 q l (q * 132 + 101) } };

    ghost least = { Prim.search rules };

    ghost greatest = { Prim.search rules };

    ghost some = { Prim.search rules };

    ghost few = { Prim.search rules };

    ghost absent = { Prim.search rules };

    ghost short = { Prim.search rules };

    ghost long = { Prim.search rules };

    ghost timed = { λ x q l port least most. rw (carried_within 2 777 q l (q * 132 + 101) port least most) (omega arith) };

    ghost bounded = { λ x q l. carried_by_cases (λ n. n ≤ 10000000) 2 777 q l (q * 132 + 101) (λ port _ _. omega arith) (omega arith) };

    ghost longer = { λ x q l m least le most.
        carried_by_cases (λ n. n ≤ carried 2 777 q m (q * 132 + 101)) 2 777 q l (q * 132 + 101)
        (λ port _ _. rw (carried_within 2 777 q m (q * 132 + 101) port (omega arith) most) (omega arith)) (omega arith) };

    fn ports(&self) -> u8 {
        2
    }

    fn wire_time(&self, port: u8, length: u16) -> u32 {
        if !self.carries(port, length) {
            return 0;
        }
        u32::from(port) * 132 + 101
    }
}

#[test]
fn a_line_with_odd_times(rt: HostRuntime) -> Result<(), Fail> {
    let port = PortRecord {
        delay: 7,
        processing: 11,
        best_effort: 777,
    };
    let mut plan = two_ports(Odd, 10_010, port)?;
    assert_eq!(rt;
        offer(&mut plan, FlowRecord::new(1, 64, 5_005, 358, &[0, 1])),
        Err(PlanFault::Deadline)
    );
    assert_eq!(rt;
        offer(&mut plan, FlowRecord::new(1, 64, 5_005, 359, &[0, 1])),
        Ok(0)
    );
    assert_eq!(rt;
        offer(&mut plan, FlowRecord::new(2, 777, 10_010, 1_000, &[1])),
        Ok(352)
    );
    assert_eq!(rt;
        offer(&mut plan, FlowRecord::new(3, 100, 5_005, 1_000, &[0])),
        Ok(101)
    );
    assert_eq!(rt;
        offer(&mut plan, FlowRecord::new(4, 778, 5_005, 1_000, &[0])),
        Err(PlanFault::Length)
    );
    assert_eq!(rt; plan.flowspan(), Ok(592));
    let mut buffer = [0; 35];
    assert_eq!(rt; plan.gate_list(1, &mut buffer), Ok(7));
    check_list(
        &rt,
        &buffer,
        &[
            (GateState::Closed, 119),
            (GateState::Scheduled, 466),
            (GateState::BestEffort, 4_306),
            (GateState::Closed, 233),
            (GateState::Scheduled, 233),
            (GateState::BestEffort, 4_539),
            (GateState::Closed, 114),
        ],
    )
}
