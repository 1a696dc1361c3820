// Records made for the tests, and offers of them.
use fault::PlanFault;
use line::{Ethernet, Line};
use plan::Plan;
use sheet::{FlowRecord, GateRecord, GateState, PortRecord, Reader, RecordKind, write_sheet};
use std::process::Abort;
use std::test::Fail;

// Offers one flow record.
pub(crate) fn offer<L: Line>(plan: &mut Plan<L>, flow: FlowRecord) -> Result<u32, PlanFault> {
    let mut sheet = [0; 21];
    flow.write(&mut sheet)?;
    plan.offer(&sheet, 0)
}

// Offers one flow record at a chosen start.
pub(crate) fn offer_at<L: Line>(
    plan: &mut Plan<L>,
    flow: FlowRecord,
    s: u32,
) -> Result<u32, PlanFault> {
    let chosen = FlowRecord {
        start: Some(s),
        ..flow
    };
    offer(plan, chosen)
}

// A plan of two equal ports of a line.
pub(crate) fn two_ports<L: Line>(
    line: L,
    cycle: u32,
    port: PortRecord,
) -> Result<Plan<L>, PlanFault>
where
    L: Drop,
{
    let mut sheet = [0; 16];
    write_sheet(&[port, port], &mut sheet)?;
    let mut plan = Plan::new(line);
    plan.set_up(cycle, &sheet)?;
    Ok(plan)
}

// A line filled with the rate codes of its ports.
pub(crate) fn ethernet(codes: &[u8]) -> Result<Ethernet, PlanFault> {
    let mut line = Ethernet::new();
    line.fill(codes)?;
    Ok(line)
}

// Two ports at 1,000 Mb/s with delays of 100 and 1,000 ns and best-effort frames of any length.
pub(crate) fn gigabit(cycle: u32) -> Result<Plan<Ethernet>, PlanFault> {
    two_ports(
        ethernet(&[3, 3])?,
        cycle,
        PortRecord {
            delay: 100,
            processing: 1_000,
            best_effort: 1_522,
        },
    )
}

// The records at the front of a buffer are these states with their durations.
pub(crate) fn check_list(
    rt: &impl Abort,
    buffer: &[u8],
    expected: &[(GateState, u32)],
) -> Result<(), Fail> {
    for (k, (state, duration)) in expected.iter().enumerate() {
        let found: GateRecord = Reader::new(buffer, k).read()?;
        assert_eq!(rt;
            found,
            GateRecord {
                state: *state,
                duration: *duration,
            }
        );
    }
    Ok(())
}
