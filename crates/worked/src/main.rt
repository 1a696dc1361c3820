// Performs a list of calls on a plan and prints a record of what it did: two ports at 1,000 Mb/s and four flows.
#![tactic(auto)]

mod script;
mod text;

use anyhow::anyhow;
use line::Ethernet;
use plan::{Call, perform};
use script::{flow_sheet, port_sheet};
use text::AnswerLine;

// Performs the calls in order and prints a line for each, with the words that the record has for the call.
fn record<'a>(
    rt: &HostRuntime,
    line: Ethernet,
    ports: &'a [u8],
    flows: &'a [u8],
) -> anyhow::Result<()> {
    let cycle = 1_000_000;
    let script = [
        ("flowspan", Call::Flowspan),
        ("set-up", Call::SetUp { cycle, ports }),
        ("set-up", Call::SetUp { cycle, ports }),
        ("offer 0", Call::Offer { flows, index: 0 }),
        ("offer 1", Call::Offer { flows, index: 1 }),
        ("offer 2", Call::Offer { flows, index: 2 }),
        ("offer 3", Call::Offer { flows, index: 3 }),
        ("offer 4", Call::Offer { flows, index: 4 }),
        ("start of 9", Call::StartOf { number: 9 }),
        ("flowspan", Call::Flowspan),
        ("gate list of 1", Call::GateList { port: 1 }),
        ("withdrawal of 9", Call::Withdraw { number: 9 }),
        ("start of 9", Call::StartOf { number: 9 }),
        ("flowspan", Call::Flowspan),
        ("gate list of 2", Call::GateList { port: 2 }),
    ];
    let calls = script.map(|(_, call)| call);
    let mut buffer = [0; 15_365];
    // Not by `map_err` and `?`: the check does not follow the borrows of the calls through them.
    let Ok(done) = perform(rt.alloc(), line, &calls, &mut buffer) else {
        return Err(anyhow!("no memory"));
    };
    for ((name, _), answer) in script.iter().zip(done.answers.iter().copied()) {
        rt.println(AnswerLine { name, answer })?;
    }
    Ok(())
}

// Fills the line, writes the sheets and makes the record. One sentence for the three: what is refused is a mistake of this file.
fn run(rt: &HostRuntime) -> anyhow::Result<()> {
    let mut line = Ethernet::new();
    let mut ports = [0; 16];
    let mut flows = [0; 84];
    if line.fill(&[3, 3]).is_err()
        || port_sheet(&mut ports).is_err()
        || flow_sheet(&mut flows).is_err()
    {
        return Err(anyhow!("the records cannot be written"));
    }
    record(rt, line, &ports, &flows)
}

fn main(rt: HostRuntime) -> anyhow::Result<()> {
    run(&rt)
}
