// Prints the records of a sheet. The first argument is the kind of its records: port, flow or gate. The sheet is the standard input.
#![tactic(auto)]

mod kind;
mod line;
mod listed;

use anyhow::Context;
use kind::Kind;
use std::env;
use std::io::Read;

// Prints the listing of the sheet on the standard input.
fn run(rt: &HostRuntime) -> anyhow::Result<()> {
    let heap = rt.alloc();
    let name = env::args(rt)?
        .nth(1)
        .context("name the kind of the records: port, flow or gate")?;
    let kind: Kind = name.parse()?;
    let mut sheet = Vec::new(heap);
    rt.stdin().read_to_end(&mut sheet)?;
    rt.print(kind.listing(heap, &sheet)?)?;
    Ok(())
}

fn main(rt: HostRuntime) -> anyhow::Result<()> {
    run(&rt)
}
