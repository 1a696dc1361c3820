// Reads commands, performs them on an Ethernet line and a cell line, and prints what came of each.
#![tactic(auto)]

mod answer;
mod command;
mod lines;
mod read;
mod transcript;
mod words;

use std::io::Read;
use std::{io, str};
use transcript::transcript;

fn main(rt: HostRuntime) -> io::Result<()> {
    let heap = rt.alloc();
    let mut input = Vec::new(heap);
    rt.stdin().read_to_end(&mut input)?;
    match str::from_utf8(input.as_slice()) {
        Ok(text) => rt.print(transcript(heap, text)?),
        Err(_) => rt.println("the input is not UTF-8 text"),
    }
}
