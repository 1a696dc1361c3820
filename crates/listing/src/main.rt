// Prints the listing of the input on the standard input, or how to make an input.
#![tactic(auto)]

use report::print_listing;

// How to make an input and read a listing.
const HELP: &str = "\
listing < INPUT

The input, most significant octet first:
  4 octets   the cycle C, in nanoseconds
  1 octet    the number of ports n
  n octets   a rate code for each port: 1, 2 or 3 for 10, 100 or 1,000 Mb/s
  8n octets  a port record for each port
  the rest   flow records of 21 octets

The listing has a line for each flow record, and last the flowspan:
  F number start     the flow is planned with this start
  R number refusal   the flow is refused; the number is 0 where the record itself is faulty
  S flowspan         the greatest start + total time
or only one line, where nothing could be planned:
  X refusal          the input is too short (1), or its line or its set-up is refused
";

fn main(rt: HostRuntime) -> anyhow::Result<()> {
    print_listing(&rt, HELP)
}
