// Prints the gate list of each port of the plan of an input, readably and as octets.
#![tactic(auto)]

use report::print_gate_lists;

// How to read what is printed.
const HELP: &str = "\
gates < INPUT

The input is that of the program listing, whose help says how to make one.
For each port of the plan there is a heading, and then a line for each gate record:
  port 1: 7 gate records
    00 for 1964 ns: 00 00 00 07 AC
the state octet (80 opens class 7, 7F opens classes 0 to 6, 00 opens none), its duration,
and the five octets of the record.
Where nothing could be planned there is only one line:
  X refusal   the input is too short (1), or its line or its set-up is refused
";

fn main(rt: HostRuntime) -> anyhow::Result<()> {
    print_gate_lists(&rt, HELP)
}
