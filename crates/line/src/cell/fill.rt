// The filling of a cell line.
ghost use Rattle.std.specs.Prelude.{◌≡◌};
ghost use Rattle.line.specs.Fillings.{Celled, CellFilled};

use crate::cell::Cell;
use fault::PlanFault;

impl Cell {
    // A new line: one port, cells of 64 octets and 1 ns.
    pub fn new() -> Cell
        ensures value { Celled 1 64 1 result }
    {
        Cell {
            ports: 1,
            size: 64,
            time: 1,
        }
    }

    // Other ports and figures, or a refusal that changes nothing.
    pub fn fill(&mut self, ports: u8, size: u16, time: u32) -> Result<(), PlanFault>
        ensures filled { CellFilled ports size time self.old result self.new }
    {
        if !(1..=32).contains(&ports)
            || !(64..=1024).contains(&size)
            || !(1..=100_000).contains(&time)
        {
            return Err(PlanFault::Filling);
        }
        *self = Cell { ports, size, time };
        Ok(())
    }
}
