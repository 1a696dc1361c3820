// The wire times of a cell line.
ghost use Rattle.std.specs.Prelude.{◌≡◌, ◌*◌, ◌≤◌};
ghost use Rattle.line.specs.Times.{cell_time};
ghost use Rattle.std.proofs.Common.{mul-le-mul_right, arith, rules};
ghost use Rattle.line.specs.Times;
ghost use Rattle.line.specs.Carried.{carried_within, carried_by_cases};
ghost use Rattle.line.specs.Cells.{cells_some, cells_time_most, cells_monotone};

use crate::cell::Cell;
use crate::line::Line;

impl Line for Cell {
    const LARGEST: u16 = 4000;

    ghost LARGEST = { 4000 };

    ghost meaning = { λ x. record { ports = x.ports; time = cell_time x.ports x.size x.time } };

    ghost least = { Prim.search rules };

    ghost greatest = { Prim.search rules };

    ghost some = { Prim.search rules };

    ghost few = { Prim.search rules };

    ghost absent = { Prim.search rules };

    ghost short = { Prim.search rules };

    ghost long = { Prim.search rules };

    ghost timed = { λ x q l port least most.
        let some = mul-le-mul_right x.time (cells_some l x.size (omega arith) (omega arith)) in
        rw (carried_within x.ports 4000 q l (Times.cells l x.size * x.time) port least most) (omega arith) };

    ghost bounded = { λ x q l.
        carried_by_cases (λ n. n ≤ 10000000) x.ports 4000 q l (Times.cells l x.size * x.time)
        (λ _ _ most. cells_time_most l x.size x.time most x.size_least x.time_most) (omega arith) };

    ghost longer = { λ x q l m least le most.
        carried_by_cases (λ n. n ≤ cell_time x.ports x.size x.time q m) x.ports 4000 q l (Times.cells l x.size * x.time)
        (λ port _ _.
        let more = mul-le-mul_right x.time (cells_monotone l m x.size (omega arith) le) in
        rw (carried_within x.ports 4000 q m (Times.cells m x.size * x.time) port (omega arith) most) more)
        (omega arith) };

    fn ports(&self) -> u8 {
        self.ports
    }

    fn wire_time(&self, port: u8, length: u16) -> u32 {
        if !self.carries(port, length) {
            return 0;
        }
        // a last cell that is not full takes its whole time
        u32::from(length).div_ceil(u32::from(self.size)) * self.time
    }
}
