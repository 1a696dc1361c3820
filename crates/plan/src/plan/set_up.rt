// The set-up of a plan.
ghost use Rattle.std.specs.Prelude.{◌≡◌, Some, Ok, Err};
ghost use Rattle.plan.specs.Calls.{set_up_answer};
ghost use Rattle.plan.specs.Models.{setup as stored};
ghost use Rattle.plan.specs.Views.{held_by, wires_of};

use crate::figures::read_ports;
use crate::plan::Plan;
use crate::setup::Setup;
use fault::PlanFault;
use line::Line;

// The limits of the cycle, in nanoseconds.
const LEAST_CYCLE: u32 = 1_000;

const GREATEST_CYCLE: u32 = 1_000_000_000;

impl<L: Line> Plan<L> {
    // Sets the plan up with a cycle and a sheet of port records, one a port.
    pub fn set_up(&mut self, cycle: u32, ports: &[u8]) -> Result<(), PlanFault>
        ensures value { result ≡ elim (set_up_answer (wires_of self.old) (held_by self.old) cycle ports.now) [ Ok _ ↦ Ok tt | Err e ↦ Err e ] }
        ensures line { self.new.line ≡ self.old.line }
        ensures rows { self.new.rows ≡ self.old.rows }
        ensures after { elim (set_up_answer (wires_of self.old) (held_by self.old) cycle ports.now) [ Ok c ↦ stored self.new.setup ≡ Some c | Err _ ↦ self.new.setup ≡ self.old.setup ] }
    {
        let figures = read_ports(ports)?;
        if self.setup.is_some() {
            return Err(PlanFault::SetUpTwice);
        }
        if !(LEAST_CYCLE..=GREATEST_CYCLE).contains(&cycle) {
            return Err(PlanFault::Cycle);
        }
        if figures.count != usize::from(self.line.ports()) {
            return Err(PlanFault::PortCount);
        }
        if figures.longest > L::LARGEST {
            return Err(PlanFault::BestEffort);
        }
        let ports = figures.ports;
        self.setup = Some(Setup {
            cycle,
            count: figures.count as u8,
            ports,
        });
        Ok(())
    }
}
