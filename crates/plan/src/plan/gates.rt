// The gate list of a port.
ghost use Rattle.std.specs.Prelude.{◌≡◌, length};
ghost use Rattle.plan.specs.Steps.{gates_answer, list_written};
ghost use Rattle.plan.specs.Views.{held_by, wires_of};

use crate::gates::PortGates;
use crate::plan::Plan;
use fault::PlanFault;
use line::Line;

impl<L: Line> Plan<L> {
    // Writes the gate list of a port as records from the front of the buffer, and answers how many there are.
    pub fn gate_list(&self, port: u8, buffer: &mut [u8]) -> Result<usize, PlanFault>
        ensures value { result ≡ gates_answer (wires_of self.now) (held_by self.now) port (length buffer.old) }
        ensures same { self.exit.now ≡ self.entry.now }
        ensures after { buffer.new ≡ list_written (wires_of self.now) (held_by self.now) buffer.old port }
    {
        let setup = self.set_up_with()?;
        if port >= self.line.ports() {
            return Err(PlanFault::NoPort);
        }
        let figures = setup.port(port);
        let guard = self.line.wire_time(port, figures.best);
        let gates = PortGates {
            rows: &self.rows,
            port,
            cycle: setup.cycle,
            guard,
        };
        gates.write(buffer)
    }
}
