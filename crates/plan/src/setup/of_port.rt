// The figures of one port of a set-up.
ghost use Rattle.std.specs.Prelude.{◌≡◌, ◌≤◌, slice_index_or};
ghost use Rattle.planning.specs.Setups.{blank as no_port};
ghost use Rattle.plan.specs.Ports.{port as figures};
ghost use Rattle.plan.specs.Setups.{setup as set_up};

use crate::setup::{Port, Setup};

impl Setup {
    // The figures of a port, all 0 where the set-up has no such port: a caller adds them up
    // and would make no more of an Option.
    pub(crate) fn port(&self, port: u8) -> Port
        ensures value { figures result ≡ slice_index_or (set_up self.now).ports port no_port }
        ensures delay { result.delay ≤ 100000 }
        ensures processing { result.processing ≤ 1000000 }
    {
        self.ports[..usize::from(self.count)]
            .get(usize::from(port))
            .copied()
            .unwrap_or_default()
    }
}
