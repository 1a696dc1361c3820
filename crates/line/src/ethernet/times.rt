// The wire times of an Ethernet line.
ghost use Rattle.std.specs.Prelude.{◌≡◌};
ghost use Rattle.line.specs.Times.{ethernet_time, octet};
ghost use Rattle.std.proofs.Common.{rules};

use crate::ethernet::{Ethernet, Rate};
use crate::line::Line;

impl Rate {
    // Nanoseconds an octet.
    fn octet(self) -> u32
        ensures value { result ≡ octet self }
    {
        match self {
            Rate::Mb10 => 800,
            Rate::Mb100 => 80,
            Rate::Mb1000 => 8,
        }
    }
}

impl Line for Ethernet {
    const LARGEST: u16 = 1522;

    ghost LARGEST = { 1522 };

    ghost meaning = { λ x. record { ports = x.ports; time = ethernet_time x.ports x.rates } };

    ghost least = { Prim.search rules };

    ghost greatest = { Prim.search rules };

    ghost some = { Prim.search rules };

    ghost few = { Prim.search rules };

    ghost absent = { Prim.search rules };

    ghost short = { Prim.search rules };

    ghost long = { Prim.search rules };

    ghost timed = { Prim.search rules };

    ghost bounded = { Prim.search rules };

    ghost longer = { Prim.search rules };

    fn ports(&self) -> u8 {
        self.ports
    }

    fn wire_time(&self, port: u8, length: u16) -> u32 {
        if !self.carries(port, length) {
            return 0;
        }
        // the preamble and the start delimiter are 8 octets
        (u32::from(length) + 8) * self.rates[usize::from(port)].octet()
    }
}
