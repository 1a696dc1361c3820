// The filling of an Ethernet line.
ghost use Rattle.std.specs.Prelude.{[], ◌∷◌};
ghost use Rattle.line.specs.Fillings.{Decoded, Coded, EthernetFilled};

use crate::ethernet::{Ethernet, Rate};
use fault::PlanFault;

impl TryFrom<u8> for Rate {
    type Error = PlanFault;

    ghost try_from_gives = { Decoded };

    // The rate that a code means.
    fn try_from(code: u8) -> Result<Rate, PlanFault> {
        match code {
            1 => Ok(Rate::Mb10),
            2 => Ok(Rate::Mb100),
            3 => Ok(Rate::Mb1000),
            _ => Err(PlanFault::Filling),
        }
    }
}

impl Ethernet {
    // A new line: one port, with rate code 1.
    pub fn new() -> Ethernet
        ensures value { Coded (1 ∷ []) result }
    {
        Ethernet {
            ports: 1,
            rates: [Rate::Mb10; 32],
        }
    }

    // Other ports with these rate codes, or a refusal that changes nothing.
    pub fn fill(&mut self, codes: &[u8]) -> Result<(), PlanFault>
        ensures filled { EthernetFilled codes.now self.old result self.new }
    {
        if codes.is_empty() || codes.len() > 32 {
            return Err(PlanFault::Filling);
        }
        let mut rates = [Rate::Mb10; 32];
        // by index: what is written through `iter_mut` no proof sees after the loop
        for (port, code) in codes.iter().enumerate() {
            rates[port] = Rate::try_from(*code)?;
        }
        *self = Ethernet {
            ports: codes.len() as u8,
            rates,
        };
        Ok(())
    }
}
