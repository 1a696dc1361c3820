// The flow record: a flow's number, frame length, period, deadline, start and route.
ghost use Rattle.std.specs.Prelude.{◌≡◌, ◌+◌, ◌*◌, ◌^◌, ◌<◌, length, take};
ghost use Rattle.sheet.specs.Fields.{field as field_of, packed, Fit};
ghost use Rattle.sheet.specs.Limits.{from_to, zero_at};
ghost use Rattle.sheet.specs.Flows.{free_flow, flow_of, used as used_slot, unused as unused_slot, flow_zeros, flow_limits, head_parts, route_parts, read_flow, judge_flow, written_flow};
ghost use Rattle.sheet.specs.FlowsLemmas.{flow-readback, flow-writable, flow-rewritten};
ghost use Rattle.std.proofs.Common.{rules};

use crate::field::field;
use crate::kind::RecordKind;
use crate::limited::{Limited, judge};
use fault::{PlanFault, RecordFault, SheetFault};
use std::array;

// A slot of the route. That it is below 8 stands here and at the two functions of a slot below: a type for it would be taken
// apart again in each.
fn port(octets: &[u8; 21], slot: usize) -> u8
    requires slot { slot < 8 }
    ensures value { result ≡ field_of 21 (125 + 5 * slot) 5 octets.now }
{
    field(octets, 125 + 5 * slot, 5) as u8
}

#[derive(Clone, Copy, PartialEq, Eq, Debug)]
pub struct FlowRecord {
    pub number: u16,
    pub length: u16,
    pub period: u32,
    pub deadline: u32,
    // The chosen start, or none where it is left to the planner.
    pub start: Option<u32>,
    // The hop count and all eight slots, as the record has them: a faulty one can be told, and refused.
    pub hops: u8,
    pub ports: [u8; 8],
}

impl FlowRecord {
    // A record with no start chosen. A route of more than eight ports has the hop count nine, which is refused.
    pub fn new(number: u16, length: u16, period: u32, deadline: u32, route: &[u8]) -> FlowRecord
        ensures value { result ≡ free_flow number length period deadline route.now }
    {
        FlowRecord {
            number,
            length,
            period,
            deadline,
            start: None,
            hops: route.len().min(9) as u8,
            ports: array::from_fn(|slot| route.get(slot).copied().unwrap_or(0)),
        }
    }

    // The ports before the hop count.
    pub fn route(&self) -> &[u8]
        ensures value { result.now ≡ take self.now.hops self.now.ports }
    {
        let hops = usize::from(self.hops).min(8);
        &self.ports[0..hops]
    }

    // The record that 21 octets hold, whatever its values.
    fn from_octets(octets: &[u8; 21]) -> FlowRecord
        ensures value { result ≡ flow_of octets.now }
    {
        let chosen = field(octets, 90, 1) == 1;
        FlowRecord {
            number: field(octets, 0, 16) as u16,
            length: field(octets, 16, 14) as u16,
            period: field(octets, 30, 30),
            deadline: field(octets, 60, 30),
            start: chosen.then_some(field(octets, 91, 30)),
            hops: field(octets, 121, 4) as u8,
            ports: array::from_fn(|slot| port(octets, slot)),
        }
    }

    // A slot before the hop count, with its limits.
    fn used(&self, slot: u16) -> Limited
        requires slot { slot < 8 }
        ensures value { result ≡ from_to (125 + 5 * slot) (used_slot self.now slot) 0 31 }
    {
        let port = if slot < u16::from(self.hops) {
            self.ports[usize::from(slot)]
        } else {
            0
        };
        Limited::new(125 + 5 * slot, u32::from(port), 0, 31)
    }

    // A slot from the hop count on, which must be zero. Unlike a used one it has no limits but 0, so the two are not one function.
    fn unused(&self, slot: u16) -> Limited
        requires slot { slot < 8 }
        ensures value { result ≡ zero_at (125 + 5 * slot) (unused_slot self.now slot) }
        ensures slots { length self.now.ports ≡ 8 }
    {
        let port = if slot < u16::from(self.hops) {
            0
        } else {
            self.ports[usize::from(slot)]
        };
        Limited::zero(125 + 5 * slot, u32::from(port))
    }

    // What must be zero, with a start that is not chosen and the spare bits. This table and the next name each slot, so that
    // they stand in the order of the bits as the format's own table does.
    fn zeros(&self, start: u32, spare: u32) -> [Limited; 10]
        ensures value { result ≡ flow_zeros start spare self.now }
        ensures slots { length self.now.ports ≡ 8 }
    {
        [
            Limited::zero(91, start),
            self.unused(0),
            self.unused(1),
            self.unused(2),
            self.unused(3),
            self.unused(4),
            self.unused(5),
            self.unused(6),
            self.unused(7),
            Limited::zero(165, spare),
        ]
    }

    fn limits(&self) -> [Limited; 14]
        ensures value { result ≡ flow_limits self.now }
    {
        [
            Limited::new(0, u32::from(self.number), 1, 65_535),
            Limited::new(16, u32::from(self.length), 64, 9_600),
            Limited::new(30, self.period, 1, 1_000_000_000),
            Limited::new(60, self.deadline, 1, 1_000_000_000),
            Limited::new(91, self.start.unwrap_or(0), 0, 999_999_999),
            Limited::new(121, u32::from(self.hops), 1, 8),
            self.used(0),
            self.used(1),
            self.used(2),
            self.used(3),
            self.used(4),
            self.used(5),
            self.used(6),
            self.used(7),
        ]
    }

    // The 40 bits of the port slots: a loop for the reason that `number_of` is one. That the parts fit their bits is what `judge`
    // finds; no type keeps it, since a record may hold any numbers.
    fn packed_route(&self) -> u64
        requires fits { Fit (route_parts self.now.ports) }
        ensures value { result ≡ packed (route_parts self.now.ports) }
        ensures bound { result < 2 ^ 40 }
    {
        let mut route = 0;
        for port in &self.ports {
            route = route * 32 + u64::from(*port);
        }
        route
    }

    // The 125 bits before the route.
    fn head(&self) -> u128
        requires fits { Fit (head_parts self.now) }
        ensures value { result ≡ packed (head_parts self.now) }
        ensures bound { result < 2 ^ 125 }
    {
        let number = u128::from(self.number) << 109;
        let length = u128::from(self.length) << 95;
        let period = u128::from(self.period) << 65;
        let deadline = u128::from(self.deadline) << 35;
        let chosen = u128::from(self.start.is_some()) << 34;
        let start = u128::from(self.start.unwrap_or(0)) << 4;
        number + length + period + deadline + chosen + start + u128::from(self.hops)
    }

    // The octets of a record that may be written: 16 from the head and the first three bits of the route, then 5.
    fn to_octets(&self) -> [u8; 21]
        requires head { Fit (head_parts self.now) }
        requires route { Fit (route_parts self.now.ports) }
        ensures value { result ≡ written_flow self.now }
    {
        let route = self.packed_route();
        let high = (self.head() << 3) + u128::from(route >> 37);
        let low = route << 3;
        let mut octets = [0; 21];
        octets[0..16].copy_from_slice(&high.to_be_bytes());
        octets[16..21].copy_from_slice(&low.to_be_bytes()[3..8]);
        octets
    }
}

impl RecordKind for FlowRecord {
    const SIZE: usize = 21;

    ghost SIZE = { 21 };

    ghost reading = { read_flow };

    ghost judging = { judge_flow };

    ghost written = { written_flow };

    ghost some = { Prim.search rules };

    ghost whole = { Prim.search rules };

    ghost readback = { flow-readback };

    ghost writable = { flow-writable };

    ghost rewritten = { flow-rewritten };

    fn read(index: usize, octets: &[u8]) -> Result<FlowRecord, RecordFault> {
        let Ok(octets) = <&[u8; 21]>::try_from(octets) else {
            return Err(RecordFault::Sheet(SheetFault::Unfinished { index }));
        };
        let record = FlowRecord::from_octets(octets);
        let idle = match record.start {
            Some(_) => 0,
            None => field(octets, 91, 30),
        };
        let spare = field(octets, 165, 3);
        judge(index, &record.zeros(idle, spare), &record.limits())?;
        Ok(record)
    }

    fn judge(&self, index: usize) -> Result<(), RecordFault> {
        judge(index, &self.zeros(0, 0), &self.limits())
    }

    fn write(&self, buffer: &mut [u8]) -> Result<(), PlanFault> {
        self.may_write(buffer)?;
        buffer[0..21].copy_from_slice(&self.to_octets());
        Ok(())
    }
}
