// The gate list of a port, from the rows.
ghost use Rattle.std.specs.Prelude.{◌≡◌, ◌+◌, ◌<◌, ◌≤◌, min, max, if◌then◌else◌, nat_eq};
ghost use Rattle.plan.specs.Hops.{Within};
ghost use Rattle.plan.specs.Looks.{left_at, next_at, of_hops, left_on, next_on};
ghost use Rattle.plan.specs.Rows.{flow, flows, hop};

use crate::row::{Hop, Row, State};
use fault::PlanFault;
use sheet::{GateRecord, GateState, RecordKind};

// What is seen from a place.
#[derive(Clone, Copy)]
struct Look {
    // for how many places a span that covers it goes on, 0 if none covers it
    left: u32,
    // how far off the next first instant is; where there is none, u32::MAX, with which `min` gives the other number
    next: u32,
}

impl Look {
    // Where there is no hop on the port.
    const NONE: Look = Look {
        left: 0,
        next: u32::MAX,
    };

    // This and what is seen of other hops.
    fn both(self, other: Look) -> Look
        ensures left { result.left ≡ max self.left other.left }
        ensures next { result.next ≡ min self.next other.next }
    {
        Look {
            left: self.left.max(other.left),
            next: self.next.min(other.next),
        }
    }
}

impl Row {
    // What is seen of a hop from a place of a port.
    fn see_hop(&self, at: &Hop, port: u8, place: u32) -> Look
        requires within { Within self.now.period at.now }
        ensures left { result.left ≡ (if nat_eq at.now.port port then left_at place (flow self.now) (hop at.now) else 0) }
        ensures next { result.next ≡ (if nat_eq at.now.port port then next_at place (flow self.now) (hop at.now) else 0xffff_ffff) }
    {
        if at.port != port {
            return Look::NONE;
        }
        let spans = self.spans(at, self.start);
        Look {
            left: at.wire.saturating_sub(spans.since(place)),
            next: spans.until(place),
        }
    }

    // What is seen of the row's hops.
    fn see(&self, port: u8, place: u32) -> Look
        ensures left { result.left ≡ of_hops max 0 (left_at place (flow self.now)) port (flow self.now).hops }
        ensures next { result.next ≡ of_hops min 0xffff_ffff (next_at place (flow self.now)) port (flow self.now).hops }
    {
        let mut seen = Look::NONE;
        for at in self.route() {
            seen = seen.both(self.see_hop(at, port, place));
        }
        seen
    }
}

// The gates of a port in a cycle, with a guard band, as the rows of a plan have them.
#[derive(Clone, Copy)]
pub(crate) struct PortGates<'a> {
    pub rows: &'a [Row],
    pub port: u8,
    pub cycle: u32,
    pub guard: u32,
    ghost cycle_most: { cycle ≤ 1000000000 },
    ghost guard_most: { guard ≤ 10000000 },
}

impl<'a> PortGates<'a> {
    ghost use Rattle.std.specs.Prelude.{◌∷◌, ◌*◌, length};
    ghost use Rattle.sheet.specs.Gates.{octet_of};
    ghost use Rattle.sheet.specs.Writings.{put};
    ghost use Rattle.planning.specs.Gates.{state_by, Lasts, gates_from};
    ghost use Rattle.plan.specs.GateLists.{list, left};
    ghost use Rattle.plan.specs.GateOctets.{gate, gate_octets, count_answer};

    // What is seen of the hops of every held flow: a fold as over the hops of one, but of rows, some of which are free.
    fn see(&self, place: u32) -> Look
        ensures left { result.left ≡ left_on (flows self.now.rows.now) self.now.port place }
        ensures next { result.next ≡ next_on (flows self.now.rows.now) self.now.port place }
    {
        let mut seen = Look::NONE;
        for row in self.rows {
            if row.state == State::Held {
                seen = seen.both(row.see(self.port, place));
            }
        }
        seen
    }

    // The state at a place, and a number of places for which it lasts.
    fn state_at(&self, place: u32) -> GateRecord
        requires place { place < self.now.cycle }
        ensures some { 0 < result.duration }
        ensures within { place + result.duration ≤ self.now.cycle }
        ensures lasts { Lasts (state_by self.now.guard (flows self.now.rows.now) self.now.port) place result.duration (octet_of result.state) }
    {
        let seen = self.see(place);
        let (state, places) = if seen.left > 0 {
            (GateState::Scheduled, seen.left)
        } else if seen.next <= self.guard {
            (GateState::Closed, seen.next)
        } else {
            (GateState::BestEffort, seen.next - self.guard)
        };
        // Cut off where the cycle ends.
        GateRecord {
            state,
            duration: places.min(self.cycle - place),
        }
    }

    // The gate record from a place on: its state lasts until another follows or the cycle ends. Where the next look is depends
    // on what the last one saw.
    fn stretch(&self, place: u32) -> GateRecord
        requires place { place < self.now.cycle }
        ensures some { 0 < result.duration }
        ensures within { place + result.duration ≤ self.now.cycle }
        ensures first { gates_from self.now.guard self.now.cycle (flows self.now.rows.now) self.now.port place ≡ gate result ∷ gates_from self.now.guard self.now.cycle (flows self.now.rows.now) self.now.port (place + result.duration) }
    {
        let mut found = self.state_at(place);
        while place + found.duration < self.cycle {
            let more = self.state_at(place + found.duration);
            if more.state != found.state {
                return found;
            }
            found.duration += more.duration;
        }
        found
    }

    // Its gate records in their order.
    fn records(&self) -> GateRecords<'a>
        ensures all { left result ≡ list self.now }
    {
        GateRecords {
            gates: *self,
            place: 0,
        }
    }

    // Writes the gate list from the front of the buffer, and answers how many records it has.
    pub(crate) fn write(&self, buffer: &mut [u8]) -> Result<usize, PlanFault>
        ensures value { result ≡ count_answer (length (list self.now)) (length buffer.old) }
        ensures after { buffer.new ≡ put result (5 * length (list self.now)) (gate_octets (list self.now)) buffer.old }
    {
        let count = self.records().count();
        if 5 * count > buffer.len() {
            return Err(PlanFault::Buffer);
        }
        // By the index of a record: the library says nothing of a slice after `chunks_exact_mut`.
        for (k, record) in self.records().enumerate() {
            // Within its limits, and with room for it, it is never refused.
            let _ = record.write(&mut buffer[5 * k..]);
        }
        Ok(count)
    }
}

// The gate records of a port from a place of the cycle on.
#[derive(Drop)]
struct GateRecords<'a> {
    gates: PortGates<'a>,
    place: u32,
    ghost within: { place ≤ gates.cycle },
}

impl<'a> Iterator for GateRecords<'a> {
    ghost use Rattle.std.specs.Iterator.{YieldsFirstBy, item_count};
    ghost use Rattle.plan.specs.GateLists.{left};
    ghost use Rattle.plan.specs.GateOctets.{gate};

    type Item = GateRecord;

    ghost next_gives = { YieldsFirstBy gate left };

    ghost remaining = { item_count left };

    fn next(&mut self) -> Option<GateRecord> {
        if self.place == self.gates.cycle {
            return None;
        }
        let record = self.gates.stretch(self.place);
        self.place += record.duration;
        Some(record)
    }
}
