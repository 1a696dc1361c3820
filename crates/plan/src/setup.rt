// What a plan was set up with: the cycle, and the figures of each port.
ghost use Rattle.std.specs.Prelude.{◌≡◌, ℕ, ◌<◌, ◌≤◌, length, slice_index_or};
ghost use Rattle.plan.specs.Ports.{blank, stored};

pub(crate) mod of_port;

use sheet::PortRecord;

// A port: its propagation delay, the processing delay at the node it leads to, and its largest best-effort length.
#[derive(Clone, Copy, Default)]
pub(crate) struct Port {
    pub delay: u32,
    pub processing: u32,
    pub best: u16,
}

impl From<PortRecord> for Port {
    ghost from_gives = { λ x p. p ≡ stored x };

    fn from(record: PortRecord) -> Port {
        Port {
            delay: record.delay,
            processing: record.processing,
            best: record.best_effort,
        }
    }
}

// The cycle, and the ports at the front of `ports`: no heap, so there is room for as many as a line can have.
#[derive(Clone, Copy)]
pub(crate) struct Setup {
    pub cycle: u32,
    pub count: u8,
    pub ports: [Port; 32],
    ghost least: { 1000 ≤ cycle },
    ghost greatest: { cycle ≤ 1000000000 },
    ghost few: { count ≤ 32 },
    ghost long: { length ports ≡ 32 },
    ghost delays: { (q : ℕ) → q < count → ((slice_index_or ports q blank).delay ≤ 100000) × ((slice_index_or ports q blank).processing ≤ 1000000) },
}
