// A line of Ethernet ports, each at its own rate.
ghost use Rattle.std.specs.Prelude.{◌≤◌};

mod fill;
pub mod times;

// The rate of a port, in megabits a second.
#[derive(Clone, Copy, PartialEq, Eq, Debug)]
pub enum Rate {
    Mb10,
    Mb100,
    Mb1000,
}

// Ports 0 to `ports` − 1 with the rates at the front of `rates`: no heap, and a line is copied.
#[derive(Clone, Copy)]
pub struct Ethernet {
    ports: u8,
    rates: [Rate; 32],
    ghost some: { 1 ≤ ports },
    ghost few: { ports ≤ 32 },
}
