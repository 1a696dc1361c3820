// A line that carries frames in cells of one size.
ghost use Rattle.std.specs.Prelude.{◌≤◌};

mod fill;
pub mod times;

// Ports 0 to `ports` − 1, cells of `size` octets, each of which takes `time` ns.
#[derive(Clone, Copy)]
pub struct Cell {
    ports: u8,
    size: u16,
    time: u32,
    ghost some: { 1 ≤ ports },
    ghost few: { ports ≤ 32 },
    ghost size_least: { 64 ≤ size },
    ghost size_most: { size ≤ 1024 },
    ghost time_least: { 1 ≤ time },
    ghost time_most: { time ≤ 100000 },
}
