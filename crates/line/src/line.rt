// A line: its number of ports, and the wire time of a length on a port.
ghost use Rattle.std.specs.Prelude.{◌≡◌, ◌↔◌, IsTrue, ℕ, ◌<◌, ◌≤◌};
ghost use Rattle.line.specs.Meaning.{Meaning, Rules};

// The rest of the planner knows a line by this trait alone.
pub trait Line {
    // The length of the largest frame, in octets.
    const LARGEST: u16;

    // The same number for clauses: each line proves the two equal.
    ghost LARGEST: { ℕ };

    // The number of ports, and a wire time in nanoseconds for each port and length.
    ghost meaning: { Self → Meaning };

    // This and the next two say that they leave the line as it is, which is one of the rules of a line.
    fn ports(&self) -> u8
        ensures value { result ≡ (meaning self.now).ports }
        ensures same { self.exit.now ≡ self.entry.now };

    // Whether the port is there and takes a frame of this length.
    fn carries(&self, port: u8, length: u16) -> bool
        ensures carried { IsTrue result ↔ ((port < (meaning self.now).ports) × (64 ≤ length) × (length ≤ LARGEST)) }
        ensures same { self.exit.now ≡ self.entry.now }
    {
        port < self.ports() && (64..=Self::LARGEST).contains(&length)
    }

    // The wire time of a frame that the line carries, and of any other 0: the rules speak of every port and length.
    fn wire_time(&self, port: u8, length: u16) -> u32
        ensures value { result ≡ (meaning self.now).time port length }
        ensures same { self.exit.now ≡ self.entry.now };

    ghost least: { 64 ≤ LARGEST };

    ghost greatest: { LARGEST ≤ 9600 };

    ghost some: { (x : Self) → 1 ≤ (meaning x).ports };

    ghost few: { (x : Self) → (meaning x).ports ≤ 32 };

    ghost absent: { (x : Self) (q l : ℕ) → (meaning x).ports ≤ q → (meaning x).time q l ≡ 0 };

    ghost short: { (x : Self) (q l : ℕ) → l < 64 → (meaning x).time q l ≡ 0 };

    ghost long: { (x : Self) (q l : ℕ) → LARGEST < l → (meaning x).time q l ≡ 0 };

    ghost timed: { (x : Self) (q l : ℕ) → q < (meaning x).ports → 64 ≤ l → l ≤ LARGEST → 1 ≤ (meaning x).time q l };

    ghost bounded: { (x : Self) (q l : ℕ) → (meaning x).time q l ≤ 10000000 };

    ghost longer: { (x : Self) (q l m : ℕ) → 64 ≤ l → l ≤ m → m ≤ LARGEST → (meaning x).time q l ≤ (meaning x).time q m };
}

// The laws of the trait as the four rules in words.
pub fn keeps_the_rules<L: Line>(line: &L)
    ensures rules { Rules L.LARGEST (L.meaning line.now) }
{}
