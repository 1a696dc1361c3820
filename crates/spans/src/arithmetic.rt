// The greatest common divisor, and distances round a circle.
ghost use Rattle.std.specs.Prelude.{◌≡◌, ◌<◌};
ghost use Rattle.spans.specs.Divisors.{Greatest};
ghost use Rattle.spans.specs.Formula.{gcd as formula};
ghost use Rattle.spans.specs.Places.{ahead};

// The greatest common divisor of m and n, by Euclid; that of 0 and 0 is 0.
pub fn gcd(m: u32, n: u32) -> u32
    ensures greatest { Greatest m n result }
    ensures is { result ≡ formula m n }
    ensures zero { result ≡ 0 → (m ≡ 0) × (n ≡ 0) }
{
    let mut g = m;
    let mut rest = n;
    while rest != 0 {
        (g, rest) = (rest, g % rest);
    }
    g
}

// How far x lies ahead of y round a circle of g.
pub(crate) fn distance(g: u32, x: u32, y: u32) -> u32
    requires { 0 < g }
    ensures is { result ≡ ahead g x y }
    ensures below { result < g }
{
    let a = x % g;
    let b = y % g;
    if a >= b { a - b } else { g - b + a }
}
