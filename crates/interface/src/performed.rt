// How many calls of a list are performed.
ghost use Rattle.std.specs.Prelude.{◌^◌, ◌<◌};

// How many calls are performed: few enough for the number that a program in C gets.
pub(crate) struct Performed {
    pub(crate) count: usize,
    ghost few: { count < 2 ^ 63 },
}
