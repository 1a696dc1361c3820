// Why a list of calls is not performed.

// Why no call is performed, with the number that a program in C gets.
#[derive(Clone, Copy, PartialEq, Eq, Debug)]
pub(crate) enum Unperformed {
    // The filling of the line is refused.
    Line = -1,
    // The octets are no list of calls.
    Calls = -2,
    // The answers have no room.
    Room = -3,
}
