// Edges of the gate record.
use crate::edge::{accepted, refused};
use sheet::GateRecord;

const ACCEPTED: [u64; 3] = [
    // scheduled, the least
    0x80_0000_0001,
    // best effort, the most
    0x7f_3b9a_ca00,
    // closed
    0x00_0000_0001,
];

// Octets, and the number and the bit that they are refused with.
const REFUSED: [(u64, u8, u16); 8] = [
    // duration below its limit
    (0x80_0000_0000, 3, 10),
    // duration above its limit
    (0x80_3b9a_ca01, 3, 10),
    // no state
    (0x81_0000_0001, 3, 0),
    // no state, and duration below its limit
    (0x7e_0000_0000, 3, 0),
    // no state
    (0x01_0000_0001, 3, 0),
    // spare bit 9
    (0x80_4000_0001, 2, 8),
    // spare bit 8
    (0x80_8000_0001, 2, 8),
    // a 2 before a 3
    (0xff_c000_0000, 2, 8),
];

#[test]
fn accepted_octets(rt: HostRuntime) {
    for octets in ACCEPTED {
        accepted::<GateRecord>(&rt, &octets.to_be_bytes()[3..8]);
    }
}

#[test]
fn refused_octets(rt: HostRuntime) {
    for (octets, number, bit) in REFUSED {
        refused::<GateRecord>(&rt, &octets.to_be_bytes()[3..8], number, bit);
    }
}
