// Edges of the port record.
use crate::edge::{accepted, refused};
use sheet::PortRecord;

const ACCEPTED: [u64; 2] = [
    // each field at its least
    0x0000_0000_0008_0000,
    // each field at its most
    0xc350_7a12_04b0_0000,
];

// Octets, and the number and the bit that they are refused with.
const REFUSED: [(u64, u8, u16); 19] = [
    // propagation above its limit
    (0xc350_801f_40be_4000, 3, 0),
    // all above: the first in bit order
    (0xffff_ffff_ffff_e000, 3, 0),
    // processing above its limit
    (0x0032_7a12_08be_4000, 3, 17),
    // best effort below its limit
    (0x0032_001f_4007_e000, 3, 37),
    // best effort above its limit
    (0x0032_001f_44b0_2000, 3, 37),
    // spare bit 63
    (0x0032_001f_40be_4001, 2, 51),
    // spare bit 62
    (0x0032_001f_40be_4002, 2, 51),
    // spare bit 61
    (0x0032_001f_40be_4004, 2, 51),
    // spare bit 60
    (0x0032_001f_40be_4008, 2, 51),
    // spare bit 59
    (0x0032_001f_40be_4010, 2, 51),
    // spare bit 58
    (0x0032_001f_40be_4020, 2, 51),
    // spare bit 57
    (0x0032_001f_40be_4040, 2, 51),
    // spare bit 56
    (0x0032_001f_40be_4080, 2, 51),
    // spare bit 55
    (0x0032_001f_40be_4100, 2, 51),
    // spare bit 54
    (0x0032_001f_40be_4200, 2, 51),
    // spare bit 53
    (0x0032_001f_40be_4400, 2, 51),
    // spare bit 52
    (0x0032_001f_40be_4800, 2, 51),
    // spare bit 51
    (0x0032_001f_40be_5000, 2, 51),
    // a 2 before a 3
    (0xc350_801f_40be_4001, 2, 51),
];

#[test]
fn accepted_octets(rt: HostRuntime) {
    for octets in ACCEPTED {
        accepted::<PortRecord>(&rt, &octets.to_be_bytes());
    }
}

#[test]
fn refused_octets(rt: HostRuntime) {
    for (octets, number, bit) in REFUSED {
        refused::<PortRecord>(&rt, &octets.to_be_bytes(), number, bit);
    }
}
