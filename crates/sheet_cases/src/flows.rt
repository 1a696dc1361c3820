// Edges of the flow record, and records that may not be written.
use crate::edge::{accepted, refused, told};
use sheet::{FlowRecord, RecordKind};
use std::process::Abort;

// The first 16 octets and the last 5, in two numbers, so that a case is one line.
const ACCEPTED: [(u128, u64); 3] = [
    // each field at its least
    (0x00010100_00000010_00000060_00000008, 0x00_00000000),
    // each field at its most
    (0xffff9603_b9aca00e_e6b2803d_cd64ffc7, 0xff_fffffff8),
    // a free start
    (0x00070190_007a1200_00138800_00000010, 0x02_00000000),
];

// The first 16 octets and the last 5, and the number and the bit that they are refused with.
const REFUSED: [(u128, u64, u8, u16); 26] = [
    // number 0
    (0x00000190_007a1200_00138800_00000010, 0x02_00000000, 3, 0),
    // length below its limit
    (0x000700fc_007a1200_00138800_00000010, 0x02_00000000, 3, 16),
    // length above its limit
    (0x00079604_007a1200_00138800_00000010, 0x02_00000000, 3, 16),
    // period below its limit
    (0x00070190_00000000_00138800_00000010, 0x02_00000000, 3, 30),
    // period above its limit
    (0x00070193_b9aca010_00138800_00000010, 0x02_00000000, 3, 30),
    // deadline below its limit
    (0x00070190_007a1200_00000000_00000010, 0x02_00000000, 3, 60),
    // deadline above its limit
    (0x00070190_007a120e_e6b28040_00000010, 0x02_00000000, 3, 60),
    // chosen start above its limit
    (0x00070190_007a1200_0013883d_cd650010, 0x02_00000000, 3, 91),
    // start set and not chosen
    (0x00070190_007a1200_00138800_00000090, 0x02_00000000, 2, 91),
    // start not chosen, above its limit
    (0x00070190_007a1200_0013881f_ffffff90, 0x02_00000000, 2, 91),
    // hop count 0
    (0x00070190_007a1200_00138800_00000000, 0x00_00000000, 3, 121),
    // hop count 0 and a port in slot 0
    (0x00070190_007a1200_00138800_00000000, 0x40_00000000, 2, 125),
    // hop count 9
    (0x00070190_007a1200_00138800_00000048, 0x42_10842108, 3, 121),
    // hop count 15
    (0x00070190_007a1200_00138800_00000078, 0x42_10842108, 3, 121),
    // slot 1 unused and set
    (0x00070190_007a1200_00138800_00000008, 0x02_00000000, 2, 130),
    // slot 2 unused and set
    (0x00070190_007a1200_00138800_00000010, 0x00_10000000, 2, 135),
    // slot 3 unused and set
    (0x00070190_007a1200_00138800_00000018, 0x00_00800000, 2, 140),
    // slot 4 unused and set
    (0x00070190_007a1200_00138800_00000020, 0x00_00040000, 2, 145),
    // slot 5 unused and set
    (0x00070190_007a1200_00138800_00000028, 0x00_00002000, 2, 150),
    // slot 6 unused and set
    (0x00070190_007a1200_00138800_00000030, 0x00_00000100, 2, 155),
    // slot 7 unused and set
    (0x00070190_007a1200_00138800_00000038, 0x00_00000008, 2, 160),
    // spare bit 167
    (0x00070190_007a1200_00138800_00000010, 0x02_00000001, 2, 165),
    // spare bit 166
    (0x00070190_007a1200_00138800_00000010, 0x02_00000002, 2, 165),
    // spare bit 165
    (0x00070190_007a1200_00138800_00000010, 0x02_00000004, 2, 165),
    // a 2 before a 3
    (0x00000190_007a1200_00138800_00000010, 0x02_00000001, 2, 165),
    // the first 2 in bit order
    (0x00070190_007a1200_00138800_00000088, 0x02_00000001, 2, 91),
];

// The octets of a record from the first 16 and the last 5.
fn joined(high: u128, low: u64) -> [u8; 21] {
    let mut octets = [0; 21];
    octets[0..16].copy_from_slice(&high.to_be_bytes());
    octets[16..21].copy_from_slice(&low.to_be_bytes()[3..8]);
    octets
}

#[test]
fn accepted_octets(rt: HostRuntime) {
    for (high, low) in ACCEPTED {
        accepted::<FlowRecord>(&rt, &joined(high, low));
    }
}

#[test]
fn refused_octets(rt: HostRuntime) {
    for (high, low, number, bit) in REFUSED {
        refused::<FlowRecord>(&rt, &joined(high, low), number, bit);
    }
}

const GOOD: FlowRecord = FlowRecord {
    number: 7,
    length: 100,
    period: 500_000,
    deadline: 20_000,
    start: None,
    hops: 2,
    ports: [0, 1, 0, 0, 0, 0, 0, 0],
};

// A record that may not be written leaves its buffer, also one that is too short.
fn not_written(rt: &impl Abort, record: &FlowRecord, number: u8, bit: u16) {
    let mut buffer = [0xa5; 20];
    let result = record.write(&mut buffer);
    assert_eq!(rt;
        result.map_err(|fault| told(fault.refusal())),
        Err((number, 0, bit))
    );
    assert!(rt; buffer == [0xa5; 20]);
}

#[test]
fn refused_writings(rt: HostRuntime) {
    not_written(&rt, &GOOD, 16, 0);
    not_written(&rt, &FlowRecord { number: 0, ..GOOD }, 3, 0);
    not_written(
        &rt,
        &FlowRecord {
            length: 9_601,
            ..GOOD
        },
        3,
        16,
    );
    not_written(
        &rt,
        &FlowRecord {
            start: Some(1_000_000_000),
            ..GOOD
        },
        3,
        91,
    );
    not_written(&rt, &FlowRecord { hops: 16, ..GOOD }, 3, 121);
    not_written(
        &rt,
        &FlowRecord {
            ports: [0, 32, 0, 0, 0, 0, 0, 0],
            ..GOOD
        },
        3,
        130,
    );
    not_written(
        &rt,
        &FlowRecord {
            number: 0,
            ports: [0, 1, 32, 0, 0, 0, 0, 0],
            ..GOOD
        },
        2,
        135,
    );
}
