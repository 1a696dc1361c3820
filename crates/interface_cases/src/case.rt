// The worked case in octets: two ports at 1,000 Mb/s, cycle 1,000,000, flows 7 and 9.
use interface::{givrethans_perform_cells, givrethans_perform_ethernet};

// Set-up, an offer of each flow, the flowspan, and the gate list of port 1.
const CALLS: &[u8; 90] = b"\
    \x01\x00\x0f\x42\x40\x00\x10\
    \x00\x32\x00\x1f\x40\xbe\x40\x00\
    \x00\x32\x00\x1f\x40\xbe\x40\x00\
    \x02\x00\x00\x00\x00\x00\x00\x00\x00\x00\x15\
    \x00\x07\x01\x90\x00\x7a\x12\x00\x00\x13\x88\x00\x00\x00\x00\x10\x02\x00\x00\x00\x00\
    \x02\x00\x00\x00\x00\x00\x00\x00\x00\x00\x15\
    \x00\x09\x0f\xa0\x00\xf4\x24\x00\x00\x13\x88\x00\x00\x00\x00\x08\x40\x00\x00\x00\x00\
    \x05\
    \x06\x01";

#[test]
fn answers_and_gate_list(rt: HostRuntime) {
    let mut answers = [0xaa; 96];
    let mut buffer = [0xaa; 40];
    let done = givrethans_perform_ethernet(&[3, 3], CALLS, &mut answers, &mut buffer);
    assert_eq!(rt; done, 5);
    assert!(rt; answers[0..16] == [0; 16]);
    assert!(rt; answers[32..48] == [1, 0, 0, 0, 0, 0, 0, 0, 0, 0, 0, 0, 0, 0, 0x0b, 0x0c]);
    assert!(rt; answers[48..64] == [2, 0, 0, 0, 0, 0, 0, 0, 0, 0, 0, 0, 0, 0, 0x2a, 0xf0]);
    assert!(rt; answers[64..80] == [3, 0, 0, 0, 0, 0, 0, 0, 0, 0, 0, 0, 0, 0, 0, 7]);
    assert!(rt; answers[80..96] == [0xaa; 16]);
    assert!(rt; buffer[0..10] == [0, 0, 0, 0x07, 0xac, 0x80, 0, 0, 0x22, 0xe0]);
    assert!(rt; buffer[35..40] == [0xaa; 5]);
}

#[test]
fn a_refusal_by_its_octets(rt: HostRuntime) {
    let mut answers = [0; 32];
    let mut buffer = [0; 5];
    // an offer of record 258 of an empty sheet, and a question before set-up
    let calls = [2, 0, 0, 0, 0, 0, 0, 1, 2, 0, 0, 5];
    assert_eq!(rt;
        givrethans_perform_cells(2, 64, 680, &calls, &mut answers, &mut buffer),
        2
    );
    assert!(rt; answers[0..16] == [0xff, 1, 1, 0, 0, 0, 0, 0, 0, 0, 0, 0, 0, 0, 1, 2]);
    assert!(rt; answers[16..32] == [0xff, 4, 3, 0, 0, 0, 0, 0, 0, 0, 0, 0, 0, 0, 0, 0]);
}

#[test]
fn lists_that_are_refused(rt: HostRuntime) {
    let mut answers = [0xaa; 79];
    let mut buffer = [0xaa; 40];
    let calls: &[u8] = CALLS;
    assert_eq!(rt;
        givrethans_perform_ethernet(&[3, 4], &[0], &mut answers, &mut buffer),
        -1
    );
    assert_eq!(rt;
        givrethans_perform_ethernet(&[], calls, &mut answers, &mut buffer),
        -1
    );
    assert_eq!(rt;
        givrethans_perform_cells(2, 63, 680, calls, &mut answers, &mut buffer),
        -1
    );
    assert_eq!(rt;
        givrethans_perform_cells(2, 64, 680, &[7], &mut answers, &mut buffer),
        -2
    );
    assert_eq!(rt;
        givrethans_perform_ethernet(&[3, 3], &calls[0..89], &mut answers, &mut buffer),
        -2
    );
    assert_eq!(rt;
        givrethans_perform_ethernet(&[3, 3], calls, &mut answers, &mut buffer),
        -3
    );
    assert_eq!(rt;
        givrethans_perform_ethernet(&[3, 3], &[], &mut [], &mut []),
        0
    );
    assert!(rt; answers == [0xaa; 79]);
    assert!(rt; buffer == [0xaa; 40]);
}
