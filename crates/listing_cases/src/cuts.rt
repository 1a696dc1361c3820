// Inputs that are cut.
use crate::inputs::{PORT, check_listing, input};
use sheet::FlowRecord;
use std::test::Fail;

// An input of one port and two flows of 864 ns: the records begin at octets 6, 14 and 35, and end at 56.
// The second flow starts where the first ends. The total time is 864 + 100.
#[test]
fn at_every_octet(rt: HostRuntime) -> Result<(), Fail> {
    let heap = rt.alloc();
    let flows = [
        FlowRecord::new(7, 100, 500_000, 20_000, &[0]),
        FlowRecord::new(8, 100, 500_000, 20_000, &[0]),
    ];
    let octets = input(heap, 1_000_000, &[3], &PORT, &flows)?;
    assert!(rt; octets.len() == 56);
    let table = [
        // in C, before n, in the rate codes and in the port records
        (0, 14, "X 1\n"),
        // right behind the port records: no flow at all
        (14, 15, "S 0\n"),
        // in the first flow record, whose number stands there but is not read
        (15, 35, "R 0 1\nS 0\n"),
        (35, 36, "F 7 0\nS 964\n"),
        (36, 56, "F 7 0\nR 0 1\nS 964\n"),
        (56, 57, "F 7 0\nF 8 864\nS 1828\n"),
    ];
    for (from, to, text) in table {
        // cut behind k octets
        for k in from..to {
            assert!(rt; k <= octets.len());
            check_listing(&rt, heap, &octets[..k], text)?;
        }
    }
    Ok(())
}

#[test]
fn too_short_comes_first(rt: HostRuntime) -> Result<(), Fail> {
    let heap = rt.alloc();
    let table: [(&[u8], &str); 9] = [
        // no port: nothing is missing, and the filling is refused
        (&[0, 15, 66, 64, 0], "X 5\n"),
        // no port, with an octet behind
        (&[0, 15, 66, 64, 0, 3], "X 5\n"),
        // no port, and cycle 0
        (&[0, 0, 0, 0, 0], "X 5\n"),
        // one port and nothing behind
        (&[0, 15, 66, 64, 1], "X 1\n"),
        // two of three rate codes
        (&[0, 15, 66, 64, 3, 3, 3], "X 1\n"),
        // all rate codes and no port record
        (&[0, 15, 66, 64, 2, 3, 3], "X 1\n"),
        // a wrong rate code before a port record of 7 octets
        (&[0, 15, 66, 64, 1, 0, 0, 50, 0, 31, 64, 190, 64], "X 1\n"),
        // 33 ports and nothing behind
        (&[0, 15, 66, 64, 33], "X 1\n"),
        // cycle 0, one port and nothing behind
        (&[0, 0, 0, 0, 1], "X 1\n"),
    ];
    for (octets, text) in table {
        check_listing(&rt, heap, octets, text)?;
    }
    Ok(())
}
