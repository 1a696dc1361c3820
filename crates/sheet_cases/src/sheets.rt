// Records at the ends of a sheet, whole sheets, and a sheet that is written.
use crate::edge::told;
use sheet::{GateRecord, GateState, Reader, whole_records, write_sheet};
use std::process::Abort;
use std::test::Fail;

// Closed for 1,964 ns, then scheduled for 8,928 ns.
const SHEET: [u8; 10] = [0x00, 0x00, 0x00, 0x07, 0xac, 0x80, 0x00, 0x00, 0x22, 0xe0];

// The record asked for does not lie whole in the sheet.
fn unfinished(rt: &impl Abort, sheet: &[u8], index: usize) {
    let record = Reader::new(sheet, index).read::<GateRecord>();
    assert_eq!(rt;
        record.map_err(|fault| told(fault.refusal())),
        Err((1, index, 0))
    );
}

#[test]
fn ends(rt: HostRuntime) -> Result<(), Fail> {
    let record: GateRecord = Reader::new(&SHEET, 1).read()?;
    assert_eq!(rt; record.duration, 8_928);
    unfinished(&rt, &SHEET, 2);
    unfinished(&rt, &SHEET[0..9], 1);
    unfinished(&rt, &[], 0);
    unfinished(&rt, &SHEET, usize::MAX);
    unfinished(&rt, &SHEET, usize::MAX / 5);
    unfinished(&rt, &SHEET, usize::MAX / 5 + 1);
    Ok(())
}

#[test]
fn counts(rt: HostRuntime) {
    assert_eq!(rt; whole_records::<GateRecord>(&SHEET), Ok(2));
    let count = whole_records::<GateRecord>(&SHEET[0..9]);
    assert_eq!(rt;
        count.map_err(|fault| told(fault.refusal())),
        Err((1, 1, 0))
    );
}

#[test]
fn written(rt: HostRuntime) {
    let closed = GateRecord {
        state: GateState::Closed,
        duration: 1_964,
    };
    let open = GateRecord {
        state: GateState::Scheduled,
        duration: 8_928,
    };
    let mut buffer = [0xa5; 11];
    assert_eq!(rt; write_sheet(&[closed, open], &mut buffer), Ok(10));
    assert!(rt; &buffer[0..10] == &SHEET[0..10]);
    assert!(rt; buffer[10] == 0xa5);
    let bad = GateRecord {
        state: GateState::Closed,
        duration: 0,
    };
    let result = write_sheet(&[open, bad], &mut buffer);
    assert_eq!(rt;
        result.map_err(|fault| told(fault.refusal())),
        Err((3, 1, 10))
    );
}
