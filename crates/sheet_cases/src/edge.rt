// Octets of a record kind that are accepted, and octets that are refused.
ghost use Rattle.std.specs.Prelude.{◌<◌, length};

use fault::Refusal;
use sheet::RecordKind;
use std::process::Abort;

// What a refusal tells of a record: its number, and the record's index and bit.
pub(crate) fn told(refusal: Refusal) -> (u8, usize, u16) {
    (refusal.number, refusal.place.index, refusal.place.bit)
}

// The octets are accepted: the record writes them again, and leaves the octet behind them.
pub(crate) fn accepted<K: RecordKind + Drop>(rt: &impl Abort, octets: &[u8])
    requires short { length octets.now < 22 }
{
    let record = K::read(3, octets).expect(rt, "an accepted record");
    let count = octets.len();
    let mut buffer = [0xa5; 22];
    let room = &mut buffer[0..count + 1];
    assert!(rt; record.write(room).is_ok());
    assert!(rt; &room[0..count] == octets);
    assert!(rt; room[count] == 0xa5);
}

// The octets are refused as record 3, with this number and bit.
pub(crate) fn refused<K: RecordKind + Drop>(rt: &impl Abort, octets: &[u8], number: u8, bit: u16) {
    let fault = K::read(3, octets).err();
    assert_eq!(rt;
        fault.map(|fault| told(fault.refusal())),
        Some((number, 3, bit))
    );
}
