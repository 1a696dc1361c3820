// Inputs made for the tests, and the check of what is listed of them.
ghost use Rattle.std.specs.Prelude.{◌≡◌, Some, IfOk, vec_len};

use report::listing;
use sheet::{FlowRecord, PortRecord, RecordKind};
use std::alloc::{AllocError, Global};
use std::process::Abort;
use std::test::Fail;

// A port with delays of 100 and 1,000 ns and best-effort frames of any length. Each crate of tests states its own inputs.
pub(crate) const PORT: PortRecord = PortRecord {
    delay: 100,
    processing: 1_000,
    best_effort: 1_522,
};

// The same flow with a chosen start.
pub(crate) fn at(start: u32, flow: FlowRecord) -> FlowRecord
    ensures number { result.number ≡ flow.number }
    ensures chosen { result.start ≡ Some start }
{
    FlowRecord {
        start: Some(start),
        ..flow
    }
}

// The cycle and the number of ports, with which an input begins.
pub(crate) fn begun(heap: Global, cycle: u32, ports: u8) -> Result<Vec<u8>, AllocError>
    ensures long { IfOk result (λ v. vec_len v ≡ 5) }
{
    let mut octets = cycle.to_be_bytes().to_vec(heap)?;
    octets.push(ports)?;
    Ok(octets)
}

// Adds records of a kind.
pub(crate) fn add_records<K: RecordKind>(octets: &mut Vec<u8>, records: &[K]) -> Result<(), Fail> {
    let heap = *octets.allocator();
    for record in records {
        let mut buffer = vec![in heap; 0; K::SIZE]?;
        record.write(&mut buffer)?;
        octets.extend_from_slice(&buffer)?;
    }
    Ok(())
}

// An input of equal ports with these rate codes, and of these flows.
pub(crate) fn input(
    heap: Global,
    cycle: u32,
    codes: &[u8],
    port: &PortRecord,
    flows: &[FlowRecord],
) -> Result<Vec<u8>, Fail> {
    let mut octets = begun(heap, cycle, u8::try_from(codes.len())?)?;
    octets.extend_from_slice(codes)?;
    for _ in codes {
        add_records(&mut octets, &[*port])?;
    }
    add_records(&mut octets, flows)?;
    Ok(octets)
}

// The listing of an input is this text.
pub(crate) fn check_listing(
    rt: &impl Abort,
    heap: Global,
    octets: &[u8],
    text: &str,
) -> Result<(), Fail> {
    assert_eq!(rt; listing(heap, octets)?.as_str(), text);
    Ok(())
}

// The listing of these flows, on ports as `PORT` with these rate codes, is this text. A struct of the arguments would be written
// out in each call just so.
pub(crate) fn check_flows(
    rt: &impl Abort,
    heap: Global,
    cycle: u32,
    codes: &[u8],
    flows: &[FlowRecord],
    text: &str,
) -> Result<(), Fail> {
    check_listing(rt, heap, &input(heap, cycle, codes, &PORT, flows)?, text)
}
