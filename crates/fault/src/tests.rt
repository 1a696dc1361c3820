// What each fault tells, in one table, and some sentences as they are printed.
use crate::kinds::{PlanFault, RecordFault, SheetFault};
use crate::refusal::{Layer, Place, Refusal};
use std::test::Fail;

#[test]
fn each_tells(rt: HostRuntime) {
    let unfinished = SheetFault::Unfinished { index: 7 };
    let not_zero = RecordFault::NotZero { index: 3, bit: 51 };
    let out = RecordFault::OutOfLimits { index: 4, bit: 17 };
    let table = [
        (PlanFault::from(unfinished), 1, Layer::Sheet, (7, 0, 0)),
        (PlanFault::from(not_zero), 2, Layer::Record, (3, 51, 0)),
        (PlanFault::from(out), 3, Layer::Record, (4, 17, 0)),
        (PlanFault::SetUpTwice, 4, Layer::Plan, (0, 0, 0)),
        (PlanFault::NotSetUp, 4, Layer::Plan, (0, 0, 0)),
        (PlanFault::Filling, 5, Layer::Plan, (0, 0, 0)),
        (PlanFault::Cycle, 5, Layer::Plan, (0, 0, 0)),
        (PlanFault::PortCount, 5, Layer::Plan, (0, 0, 0)),
        (PlanFault::BestEffort, 5, Layer::Plan, (0, 0, 0)),
        (PlanFault::NumberHeld, 6, Layer::Plan, (0, 0, 0)),
        (PlanFault::Full, 7, Layer::Plan, (0, 0, 0)),
        (PlanFault::NotHeld, 8, Layer::Plan, (0, 0, 0)),
        (PlanFault::NoPort, 8, Layer::Plan, (0, 0, 0)),
        (PlanFault::Period, 9, Layer::Plan, (0, 0, 0)),
        (PlanFault::Route { hop: 2 }, 10, Layer::Plan, (0, 0, 2)),
        (PlanFault::Length, 11, Layer::Plan, (0, 0, 0)),
        (PlanFault::WireTime { hop: 5 }, 12, Layer::Plan, (0, 0, 5)),
        (PlanFault::Deadline, 13, Layer::Plan, (0, 0, 0)),
        (PlanFault::Start, 14, Layer::Plan, (0, 0, 0)),
        (PlanFault::Taken, 15, Layer::Plan, (0, 0, 0)),
        (PlanFault::NoStart, 15, Layer::Plan, (0, 0, 0)),
        (PlanFault::Buffer, 16, Layer::Plan, (0, 0, 0)),
    ];
    for (fault, number, layer, (index, bit, hop)) in table {
        let place = Place { index, bit, hop };
        assert_eq!(rt;
            fault.refusal(),
            Refusal {
                number,
                layer,
                place,
            }
        );
    }
}

#[test]
fn sentences(rt: HostRuntime) -> Result<(), Fail> {
    let unfinished = PlanFault::from(SheetFault::Unfinished { index: 7 });
    let out = PlanFault::from(RecordFault::OutOfLimits { index: 4, bit: 17 });
    let table = [
        (
            unfinished,
            "record 7 does not lie whole in its sheet: lengthen the sheet or ask for an earlier record",
        ),
        (out, "record 4: the field at bit 17 is outside its limits"),
        (
            PlanFault::Filling,
            "the line takes 1 to 32 ports and figures within their limits",
        ),
        (
            PlanFault::WireTime { hop: 5 },
            "hop 5: a frame takes longer on the wire than the period",
        ),
    ];
    for (fault, sentence) in table {
        assert_eq!(rt; fault.to_string(rt.alloc())?.as_str(), sentence);
    }
    Ok(())
}
