// The faults of the three layers. A fault from below is carried whole inside the fault of the layer above.

// A fault of a sheet.
#[derive(Clone, Copy, PartialEq, Eq, Debug)]
pub enum SheetFault {
    // The record asked for does not lie whole in its sheet.
    Unfinished { index: usize },
}

// A fault of a record, read or to be written.
#[derive(Clone, Copy, PartialEq, Eq, Debug)]
pub enum RecordFault {
    Sheet(SheetFault),
    // A spare bit, an unused port slot or a start that is not chosen is not zero.
    NotZero { index: usize, bit: u16 },
    // A field is outside its limits.
    OutOfLimits { index: usize, bit: u16 },
}

// A fault of a plan, of a line's filling or of a buffer.
#[derive(Clone, Copy, PartialEq, Eq, Debug)]
pub enum PlanFault {
    Record(RecordFault),
    SetUpTwice,
    NotSetUp,
    Filling,
    Cycle,
    PortCount,
    BestEffort,
    NumberHeld,
    Full,
    NotHeld,
    NoPort,
    Period,
    Route { hop: u8 },
    Length,
    WireTime { hop: u8 },
    Deadline,
    Start,
    Taken,
    NoStart,
    Buffer,
}
