// What a fault tells: its number, its layer and its place.
ghost use Rattle.std.specs.Prelude.{◌≡◌};
ghost use Rattle.fault.specs.Refusals.{refused, tells};
ghost use Rattle.fault.specs.declared.kinds.PlanFault.TheVariants.{Record};
ghost use Rattle.fault.specs.declared.kinds.RecordFault.TheVariants.{Sheet};

use crate::kinds::{PlanFault, RecordFault, SheetFault};

// The layer that a refusal comes from.
#[derive(Clone, Copy, PartialEq, Eq, Debug)]
pub enum Layer {
    Sheet,
    Record,
    Plan,
}

// Where a fault lies: the record's index and the first bit of the field, or the hop. What a fault does not have is 0: so a
// place is printed and sent.
#[derive(Clone, Copy, PartialEq, Eq, Debug)]
pub struct Place {
    pub index: usize,
    pub bit: u16,
    pub hop: u8,
}

// The number of a kind of fault is printed and sent as it is, so it is no enum; faults of one kind share it.
#[derive(Clone, Copy, PartialEq, Eq, Debug)]
pub struct Refusal {
    pub number: u8,
    pub layer: Layer,
    pub place: Place,
}

impl Refusal {
    // A refusal that names a bit of a record.
    fn at_bit(number: u8, layer: Layer, index: usize, bit: u16) -> Refusal
        ensures value { result ≡ tells number layer index bit 0 }
    {
        let place = Place { index, bit, hop: 0 };
        Refusal {
            number,
            layer,
            place,
        }
    }

    // A refusal of the plan layer that names a hop.
    fn at_hop(number: u8, hop: u8) -> Refusal
        ensures value { result ≡ tells number Layer.Plan 0 0 hop }
    {
        let place = Place {
            index: 0,
            bit: 0,
            hop,
        };
        Refusal {
            number,
            layer: Layer::Plan,
            place,
        }
    }

    // A refusal of the plan layer that has no place.
    fn of_plan(number: u8) -> Refusal
        ensures value { result ≡ tells number Layer.Plan 0 0 0 }
    {
        Refusal::at_hop(number, 0)
    }
}

impl SheetFault {
    pub fn refusal(&self) -> Refusal
        ensures value { result ≡ refused (Record (Sheet self.now)) }
    {
        let SheetFault::Unfinished { index } = *self;
        Refusal::at_bit(1, Layer::Sheet, index, 0)
    }
}

impl RecordFault {
    pub fn refusal(&self) -> Refusal
        ensures value { result ≡ refused (Record self.now) }
    {
        match *self {
            RecordFault::Sheet(fault) => fault.refusal(),
            RecordFault::NotZero { index, bit } => Refusal::at_bit(2, Layer::Record, index, bit),
            RecordFault::OutOfLimits { index, bit } => Refusal::at_bit(
                3,
                Layer::Record,
                index,
                bit,
            ),
        }
    }
}

impl PlanFault {
    pub fn refusal(&self) -> Refusal
        ensures value { result ≡ refused self.now }
    {
        match *self {
            PlanFault::Record(fault) => fault.refusal(),
            PlanFault::SetUpTwice | PlanFault::NotSetUp => Refusal::of_plan(4),
            PlanFault::Filling | PlanFault::Cycle | PlanFault::PortCount | PlanFault::BestEffort =>
                Refusal::of_plan(5),
            PlanFault::NumberHeld => Refusal::of_plan(6),
            PlanFault::Full => Refusal::of_plan(7),
            PlanFault::NotHeld | PlanFault::NoPort => Refusal::of_plan(8),
            PlanFault::Period => Refusal::of_plan(9),
            PlanFault::Route { hop } => Refusal::at_hop(10, hop),
            PlanFault::Length => Refusal::of_plan(11),
            PlanFault::WireTime { hop } => Refusal::at_hop(12, hop),
            PlanFault::Deadline => Refusal::of_plan(13),
            PlanFault::Start => Refusal::of_plan(14),
            PlanFault::Taken | PlanFault::NoStart => Refusal::of_plan(15),
            PlanFault::Buffer => Refusal::of_plan(16),
        }
    }
}
