// A fault from below inside the fault of the layer above, as `?` passes it up.
ghost use Rattle.std.specs.Prelude.{◌≡◌};
ghost use Rattle.fault.specs.declared.kinds.PlanFault.TheVariants.{Record};
ghost use Rattle.fault.specs.declared.kinds.RecordFault.TheVariants.{Sheet};

use crate::kinds::{PlanFault, RecordFault, SheetFault};

impl From<SheetFault> for RecordFault {
    ghost from_gives = { λ fault r. r ≡ Sheet fault };

    fn from(fault: SheetFault) -> RecordFault {
        RecordFault::Sheet(fault)
    }
}

impl From<RecordFault> for PlanFault {
    ghost from_gives = { λ fault r. r ≡ Record fault };

    fn from(fault: RecordFault) -> PlanFault {
        PlanFault::Record(fault)
    }
}

impl From<SheetFault> for PlanFault {
    ghost from_gives = { λ fault r. r ≡ Record (Sheet fault) };

    fn from(fault: SheetFault) -> PlanFault {
        PlanFault::Record(RecordFault::Sheet(fault))
    }
}
