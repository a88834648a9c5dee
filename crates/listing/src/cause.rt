// Why a plan is not listed.
ghost use Rattle.std.specs.Prelude.{◌≡◌};
ghost use Rattle.listing.specs.declared.cause.Cause.TheVariants.{File, Plan, Memory};

use fault::{FileFault, PlanFault};
use std::alloc::AllocError;

// Each `From` is written out, since contracts name what `?` makes of a fault.
#[derive(Clone, Copy, Debug, PartialEq, Eq)]
pub enum Cause {
    // The file was refused.
    File(FileFault),
    // The plan was refused.
    Plan(PlanFault),
    // There was no memory for the text.
    Memory(AllocError),
}

impl From<FileFault> for Cause {
    ghost from_gives = { λ e r. r ≡ File e };

    fn from(fault: FileFault) -> Cause {
        Cause::File(fault)
    }
}

impl From<PlanFault> for Cause {
    ghost from_gives = { λ e r. r ≡ Plan e };

    fn from(fault: PlanFault) -> Cause {
        Cause::Plan(fault)
    }
}

impl From<AllocError> for Cause {
    ghost from_gives = { λ e r. r ≡ Memory e };

    fn from(error: AllocError) -> Cause {
        Cause::Memory(error)
    }
}
