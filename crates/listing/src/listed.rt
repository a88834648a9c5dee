// The gauges whose plans are listed.
ghost use Rattle.std.specs.Prelude.{◌≡◌};
ghost use Rattle.planfile.specs.declared.plan_kind.PlanKind.{PlanKind};
ghost use Rattle.planfile.specs.declared.plan_kind.PlanKind.TheVariants.{Cable, Drive};

use gauge::house::{Cable, Drive};
use planfile::{Kind, PlanKind};

// A gauge with plan files of one of the two kinds.
pub(crate) trait Listed: Kind {
    // The kind, whose word begins a listing.
    ghost kind: { PlanKind };

    fn kind() -> PlanKind
        ensures { result ≡ kind };
}

impl Listed for Cable {
    ghost kind = { Cable };

    fn kind() -> PlanKind {
        PlanKind::Cable
    }
}

impl Listed for Drive {
    ghost kind = { Drive };

    fn kind() -> PlanKind {
        PlanKind::Drive
    }
}
