ghost use Rattle.std.specs.Prelude.{◌≡◌};
ghost use Rattle.fault.specs.Rows.{plan_row};

use crate::row::Fault;

// Why making or asking a plan is refused (layer 2).
#[derive(Clone, Copy, Debug, PartialEq, Eq)]
pub enum PlanFault {
    // The number of points is out of range; that number.
    Points(usize),
    // The number of runs is out of range; that number.
    Runs(usize),
    // A tail or head is no point of the plan; the run.
    End(usize),
    // A tail is below the one before it; the run.
    Order(usize),
    // There is no such point; the point.
    Point(usize),
}

// The layer, number and place of the fault.
impl From<PlanFault> for Fault {
    ghost from_gives = { λ fault row. row ≡ plan_row fault };

    fn from(fault: PlanFault) -> Fault {
        let (number, place) = match fault {
            PlanFault::Points(place) => (2, place),
            PlanFault::Runs(place) => (3, place),
            PlanFault::End(place) => (9, place),
            PlanFault::Order(place) => (10, place),
            PlanFault::Point(place) => (17, place),
        };
        Fault {
            layer: 2,
            number,
            place,
        }
    }
}
