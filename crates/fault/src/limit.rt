ghost use Rattle.std.specs.Prelude.{◌≡◌};
ghost use Rattle.fault.specs.Rows.{limit_row};

use crate::row::Fault;

// Why setting limits is refused (layer 3).
#[derive(Clone, Copy, Debug, PartialEq, Eq)]
pub enum LimitFault {
    // A limit is out of its range; the part that it limits, from 0.
    Limit(usize),
}

// The layer, number and place of the fault.
impl From<LimitFault> for Fault {
    ghost from_gives = { λ fault row. row ≡ limit_row fault };

    fn from(fault: LimitFault) -> Fault {
        let LimitFault::Limit(place) = fault;
        Fault {
            layer: 3,
            number: 11,
            place,
        }
    }
}
