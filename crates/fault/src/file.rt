ghost use Rattle.std.specs.Prelude.{◌≡◌};
ghost use Rattle.fault.specs.Rows.{file_row};

use crate::row::Fault;

// Why reading a plan file is refused (layer 1).
#[derive(Clone, Copy, Debug, PartialEq, Eq)]
pub enum FileFault {
    // Fewer bytes than the counts ask for; the bytes given.
    Short(usize),
    // The number of points is out of range; that number.
    Points(usize),
    // The number of runs is out of range; that number.
    Runs(usize),
    // Not the kind being read; the kind that stands there.
    Kind(usize),
    // More bytes than the counts ask for; the bytes asked for.
    Long(usize),
    // The run table has too few places; the runs of the file.
    Table(usize),
    // A weight that nobody has measured; the run.
    Unmeasured(usize),
    // A ramp class above the greatest; the run.
    Class(usize),
}

// The layer, number and place of the fault.
impl From<FileFault> for Fault {
    ghost from_gives = { λ fault row. row ≡ file_row fault };

    fn from(fault: FileFault) -> Fault {
        let (number, place) = match fault {
            FileFault::Short(place) => (1, place),
            FileFault::Points(place) => (2, place),
            FileFault::Runs(place) => (3, place),
            FileFault::Kind(place) => (4, place),
            FileFault::Long(place) => (5, place),
            FileFault::Table(place) => (6, place),
            FileFault::Unmeasured(place) => (7, place),
            FileFault::Class(place) => (8, place),
        };
        Fault {
            layer: 1,
            number,
            place,
        }
    }
}
