ghost use Rattle.std.specs.Prelude.{Some};
ghost use Rattle.fault.specs.Rows.{fault_text};

use std::fmt;

// A fault as it is printed and marked: the layer that refused, the number of the reason, and the place. Code that refuses answers one
// of the enums that turn into it; here the numbers are what is told.
#[derive(Clone, Copy, Debug, PartialEq, Eq)]
pub struct Fault {
    pub layer: u8,
    pub number: u8,
    pub place: usize,
}

// Layer, number and place, parted by one space.
impl fmt::Display for Fault {
    ghost output = { λ fault. Some (fault_text fault) };

    fn fmt<W: fmt::Write>(&self, f: &mut fmt::Formatter<W>) -> fmt::Result {
        write!(f, "{} {} {}", self.layer, self.number, self.place)
    }
}
