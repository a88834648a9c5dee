// The kinds of plan file, and the number and the word of each.
ghost use Rattle.std.specs.Prelude.{Some};
ghost use Rattle.planfile.specs.Kinds.{IsNumberOf, Numbered, word_of};

use std::fmt;

#[derive(Clone, Copy, Debug, PartialEq, Eq)]
pub enum PlanKind {
    Cable,
    Drive,
}

// A number that no kind of plan file has.
#[derive(Clone, Copy, Debug, PartialEq, Eq)]
pub struct UnknownKind(pub u16);

// The number that stands in a file.
impl From<PlanKind> for u16 {
    ghost from_gives = { IsNumberOf };

    fn from(kind: PlanKind) -> u16 {
        match kind {
            PlanKind::Cable => 1,
            PlanKind::Drive => 2,
        }
    }
}

impl TryFrom<u16> for PlanKind {
    type Error = UnknownKind;

    ghost try_from_gives = { Numbered };

    fn try_from(number: u16) -> Result<PlanKind, UnknownKind> {
        match number {
            1 => Ok(PlanKind::Cable),
            2 => Ok(PlanKind::Drive),
            _ => Err(UnknownKind(number)),
        }
    }
}

// The word that a listing has for the kind.
impl fmt::Display for PlanKind {
    ghost output = { λ kind. Some (word_of kind) };

    fn fmt<W: fmt::Write>(&self, f: &mut fmt::Formatter<W>) -> fmt::Result {
        f.write_str(match self {
            PlanKind::Cable => "cable",
            PlanKind::Drive => "drive",
        })
    }
}
