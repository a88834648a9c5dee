// The gauges with plan files. A run's weight stands there as three numbers; each gauge says what they mean.
ghost use Rattle.std.specs.Prelude.{◌≡◌, ℕ, List};
ghost use Rattle.planfile.specs.Weights.{Kept, Weighing, measured_number, class_number, cable_reading, drive_reading, three};
ghost use Rattle.planfile.specs.File.{fault_at};
ghost use Rattle.std.proofs.Common.{rules};

use crate::plan_kind::PlanKind;
use fault::FileFault;
use gauge::Gauge;
use gauge::house::{Cable, CableWeight, Drive, DriveWeight, cable_weight, drive_weight};
use gauge::worst::Worst;

// Why a number is no weight.
#[derive(Clone, Copy, Debug, PartialEq, Eq)]
pub enum WeightFault {
    // It is the mark of an unmeasured weight.
    Unmeasured,
    // It is above the greatest class.
    Class,
}

impl WeightFault {
    // The refusal of a file in which the weight of a run has this fault.
    pub(crate) fn at(self, run: usize) -> FileFault
        ensures { result ≡ fault_at run self }
    {
        match self {
            WeightFault::Unmeasured => FileFault::Unmeasured(run),
            WeightFault::Class => FileFault::Class(run),
        }
    }
}

// A gauge with plan files of its own kind.
pub trait Kind: Gauge {
    // The kind's number in a file.
    ghost number: { ℕ };

    // The weight that three numbers stand for, or why they stand for none.
    ghost weighed: { Weighing Self.Weight };

    // The three numbers of a weight.
    ghost numbers: { Self.Weight → List ℕ };

    fn number() -> u16
        ensures { result ≡ number };

    // Three numbers by name, as they stand in a file one after the other.
    fn weigh(a: u32, b: u32, c: u32) -> Result<Self::Weight, WeightFault>
        ensures { result ≡ weighed a b c };

    fn numbers(weight: Self::Weight) -> [u32; 3]
        ensures { result ≡ numbers weight };

    // A weight has the numbers that it was read from.
    ghost kept: { Kept weighed numbers };
}

// The weight of a total, or the mark. An if: two outcomes, which a chain of `then_some` and `ok_or` says no plainer.
fn measured(number: u32) -> Result<u32, WeightFault>
    ensures { result ≡ measured_number number }
{
    if number == u32::MAX {
        Err(WeightFault::Unmeasured)
    } else {
        Ok(number)
    }
}

// A class, or the mark, or a number above the greatest class.
fn class(number: u32) -> Result<u8, WeightFault>
    ensures { result ≡ class_number number }
{
    match u8::try_from(measured(number)?) {
        Ok(class) if class <= Worst::TOP => Ok(class),
        _ => Err(WeightFault::Class),
    }
}

impl Kind for Cable {
    ghost number = { 1 };

    ghost weighed = { cable_reading };

    ghost numbers = { three };

    ghost kept = { Prim.search rules };

    fn number() -> u16 {
        u16::from(PlanKind::Cable)
    }

    fn weigh(a: u32, b: u32, c: u32) -> Result<CableWeight, WeightFault> {
        let decimetres = measured(a)?;
        let drillings = measured(b)?;
        Ok(cable_weight(decimetres, drillings, c))
    }

    fn numbers(weight: CableWeight) -> [u32; 3] {
        [weight.first, weight.second.first, weight.second.second]
    }
}

// As for cables but for a class in the second part. One `numbers` for both would need a bound on each part, and be the longer.
impl Kind for Drive {
    ghost number = { 2 };

    ghost weighed = { drive_reading };

    ghost numbers = { three };

    ghost kept = { Prim.search rules };

    fn number() -> u16 {
        u16::from(PlanKind::Drive)
    }

    fn weigh(a: u32, b: u32, c: u32) -> Result<DriveWeight, WeightFault> {
        let decimetres = measured(a)?;
        let ramp = class(b)?;
        let crossings = measured(c)?;
        Ok(drive_weight(decimetres, ramp, crossings))
    }

    fn numbers(weight: DriveWeight) -> [u32; 3] {
        [
            weight.first,
            u32::from(weight.second.first),
            weight.second.second,
        ]
    }
}
