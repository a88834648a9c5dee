// The two gauges of the house, and how they are made from three limits.
ghost use Rattle.std.specs.Prelude.{◌≡◌, slice_index};
ghost use Rattle.gauge.specs.Limits.{cable_at, drive_at, made, widest_cable, widest_drive};
ghost use Rattle.gauge.specs.Pairs.{three_parts};

use crate::pair::{Pair, three};
use crate::set::Set;
use crate::sum::Sum;
use crate::worst::Worst;
use fault::LimitFault;

// Decimetres, drillings, zones.
pub type Cable = Pair<Sum, Pair<Sum, Set>>;

// The weight of a run in each part of the cable gauge.
pub type CableWeight = Pair<u32, Pair<u32, u32>>;

// Decimetres, ramp class, crossings.
pub type Drive = Pair<Sum, Pair<Worst, Sum>>;

// The weight of a run in each part of the drive gauge.
pub type DriveWeight = Pair<u32, Pair<u8, u32>>;

// The weight of a cable run.
pub fn cable_weight(decimetres: u32, drillings: u32, zones: u32) -> CableWeight
    ensures { result ≡ three_parts decimetres drillings zones }
{
    three(decimetres, drillings, zones)
}

// The weight of a drive run.
pub fn drive_weight(decimetres: u32, ramp: u8, crossings: u32) -> DriveWeight
    ensures { result ≡ three_parts decimetres ramp crossings }
{
    three(decimetres, ramp, crossings)
}

// The cable gauge at three limits; the first that is out of its range is refused.
pub fn cable_at(limits: [u32; 3]) -> Result<Cable, LimitFault>
    ensures { result ≡ cable_at (slice_index limits 0) (slice_index limits 1) (slice_index limits 2) }
{
    let [decimetres, drillings, zones] = limits;
    made(
        Sum::new(decimetres),
        Sum::new(drillings),
        Some(Set::new(zones)),
    )
}

// The drive gauge at three limits; the first that is out of its range is refused.
pub fn drive_at(limits: [u32; 3]) -> Result<Drive, LimitFault>
    ensures { result ≡ drive_at (slice_index limits 0) (slice_index limits 1) (slice_index limits 2) }
{
    let [decimetres, ramp, crossings] = limits;
    made(Sum::new(decimetres), Worst::new(ramp), Sum::new(crossings))
}

// The gauge of three parts, or the first part that its limit did not make.
fn made<A: Copy, B: Copy, C: Copy>(
    first: Option<A>,
    second: Option<B>,
    third: Option<C>,
) -> Result<Pair<A, Pair<B, C>>, LimitFault>
    ensures { result ≡ made first second third }
{
    let first = first.ok_or(LimitFault::Limit(0))?;
    let second = second.ok_or(LimitFault::Limit(1))?;
    let third = third.ok_or(LimitFault::Limit(2))?;
    Ok(three(first, second, third))
}

// The cable gauge at its widest limits.
pub fn widest_cable() -> Cable
    ensures { result ≡ widest_cable }
{
    three(Sum::widest(), Sum::widest(), Set::widest())
}

// The drive gauge at its widest limits.
pub fn widest_drive() -> Drive
    ensures { result ≡ widest_drive }
{
    three(Sum::widest(), Worst::widest(), Sum::widest())
}
