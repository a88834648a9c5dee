// Which places of a heap stand right above and right below which. All that depends on how many stand below each is here.
ghost use Rattle.std.specs.Prelude.{ℕ, ◌<◌, ◌≤◌, ◌↔◌};
ghost use Rattle.queue.specs.InHeap.{Below};

use std::ops::Range;

// 2 to the power of this stand right below each place: the heap shifts and divides nowhere.
const SHIFT: u32 = 1;

const ARITY: usize = 1 << SHIFT;

// The place right above one that is not the first.
pub(crate) fn above(place: usize) -> usize
    requires { 0 < place }
    ensures { Below result place }
{
    (place - 1) >> SHIFT
}

// The places right below one, of the first `count`.
pub(crate) fn below(place: usize, count: usize) -> Range<usize>
    ensures inside { result.end ≤ count }
    ensures places { (c : ℕ) → (Below place c × (c < count)) ↔ ((result.start ≤ c) × (c < result.end)) }
{
    let start = place.saturating_mul(ARITY).saturating_add(1);
    start..start.saturating_add(ARITY).min(count)
}
