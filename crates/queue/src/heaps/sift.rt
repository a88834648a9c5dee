// Sifting: how an entry finds its place in a heap. The entry stays in hand, and others move into the gap that it leaves.
// A heap's methods pass its lent memory to these functions, with the count of the entries beside it: the slice is not cut there, since
// places past the count keep notes of points too.
ghost use Rattle.std.specs.Prelude.{◌≡◌, ℕ, ◌<◌, ◌≤◌, length, Some};
ghost use Rattle.queue.specs.declared.heaps.slots.Slot.{Slot};
ghost use Rattle.queue.specs.Order.{ahead};
ghost use Rattle.queue.specs.Sifting.{LeadsBelow, Lowered, Raised, Settled};

use crate::entries::Held;
use crate::heaps::levels::{above, below};
use crate::heaps::slots::{Slot, stand};
use gauge::Gauge;
use std::ops::Range;

// The first entry goes before the second. By hand, since the order of costs is a function of their gauge and no Ord.
fn goes_before<G: Gauge>(a: &Held<G::Cost>, b: &Held<G::Cost>) -> bool
    ensures { result ≡ ahead G.Gauge.earlier a.now b.now }
{
    G::before(a.entry.cost, b.entry.cost)
        || !G::before(b.entry.cost, a.entry.cost) && a.point < b.point
}

// Moves the gap up past every entry that the one in hand goes before. Answers where the gap is then.
fn climb<G: Gauge>(slots: &mut [Slot<G::Cost>], gap: usize, held: Held<G::Cost>) -> usize
    requires { gap < length slots.old }
    ensures room { length slots.new ≡ length slots.old }
    ensures up { result ≤ gap }
    ensures gap { Raised G.Gauge.earlier slots.old gap held slots.new result }
{
    // A while: each step goes to a place that depends on the last one, so no range or chain is plainer.
    let mut at = gap;
    while at > 0 {
        let up = above(at);
        let over = slots[up].held;
        if !goes_before::<G>(&held, &over) {
            break;
        }
        stand(slots, at, over);
        at = up;
    }
    at
}

// Of the entries right below a place, the place of the one that goes first.
fn first_below<G: Gauge>(slots: &[Slot<G::Cost>], count: usize, place: usize) -> Option<usize>
    requires { count ≤ length slots.now }
    ensures inside { (at : ℕ) → result ≡ Some at → at < count }
    ensures leads { (d : Slot G.Cost) → LeadsBelow G.Gauge.earlier d slots.now count place result }
{
    let Range { start, end } = below(place, count);
    if start >= end {
        return None;
    }
    // A for: as a `reduce` of the range, neither its indexes at each turn nor its result was proved.
    let mut first = start;
    for next in start + 1..end {
        if goes_before::<G>(&slots[next].held, &slots[first].held) {
            first = next;
        }
    }
    Some(first)
}

// Moves the gap down past every entry that goes before the one in hand. Answers where the gap is then.
fn sink<G: Gauge>(
    slots: &mut [Slot<G::Cost>],
    count: usize,
    gap: usize,
    held: Held<G::Cost>,
) -> usize
    requires { (gap < count) × (count ≤ length slots.old) }
    ensures room { length slots.new ≡ length slots.old }
    ensures inside { result < count }
    ensures gap { Lowered G.Gauge.earlier count slots.old gap held slots.new result }
{
    // A while, as in climb.
    let mut at = gap;
    while let Some(next) = first_below::<G>(slots, count, at) {
        let under = slots[next].held;
        if !goes_before::<G>(&under, &held) {
            break;
        }
        stand(slots, at, under);
        at = next;
    }
    at
}

// Lets the entry in hand find its place, and stand there.
pub(crate) fn settle<G: Gauge>(
    slots: &mut [Slot<G::Cost>],
    count: usize,
    gap: usize,
    held: Held<G::Cost>,
)
    requires { (gap < count) × (count ≤ length slots.old) }
    ensures room { length slots.new ≡ length slots.old }
    ensures heap { Settled G.Gauge.earlier count slots.old gap held slots.new }
{
    let up = climb::<G>(slots, gap, held);
    let at = sink::<G>(slots, count, up, held);
    stand(slots, at, held);
}
