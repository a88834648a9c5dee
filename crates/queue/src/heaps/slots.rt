// The memory of a heap.
ghost use Rattle.std.specs.Prelude.{◌≡◌, ◌<◌, length};
ghost use Rattle.queue.specs.declared.heaps.slots.Slot.{Slot};
ghost use Rattle.queue.specs.Sifting.{Noted, Stood};

use crate::entries::Held;

// One place of a heap's memory: an entry with its point and, for the point of this place's own number, where its entry stands. A number,
// since a queue owns no memory that could hold a map.
#[derive(Clone, Copy, Debug, PartialEq, Eq)]
pub struct Slot<C> {
    pub held: Held<C>,
    pub place: usize,
}

// Writes an entry to a place, and notes the place for its point.
pub(crate) fn stand<C: Copy>(slots: &mut [Slot<C>], at: usize, held: Held<C>)
    requires { at < length slots.old }
    ensures { (d : Slot C) → Stood d slots.old at held slots.new }
{
    slots[at].held = held;
    note(slots, held.point, at);
}

// Notes for a point where its entry stands.
fn note<C: Copy>(slots: &mut [Slot<C>], point: u16, at: usize)
    ensures { (d : Slot C) → Noted d slots.old point at slots.new }
{
    // By index: after a write through `get_mut` a proof knows no place of the slice.
    let own = usize::from(point);
    if own < slots.len() {
        slots[own].place = at;
    }
}
