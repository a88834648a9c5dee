// A queue over a heap in lent memory.
mod levels;
mod sift;
pub mod slots;

ghost use Rattle.std.specs.Prelude.{◌≡◌, ℕ, ◌<◌, ◌≤◌, length, take, Some};
ghost use Rattle.std.specs.Slice.{IsGetRangeResult, IsItemAt};
ghost use Rattle.queue.specs.declared.heaps.slots.Slot.{Slot};
ghost use Rattle.queue.specs.InHeap.{Heaped, heap_entries};
ghost use Rattle.queue.specs.Map.{after_put, after_take};
ghost use Rattle.queue.specs.Sifting.{EntryAt, Standing};
ghost use Rattle.queue.specs.Within.{heap_within};

use crate::Queue;
use crate::entries::{Entry, Held};
use crate::heaps::sift::settle;
use crate::heaps::slots::Slot;
use gauge::Gauge;

// The first `used` places of the lent memory hold the entries, so that none goes before the one above it. A place also notes, for the
// point of its own number, where that point's entry stands; a note counts only if an entry of that point does stand there.
// A slice with a count, and places by number: a queue owns no memory and works in what it is lent. That it is a heap is a premise of
// the clauses below and no invariant of the type: memory that was never cleared holds anything, so neither `used` nor a note is relied
// on before it is tested.
#[derive(Drop)]
pub struct Heap<'a, G: Gauge> {
    slots: &'a mut [Slot<G::Cost>],
    used: usize,
}

impl<'a, G: Gauge> Heap<'a, G> {
    // A heap over any memory; its capacity is the number of places.
    pub fn new(slots: &'a mut [Slot<G::Cost>]) -> Heap<'a, G>
        ensures slots { result.slots.now ≡ slots.old }
        ensures used { result.used ≡ 0 }
    {
        Heap { slots, used: 0 }
    }

    // The places of the entries.
    fn held(&self) -> Option<&[Slot<G::Cost>]>
        ensures { IsGetRangeResult self.now.slots.now 0 self.now.used result }
    {
        self.slots.get(..self.used)
    }

    // The first of them.
    fn front(&self) -> Option<&Slot<G::Cost>>
        ensures { self.now.used ≤ length self.now.slots.now → IsItemAt (take self.now.used self.now.slots.now) 0 result }
    {
        self.held()?.first()
    }

    // Where the entry of a point stands.
    fn place_of(&self, point: u16) -> Option<usize>
        ensures inside { (at : ℕ) → result ≡ Some at → (at < self.now.used) × (self.now.used ≤ length self.now.slots.now) }
        ensures standing { (d : Slot G.Cost) → Standing d self.now.slots.now self.now.used point result }
        ensures entry { Heaped G.Gauge.earlier self.now.slots.now self.now.used → EntryAt self.now.slots.now self.now.used point result }
    {
        let at = self.slots.get(usize::from(point))?.place;
        let here = self.held()?.get(at)?;
        (here.held.point == point).then_some(at)
    }

    // Sets the entry of a point. One that has none gets the place after the last, which is there but in memory that was never cleared.
    fn set(&mut self, held: Held<G::Cost>)
        requires { held.point < length self.old.slots.now }
        ensures room { length self.new.slots.now ≡ length self.old.slots.now }
        ensures heaped { Heaped G.Gauge.earlier self.old.slots.now self.old.used → Heaped G.Gauge.earlier self.new.slots.now self.new.used }
        ensures entries { Heaped G.Gauge.earlier self.old.slots.now self.old.used → (p : ℕ) → heap_entries self.new.slots.now self.new.used p ≡ after_put (length self.old.slots.now) (heap_entries self.old.slots.now self.old.used) held.point held.entry p }
    {
        let at = self.place_of(held.point).unwrap_or(self.used);
        if at < self.slots.len() {
            self.used = self.used.max(at + 1);
            settle::<G>(self.slots, self.used, at, held);
        }
    }

    // Removes the entry that goes first, if there is one. The last fills its place.
    fn remove_first(&mut self)
        ensures room { length self.new.slots.now ≡ length self.old.slots.now }
        ensures heaped { Heaped G.Gauge.earlier self.old.slots.now self.old.used → Heaped G.Gauge.earlier self.new.slots.now self.new.used }
        ensures entries { Heaped G.Gauge.earlier self.old.slots.now self.old.used → (p : ℕ) → heap_entries self.new.slots.now self.new.used p ≡ after_take G.Gauge.earlier (length self.old.slots.now) (heap_entries self.old.slots.now self.old.used) p }
    {
        self.used = self.used.saturating_sub(1);
        if self.used > 0 && self.used < self.slots.len() {
            let last = self.slots[self.used].held;
            settle::<G>(self.slots, self.used, 0, last);
        }
    }
}

impl<'a, G: Gauge> Queue<G> for Heap<'a, G> {
    ghost room = { λ s. length s.slots.now };

    ghost cleared = { λ s. Heaped G.Gauge.earlier s.slots.now s.used };

    ghost entries = { λ s. heap_entries s.slots.now s.used };

    ghost within = { λ s heap p h. heap_within G.Gauge.earlier s.slots.now s.used heap p h };

    fn capacity(&self) -> usize {
        self.slots.len()
    }

    fn clear(&mut self) {
        self.used = 0;
    }

    fn put(&mut self, point: u16, entry: &Entry<G::Cost>) -> Result<(), u16> {
        if usize::from(point) >= self.slots.len() {
            return Err(point);
        }
        self.set(Held {
            point,
            entry: *entry,
        });
        Ok(())
    }

    fn find(&self, point: u16) -> Option<Entry<G::Cost>> {
        let at = self.place_of(point)?;
        Some(self.slots[at].held.entry)
    }

    fn look(&self) -> Option<Held<G::Cost>> {
        Some(self.front()?.held)
    }

    fn take(&mut self) -> Option<Held<G::Cost>> {
        let first = self.look();
        self.remove_first();
        first
    }
}
