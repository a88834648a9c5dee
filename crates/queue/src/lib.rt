// Queues: for each point at most one entry, and the entry that goes first.
#![tactic(auto)]

mod entries;
mod heaps;
mod rows;

ghost use Rattle.std.specs.Prelude.{◌≡◌, ℕ, ◌≤◌, None, Option};
ghost use Rattle.queue.specs.declared.entries.Entry.{Entry};
ghost use Rattle.queue.specs.Map.{after_put, after_take, put_answer};
ghost use Rattle.queue.specs.Order.{First, look};

pub use entries::{Entry, Held};
use gauge::Gauge;
pub use heaps::Heap;
pub use heaps::slots::Slot;
pub use rows::Row;

// A queue of the points below its capacity, for the costs of a gauge. Until it is first cleared it owes only its capacity, the
// refusal of a put, and an end to each call.
pub trait Queue<G: Gauge> {
    // The capacity: points below it can have an entry.
    ghost room: { Self → ℕ };

    // The queue has been cleared.
    ghost cleared: { Self → Type 0 };

    // The entry of each point, or none.
    ghost entries: { Self → ℕ → Option (Entry G.Cost) };

    // Only points below the capacity have one.
    ghost within: { (s : Self) → cleared s → (p : ℕ) → room s ≤ p → entries s p ≡ None };

    fn capacity(&self) -> usize
        ensures { result ≡ room self.now };

    // Removes all entries.
    fn clear(&mut self)
        ensures room { room self.new ≡ room self.old }
        ensures cleared { cleared self.new }
        ensures entries { (p : ℕ) → entries self.new p ≡ None };

    // Sets the entry of a point, in the place of any that it has; a point not below the capacity is handed back, as the Err, and nothing
    // changes. The entry comes by reference: by value, each impl would have to repeat these clauses.
    fn put(&mut self, point: u16, entry: &Entry<G::Cost>) -> Result<(), u16>
        ensures answer { result ≡ put_answer (room self.old) point }
        ensures refused { room self.old ≤ point → self.new ≡ self.old }
        ensures room { room self.new ≡ room self.old }
        ensures cleared { cleared self.old → cleared self.new }
        ensures entries { cleared self.old → (p : ℕ) → entries self.new p ≡ after_put (room self.old) (entries self.old) point entry.now p };

    // The entry of a point.
    fn find(&self, point: u16) -> Option<Entry<G::Cost>>
        ensures { cleared self.now → result ≡ entries self.now point };

    // The entry first by cost in listing order, then by lower point.
    fn look(&self) -> Option<Held<G::Cost>>
        ensures answer { cleared self.now → result ≡ look G.Gauge.earlier (entries self.now) (room self.now) }
        ensures first { cleared self.now → First G.Gauge.earlier (entries self.now) result };

    // Answers as look does, and removes that entry.
    fn take(&mut self) -> Option<Held<G::Cost>>
        ensures answer { cleared self.old → result ≡ look G.Gauge.earlier (entries self.old) (room self.old) }
        ensures room { room self.new ≡ room self.old }
        ensures cleared { cleared self.old → cleared self.new }
        ensures entries { cleared self.old → (p : ℕ) → entries self.new p ≡ after_take G.Gauge.earlier (room self.old) (entries self.old) p };
}
