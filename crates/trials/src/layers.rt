// Thin layers over any queue, each a queue itself: one owns the queue below it, one borrows it. They show that a layer, as a record of
// what a queue was asked, needs nothing from the code above it.
use gauge::Gauge;
use queue::{Entry, Held, Queue};

#[derive(Drop)]
pub(crate) struct Owner<Q> {
    pub(crate) inner: Q,
}

impl<G: Gauge, Q: Queue<G>> Queue<G> for Owner<Q> {
    ghost room = { λ s. Q.Queue.room s.inner };

    ghost cleared = { λ s. Q.Queue.cleared s.inner };

    ghost entries = { λ s. Q.Queue.entries s.inner };

    ghost within = { λ s. Q.Queue.within s.inner };

    fn capacity(&self) -> usize {
        self.inner.capacity()
    }

    fn clear(&mut self) {
        self.inner.clear();
    }

    fn put(&mut self, point: u16, entry: &Entry<G::Cost>) -> Result<(), u16> {
        self.inner.put(point, entry)
    }

    fn find(&self, point: u16) -> Option<Entry<G::Cost>> {
        self.inner.find(point)
    }

    fn look(&self) -> Option<Held<G::Cost>> {
        self.inner.look()
    }

    fn take(&mut self) -> Option<Held<G::Cost>> {
        self.inner.take()
    }
}

// Beside Owner and not one form for both: that a queue held either way makes a layer is what is tried.
#[derive(Drop)]
pub(crate) struct Borrower<'a, Q> {
    pub(crate) inner: &'a mut Q,
}

impl<'a, G: Gauge, Q: Queue<G>> Queue<G> for Borrower<'a, Q> {
    ghost room = { λ s. Q.Queue.room s.inner.now };

    ghost cleared = { λ s. Q.Queue.cleared s.inner.now };

    ghost entries = { λ s. Q.Queue.entries s.inner.now };

    ghost within = { λ s. Q.Queue.within s.inner.now };

    fn capacity(&self) -> usize {
        self.inner.capacity()
    }

    fn clear(&mut self) {
        self.inner.clear();
    }

    fn put(&mut self, point: u16, entry: &Entry<G::Cost>) -> Result<(), u16> {
        self.inner.put(point, entry)
    }

    fn find(&self, point: u16) -> Option<Entry<G::Cost>> {
        self.inner.find(point)
    }

    fn look(&self) -> Option<Held<G::Cost>> {
        self.inner.look()
    }

    fn take(&mut self) -> Option<Held<G::Cost>> {
        self.inner.take()
    }
}
