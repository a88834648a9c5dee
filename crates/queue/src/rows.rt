// A queue with one place for each point, looked through from end to end.
ghost use Rattle.std.specs.Prelude.{◌≡◌, ℕ, ◌<◌, length, if◌then◌else◌, None, nat_eq};
ghost use Rattle.queue.specs.InRow.{row_entries, row_held, first_of_two};
ghost use Rattle.queue.specs.Within.{row_within};

use crate::Queue;
use crate::entries::{Entry, Held};
use gauge::Gauge;

// How many points there are: their numbers have 16 bits.
const POINTS: usize = 1 << 16;

// Place p of the lent memory is that of point p. Places past the last number of 16 bits are those of no point.
#[derive(Drop)]
pub struct Row<'a, G: Gauge> {
    places: &'a mut [Option<Entry<G::Cost>>],
}

impl<'a, G: Gauge> Row<'a, G> {
    // A row over any memory; its capacity is the number of places.
    pub fn new(places: &'a mut [Option<Entry<G::Cost>>]) -> Row<'a, G>
        ensures { result.places.now ≡ places.old }
    {
        Row { places }
    }
}

impl<'a, G: Gauge> Queue<G> for Row<'a, G> {
    ghost room = { λ s. length s.places.now };

    ghost cleared = { λ s. Unit {0} };

    ghost entries = { λ s. row_entries s.places.now };

    ghost within = { λ s _ p h. row_within s.places.now p h };

    fn capacity(&self) -> usize {
        self.places.len()
    }

    fn clear(&mut self) {
        self.places.fill(None);
    }

    fn put(&mut self, point: u16, entry: &Entry<G::Cost>) -> Result<(), u16> {
        // By index: after a write through `get_mut` a proof knows no place of the slice.
        let at = usize::from(point);
        if at >= self.places.len() {
            return Err(point);
        }
        self.places[at] = Some(*entry);
        Ok(())
    }

    fn find(&self, point: u16) -> Option<Entry<G::Cost>> {
        self.places.get(usize::from(point)).copied().flatten()
    }

    fn look(&self) -> Option<Held<G::Cost>> {
        self.places
            .iter()
            .take(POINTS)
            .enumerate()
            .filter_map(|(at, place)| held_in(at, *place))
            .reduce(|first, next| first_of_two::<G>(first, next))
    }

    fn take(&mut self) -> Option<Held<G::Cost>> {
        let held = self.look()?;
        self.places[usize::from(held.point)] = None;
        Some(held)
    }
}

// The entry at a place with the place's point. Places past the last number of 16 bits are those of no point.
fn held_in<C: Copy>(at: usize, place: Option<Entry<C>>) -> Option<Held<C>>
    ensures { result ≡ row_held at place }
{
    let point = u16::try_from(at).ok()?;
    Some(Held {
        point,
        entry: place?,
    })
}

// Of two entries the second if its cost comes before, or else the first.
fn first_of_two<G: Gauge>(first: Held<G::Cost>, next: Held<G::Cost>) -> Held<G::Cost>
    ensures { result ≡ first_of_two G.Gauge.earlier first next }
{
    if comes_before::<G>(&next, &first) {
        next
    } else {
        first
    }
}

// The cost of the first comes before that of the second. By reference: the check does not cover handing on an entry after its cost was
// read out by value.
fn comes_before<G: Gauge>(a: &Held<G::Cost>, b: &Held<G::Cost>) -> bool
    ensures { result ≡ G.Gauge.earlier a.now.entry.cost b.now.entry.cost }
{
    G::before(a.entry.cost, b.entry.cost)
}
