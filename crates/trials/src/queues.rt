// Queues: heap and row side by side through the same long lists of calls, and each against answers written by hand.
ghost use Rattle.std.specs.Prelude.{◌<◌};

use crate::cases::cable_cost;
use crate::layers::{Borrower, Owner};
use gauge::Gauge;
use gauge::house::Cable;
use gauge::sum::Sum;
use queue::{Entry, Heap, Held, Queue, Row, Slot};
use std::alloc::{AllocError, Global};
use std::process::Abort;

// A call of a queue. A put names its cost by a place in a table of costs. An enum: as a closure, a call that
// is made up would have to be boxed and handed out.
#[derive(Clone, Copy)]
enum Call {
    Clear,
    Put(u16, usize, u16),
    Find(u16),
    Look,
    Take,
}

// Makes the same call of two queues. Answers whether they answered the same.
fn answer_alike<G: Gauge, A: Queue<G>, B: Queue<G>>(
    a: &mut A,
    b: &mut B,
    call: Call,
    costs: &[G::Cost],
) -> bool
where
    G::Cost: PartialEq,
{
    match call {
        Call::Clear => {
            a.clear();
            b.clear();
            true
        }
        Call::Put(point, cost, from) => {
            let Some(cost) = costs.get(cost) else {
                return false;
            };
            let entry = Entry {
                cost: *cost,
                from: Some(from),
                run: None,
            };
            a.put(point, &entry) == b.put(point, &entry)
        }
        Call::Find(point) => a.find(point) == b.find(point),
        Call::Look => a.look() == b.look(),
        Call::Take => a.take() == b.take(),
    }
}

// The next of a sequence of numbers in no apparent order.
fn next(state: u64) -> u64 {
    state
        .wrapping_mul(6364136223846793005)
        .wrapping_add(1442695040888963407)
}

// A number below another. By `as`, since a remainder fits: `try_from` would add an error that can't come.
fn below(number: u64, end: u16) -> u16
    requires { 0 < end }
    ensures { result < end }
{
    (number % u64::from(end)) as u16
}

// How many costs a table has.
const COSTS: u16 = 8;

// A call of each kind, puts most often. Points go past the capacity now and then. A capacity fits 64 bits, for which there is no `From`.
fn made_up(number: u64, room: usize) -> Call {
    let point = below(number >> 40, below(room as u64, 65000) + 2);
    let cost = usize::from(below(number >> 24, COSTS));
    match below(number >> 56, 32) {
        0 => Call::Clear,
        1..=6 => Call::Take,
        7..=9 => Call::Look,
        10..=13 => Call::Find(point),
        _ => Call::Put(point, cost, below(number >> 16, 4096)),
    }
}

// What queues are asked in a trial.
#[derive(Drop)]
struct Trial<'a, G: Gauge> {
    // The costs of the puts, and that of all puts before the first clear.
    costs: &'a [G::Cost],
    early: G::Cost,
    // Where the made-up numbers begin.
    seed: u64,
}

impl<'a, G: Gauge> Trial<'a, G>
where
    G::Cost: PartialEq,
{
    // Makes so many calls of two queues. Tells the first that they answered differently, if there is one.
    fn first_unlike<A: Queue<G>, B: Queue<G>>(
        &self,
        a: &mut A,
        b: &mut B,
        calls: usize,
    ) -> Option<usize> {
        let mut state = self.seed;
        for i in 0..calls {
            state = next(state);
            let call = made_up(state, a.capacity());
            if !answer_alike::<G, A, B>(a, b, call, self.costs) {
                return Some(i);
            }
        }
        None
    }

    // Makes calls of a queue that was never cleared, over any memory. Tells the first put that was not refused as it should be.
    fn first_unowed<Q: Queue<G>>(&self, queue: &mut Q) -> Option<u16> {
        let entry = Entry {
            cost: self.early,
            from: None,
            run: Some(7),
        };
        let room = queue.capacity();
        let mut state = self.seed;
        for _ in 0..200 {
            state = next(state);
            let point = below(state >> 40, 48);
            let refused = queue.put(point, &entry).is_err();
            if refused != (usize::from(point) >= room) || queue.capacity() != room {
                return Some(point);
            }
            if state >> 63 == 0 {
                let _ = queue.find(point);
                let _ = queue.look();
                let _ = queue.take();
            }
        }
        None
    }

    // Two queues that were never cleared: what they owe then, and after a clear the same answers to many calls.
    fn side_by_side<A: Queue<G>, B: Queue<G>>(&self, rt: &impl Abort, a: &mut A, b: &mut B) {
        let room = a.capacity();
        assert_eq!(rt; room, b.capacity(), "capacity {room}");
        assert_eq!(rt; self.first_unowed(a), None, "capacity {room}");
        assert_eq!(rt; self.first_unowed(b), None, "capacity {room}");
        a.clear();
        b.clear();
        assert_eq!(rt; self.first_unlike(a, b, 600), None, "capacity {room}");
    }

    // A heap and a row of so many places side by side, over memory that holds anything, with one cost in all places.
    fn heap_and_row(
        &self,
        rt: &impl Abort,
        alloc: Global,
        room: u16,
        cost: G::Cost,
    ) -> Result<(), AllocError> {
        let entry = Entry {
            cost,
            from: Some(1),
            run: None,
        };
        let held = Held { point: 0, entry };
        let mut slots = vec![in alloc; Slot { held, place: 0 }; usize::from(room)]?;
        wild(slots.as_mut_slice(), u64::from(room));
        let mut places = vec![in alloc; Some(entry); usize::from(room)]?;
        let mut heap: Heap<G> = Heap::new(slots.as_mut_slice());
        let mut row: Row<G> = Row::new(places.as_mut_slice());
        self.side_by_side(rt, &mut heap, &mut row);
        Ok(())
    }
}

// What memory holds at first: points and places of all sizes.
fn wild<C: Copy>(slots: &mut [Slot<C>], seed: u64) {
    let mut state = seed;
    for slot in slots.iter_mut() {
        state = next(state);
        slot.held.point = below(state >> 48, 40);
        slot.place = usize::from(below(state >> 30, 40));
    }
}

const SUMS: [u32; 8] = [0, 1, 1, 2, 5, 5, 9, 4294967294];

#[test]
fn heap_and_row_answer_alike_at_sums(rt: HostRuntime) -> Result<(), AllocError> {
    for room in 0..32u16 {
        let trial: Trial<Sum> = Trial {
            costs: &SUMS,
            early: 4,
            seed: u64::from(room),
        };
        trial.heap_and_row(&rt, rt.alloc(), room, 3)?;
    }
    Ok(())
}

// Costs that tie in the first part, in the first two, or in all.
#[test]
fn heap_and_row_answer_alike_at_cables(rt: HostRuntime) -> Result<(), AllocError> {
    let costs = [
        cable_cost([0, 0, 0]),
        cable_cost([10, 1, 2]),
        cable_cost([10, 1, 2]),
        cable_cost([10, 1, 4]),
        cable_cost([10, 0, 7]),
        cable_cost([9, 3, 0]),
        cable_cost([25, 1, 6]),
        cable_cost([4294967294, 0, 0]),
    ];
    let early = cable_cost([7, 7, 7]);
    for room in [1u16, 5, 13, 32] {
        let trial: Trial<Cable> = Trial {
            costs: &costs,
            early,
            seed: 1000 + u64::from(room),
        };
        trial.heap_and_row(&rt, rt.alloc(), room, early)?;
    }
    Ok(())
}

// Layers over heap and row answer as these do.
#[test]
fn a_layer_over_a_queue_is_a_queue(rt: HostRuntime) {
    let entry = Entry {
        cost: 3u32,
        from: Some(1),
        run: None,
    };
    let held = Held { point: 0, entry };
    let mut slots = [Slot { held, place: 0 }; 20];
    let mut places = [Some(entry); 20];
    let heap: Heap<Sum> = Heap::new(&mut slots);
    let mut row: Row<Sum> = Row::new(&mut places);
    let mut owner = Owner { inner: heap };
    let mut borrower = Borrower { inner: &mut row };
    let trial: Trial<Sum> = Trial {
        costs: &SUMS,
        early: 4,
        seed: 9,
    };
    trial.side_by_side(&rt, &mut owner, &mut borrower);
}

// A point and the cost of its entry.
fn seen(held: Option<Held<u32>>) -> Option<(u16, u32)> {
    held.map(|held| (held.point, held.entry.cost))
}

fn put<Q: Queue<Sum>>(queue: &mut Q, point: u16, cost: u32) -> Result<(), u16> {
    queue.put(
        point,
        &Entry {
            cost,
            from: Some(point),
            run: Some(3),
        },
    )
}

fn cost_of<Q: Queue<Sum>>(queue: &Q, point: u16) -> Option<u32> {
    queue.find(point).map(|entry| entry.cost)
}

// Calls of a queue of four points, with the answers written by hand.
fn by_hand<Q: Queue<Sum>>(rt: &impl Abort, kind: &str, queue: &mut Q) {
    queue.clear();
    assert_eq!(rt; seen(queue.look()), None, "{kind}");
    assert_eq!(rt; seen(queue.take()), None, "{kind}");
    assert_eq!(rt; put(queue, 2, 5), Ok(()), "{kind}");
    assert_eq!(rt; put(queue, 1, 5), Ok(()), "{kind}");
    assert_eq!(rt; put(queue, 3, 9), Ok(()), "{kind}");
    assert_eq!(rt;
        seen(queue.look()),
        Some((1, 5)),
        "{kind}: equal costs: the lower point"
    );
    assert_eq!(rt; put(queue, 3, 4), Ok(()), "{kind}");
    assert_eq!(rt;
        seen(queue.look()),
        Some((3, 4)),
        "{kind}: a better cost goes first"
    );
    assert_eq!(rt; put(queue, 3, 7), Ok(()), "{kind}");
    assert_eq!(rt;
        seen(queue.look()),
        Some((1, 5)),
        "{kind}: a worse cost goes back"
    );
    assert_eq!(rt; put(queue, 4, 0), Err(4), "{kind}: no such point");
    assert_eq!(rt; cost_of(queue, 4), None, "{kind}");
    assert_eq!(rt; cost_of(queue, 3), Some(7), "{kind}");
    assert_eq!(rt; seen(queue.take()), Some((1, 5)), "{kind}");
    assert_eq!(rt; cost_of(queue, 1), None, "{kind}");
    assert_eq!(rt; seen(queue.take()), Some((2, 5)), "{kind}");
    assert_eq!(rt; put(queue, 0, 7), Ok(()), "{kind}");
    assert_eq!(rt; seen(queue.take()), Some((0, 7)), "{kind}");
    assert_eq!(rt; seen(queue.take()), Some((3, 7)), "{kind}");
    assert_eq!(rt; seen(queue.take()), None, "{kind}");
    assert_eq!(rt; put(queue, 3, 0), Ok(()), "{kind}");
    queue.clear();
    assert_eq!(rt; cost_of(queue, 3), None, "{kind}");
    assert_eq!(rt; seen(queue.look()), None, "{kind}");
}

#[test]
fn heap_and_row_answer_as_written_by_hand(rt: HostRuntime) {
    let entry = Entry {
        cost: 0u32,
        from: None,
        run: None,
    };
    let held = Held { point: 2, entry };
    let mut slots = [Slot { held, place: 1 }; 4];
    let mut places = [Some(entry); 4];
    let mut heap: Heap<Sum> = Heap::new(&mut slots);
    let mut row: Row<Sum> = Row::new(&mut places);
    by_hand::<Heap<'_, _>>(&rt, "heap", &mut heap);
    by_hand::<Row<'_, _>>(&rt, "row", &mut row);
}

// More places than there are points: the last ones are those of no point.
#[test]
fn a_row_leaves_places_past_the_last_point_alone(rt: HostRuntime) -> Result<(), AllocError> {
    let entry = Entry {
        cost: 0u32,
        from: None,
        run: None,
    };
    let mut places = vec![in rt.alloc(); Some(entry); 65540]?;
    let mut row: Row<Sum> = Row::new(places.as_mut_slice());
    row.clear();
    assert_eq!(rt; row.capacity(), 65540);
    assert_eq!(rt; put::<Row<'_, _>>(&mut row, 65535, 4), Ok(()));
    assert_eq!(rt; put::<Row<'_, _>>(&mut row, 5, 4), Ok(()));
    assert_eq!(rt; seen(row.take()), Some((5, 4)));
    assert_eq!(rt; seen(row.take()), Some((65535, 4)));
    assert_eq!(rt; seen(row.take()), None);
    Ok(())
}
