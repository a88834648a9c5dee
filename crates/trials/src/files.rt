// Plan files: which are refused, and what the run table holds after.
use crate::cases::{CABLE, DRIVE, LEVEL_C, Line, ONES, Row, WIDEST, file, head, wanted};
use fault::Fault;
use gauge::house::{Cable, Drive};
use plan::Run;
use planfile::{Header, Kind};
use std::alloc::Global;
use std::process::Abort;
use std::test::Fail;

// Points, runs and kind; the bytes of the file, of which all after those three are 0; the places of the run table; and the refusal.
type Counts = ([u16; 3], usize, usize, Option<Row>);

const CABLE_COUNTS: [Counts; 29] = [
    // no room for the three numbers
    ([1, 0, 1], 0, 0, Some((1, 1, 0))),
    ([1, 0, 1], 5, 0, Some((1, 1, 5))),
    ([0, 0, 1], 5, 0, Some((1, 1, 5))),
    // points
    ([0, 0, 1], 6, 0, Some((1, 2, 0))),
    ([257, 0, 1], 6, 0, Some((1, 2, 257))),
    ([1, 0, 1], 6, 0, None),
    ([256, 0, 1], 6, 0, None),
    // runs
    ([1, 1025, 1], 16406, 1025, Some((1, 3, 1025))),
    ([1, 65535, 1], 6, 0, Some((1, 3, 65535))),
    ([1, 1024, 1], 16390, 1024, None),
    // kind
    ([1, 0, 2], 6, 0, Some((1, 4, 2))),
    ([1, 0, 0], 6, 0, Some((1, 4, 0))),
    ([1, 0, 3], 6, 0, Some((1, 4, 3))),
    ([1, 0, 257], 6, 0, Some((1, 4, 257))),
    // too few bytes, too many, too few places
    ([1, 2, 1], 6, 2, Some((1, 1, 6))),
    ([1, 2, 1], 37, 2, Some((1, 1, 37))),
    ([1, 2, 1], 39, 2, Some((1, 5, 38))),
    ([1, 0, 1], 7, 0, Some((1, 5, 6))),
    ([1, 1, 1], 22, 0, Some((1, 6, 1))),
    ([1, 2, 1], 38, 1, Some((1, 6, 2))),
    ([1, 2, 1], 38, 2, None),
    ([1, 2, 1], 38, 3, None),
    ([1, 1024, 1], 16390, 1023, Some((1, 6, 1024))),
    // several reasons, the first of them told
    ([0, 1025, 3], 6, 0, Some((1, 2, 0))),
    ([1, 1025, 3], 6, 0, Some((1, 3, 1025))),
    ([1, 2, 3], 6, 0, Some((1, 4, 3))),
    ([1, 2, 3], 39, 0, Some((1, 4, 3))),
    ([1, 2, 1], 37, 0, Some((1, 1, 37))),
    ([1, 2, 1], 39, 0, Some((1, 5, 38))),
];

const DRIVE_COUNTS: [Counts; 6] = [
    ([1, 0, 1], 6, 0, Some((1, 4, 1))),
    ([1, 0, 0], 6, 0, Some((1, 4, 0))),
    ([1, 0, 3], 6, 0, Some((1, 4, 3))),
    ([1, 2, 2], 37, 2, Some((1, 1, 37))),
    ([1, 2, 2], 38, 1, Some((1, 6, 2))),
    ([256, 2, 2], 38, 2, None),
];

// The weights of the runs, and the refusal.
type Weights = (&'static [[u32; 3]], Option<Row>);

const CABLE_WEIGHTS: [Weights; 8] = [
    (&[[ONES, 0, 0]], Some((1, 7, 0))),
    (&[[0, ONES, 0]], Some((1, 7, 0))),
    (&[[0, 0, ONES]], None),
    (&[[WIDEST, WIDEST, ONES], [16909060, 84281096, 7]], None),
    (&[[1, 2, 3], [ONES, 0, 0]], Some((1, 7, 1))),
    (&[[1, 2, 3], [0, ONES, 0]], Some((1, 7, 1))),
    (&[[0, 16, 0]], None),
    (&[[1, 2, 3], [0, ONES, 0], [ONES, 0, 0]], Some((1, 7, 1))),
];

const DRIVE_WEIGHTS: [Weights; 14] = [
    (&[[ONES, 0, 0]], Some((1, 7, 0))),
    (&[[0, ONES, 0]], Some((1, 7, 0))),
    (&[[0, 0, ONES]], Some((1, 7, 0))),
    (&[[WIDEST, 15, WIDEST], [1, 2, 3]], None),
    (&[[0, 16, 0]], Some((1, 8, 0))),
    (&[[0, WIDEST, 0]], Some((1, 8, 0))),
    (&[[1, 2, 3], [0, 256, 0]], Some((1, 8, 1))),
    (&[[1, 2, 3], [0, 0, ONES]], Some((1, 7, 1))),
    (&[[0, 0, ONES], [0, 16, 0]], Some((1, 7, 0))),
    (&[[0, 16, 0], [ONES, 0, 0]], Some((1, 8, 0))),
    (&[[ONES, 16, 0]], Some((1, 7, 0))),
    (&[[0, 16, ONES]], Some((1, 8, 0))),
    (&[[1, 2, 3], [1, 15, 3], [0, 16, 0]], Some((1, 8, 2))),
    (&[], None),
];

// What stands in each place of a run table before a file is read.
const MARK: Line = (9, 8, [7, 6, 5]);

fn marked<K: Kind>(heap: Global, room: usize) -> Result<Vec<Run<K::Weight>>, Fail> {
    let (tail, head, [a, b, c]) = MARK;
    let weight = K::weigh(a, b, c).ok().ok_or("the mark")?;
    Ok(vec![in heap; Run { tail, head, weight }; room]?)
}

// The table holds these runs, and then marks.
fn check_table<K: Kind>(rt: &impl Abort, case: &str, table: &[Run<K::Weight>], lines: &[Line]) {
    for (k, run) in table.iter().enumerate() {
        let want = lines.get(k).copied().unwrap_or(MARK);
        assert_eq!(rt;
            (run.tail, run.head, K::numbers(run.weight)),
            want,
            "{case}: place {k}"
        );
    }
}

// A file that is read into a table of so many places, and the counts and runs that it states, or its refusal.
#[derive(Drop)]
struct Reading<'a> {
    case: &'a str,
    bytes: &'a [u8],
    room: usize,
    points: usize,
    lines: &'a [Line],
    refusal: Option<Row>,
}

impl Reading<'_> {
    // Reading is refused and leaves the marks, or fills the first places with these runs.
    fn check<K: Kind>(&self, rt: &impl Abort, heap: Global) -> Result<(), Fail> {
        let mut table = marked::<K>(heap, self.room)?;
        let got = planfile::read::<K>(self.bytes, table.as_mut_slice()).map_err(Fault::from);
        let header = Header {
            points: self.points,
            runs: self.lines.len(),
        };
        let case = self.case;
        assert_eq!(rt; got, wanted(header, self.refusal), "{case}");
        if self.refusal.is_none() {
            check_table::<K>(rt, case, table.as_slice(), self.lines);
        } else {
            check_table::<K>(rt, case, table.as_slice(), &[]);
        }
        Ok(())
    }
}

fn check_counts<K: Kind>(rt: &impl Abort, heap: Global, cases: &[Counts]) -> Result<(), Fail> {
    for (counts, size, room, refusal) in cases {
        let [points, runs, kind] = *counts;
        let mut bytes = head(heap, *counts)?;
        bytes.resize(*size, 0)?;
        let lines = vec![in heap; (0, 0, [0, 0, 0]); usize::from(runs)]?;
        let case = format!(in heap;
            "{points} points, {runs} runs, kind {kind}, {size} bytes, {room} places"
        )?;
        let reading = Reading {
            case: case.as_str(),
            bytes: bytes.as_slice(),
            room: *room,
            points: usize::from(points),
            lines: lines.as_slice(),
            refusal: *refusal,
        };
        reading.check::<K>(rt, heap)?;
    }
    Ok(())
}

// Files of a kind, read into a table of four places. The ends of their runs are no points, which reading does not ask.
fn check_weights<K: Kind>(
    rt: &impl Abort,
    heap: Global,
    kind: u16,
    cases: &[Weights],
) -> Result<(), Fail> {
    for (weights, refusal) in cases {
        let mut lines = Vec::new(heap);
        for weight in *weights {
            lines.push((259, 772, *weight))?;
        }
        let bytes = file(heap, 5, kind, lines.as_slice())?;
        let case = format!(in heap; "{weights:?}")?;
        let reading = Reading {
            case: case.as_str(),
            bytes: bytes.as_slice(),
            room: 4,
            points: 5,
            lines: lines.as_slice(),
            refusal: *refusal,
        };
        reading.check::<K>(rt, heap)?;
    }
    Ok(())
}

#[test]
fn counts_and_lengths_are_refused_in_their_order(rt: HostRuntime) -> Result<(), Fail> {
    check_counts::<Cable>(&rt, rt.alloc(), &CABLE_COUNTS)?;
    check_counts::<Drive>(&rt, rt.alloc(), &DRIVE_COUNTS)
}

#[test]
fn weights_are_refused_run_by_run_and_part_by_part(rt: HostRuntime) -> Result<(), Fail> {
    check_weights::<Cable>(&rt, rt.alloc(), CABLE, &CABLE_WEIGHTS)?;
    check_weights::<Drive>(&rt, rt.alloc(), DRIVE, &DRIVE_WEIGHTS)
}

#[test]
fn the_first_places_are_filled_and_the_others_stay(rt: HostRuntime) -> Result<(), Fail> {
    let heap = rt.alloc();
    let bytes = file(heap, 5, CABLE, &LEVEL_C)?;
    for (case, room, refusal) in [
        ("as many places as runs", 5, None),
        ("more places", 8, None),
        ("one place too few", 4, Some((1, 6, 5))),
    ] {
        let reading = Reading {
            case,
            bytes: bytes.as_slice(),
            room,
            points: 5,
            lines: &LEVEL_C,
            refusal,
        };
        reading.check::<Cable>(&rt, heap)?;
    }
    Ok(())
}

#[test]
fn a_short_table_is_told_before_an_unmeasured_weight(rt: HostRuntime) -> Result<(), Fail> {
    let heap = rt.alloc();
    let lines = [(0, 0, [ONES, 0, 0]), (0, 0, [0, 0, 0])];
    let bytes = file(heap, 1, CABLE, &lines)?;
    for (case, room, refusal) in [
        ("a short table", 1, (1, 6, 2)),
        ("a long enough table", 2, (1, 7, 0)),
    ] {
        let reading = Reading {
            case,
            bytes: bytes.as_slice(),
            room,
            points: 1,
            lines: &lines,
            refusal: Some(refusal),
        };
        reading.check::<Cable>(&rt, heap)?;
    }
    Ok(())
}
