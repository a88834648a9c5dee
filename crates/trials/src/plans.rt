// Plans: which are refused, and the runs that leave a point.
use crate::cases::{LEVEL_C, Row, fault, wanted};
use fault::Fault;
use plan::{Plan, Run};
use std::alloc::{AllocError, Global};
use std::process::Abort;
use std::test::Fail;

// A tail and a head.
type Ends = (u16, u16);

// The number of points, the number of runs, all from 0 to 0, and the refusal.
const COUNTS: [(usize, usize, Option<Row>); 10] = [
    (0, 0, Some((2, 2, 0))),
    (257, 0, Some((2, 2, 257))),
    (usize::MAX, 0, Some((2, 2, usize::MAX))),
    (1, 0, None),
    (256, 0, None),
    (1, 1024, None),
    (256, 1024, None),
    (1, 1025, Some((2, 3, 1025))),
    (0, 1025, Some((2, 2, 0))),
    (257, 1025, Some((2, 2, 257))),
];

// The number of points, the runs, and the refusal.
const RUNS: [(usize, &[Ends], Option<Row>); 14] = [
    (3, &[(2, 2)], None),
    (3, &[(3, 0)], Some((2, 9, 0))),
    (3, &[(0, 3)], Some((2, 9, 0))),
    (3, &[(0, 65535)], Some((2, 9, 0))),
    (3, &[(0, 1), (0, 3)], Some((2, 9, 1))),
    (256, &[(0, 255), (255, 0)], None),
    (256, &[(0, 255), (256, 0)], Some((2, 9, 1))),
    (3, &[(1, 0), (1, 2), (2, 2)], None),
    (3, &[(1, 0), (0, 0)], Some((2, 10, 1))),
    (3, &[(0, 0), (2, 0), (1, 0)], Some((2, 10, 2))),
    (3, &[(1, 0), (0, 3)], Some((2, 9, 1))),
    (3, &[(1, 0), (0, 0), (3, 0)], Some((2, 10, 1))),
    (3, &[(0, 0), (3, 0), (0, 0)], Some((2, 9, 1))),
    (0, &[(1, 0), (0, 3)], Some((2, 2, 0))),
];

// A point, the number of the first run from there on, and the numbers of the runs that leave it.
type Leaving = (usize, usize, &'static [usize]);

const LEVEL_C_LEAVING: [Leaving; 5] = [
    (0, 0, &[0, 1]),
    (1, 2, &[2]),
    (2, 3, &[3, 4]),
    (3, 5, &[]),
    (4, 5, &[]),
];

// Points that no run leaves, at the start and in the middle.
const GAPS: [Ends; 3] = [(1, 0), (1, 2), (3, 3)];

const GAPS_LEAVING: [Leaving; 4] = [(0, 0, &[]), (1, 0, &[0, 1]), (2, 2, &[]), (3, 2, &[2])];

// A run table; the weight of each run is its number.
fn table(heap: Global, ends: &[Ends]) -> Result<Vec<Run<usize>>, AllocError> {
    let mut runs = Vec::new(heap);
    for (weight, (tail, head)) in ends.iter().enumerate() {
        let tail = *tail;
        let head = *head;
        runs.push(Run { tail, head, weight })?;
    }
    Ok(runs)
}

fn check_counts(
    rt: &impl Abort,
    case: &str,
    points: usize,
    runs: &[Run<usize>],
    refusal: Option<Row>,
) {
    let got = Plan::new(points, runs).map(|plan| (plan.points(), plan.runs().len()));
    let want = wanted((points, runs.len()), refusal);
    assert_eq!(rt; got.map_err(Fault::from), want, "{case}");
}

// The runs that leave each point, and the refusal of what is no point.
fn check_leaving(
    rt: &impl Abort,
    points: usize,
    runs: &[Run<usize>],
    cases: &[Leaving],
) -> Result<(), Fail> {
    let plan = Plan::new(points, runs).map_err(Fault::from)?;
    for (point, first, want) in cases {
        assert_eq!(rt; plan.first_from(*point), *first, "from {point}");
        let part = plan.leaving(*point).map_err(Fault::from)?;
        let same = part.iter().map(|run| &run.weight).eq(want.iter());
        assert!(rt; same, "leaving {point}");
    }
    for point in [points, usize::MAX] {
        assert_eq!(rt; plan.first_from(point), runs.len(), "from {point}");
        let refused = plan.leaving(point).err().map(Fault::from);
        assert_eq!(rt; refused, Some(fault((2, 17, point))), "leaving {point}");
    }
    Ok(())
}

#[test]
fn counts_come_before_runs_and_ends_before_order(rt: HostRuntime) -> Result<(), Fail> {
    let heap = rt.alloc();
    for (points, count, want) in COUNTS {
        let runs = table(heap, vec![in heap; (0, 0); count]?.as_slice())?;
        let case = format!(in heap; "{points} points, {count} runs")?;
        check_counts(&rt, case.as_str(), points, runs.as_slice(), want);
    }
    for (points, ends, want) in RUNS {
        let runs = table(heap, ends)?;
        let case = format!(in heap; "{points} points, {ends:?}")?;
        check_counts(&rt, case.as_str(), points, runs.as_slice(), want);
    }
    Ok(())
}

#[test]
fn the_runs_that_leave_a_point_are_one_part_of_the_table(rt: HostRuntime) -> Result<(), Fail> {
    let heap = rt.alloc();
    let mut ends = Vec::new(heap);
    for (tail, head, _) in LEVEL_C {
        ends.push((tail, head))?;
    }
    let runs = table(heap, ends.as_slice())?;
    check_leaving(&rt, 5, runs.as_slice(), &LEVEL_C_LEAVING)?;
    let runs = table(heap, &GAPS)?;
    check_leaving(&rt, 4, runs.as_slice(), &GAPS_LEAVING)?;
    check_leaving(&rt, 1, &[], &[(0, 0, &[])])
}
