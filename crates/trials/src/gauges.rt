// Gauges: the cost after a run, and how two costs compare.
use crate::cases::{ONES, WIDEST, cable_cost};
use fault::Fault;
use gauge::Gauge;
use gauge::house::{
    Cable, DriveWeight, cable_at, drive_at, drive_weight, widest_cable, widest_drive,
};
use gauge::set::Set;
use gauge::sum::Sum;
use gauge::worst::Worst;
use std::fmt::Debug;
use std::process::Abort;
use std::test::Fail;

// A limit, a cost, the weight of a run, and the cost after it.
const SUMS: [(u32, u32, u32, Option<u32>); 11] = [
    (10, 0, 0, Some(0)),
    (10, 4, 6, Some(10)),
    (10, 4, 7, None),
    (10, 10, 0, Some(10)),
    (10, 10, 1, None),
    (10, 11, 0, None),
    (0, 0, 0, Some(0)),
    (0, 0, 1, None),
    (WIDEST, 4294967293, 1, Some(WIDEST)),
    (WIDEST, 4294967293, 2, None),
    (WIDEST, WIDEST, WIDEST, None),
];

const WORSTS: [(u32, u8, u8, Option<u8>); 8] = [
    (10, 0, 0, Some(0)),
    (10, 3, 7, Some(7)),
    (10, 7, 3, Some(7)),
    (10, 7, 7, Some(7)),
    (10, 7, 10, Some(10)),
    (10, 7, 11, None),
    (10, 11, 7, None),
    (15, 15, 15, Some(15)),
];

// Two totals or classes, whether the first is no worse, and whether it comes before.
const ORDERS: [(u8, u8, bool, bool); 3] = [
    (3, 4, true, true),
    (4, 3, false, false),
    (4, 4, true, false),
];

// The limit is the allowed set.
const SETS: [(u32, u32, u32, Option<u32>); 9] = [
    (7, 0, 0, Some(0)),
    (7, 1, 2, Some(3)),
    (7, 3, 6, Some(7)),
    (7, 7, 0, Some(7)),
    (7, 1, 8, None),
    (7, 8, 1, None),
    (5, 1, 2, None),
    (0, 0, 1, None),
    (ONES, 2147483648, 2147483647, Some(ONES)),
];

// Two sets, whether the first is no worse, and whether it comes before.
const SET_ORDERS: [(u32, u32, bool, bool); 10] = [
    (0, 0, true, false),
    (0, 5, true, true),
    (1, 5, true, true),
    (4, 5, true, true),
    (2, 5, false, true),
    (8, 5, false, false),
    (5, 1, false, false),
    (5, 5, true, false),
    (2147483648, ONES, true, true),
    (ONES, 2147483648, false, false),
];

// A cost, the weight of a run, and the cost after it, at the limits 10, 3 and 5.
const CABLES: [([u32; 3], [u32; 3], Option<[u32; 3]>); 8] = [
    ([0, 0, 0], [0, 0, 0], Some([0, 0, 0])),
    ([0, 0, 0], [10, 3, 5], Some([10, 3, 5])),
    ([4, 1, 1], [6, 2, 4], Some([10, 3, 5])),
    ([4, 1, 1], [0, 0, 1], Some([4, 1, 1])),
    ([4, 1, 1], [7, 0, 0], None),
    ([4, 1, 1], [0, 3, 0], None),
    ([4, 1, 1], [0, 0, 2], None),
    ([4, 1, 1], [7, 3, 2], None),
];

// The parts of a drive cost.
type Ramped = (u32, u8, u32);

const DRIVES: [(Ramped, Ramped, Option<Ramped>); 7] = [
    ((0, 0, 0), (10, 3, 5), Some((10, 3, 5))),
    ((4, 2, 1), (6, 3, 4), Some((10, 3, 5))),
    ((4, 2, 1), (1, 1, 1), Some((5, 2, 2))),
    ((4, 2, 1), (7, 0, 0), None),
    ((4, 2, 1), (0, 4, 0), None),
    ((4, 2, 1), (0, 0, 5), None),
    ((4, 2, 1), (7, 4, 5), None),
];

// Two cable costs, whether the first is no worse, and whether it comes before.
const CABLE_ORDERS: [([u32; 3], [u32; 3], bool, bool); 10] = [
    ([1, 1, 1], [1, 1, 1], true, false),
    ([1, 1, 1], [2, 2, 3], true, true),
    ([1, 9, 1], [2, 0, 1], false, true),
    ([2, 0, 1], [1, 9, 1], false, false),
    ([1, 1, 8], [1, 2, 0], false, true),
    ([1, 2, 0], [1, 1, 8], false, false),
    ([1, 1, 1], [1, 1, 2], false, true),
    ([1, 1, 1], [1, 1, 3], true, true),
    ([1, 1, 3], [1, 1, 1], false, false),
    ([0, 0, 8], [1, 1, 1], false, true),
];

// Of two costs, whether the first is no worse, and whether it comes before.
fn check_order<G: Gauge>(rt: &impl Abort, a: G::Cost, b: G::Cost, (no_worse, before): (bool, bool))
where
    G::Cost: Debug,
{
    assert_eq!(rt; G::no_worse(a, b), no_worse, "{a:?} no worse than {b:?}");
    assert_eq!(rt; G::before(a, b), before, "{a:?} before {b:?}");
}

// A drive cost of three numbers: its form is that of a weight.
fn drive_cost((a, b, c): Ramped) -> DriveWeight {
    drive_weight(a, b, c)
}

// The cost after a run, at some limits.
fn check_along<G: Gauge>(
    rt: &impl Abort,
    limits: &impl Debug,
    gauge: &G,
    (cost, weight): (G::Cost, G::Weight),
    want: Option<G::Cost>,
)
where
    G::Cost: Debug + PartialEq,
    G::Weight: Debug,
{
    let got = gauge.along(cost, weight);
    assert_eq!(rt; got, want, "at {limits:?}, {cost:?} along {weight:?}");
}

#[test]
fn a_sum_reaches_its_limit_and_does_not_pass_it(rt: HostRuntime) -> Result<(), Fail> {
    for (limit, cost, weight, want) in SUMS {
        let sum = Sum::new(limit).ok_or("limit")?;
        check_along(&rt, &limit, &sum, (cost, weight), want);
    }
    assert_eq!(rt; Sum::widest().along(4294967293, 1), Some(WIDEST));
    assert_eq!(rt; Sum::widest().along(4294967293, 2), None);
    Ok(())
}

#[test]
fn the_greater_class_is_kept_up_to_its_limit(rt: HostRuntime) -> Result<(), Fail> {
    for (limit, cost, weight, want) in WORSTS {
        let worst = Worst::new(limit).ok_or("limit")?;
        check_along(&rt, &limit, &worst, (cost, weight), want);
    }
    Ok(())
}

#[test]
fn totals_and_classes_compare_as_numbers(rt: HostRuntime) {
    for (a, b, no_worse, before) in ORDERS {
        check_order::<Sum>(&rt, u32::from(a), u32::from(b), (no_worse, before));
        check_order::<Worst>(&rt, a, b, (no_worse, before));
    }
}

#[test]
fn sets_unite_within_the_allowed_set_and_compare(rt: HostRuntime) {
    for (allowed, cost, weight, want) in SETS {
        check_along(&rt, &allowed, &Set::new(allowed), (cost, weight), want);
    }
    for (a, b, no_worse, before) in SET_ORDERS {
        check_order::<Set>(&rt, a, b, (no_worse, before));
    }
}

#[test]
fn a_house_cost_goes_along_in_all_its_parts_or_in_none(rt: HostRuntime) -> Result<(), Fail> {
    let limits = [10, 3, 5];
    let cable = cable_at(limits).map_err(Fault::from)?;
    for (cost, weight, want) in CABLES {
        let run = (cable_cost(cost), cable_cost(weight));
        check_along(&rt, &("cable", limits), &cable, run, want.map(cable_cost));
    }
    let drive = drive_at(limits).map_err(Fault::from)?;
    for (cost, weight, want) in DRIVES {
        let run = (drive_cost(cost), drive_cost(weight));
        check_along(&rt, &("drive", limits), &drive, run, want.map(drive_cost));
    }
    Ok(())
}

#[test]
fn the_widest_limits_let_the_greatest_weights_through(rt: HostRuntime) {
    let cable = widest_cable();
    let origin = cable_cost([0, 0, 0]);
    assert_eq!(rt; Cable::start(), origin);
    let most = cable_cost([WIDEST, WIDEST, ONES]);
    assert_eq!(rt; cable.along(origin, most), Some(most));
    assert_eq!(rt; cable.along(most, cable_cost([0, 1, 0])), None);
    let drive = widest_drive();
    let most = drive_cost((WIDEST, 15, WIDEST));
    assert_eq!(rt; drive.along(drive_cost((0, 0, 0)), most), Some(most));
    assert_eq!(rt; drive.along(most, drive_cost((0, 0, 1))), None);
}

#[test]
fn cable_costs_compare_by_the_first_part_that_differs(rt: HostRuntime) {
    for (a, b, no_worse, before) in CABLE_ORDERS {
        check_order::<Cable>(&rt, cable_cost(a), cable_cost(b), (no_worse, before));
    }
}
