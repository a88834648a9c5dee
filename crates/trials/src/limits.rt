// Limits of the house's gauges.
use crate::cases::{ONES, Row, WIDEST, fault};
use fault::{Fault, LimitFault};
use gauge::house::{cable_at, drive_at};
use std::process::Abort;

// Three limits, and the refusal that they meet.
type Case = ([u32; 3], Option<Row>);

const CABLES: [Case; 9] = [
    ([0, 0, 0], None),
    ([WIDEST, 0, 0], None),
    ([0, WIDEST, 0], None),
    ([0, 0, ONES], None),
    ([0, 0, 2147483648], None),
    ([WIDEST, WIDEST, ONES], None),
    ([ONES, 0, 0], Some((3, 11, 0))),
    ([0, ONES, 0], Some((3, 11, 1))),
    ([ONES, ONES, ONES], Some((3, 11, 0))),
];

const DRIVES: [Case; 12] = [
    ([0, 0, 0], None),
    ([WIDEST, 0, 0], None),
    ([0, 15, 0], None),
    ([0, 0, WIDEST], None),
    ([WIDEST, 15, WIDEST], None),
    ([ONES, 0, 0], Some((3, 11, 0))),
    ([0, 16, 0], Some((3, 11, 1))),
    ([0, ONES, 0], Some((3, 11, 1))),
    ([0, 0, ONES], Some((3, 11, 2))),
    ([ONES, 16, 0], Some((3, 11, 0))),
    ([0, 16, ONES], Some((3, 11, 1))),
    ([ONES, 0, ONES], Some((3, 11, 0))),
];

// The first limit that is out of range is told, by the gauge that is made.
fn check_limits<G, F: Fn([u32; 3]) -> Result<G, LimitFault>>(
    rt: &impl Abort,
    kind: &str,
    cases: &[Case],
    made_at: F,
)
where
    G: Copy,
    requires { F.IsAlwaysCallable made_at }
{
    for (limits, want) in cases {
        let refused = made_at(*limits).err().map(Fault::from);
        assert_eq!(rt; refused, want.map(fault), "{kind} {limits:?}");
    }
}

#[test]
fn the_first_limit_out_of_range_is_told(rt: HostRuntime) {
    check_limits(&rt, "cable", &CABLES, cable_at);
    check_limits(&rt, "drive", &DRIVES, drive_at);
}
