// Listings of plan files.
use crate::cases::{CABLE, DRIVE, LEVEL_C, Line, ONES, WIDEST, file, head};
use listing::list_plan;
use std::test::Fail;

const LEVEL_C_LISTING: &str = "plan cable 5 5
point 0 2
0 1 40 0 1
1 2 10 1 2
point 1 1
2 3 10 0 0
point 2 2
3 1 10 0 0
4 3 15 0 4
point 3 0
point 4 0
";

// A drive plan of 3 points.
const RAMPS: [Line; 3] = [
    (0, 1, [7, 15, 2]),
    (0, 0, [0, 0, 0]),
    (2, 1, [WIDEST, 3, WIDEST]),
];

const RAMPS_LISTING: &str = "plan drive 3 3
point 0 2
0 1 7 15 2
1 0 0 0 0
point 1 0
point 2 1
2 1 4294967294 3 4294967294
";

// The number of points, the kind, the runs, and the listing.
const FILES: [(u16, u16, &[Line], &str); 11] = [
    (5, CABLE, &LEVEL_C, LEVEL_C_LISTING),
    (3, DRIVE, &RAMPS, RAMPS_LISTING),
    (1, CABLE, &[], "plan cable 1 0\npoint 0 0\n"),
    (1, DRIVE, &[], "plan drive 1 0\npoint 0 0\n"),
    (
        2,
        CABLE,
        &[(1, 0, [0, 0, 0]), (0, 1, [0, 0, 0])],
        "refused 0 2 10 1\n",
    ),
    (
        2,
        DRIVE,
        &[(1, 0, [0, 0, 0]), (1, 1, [0, 0, 0]), (0, 1, [0, 0, 0])],
        "refused 0 2 10 2\n",
    ),
    (2, CABLE, &[(0, 2, [0, 0, 0])], "refused 0 2 9 0\n"),
    (2, CABLE, &[(0, 2, [0, ONES, 0])], "refused 0 1 7 0\n"),
    (
        2,
        DRIVE,
        &[(0, 1, [0, 15, 0]), (0, 1, [0, 16, 0])],
        "refused 0 1 8 1\n",
    ),
    (1, 3, &[], "refused 0 1 4 3\n"),
    (1, 0, &[], "refused 0 1 4 0\n"),
];

// Points, runs and kind, the bytes of them that the file has, and the listing.
const HEADS: [([u16; 3], usize, &str); 5] = [
    ([1, 0, 1], 0, "refused 0 1 1 0\n"),
    ([1, 0, 2], 5, "refused 0 1 1 5\n"),
    ([257, 1025, 3], 6, "refused 0 1 2 257\n"),
    ([1, 1025, 2], 6, "refused 0 1 3 1025\n"),
    ([1, 1024, 2], 6, "refused 0 1 1 6\n"),
];

#[test]
fn a_file_is_listed_point_by_point_or_refused_as_line_0(rt: HostRuntime) -> Result<(), Fail> {
    let heap = rt.alloc();
    for (points, kind, lines, want) in FILES {
        let bytes = file(heap, points, kind, lines)?;
        assert_eq!(rt; list_plan(heap, bytes.as_slice())?.as_str(), want);
    }
    for (counts, size, want) in HEADS {
        let mut bytes = head(heap, counts)?;
        bytes.truncate(size);
        assert_eq!(rt; list_plan(heap, bytes.as_slice())?.as_str(), want);
    }
    Ok(())
}
