// What the trials share: runs as lines of numbers, rows of faults, and the bytes of plan files.
use fault::Fault;
use gauge::house::{CableWeight, cable_weight};
use std::alloc::{AllocError, Global};
use std::test::Fail;

// A run: its tail, its head and the three numbers of its weight.
pub(crate) type Line = (u16, u16, [u32; 3]);

// The kinds as numbers, as a file has them: tests write files by hand, also with numbers that no kind has.
pub(crate) const CABLE: u16 = 1;

pub(crate) const DRIVE: u16 = 2;

// All ones: every zone, or the mark of an unmeasured weight.
pub(crate) const ONES: u32 = 4294967295;

// The greatest total.
pub(crate) const WIDEST: u32 = 4294967294;

// A cable plan of 5 points.
pub(crate) const LEVEL_C: [Line; 5] = [
    (0, 1, [40, 0, 1]),
    (0, 2, [10, 1, 2]),
    (1, 3, [10, 0, 0]),
    (2, 1, [10, 0, 0]),
    (2, 3, [15, 0, 4]),
];

// The layer, number and place of a fault, as a table of cases writes them.
pub(crate) type Row = (u8, u8, usize);

pub(crate) fn fault((layer, number, place): Row) -> Fault {
    Fault {
        layer,
        number,
        place,
    }
}

// What is to be answered: a value, or the refusal.
pub(crate) fn wanted<T: Copy>(value: T, refusal: Option<Row>) -> Result<T, Fault> {
    refusal.map_or(Ok(value), |row| Err(fault(row)))
}

// The first six bytes of a file: points, runs and kind.
pub(crate) fn head(heap: Global, counts: [u16; 3]) -> Result<Vec<u8>, AllocError> {
    let mut bytes = Vec::new(heap);
    for number in counts {
        bytes.extend_from_slice(&number.to_le_bytes())?;
    }
    Ok(bytes)
}

// A file of some runs: the ends of them all, then the weights of them all.
pub(crate) fn file(heap: Global, points: u16, kind: u16, lines: &[Line]) -> Result<Vec<u8>, Fail> {
    let runs = u16::try_from(lines.len())?;
    let mut bytes = head(heap, [points, runs, kind])?;
    for (tail, head, _) in lines {
        bytes.extend_from_slice(&tail.to_le_bytes())?;
        bytes.extend_from_slice(&head.to_le_bytes())?;
    }
    for (_, _, weight) in lines {
        for number in weight {
            bytes.extend_from_slice(&number.to_le_bytes())?;
        }
    }
    Ok(bytes)
}

// A cable cost of three numbers: its form is that of a weight.
pub(crate) fn cable_cost([a, b, c]: [u32; 3]) -> CableWeight {
    cable_weight(a, b, c)
}
