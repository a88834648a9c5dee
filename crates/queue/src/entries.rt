// What a queue holds.

// What waits at a point: a cost, the label that it comes from and the run that it came along, both by number. A start has neither.
// They are two options, since an entry may be put with just one of the two.
#[derive(Clone, Copy, Debug, PartialEq, Eq)]
pub struct Entry<C> {
    pub cost: C,
    pub from: Option<u16>,
    pub run: Option<u16>,
}

// An entry that a queue holds, with its point.
#[derive(Clone, Copy, Debug, PartialEq, Eq)]
pub struct Held<C> {
    pub point: u16,
    pub entry: Entry<C>,
}
