// A listed cost of a point: the label that it comes from and the run that it came along, both by number. A start has neither.
// They are two options, since any labels may be handed in, also with just one of the two.
#[derive(Clone, Copy)]
pub struct Label<C> {
    pub point: u16,
    pub cost: C,
    pub from: Option<u16>,
    pub run: Option<u16>,
}
