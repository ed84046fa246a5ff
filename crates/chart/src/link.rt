// A link as a chart answers it.

// link: an edge. `floor` is the least price that it may be set to, `held` is 0 or the height of the layer that
// holds it closed.
#[derive(Clone, Copy, PartialEq, Eq, Debug)]
pub struct Link<P> {
    pub from: u16,
    pub to: u16,
    pub floor: P,
    pub price: P,
    pub held: u8,
}
