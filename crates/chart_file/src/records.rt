// The records of a chart file, in memory that the caller lends.

// A place's estimate of its distance to the goal.
#[derive(Clone, Copy, PartialEq, Eq, Debug, Default)]
pub struct PlaceRecord {
    pub lifts: u32,
    pub ms: u32,
}

// A link. A price of 0 lifts and 0 milliseconds is closed.
#[derive(Clone, Copy, PartialEq, Eq, Debug, Default)]
pub struct LinkRecord {
    pub from: u16,
    pub to: u16,
    pub floor_lifts: u16,
    pub price_lifts: u16,
    pub floor_ms: u32,
    pub price_ms: u32,
}
