// What a planner hands out and takes in.
use crate::fault::Fault;

// Where a planner stands between two turns.
#[derive(Clone, Copy, PartialEq, Eq, Debug)]
pub enum Stage {
    // no plan is under way
    Idle,
    // prices may be set
    Loose,
    // the route may be traced
    Firm,
}

// loose ticket: under it prices are set, and a repair spends it. It is neither copied nor let go.
pub struct Loose {
    pub(crate) number: u32,
}

// firm ticket: under it the route is traced. It is neither copied nor let go. Two types of one shape, so that neither call
// takes the other's ticket; as one type with a parameter they would be no shorter.
pub struct Firm {
    pub(crate) number: u32,
}

// Either ticket, to end with.
pub enum Ticket {
    Loose(Loose),
    Firm(Firm),
}

// A refused turn hands its ticket back.
pub struct Refused<T> {
    pub ticket: T,
    pub fault: Fault,
}

// What a repair gives: a firm ticket, the goal's standing, and how many steps were taken.
pub struct Repaired<P> {
    pub ticket: Firm,
    pub distance: P,
    pub steps: u16,
}
