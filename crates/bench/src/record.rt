// What the bench holds of one place, beside one slot of the queue.
use crate::key::Key;

// Record p is that of place p, and holds slot p of the queue besides.
#[derive(Drop)]
pub struct Record<P, K = Key<P>> {
    // standing (published: g): the price of the place as far as it is known
    pub standing: P,
    // lookahead (published: rhs): the price by one link from the standings of the places before it
    pub lookahead: P,
    // the key under which the place is queued, or was last
    pub key: K,
    // the place in slot p of the queue; free where that slot is not used
    pub slot: u16,
    // the slot in which place p stands; free where the place is not queued
    pub index: u16,
}
