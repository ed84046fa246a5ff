// The bench over its lent slice.
ghost use Rattle.std.specs.Prelude.{◌≤◌, length};
ghost use Rattle.bench.specs.Queue.{Back, Low, Named};

use crate::key::Key;
use crate::record::Record;

// The most places that a chart may have, and so that may be queued.
pub const MOST_PLACES: u16 = 4096;

// bench: the memory of a planner, with a record for each place and a queue of some of the places.
// Whatever the memory holds, the used slots name places inside it that name those slots.
// Slice and queue stand in one struct: of a slice in a struct in a struct its lender would not know what it holds
// once the bench is gone.
#[derive(Drop)]
pub struct Bench<'a, P, K = Key<P>> {
    pub(crate) records: &'a mut [Record<P, K>],
    // how many of the slots are used, from the first on: the memory is lent, and longer than what is in use
    pub(crate) used: usize,
    // the number of the planner that the bench was laid for
    pub(crate) number: u32,
    ghost within: { used ≤ length records.now },
    ghost small: { used ≤ 4096 },
    ghost named: { Named records.now used },
    ghost low: { Low records.now used },
    ghost back: { Back records.now used },
}
