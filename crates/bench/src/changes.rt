// What a planner does to a bench. Every call leaves alone what its contract does not name: the lender's memory is the
// same slice, and the number and the length stay. Only the order of the queued places among the slots, the unused
// slots and the indexes of places that are not queued are free, and these only up to the places in use: where no place
// from n on is queued or named in the call, the records from n on stay as they were, whole.
ghost use Rattle.std.specs.Prelude.{◌≡◌, ℕ, ◌<◌, true, false, nat_lt, slice_set};
ghost use Rattle.bench.specs.Contents.{Below, SameBut, SameLender, SameQueue, Sorted, Waits, can_wait, keys as kept_keys, lookaheads, past, room, standings};
ghost use Rattle.bench.specs.Keys.{key_of};

use crate::bench::{Bench, MOST_PLACES};
use crate::key::Key;
use crate::record::Record;
use price::PriceKind;

impl<'a, P: PriceKind> Bench<'a, P> {
    // A bench over lent memory, whatever that holds: nothing is written, and nothing is queued.
    pub fn lay(records: &'a mut [Record<P>], number: u32) -> Bench<'a, P>
        ensures memory { (result.records.now ≡ records.old) × (result.records.ghost_name ≡ records.entry.ghost_name) }
        ensures number { result.number ≡ number }
        ensures queue { (q : ℕ) → Waits result q → ⊥ }
        ensures order { Sorted P.PriceKind.value result }
    {
        Bench {
            records,
            used: 0,
            number,
        }
    }

    // Sets the standing of a place. Outside the memory the answer is false, and nothing changes.
    #[tactic(auto, using(crate::proofs::Columns::column_writes))]
    pub fn put_standing(&mut self, place: u16, standing: P) -> bool
        ensures answer { result ≡ nat_lt place (room self.old) }
        ensures refused { result ≡ false → self.new ≡ self.old }
        ensures lender { SameLender self.old self.new }
        ensures written { result ≡ true → standings P.PriceKind.value self.new ≡ slice_set (standings P.PriceKind.value self.old) place (P.PriceKind.value standing) }
        ensures rest { (lookaheads P.PriceKind.value self.new ≡ lookaheads P.PriceKind.value self.old) × (kept_keys P.PriceKind.value self.new ≡ kept_keys P.PriceKind.value self.old) }
        ensures queue { SameQueue self.old self.new }
        ensures order { Sorted P.PriceKind.value self.old → Sorted P.PriceKind.value self.new }
        ensures past { (n : ℕ) → place < n → past n self.new ≡ past n self.old }
    {
        let at = usize::from(place);
        if at >= self.records.len() {
            return false;
        }
        // by index: of what get_mut lends out of a struct with an invariant the check knows too little
        self.records[at].standing = standing;
        true
    }

    // Sets the lookahead of a place. Outside the memory the answer is false, and nothing changes.
    #[tactic(auto, using(crate::proofs::Columns::column_writes))]
    pub fn put_lookahead(&mut self, place: u16, lookahead: P) -> bool
        ensures answer { result ≡ nat_lt place (room self.old) }
        ensures refused { result ≡ false → self.new ≡ self.old }
        ensures lender { SameLender self.old self.new }
        ensures written { result ≡ true → lookaheads P.PriceKind.value self.new ≡ slice_set (lookaheads P.PriceKind.value self.old) place (P.PriceKind.value lookahead) }
        ensures rest { (standings P.PriceKind.value self.new ≡ standings P.PriceKind.value self.old) × (kept_keys P.PriceKind.value self.new ≡ kept_keys P.PriceKind.value self.old) }
        ensures queue { SameQueue self.old self.new }
        ensures order { Sorted P.PriceKind.value self.old → Sorted P.PriceKind.value self.new }
        ensures past { (n : ℕ) → place < n → past n self.new ≡ past n self.old }
    {
        let at = usize::from(place);
        if at >= self.records.len() {
            return false;
        }
        // by index, as above; one method for both fields would need a closure, and say less plainly which is written
        self.records[at].lookahead = lookahead;
        true
    }
}

impl<'a, P: PriceKind> Bench<'a, P> {
    // May a place be queued?
    fn can_queue(&self, place: u16) -> bool
        ensures { result ≡ can_wait self.now place }
    {
        usize::from(place) < self.len() && place < MOST_PLACES
    }

    // Queues a place under a key, or gives it that key where it is queued already. A place outside the memory, or one that
    // no chart has, is refused: the answer is false, and nothing changes.
    pub fn enqueue(&mut self, place: u16, key: Key<P>) -> bool
        ensures answer { result ≡ can_wait self.old place }
        ensures refused { result ≡ false → self.new ≡ self.old }
        ensures lender { SameLender self.old self.new }
        ensures written { result ≡ true → kept_keys P.PriceKind.value self.new ≡ slice_set (kept_keys P.PriceKind.value self.old) place (key_of P.PriceKind.value key) }
        ensures rest { (standings P.PriceKind.value self.new ≡ standings P.PriceKind.value self.old) × (lookaheads P.PriceKind.value self.new ≡ lookaheads P.PriceKind.value self.old) }
        ensures queue { (SameBut self.old self.new place) × ((result ≡ true → Waits self.new place)) }
        ensures order { Sorted P.PriceKind.value self.old → Sorted P.PriceKind.value self.new }
        ensures past { (n : ℕ) → place < n → Below n self.old → past n self.new ≡ past n self.old }
    {
        if !self.can_queue(place) {
            return false;
        }
        self.insert_or_rekey(place, key);
        true
    }

    // Takes a place out of the queue. Where it is not queued the answer is false, and nothing changes.
    pub fn dequeue(&mut self, place: u16) -> bool
        ensures answer { ((result ≡ true → Waits self.old place)) × ((result ≡ false → Waits self.old place → ⊥)) }
        ensures refused { result ≡ false → self.new ≡ self.old }
        ensures lender { SameLender self.old self.new }
        ensures rest { (standings P.PriceKind.value self.new ≡ standings P.PriceKind.value self.old) × ((lookaheads P.PriceKind.value self.new ≡ lookaheads P.PriceKind.value self.old) × (kept_keys P.PriceKind.value self.new ≡ kept_keys P.PriceKind.value self.old)) }
        ensures queue { (SameBut self.old self.new place) × ((Waits self.new place → ⊥)) }
        ensures order { Sorted P.PriceKind.value self.old → Sorted P.PriceKind.value self.new }
        ensures past { (n : ℕ) → Below n self.old → past n self.new ≡ past n self.old }
    {
        if !self.is_queued(place) {
            return false;
        }
        self.remove(place);
        true
    }

    // Empties the queue.
    pub fn clear(&mut self)
        ensures lender { SameLender self.old self.new }
        ensures rest { (standings P.PriceKind.value self.new ≡ standings P.PriceKind.value self.old) × ((lookaheads P.PriceKind.value self.new ≡ lookaheads P.PriceKind.value self.old) × (kept_keys P.PriceKind.value self.new ≡ kept_keys P.PriceKind.value self.old)) }
        ensures queue { (q : ℕ) → Waits self.new q → ⊥ }
        ensures order { Sorted P.PriceKind.value self.new }
        ensures past { (n : ℕ) → past n self.new ≡ past n self.old }
    {
        self.used = 0;
    }
}
