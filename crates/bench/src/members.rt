// Who is queued, for any order of keys.
ghost use Rattle.std.specs.Prelude.{◌≡◌, ℕ, ◌+◌, ◌-◌, ◌<◌, true, false, IfSome, MatchOption, slice_set};
ghost use Rattle.bench.specs.Changes.{Dequeued, Enqueued, Heaped};
ghost use Rattle.bench.specs.Contents.{SameLender, Waits, room};
ghost use Rattle.bench.specs.Queue.{Rekeyed};
ghost use Rattle.bench.specs.Records.{in_slot, index_of, indexes as index_column, slots as slot_column};

use crate::bench::Bench;
use crate::writes::{link, put_key};

impl<'a, P, K> Bench<'a, P, K> {
    // Is a place queued? Its index says where to look.
    pub(crate) fn holds(&self, place: u16) -> bool
        ensures { ((result ≡ true → Waits self.now place)) × ((result ≡ false → Waits self.now place → ⊥)) }
    {
        let Some(record) = self.records.get(usize::from(place)) else {
            return false;
        };
        let slot = usize::from(record.index);
        slot < self.used && self.records[slot].slot == place
    }

    // The slot in which a queued place stands.
    fn slot_of(&self, place: u16) -> usize
        requires { Waits self.now place }
        ensures { result ≡ index_of self.now.records.now place }
    {
        usize::from(self.records[usize::from(place)].index)
    }

    // The place in the first slot.
    pub(crate) fn first(&self) -> Option<u16>
        ensures place { MatchOption result ((q : ℕ) → Waits self.now q → ⊥) (λ p. Waits self.now p × (p < room self.now) × (p < 4096)) }
        ensures slot { IfSome result (λ p. (0 < self.now.used) × (p ≡ in_slot self.now.records.now 0)) }
    {
        self.records[..self.used].first().map(|record| record.slot)
    }
}

impl<'a, P, K: Copy + Ord> Bench<'a, P, K> {
    // Puts a place under a key into the first unused slot, wherever that leaves the order.
    fn append(&mut self, place: u16, key: K)
        requires inside { (place < room self.old) × (place < 4096) }
        requires new { Waits self.old place → ⊥ }
        ensures lender { SameLender self.old self.new }
        ensures used { self.new.used ≡ self.old.used + 1 }
        ensures slots { slot_column self.new.records.now ≡ slice_set (slot_column self.old.records.now) self.old.used place }
        ensures indexes { index_column self.new.records.now ≡ slice_set (index_column self.old.records.now) place self.old.used }
        ensures rekeyed { Rekeyed self.old.records.now self.new.records.now place key }
    {
        let Bench { records, used, .. } = self;
        put_key(records, place, key);
        link(records, *used, place);
        *used += 1;
    }

    // Queues a place that is not queued.
    fn insert(&mut self, place: u16, key: K)
        requires inside { (place < room self.old) × (place < 4096) }
        requires new { Waits self.old place → ⊥ }
        ensures enqueued { Enqueued self.old self.new place key }
        ensures order { Heaped K.Ord.cmp self.old → Heaped K.Ord.cmp self.new }
    {
        let slot = self.used;
        self.append(place, key);
        self.restore(slot);
    }

    // Gives a queued place another key, and moves it to where that belongs.
    fn rekey(&mut self, place: u16, key: K)
        requires { Waits self.old place }
        ensures enqueued { Enqueued self.old self.new place key }
        ensures order { Heaped K.Ord.cmp self.old → Heaped K.Ord.cmp self.new }
    {
        let slot = self.slot_of(place);
        let Bench { records, .. } = self;
        put_key(records, place, key);
        self.restore(slot);
    }

    // Queues a place under a key, or gives it that key where it is queued already.
    pub(crate) fn insert_or_rekey(&mut self, place: u16, key: K)
        requires { (place < room self.old) × (place < 4096) }
        ensures enqueued { Enqueued self.old self.new place key }
        ensures order { Heaped K.Ord.cmp self.old → Heaped K.Ord.cmp self.new }
    {
        if self.holds(place) {
            self.rekey(place, key);
        } else {
            self.insert(place, key);
        }
    }

    // Leaves out the last used slot.
    fn leave_out_last(&mut self)
        requires { 0 < self.old.used }
        ensures lender { SameLender self.old self.new }
        ensures records { self.new.records.now ≡ self.old.records.now }
        ensures used { self.new.used ≡ self.old.used - 1 }
    {
        self.used -= 1;
    }

    // Takes a queued place out of the queue.
    pub(crate) fn remove(&mut self, place: u16)
        requires { Waits self.old place }
        ensures dequeued { Dequeued self.old self.new place }
        ensures order { Heaped K.Ord.cmp self.old → Heaped K.Ord.cmp self.new }
    {
        let slot = self.slot_of(place);
        let last = self.used - 1;
        self.swap(slot, last);
        self.leave_out_last();
        if slot < last {
            self.restore(slot);
        }
    }
}
