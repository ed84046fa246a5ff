// The queue as a binary heap in the slots of the records, for any order of keys.
// Slot k has its children in slots 2k + 1 and 2k + 2. Places do not move: slots and indexes do.
ghost use Rattle.std.specs.Prelude.{◌≡◌, ℕ, ◌+◌, ◌*◌, ◌<◌, ◌≤◌, Some, IfSome, MatchOption};
ghost use Rattle.std.specs.List.{slice_get};
ghost use Rattle.bench.specs.Changes.{Heaped, HeapedBut, Reordered};
ghost use Rattle.bench.specs.Heap.{Child};
ghost use Rattle.bench.specs.Order.{before_by};
ghost use Rattle.bench.specs.Records.{Exchanged, in_slot, keys};
ghost use Rattle.bench.specs.Sorted.{FirstOf, UnderAt, ahead};

use crate::bench::Bench;
use crate::writes::exchange;

// The parent of a slot.
fn parent(slot: usize) -> usize
    requires { 0 < slot }
    ensures { Child result slot }
{
    (slot - 1) / 2
}

impl<'a, P, K: Copy + Ord> Bench<'a, P, K> {
    // The key of the place in a used slot, and the place.
    #[tactic(auto, using(crate::proofs::Links::slot_within, crate::proofs::Columns::nth_column))]
    fn entry(&self, slot: usize) -> (K, u16)
        requires { slot < self.now.used }
        ensures place { result.1 ≡ in_slot self.now.records.now slot }
        ensures key { slice_get (keys self.now.records.now) (in_slot self.now.records.now slot) ≡ Some result.0 }
    {
        let place = self.records[slot].slot;
        (self.records[usize::from(place)].key, place)
    }

    // Does the place in slot a come before the place in slot b? The smaller key comes first, of equal keys the lower number.
    #[tactic(auto, unfolding(crate::specs::Sorted::ahead))]
    fn comes_before(&self, a: usize, b: usize) -> bool
        requires first { a < self.now.used }
        requires second { b < self.now.used }
        ensures { result ≡ ahead (before_by K.Ord.cmp) (keys self.now.records.now) (in_slot self.now.records.now a) (in_slot self.now.records.now b) }
    {
        self.entry(a) < self.entry(b)
    }

    // Moves the place in slot `from` up until it does not come before its parent, and answers where it stands then.
    fn sift_up(&mut self, from: usize) -> usize
        requires { from < self.old.used }
        ensures slot { result ≤ from }
        ensures reordered { Reordered self.old self.new }
        ensures under { UnderAt (before_by K.Ord.cmp) self.new.records.now result }
        ensures gap { HeapedBut K.Ord.cmp self.old from → HeapedBut K.Ord.cmp self.new result }
    {
        let mut at = from;
        while at > 0 {
            let up = parent(at);
            if !self.comes_before(at, up) {
                return at;
            }
            self.swap(up, at);
            at = up;
        }
        at
    }

    // The child of slot `at` whose place comes first, or none at a leaf.
    fn first_child(&self, at: usize) -> Option<usize>
        requires { «at» < self.now.used }
        ensures child { MatchOption result (self.now.used ≤ at * 2 + 1) (λ k. (k < self.now.used) × Child «at» k) }
        ensures first { IfSome result (λ k. FirstOf (before_by K.Ord.cmp) self.now.records.now k «at» self.now.used) }
    {
        let left = at * 2 + 1;
        let right = at * 2 + 2;
        if left >= self.used {
            return None;
        }
        if right < self.used && self.comes_before(right, left) {
            return Some(right);
        }
        Some(left)
    }

    // Moves the place in slot `from` down until none of its children comes before it.
    fn sift_down(&mut self, from: usize)
        requires { from < self.old.used }
        ensures reordered { Reordered self.old self.new }
        ensures order { HeapedBut K.Ord.cmp self.old from → UnderAt (before_by K.Ord.cmp) self.old.records.now from → Heaped K.Ord.cmp self.new }
    {
        let mut at = from;
        while let Some(child) = self.first_child(at) {
            if !self.comes_before(child, at) {
                return;
            }
            self.swap(at, child);
            at = child;
        }
    }

    // Puts the heap in order again where only the place in slot `at` may stand wrong.
    pub(crate) fn restore(&mut self, at: usize)
        requires { «at» < self.old.used }
        ensures reordered { Reordered self.old self.new }
        ensures order { HeapedBut K.Ord.cmp self.old «at» → Heaped K.Ord.cmp self.new }
    {
        let moved = self.sift_up(at);
        self.sift_down(moved);
    }

    // Exchanges the places in two used slots.
    pub(crate) fn swap(&mut self, a: usize, b: usize)
        requires first { a < self.old.used }
        requires second { b < self.old.used }
        ensures exchanged { Exchanged self.old.records.now self.new.records.now a b }
        ensures reordered { Reordered self.old self.new }
    {
        let Bench { records, .. } = self;
        exchange(records, a, b);
    }
}
