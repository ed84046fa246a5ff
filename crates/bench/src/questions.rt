// What can be asked of a bench. No question changes anything.
ghost use Rattle.std.specs.Prelude.{◌≡◌, ℕ, ◌<◌, true, false, IfSome, MatchOption};
ghost use Rattle.std.specs.Option.{option_map};
ghost use Rattle.std.specs.List.{slice_get};
ghost use Rattle.bench.specs.Contents.{Least, Sorted, Waits, keys as kept_keys, lookaheads, room, standings};
ghost use Rattle.bench.specs.Keys.{key_of};

use crate::bench::Bench;
use crate::key::Key;
use crate::record::Record;
use price::PriceKind;

impl<'a, P: PriceKind> Bench<'a, P> {
    // The number of the planner that the bench was laid for.
    pub fn number(&self) -> u32
        ensures { result ≡ self.now.number }
    {
        self.number
    }

    // How many places the bench has room for.
    pub fn len(&self) -> usize
        ensures { result ≡ room self.now }
    {
        self.records.len()
    }

    // The record of a place, or none outside the memory.
    fn record(&self, place: u16) -> Option<&Record<P>>
        ensures { option_map (λ r. r.now) result ≡ slice_get self.now.records.now place }
    {
        self.records.get(usize::from(place))
    }

    // The standing of a place, or none outside the memory.
    pub fn standing(&self, place: u16) -> Option<P>
        ensures { option_map P.PriceKind.value result ≡ slice_get (standings P.PriceKind.value self.now) place }
    {
        self.record(place).map(|record| record.standing)
    }

    // The lookahead of a place, or none outside the memory.
    pub fn lookahead(&self, place: u16) -> Option<P>
        ensures { option_map P.PriceKind.value result ≡ slice_get (lookaheads P.PriceKind.value self.now) place }
    {
        self.record(place).map(|record| record.lookahead)
    }

    // The key of a place, queued or not, or none outside the memory.
    pub fn key(&self, place: u16) -> Option<Key<P>>
        ensures { option_map (key_of P.PriceKind.value) result ≡ slice_get (kept_keys P.PriceKind.value self.now) place }
    {
        self.record(place).map(|record| record.key)
    }
}

impl<'a, P: PriceKind> Bench<'a, P> {
    // Is a place in the queue? Outside the memory none is.
    pub fn is_queued(&self, place: u16) -> bool
        ensures { ((result ≡ true → Waits self.now place)) × ((result ≡ false → Waits self.now place → ⊥)) }
    {
        self.holds(place)
    }

    // The place in the queue that comes first, or none where the queue is empty. Where the queue is not in heap order,
    // which of the queued places it is is free.
    #[tactic(auto, using(crate::proofs::Prices::top_is_least))]
    pub fn top(&self) -> Option<u16>
        ensures place { MatchOption result ((q : ℕ) → Waits self.now q → ⊥) (λ p. Waits self.now p × (p < room self.now) × (p < 4096)) }
        ensures least { Sorted P.PriceKind.value self.now → IfSome result (λ p. Least P.PriceKind.value self.now p) }
    {
        self.first()
    }
}
