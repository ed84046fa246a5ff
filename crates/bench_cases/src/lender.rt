// What a lender knows of its memory once the bench over it is gone.
ghost use Rattle.std.specs.Prelude.{◌≡◌, ◌&&◌, true, false, length, nat_lt, slice_set};
ghost use Rattle.bench.specs.Contents.{SameLender, Waits, can_wait, keys, lookaheads, standings};
ghost use Rattle.bench.specs.Keys.{key_of};
ghost use Rattle.bench.specs.Prices.{keys_in, lookaheads_in, standings_in};

use bench::{Bench, Key, Record};
use price::PriceKind;

// One standing is written, and nothing else; past the memory nothing at all.
pub fn set_standing<P: PriceKind>(records: &mut [Record<P>], place: u16, standing: P) -> bool
    ensures answer { result ≡ nat_lt place (length records.old) }
    ensures refused { result ≡ false → records.new ≡ records.old }
    ensures written { result ≡ true → standings_in P.PriceKind.value records.new ≡ slice_set (standings_in P.PriceKind.value records.old) place (P.PriceKind.value standing) }
    ensures rest { (lookaheads_in P.PriceKind.value records.new ≡ lookaheads_in P.PriceKind.value records.old) × (keys_in P.PriceKind.value records.new ≡ keys_in P.PriceKind.value records.old) }
{
    let mut bench = Bench::lay(records, 1);
    bench.put_standing(place, standing)
}

// A place is queued and taken out again: its key is written, and nothing else but slots and indexes.
pub fn in_and_out<P: PriceKind>(bench: &mut Bench<P>, place: u16, key: Key<P>) -> bool
    ensures answer { result ≡ can_wait bench.old place }
    ensures refused { result ≡ false → keys P.PriceKind.value bench.new ≡ keys P.PriceKind.value bench.old }
    ensures gone { Waits bench.new place → ⊥ }
    ensures lender { SameLender bench.old bench.new }
    ensures written { result ≡ true → keys P.PriceKind.value bench.new ≡ slice_set (keys P.PriceKind.value bench.old) place (key_of P.PriceKind.value key) }
    ensures rest { (standings P.PriceKind.value bench.new ≡ standings P.PriceKind.value bench.old) × (lookaheads P.PriceKind.value bench.new ≡ lookaheads P.PriceKind.value bench.old) }
{
    let queued = bench.enqueue(place, key);
    bench.dequeue(place);
    queued
}

// The same over memory that holds anything.
pub fn set_key<P: PriceKind>(records: &mut [Record<P>], place: u16, key: Key<P>) -> bool
    ensures answer { result ≡ (nat_lt place (length records.old) && nat_lt place 4096) }
    ensures refused { result ≡ false → keys_in P.PriceKind.value records.new ≡ keys_in P.PriceKind.value records.old }
    ensures written { result ≡ true → keys_in P.PriceKind.value records.new ≡ slice_set (keys_in P.PriceKind.value records.old) place (key_of P.PriceKind.value key) }
    ensures rest { (standings_in P.PriceKind.value records.new ≡ standings_in P.PriceKind.value records.old) × (lookaheads_in P.PriceKind.value records.new ≡ lookaheads_in P.PriceKind.value records.old) }
{
    let mut bench = Bench::lay(records, 1);
    in_and_out(&mut bench, place, key)
}
