// Writes to the lent records, and what they leave of the columns. They stand apart from the methods of a bench, whose
// links do not hold between them.
ghost use Rattle.std.specs.Prelude.{◌≡◌, ◌<◌, length, slice_set};
ghost use Rattle.bench.specs.Queue.{Names, Rekeyed};
ghost use Rattle.bench.specs.Records.{Exchanged, Kept, indexes as index_column, slots as slot_column};

use crate::record::Record;

// A slot and the index of a place name each other.
#[tactic(auto, using(crate::proofs::Columns::column_writes))]
pub(crate) fn link<P, K>(records: &mut [Record<P, K>], slot: usize, place: u16)
    requires slot { (slot < length records.old) × (slot < 4096) }
    requires place { place < length records.old }
    ensures slots { slot_column records.new ≡ slice_set (slot_column records.old) slot place }
    ensures indexes { index_column records.new ≡ slice_set (index_column records.old) place slot }
    ensures kept { Kept records.old records.new }
{
    records[slot].slot = place;
    // below 4,096, by what is asked above
    records[usize::from(place)].index = slot as u16;
}

// A place has another key.
#[tactic(auto, using(crate::proofs::Columns::column_writes))]
pub(crate) fn put_key<P, K: Copy>(records: &mut [Record<P, K>], place: u16, key: K)
    requires { place < length records.old }
    ensures slots { slot_column records.new ≡ slot_column records.old }
    ensures indexes { index_column records.new ≡ index_column records.old }
    ensures rekeyed { Rekeyed records.old records.new place key }
{
    records[usize::from(place)].key = key;
}

// Exchanges the places in two slots, and their indexes with them.
pub(crate) fn exchange<P, K>(records: &mut [Record<P, K>], a: usize, b: usize)
    requires first { Names records.old a }
    requires second { Names records.old b }
    ensures { Exchanged records.old records.new a b }
{
    let p = records[a].slot;
    let q = records[b].slot;
    link(records, a, q);
    link(records, b, p);
}
