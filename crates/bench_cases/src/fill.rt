// Memory and prices for the cases.
ghost use Rattle.std.specs.Prelude.{◌≡◌, IfOk, vec_len};

use bench::{Key, Record};
use price::PriceKind;
use std::alloc::{AllocError, Global};

// A price that grows with n: one number, or two of which the first counts by eights.
pub fn price<P: PriceKind>(n: u64) -> P {
    let one = P::from_numbers(&[n]);
    let two = P::from_numbers(&[n / 8, n % 8]);
    one.or(two).unwrap_or(P::closed())
}

pub fn key<P: PriceKind>(n: u64) -> Key<P> {
    Key {
        whole: price(n / 4),
        own: price(n % 4),
    }
}

// A record whose slot and index name anything at all.
pub fn garbage<P: PriceKind>(p: u16) -> Record<P> {
    Record {
        standing: price(u64::from(p)),
        lookahead: P::closed(),
        key: key(3),
        slot: p.wrapping_mul(31).wrapping_add(5),
        index: p.wrapping_mul(40_503),
    }
}

pub fn memory<P: PriceKind>(heap: Global, count: u16) -> Result<Vec<Record<P>>, AllocError>
    ensures { IfOk result (λ v. vec_len v ≡ count) }
{
    let mut records = Vec::new(heap);
    for p in 0..count {
        records.push(garbage(p))?;
    }
    Ok(records)
}
