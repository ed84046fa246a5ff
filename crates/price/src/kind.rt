// What a kind of price is to the code above it.
ghost use Rattle.std.specs.Prelude.{◌≡◌};
ghost use Rattle.rows.specs.Laws.{Laws};
ghost use Rattle.rows.specs.Rows.{Kind, Price, Proper, closed, less, linkable, number_at, price_of, sum, zero_of};
ghost use Rattle.std.specs.Option.{option_map};
ghost use Rattle.std.specs.List.{slice_get};
ghost use Rattle.std.specs.Ordering.{is_lt};

// A kind of price: closed, or a row of one length of whole numbers below the kind's ceiling.
pub trait PriceKind: Copy + Ord {
    // the row length, the ceiling and the largest numbers of a link
    ghost kind: { Kind };

    // the price that a value stands for
    ghost value: { Self → Price };

    // every value is a price of the kind
    ghost proper: { (x : Self) → Proper kind (value x) };

    // what the kind's sum and order keep
    ghost laws: { Laws kind };

    fn zero() -> Self
        ensures { value result ≡ zero_of kind };

    fn closed() -> Self
        ensures { value result ≡ closed };

    fn plus(self, other: Self) -> Self
        ensures { value result ≡ sum kind (value self) (value other) };

    // Is this price the smaller one? It answers what `<` does, and faster than a derived order.
    fn below(self, other: Self) -> bool
        ensures { result ≡ less (value self) (value other) };

    // May a link have this price? It may be closed, or have no number above the kind's largest.
    fn fits_link(self) -> bool
        ensures { result ≡ linkable kind (value self) };

    // The open price with these numbers, or none where they are too many, too few or too large.
    fn from_numbers(numbers: &[u64]) -> Option<Self>
        ensures { option_map value result ≡ price_of kind numbers.now };

    // The number at a position, from 0; none past the row, or where the price is closed.
    fn number(self, position: usize) -> Option<u64>
        ensures { result ≡ number_at (value self) position };

    fn row_length() -> usize
        ensures { result ≡ kind.long };

    fn ceiling() -> u64
        ensures { result ≡ kind.ceiling };

    // The largest number of a link at a position, from 0.
    fn largest(position: usize) -> Option<u64>
        ensures { result ≡ slice_get kind.largest position };

    // values are ordered as their prices are
    ghost ordered: { (x y : Self) → is_lt (Self.Ord.cmp x y) ≡ less (value x) (value y) };
}
