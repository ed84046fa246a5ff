// The key of a place in the queue.
ghost use Rattle.std.specs.Prelude.{◌≡◌};
ghost use Rattle.rows.specs.Keys.{key_less};
ghost use Rattle.bench.specs.Keys.{key_of};

use price::PriceKind;

// key: the priority of a place, the pair (m + estimate, m), where m is the smaller of standing and lookahead.
// The whole prices are compared first.
#[derive(Clone, Copy, PartialEq, Eq, PartialOrd, Ord)]
pub struct Key<P> {
    pub whole: P,
    pub own: P,
}

impl<P: PriceKind> Key<P> {
    // Is this key smaller?
    pub fn below(self, other: Key<P>) -> bool
        ensures { result ≡ key_less (key_of P.PriceKind.value self) (key_of P.PriceKind.value other) }
    {
        self < other
    }
}
