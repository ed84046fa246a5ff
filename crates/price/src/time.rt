// Travel time.
ghost use Rattle.price.specs.Proper.{time_laws, time_proper};
ghost use Rattle.price.specs.Kinds.{time_kind, time_value};
ghost use Rattle.std.proofs.Common.{rules};

use crate::kind::PriceKind;
use crate::number::Number;

// Closed is above every open price, so it stands last: the derived order is that of prices. `Option` has it the other way round.
// Time and lift prices are two types: as one type of N numbers they would lose the names of these, and each call of the
// library with an array of N owes that N times 8 is below 2^63, which no public call may ask.
#[derive(Clone, Copy, PartialEq, Eq, PartialOrd, Ord, Debug)]
pub enum Time {
    Open { ms: Number },
    Closed,
}

// The most milliseconds that a link may take.
pub const LARGEST_MS: u64 = 1_000_000;

impl PriceKind for Time {
    ghost kind = { time_kind };

    ghost value = { time_value };

    ghost proper = { time_proper };

    ghost laws = { time_laws };

    fn zero() -> Time {
        Time::Open { ms: Number::ZERO }
    }

    fn closed() -> Self {
        Self::Closed
    }

    fn plus(self, other: Time) -> Time {
        let (Time::Open { ms: a }, Time::Open { ms: b }) = (self, other) else {
            return Time::Closed;
        };
        match a.plus(b) {
            Some(ms) => Time::Open { ms },
            None => Time::Closed,
        }
    }

    fn below(self, other: Time) -> bool {
        let Time::Open { ms: a } = self else {
            return false;
        };
        match other {
            Time::Open { ms: b } => a.get() < b.get(),
            Time::Closed => true,
        }
    }

    fn fits_link(self) -> bool {
        match self {
            Time::Open { ms } => ms.get() <= LARGEST_MS,
            Time::Closed => true,
        }
    }

    fn from_numbers(numbers: &[u64]) -> Option<Time> {
        let [ms] = numbers else {
            return None;
        };
        let ms = Number::new(*ms)?;
        Some(Time::Open { ms })
    }

    fn number(self, position: usize) -> Option<u64> {
        match self {
            Time::Open { ms } if position == 0 => Some(ms.get()),
            _ => None,
        }
    }

    fn row_length() -> usize {
        1
    }

    fn ceiling() -> u64 {
        Number::CEILING
    }

    fn largest(position: usize) -> Option<u64> {
        match position {
            0 => Some(LARGEST_MS),
            _ => None,
        }
    }

    ghost ordered = { Prim.search rules };
}
