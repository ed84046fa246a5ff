// Travel counted first by lifts of the spindle, then by time.
ghost use Rattle.price.specs.Proper.{lift_laws, lift_proper};
ghost use Rattle.price.specs.Kinds.{lift_kind, lift_value};
ghost use Rattle.std.proofs.Common.{rules};

use crate::kind::PriceKind;
use crate::number::Number;
use crate::time::LARGEST_MS;

// Closed is above every open price, so it stands last: the derived order is that of prices. `Option` has it the other way round.
#[derive(Clone, Copy, PartialEq, Eq, PartialOrd, Ord, Debug)]
pub enum Lift {
    Open { lifts: Number, ms: Number },
    Closed,
}

// The most lifts that a link may take.
pub const LARGEST_LIFTS: u64 = 255;

impl PriceKind for Lift {
    ghost kind = { lift_kind };

    ghost value = { lift_value };

    ghost proper = { lift_proper };

    ghost laws = { lift_laws };

    fn zero() -> Lift {
        Lift::Open {
            lifts: Number::ZERO,
            ms: Number::ZERO,
        }
    }

    fn closed() -> Self {
        Self::Closed
    }

    fn plus(self, other: Lift) -> Lift {
        let (Lift::Open { lifts: a, ms: b }, Lift::Open { lifts: c, ms: d }) = (self, other) else {
            return Lift::Closed;
        };
        match (a.plus(c), b.plus(d)) {
            (Some(lifts), Some(ms)) => Lift::Open { lifts, ms },
            _ => Lift::Closed,
        }
    }

    fn below(self, other: Lift) -> bool {
        let Lift::Open { lifts: a, ms: b } = self else {
            return false;
        };
        let Lift::Open { lifts: c, ms: d } = other else {
            return true;
        };
        if a.get() == c.get() {
            return b.get() < d.get();
        }
        a.get() < c.get()
    }

    fn fits_link(self) -> bool {
        match self {
            Lift::Open { lifts, ms } => lifts.get() <= LARGEST_LIFTS && ms.get() <= LARGEST_MS,
            Lift::Closed => true,
        }
    }

    fn from_numbers(numbers: &[u64]) -> Option<Lift> {
        let [lifts, ms] = numbers else {
            return None;
        };
        let lifts = Number::new(*lifts)?;
        let ms = Number::new(*ms)?;
        Some(Lift::Open { lifts, ms })
    }

    fn number(self, position: usize) -> Option<u64> {
        match self {
            Lift::Open { lifts, ms } => match position {
                0 => Some(lifts.get()),
                1 => Some(ms.get()),
                _ => None,
            },
            Lift::Closed => None,
        }
    }

    fn row_length() -> usize {
        2
    }

    fn ceiling() -> u64 {
        Number::CEILING
    }

    fn largest(position: usize) -> Option<u64> {
        match position {
            0 => Some(LARGEST_LIFTS),
            1 => Some(LARGEST_MS),
            _ => None,
        }
    }

    ghost ordered = { Prim.search rules };
}
