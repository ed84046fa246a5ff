// Why the program has nothing to tell of a file.
ghost use Rattle.std.specs.Prelude.{◌≡◌};
ghost use Rattle.travel.specs.declared.fault.TravelFault.TheVariants.{Chart, Memory};

use crate::survey::LONGEST_FILE;
use chart::ChartFault;
use std::alloc::AllocError;
use thiserror::Error;

#[derive(Clone, Copy, PartialEq, Eq, Debug, Error)]
pub enum TravelFault {
    // the chart file is refused
    #[error("{0}")]
    Chart(ChartFault),
    // refused as outside the limits
    #[error("the file is longer than {LONGEST_FILE} bytes")]
    TooLong,
    #[error("there is not enough memory to read the chart")]
    Memory,
}

// By hand, and not by `#[from]`: the contract of `survey` names the fault that its `?` makes.
impl From<ChartFault> for TravelFault {
    ghost from_gives = { λ f r. r ≡ Chart f };

    fn from(fault: ChartFault) -> TravelFault {
        TravelFault::Chart(fault)
    }
}

impl From<AllocError> for TravelFault {
    ghost from_gives = { λ _ r. r ≡ Memory };

    fn from(_error: AllocError) -> TravelFault {
        TravelFault::Memory
    }
}
