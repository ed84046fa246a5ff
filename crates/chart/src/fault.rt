// Why a chart refuses.
ghost use Rattle.std.specs.Prelude.{◌≡◌, Some, None};
ghost use Rattle.chart.specs.Refusals.{number, told};

use thiserror::Error;

// What is wrong, as a person is told in one line. `number` gives each cause the number by which a person knows it.
#[derive(Clone, Copy, PartialEq, Eq, Debug, Error)]
pub enum Cause {
    #[error("the file is shorter than 16 bytes or does not end in LAST")]
    NotAChart = 1,
    #[error("a size, count, place, least step or length is outside its limits")]
    OutsideLimits = 2,
    #[error("a guard lists 64 places at most")]
    GuardFull = 3,
    #[error("a link joins two different places of the chart, its floor is above zero, its price is closed or at least the floor, and neither has more than 255 lifts or 1000000 ms")]
    BadLink = 4,
    #[error("the goal's estimate is zero, and along a link no estimate is above the link's floor plus the estimate at its end")]
    BadEstimate = 5,
    #[error("there is no link of that number")]
    NoLink = 6,
    #[error("the link is held closed")]
    Held = 7,
    #[error("a price is closed, or at least the link's floor with no number above the largest")]
    BadPrice = 8,
    #[error("the memory lent is too short")]
    ShortMemory = 9,
}

impl Cause {
    pub fn number(self) -> u8
        ensures { result ≡ number self }
    {
        self as u8
    }
}

// A chart's refusal: its cause, the link that it is about, and the height of the layer that refused.
#[derive(Clone, Copy, PartialEq, Eq, Debug, Error)]
#[error("{cause}")]
pub struct ChartFault {
    pub cause: Cause,
    pub link: Option<u16>,
    pub height: u8,
}

impl ChartFault {
    // A refusal by a bare chart, about the whole of it.
    pub fn of_chart(cause: Cause) -> ChartFault
        ensures { told result ≡ record { by = number cause; link = None; height = 0 } }
    {
        ChartFault {
            cause,
            link: None,
            height: 0,
        }
    }

    // A refusal by a bare chart, about one link.
    pub fn at_link(cause: Cause, link: u16) -> ChartFault
        ensures { told result ≡ record { by = number cause; link = Some link; height = 0 } }
    {
        ChartFault {
            link: Some(link),
            ..ChartFault::of_chart(cause)
        }
    }
}
