// Why a turn is refused.
ghost use Rattle.std.specs.Prelude.{◌≡◌};
ghost use Rattle.planner.specs.Faults.{told, untraced};
ghost use Rattle.planner.specs.declared.fault.Fault.TheVariants.{Chart as by_chart};

use chart::ChartFault;
use thiserror::Error;
use trace::Untraced;

// What is wrong, as a person is told in one line. `told` gives each case the number by which a person knows it, and its values.
#[derive(Clone, Copy, PartialEq, Eq, Debug, Error)]
pub enum Fault {
    // 9: the bench's memory is shorter than the places
    #[error("the bench has fewer records than the chart has places")]
    ShortBench,
    // 10: ticket or bench bears another number, or the stage is not the ticket's; for begin, not idle
    #[error("ticket or bench is another planner's, or it is not this ticket's turn")]
    OutOfTurn,
    // 11: a repair is not settled after its steps, or a trace misses the start
    #[error("the bench is not the one that the plan was begun on")]
    NotSettled,
    // 12: the goal's standing is closed
    #[error("no route stands")]
    NoRoute,
    // 13: the route is longer than its buffer: how many places it has
    #[error("the route has {0} places")]
    ShortBuffer(usize),
    // 6, 7 or 8: the chart refuses a price
    #[error("{0}")]
    Chart(ChartFault),
}

impl Fault {
    // The number by which a person knows the fault.
    pub fn number(self) -> u8
        ensures { result ≡ (told self).by }
    {
        match self {
            Fault::ShortBench => 9,
            Fault::OutOfTurn => 10,
            Fault::NotSettled => 11,
            Fault::NoRoute => 12,
            Fault::ShortBuffer(_) => 13,
            Fault::Chart(fault) => fault.cause.number(),
        }
    }
}

// A chart's fault is carried whole. Both conversions are by hand, since clauses name the fault that `?` makes.
impl From<ChartFault> for Fault {
    ghost from_gives = { λ f r. r ≡ by_chart f };

    fn from(value: ChartFault) -> Fault {
        Fault::Chart(value)
    }
}

// Why a trace shows no route, as the planner's fault.
impl From<Untraced> for Fault {
    ghost from_gives = { λ f r. r ≡ untraced f };

    fn from(value: Untraced) -> Fault {
        match value {
            Untraced::GoalClosed => Fault::NoRoute,
            Untraced::StartMissed => Fault::NotSettled,
            Untraced::ShortBuffer(places) => Fault::ShortBuffer(places),
        }
    }
}
