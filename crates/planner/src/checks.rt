// What every turn looks at first.
ghost use Rattle.std.specs.Prelude.{◌≡◌, ◌&&◌, ◌==◌};
ghost use Rattle.turns.specs.State.{same_stage};
ghost use Rattle.turns.specs.Turns.{in_turn, with_bench};
ghost use Rattle.lpa_star.specs.Memory.{Memory};
ghost use Rattle.planner.specs.Answers.{end_with};
ghost use Rattle.planner.specs.Faults.{refused_by};
ghost use Rattle.planner.specs.Stages.{stage_of, state, state_with};

use crate::fault::Fault;
use crate::parts::{Firm, Loose, Stage, Ticket};
use crate::planner::Planner;
use bench::Bench;
use chart::Chart;
use price::PriceKind;

impl Ticket {
    // The ticket is spent.
    pub(crate) fn spend(self) {
        match self {
            Ticket::Loose(Loose { number: _ }) => {}
            Ticket::Firm(Firm { number: _ }) => {}
        }
    }
}

impl<C: Chart> Planner<C> {
    // Is it the turn of a ticket for this stage that bears this number?
    pub(crate) fn is_turn(&self, stage: Stage, ticket: u32) -> bool
        ensures { result ≡ (same_stage (stage_of stage) (stage_of self.now.stage) && ticket == self.now.number) }
    {
        self.stage == stage && ticket == self.number
    }

    // Is it the turn of this ticket, of either kind?
    pub(crate) fn is_turn_of(&self, ticket: &Ticket) -> bool
        ensures { (b : Memory) → result ≡ in_turn (state_with C.Chart.meaning self.now b) (end_with ticket.now) }
    {
        match ticket {
            Ticket::Loose(loose) => self.is_turn(Stage::Loose, loose.number),
            Ticket::Firm(firm) => self.is_turn(Stage::Firm, firm.number),
        }
    }

    // Is a turn with this bench accepted so far? Refused by 10, then 9.
    pub(crate) fn check(&self, in_turn: bool, bench: &Bench<C::Price>) -> Result<(), Fault>
        ensures { refused_by result ≡ with_bench in_turn (state C.Chart.meaning C.Price.PriceKind.value self.now bench.now) }
    {
        if !in_turn || bench.number() != self.number {
            return Err(Fault::OutOfTurn);
        }
        if bench.len() < usize::from(self.chart.places()) {
            return Err(Fault::ShortBench);
        }
        Ok(())
    }
}
