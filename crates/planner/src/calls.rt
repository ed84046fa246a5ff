// The turns. Each public call says whether it is its ticket's turn, and hands the work on.
ghost use Rattle.std.specs.Prelude.{◌≡◌, true, false, length, is_err, None};
ghost use Rattle.lpa_star.specs.Memory.{Memory};
ghost use Rattle.turns.specs.History.{Reachable, passes};
ghost use Rattle.turns.specs.Promises.{RepairPromises, TracePromises};
ghost use Rattle.turns.specs.Turned.{Turned};
ghost use Rattle.turns.specs.Turns.{begin as begin_turn, precheck, price as price_turn, repair as repair_turn, reopen as reopen_turn, trace as trace_turn};
ghost use Rattle.planner.specs.Answers.{HandsBack, WritesOnly, begun, end_with, ended, priced, reopened, repaired, traced};
ghost use Rattle.planner.specs.Stages.{state, state_with};
ghost use Rattle.planner.specs.declared.parts.Stage.TheVariants.{Idle as idle_stage};

use crate::fault::Fault;
use crate::parts::{Firm, Loose, Refused, Repaired, Stage, Ticket};
use crate::planner::Planner;
use bench::Bench;
use chart::Chart;
use price::PriceKind;

impl<C: Chart> Planner<C> {
    // An idle planner over a chart, with the number that its owner gives.
    pub fn new(chart: C, number: u32) -> Planner<C>
        ensures { (result.chart ≡ chart) × ((result.number ≡ number) × (result.stage ≡ idle_stage)) }
    {
        Planner {
            chart,
            number,
            stage: Stage::Idle,
        }
    }

    // The chart as it stands.
    pub fn chart(&self) -> &C
        ensures { result.now ≡ self.now.chart }
    {
        &self.chart
    }

    // Closes all standings of a bench and gives a loose ticket. Refused by 10 and 9.
    pub fn begin(&mut self, bench: &mut Bench<C::Price>) -> Result<Loose, Fault>
        ensures turned { Turned (state C.Chart.meaning C.Price.PriceKind.value self.old bench.old) begin_turn (begun result) (state C.Chart.meaning C.Price.PriceKind.value self.new bench.new) }
        ensures same { is_err result ≡ true → (self.new ≡ self.old) × (bench.new ≡ bench.old) }
        ensures chart { self.new.chart ≡ self.old.chart }
        ensures lender { bench.new.records.ghost_name ≡ bench.old.records.ghost_name }
    {
        let in_turn = self.stage == Stage::Idle;
        self.begin_if(in_turn, bench)
    }

    // Sets the price of one link, under a loose ticket. Refused by 10, 9, and then as the chart does.
    pub fn price(
        &mut self,
        ticket: &Loose,
        bench: &mut Bench<C::Price>,
        link: u16,
        price: C::Price,
    ) -> Result<(), Fault>
        ensures turned { Turned (state C.Chart.meaning C.Price.PriceKind.value self.old bench.old) (price_turn ticket.now.number link (C.Price.PriceKind.value price)) (priced result) (state C.Chart.meaning C.Price.PriceKind.value self.new bench.new) }
        ensures same { is_err result ≡ true → (self.new ≡ self.old) × (bench.new ≡ bench.old) }
        ensures lender { bench.new.records.ghost_name ≡ bench.old.records.ghost_name }
    {
        let in_turn = self.is_turn(Stage::Loose, ticket.number);
        self.price_if(in_turn, bench, link, price)
    }

    // Steps until settled, and gives a firm ticket for the loose one. Refused by 10, 9 and 11; by 11 it leaves the bench
    // after its steps.
    pub fn repair(
        &mut self,
        ticket: Loose,
        bench: &mut Bench<C::Price>,
    ) -> Result<Repaired<C::Price>, Refused<Loose>>
        ensures turned { Turned (state C.Chart.meaning C.Price.PriceKind.value self.old bench.old) (repair_turn ticket.number) (repaired C.Price.PriceKind.value result) (state C.Chart.meaning C.Price.PriceKind.value self.new bench.new) }
        ensures same { ((is_err result ≡ true → self.new ≡ self.old)) × ((passes (state C.Chart.meaning C.Price.PriceKind.value self.old bench.old) (repair_turn ticket.number) ≡ false → bench.new ≡ bench.old)) }
        ensures back { HandsBack ticket result }
        ensures chart { self.new.chart ≡ self.old.chart }
        ensures lender { bench.new.records.ghost_name ≡ bench.old.records.ghost_name }
        ensures promise { Reachable (state C.Chart.meaning C.Price.PriceKind.value self.old bench.old) → precheck (state C.Chart.meaning C.Price.PriceKind.value self.old bench.old) (repair_turn ticket.number) ≡ None → RepairPromises (state C.Chart.meaning C.Price.PriceKind.value self.old bench.old) (repaired C.Price.PriceKind.value result) }
    {
        let in_turn = self.is_turn(Stage::Loose, ticket.number);
        self.repair_if(in_turn, ticket, bench)
    }

    // Writes the places of the route, start first, and answers how many; later numbers stay. Refused by 10, 9, 12, 11 and 13,
    // and then nothing is written.
    pub fn trace(
        &self,
        ticket: &Firm,
        bench: &Bench<C::Price>,
        out: &mut [u16],
    ) -> Result<usize, Fault>
        ensures turned { Turned (state C.Chart.meaning C.Price.PriceKind.value self.now bench.now) (trace_turn ticket.now.number (length out.old)) (traced result out.new) (state C.Chart.meaning C.Price.PriceKind.value self.now bench.now) }
        ensures out { WritesOnly result out.old out.new }
        ensures promise { Reachable (state C.Chart.meaning C.Price.PriceKind.value self.now bench.now) → precheck (state C.Chart.meaning C.Price.PriceKind.value self.now bench.now) (trace_turn ticket.now.number (length out.old)) ≡ None → TracePromises (state C.Chart.meaning C.Price.PriceKind.value self.now bench.now) (length out.old) (traced result out.new) }
    {
        let in_turn = self.is_turn(Stage::Firm, ticket.number);
        self.trace_if(in_turn, bench, out)
    }

    // Opens a settled plan to prices again: a loose ticket for the firm one. Refused by 10.
    pub fn reopen(&mut self, ticket: Firm) -> Result<Loose, Refused<Firm>>
        ensures turned { (b : Memory) → Turned (state_with C.Chart.meaning self.old b) (reopen_turn ticket.number) (reopened result) (state_with C.Chart.meaning self.new b) }
        ensures same { is_err result ≡ true → self.new ≡ self.old }
        ensures back { HandsBack ticket result }
        ensures chart { self.new.chart ≡ self.old.chart }
    {
        if !self.is_turn(Stage::Firm, ticket.number) {
            return Err(Refused {
                ticket,
                fault: Fault::OutOfTurn,
            });
        }
        let Firm { number } = ticket;
        self.stage = Stage::Loose;
        Ok(Loose { number })
    }

    // Ends a plan, under either ticket: the planner is idle. Refused by 10.
    pub fn end(&mut self, ticket: Ticket) -> Result<(), Refused<Ticket>>
        ensures turned { (b : Memory) → Turned (state_with C.Chart.meaning self.old b) (end_with ticket) (ended result) (state_with C.Chart.meaning self.new b) }
        ensures same { is_err result ≡ true → self.new ≡ self.old }
        ensures back { HandsBack ticket result }
        ensures chart { self.new.chart ≡ self.old.chart }
    {
        let in_turn = self.is_turn_of(&ticket);
        self.end_if(in_turn, ticket)
    }
}
