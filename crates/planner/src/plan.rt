// What the turns do once it is known whether it is their turn.
ghost use Rattle.std.specs.Prelude.{◌≡◌, ℕ, true, false, length, is_err, None};
ghost use Rattle.bench.specs.Contents.{standings};
ghost use Rattle.lifelong.specs.Standings.{standing_at};
ghost use Rattle.lpa_star.specs.Memory.{Memory};
ghost use Rattle.turns.specs.History.{Reachable, passes};
ghost use Rattle.turns.specs.Promises.{RepairPromises, TracePromises};
ghost use Rattle.turns.specs.Turned.{Turned};
ghost use Rattle.turns.specs.Turns.{begin as begin_turn, in_turn as is_turn, precheck, price as price_turn, repair as repair_turn, trace as trace_turn};
ghost use Rattle.planner.specs.Answers.{HandsBack, WritesOnly, begun, end_with, ended, priced, repaired, traced};
ghost use Rattle.planner.specs.Stages.{at_stage_of, state, state_with};
ghost use Rattle.planner.specs.declared.parts.Stage.TheVariants.{Firm as firm_stage, Idle as idle_stage, Loose as loose_stage};

use crate::fault::Fault;
use crate::parts::{Firm, Loose, Refused, Repaired, Stage, Ticket};
use crate::planner::Planner;
use bench::Bench;
use chart::Chart;
use price::PriceKind;

impl<C: Chart> Planner<C> {
    // Loose from now on, and the ticket that says so.
    fn loosen(&mut self) -> Loose
        ensures ticket { result.number ≡ self.old.number }
        ensures after { self.new ≡ at_stage_of loose_stage self.old }
    {
        self.stage = Stage::Loose;
        Loose {
            number: self.number,
        }
    }

    // Firm from now on: what a repair gives for its loose ticket.
    fn firm_up(&mut self, ticket: Loose, distance: C::Price, steps: u16) -> Repaired<C::Price>
        ensures given { (result.ticket.number ≡ ticket.number) × ((result.distance ≡ distance) × (result.steps ≡ steps)) }
        ensures after { self.new ≡ at_stage_of firm_stage self.old }
    {
        let Loose { number } = ticket;
        self.stage = Stage::Firm;
        Repaired {
            ticket: Firm { number },
            distance,
            steps,
        }
    }

    // Idle from now on: the ticket is spent.
    fn rest(&mut self, ticket: Ticket)
        ensures { self.new ≡ at_stage_of idle_stage self.old }
    {
        ticket.spend();
        self.stage = Stage::Idle;
    }

    // The goal's standing.
    fn goal_standing(&self, bench: &Bench<C::Price>) -> C::Price
        ensures { C.Price.PriceKind.value result ≡ standing_at (standings C.Price.PriceKind.value bench.now) (C.Chart.meaning self.now.chart).goal }
    {
        lpa_star::standing_of(bench, self.chart.goal())
    }
}

// Each is told by its public call whether it is its ticket's turn, so that a wrong turn is refused where it is asked for.
impl<C: Chart> Planner<C> {
    pub(crate) fn begin_if(
        &mut self,
        in_turn: bool,
        bench: &mut Bench<C::Price>,
    ) -> Result<Loose, Fault>
        ensures turned { in_turn ≡ is_turn (state C.Chart.meaning C.Price.PriceKind.value self.old bench.old) begin_turn → Turned (state C.Chart.meaning C.Price.PriceKind.value self.old bench.old) begin_turn (begun result) (state C.Chart.meaning C.Price.PriceKind.value self.new bench.new) }
        ensures same { is_err result ≡ true → (self.new ≡ self.old) × (bench.new ≡ bench.old) }
        ensures chart { self.new.chart ≡ self.old.chart }
        ensures lender { bench.new.records.ghost_name ≡ bench.old.records.ghost_name }
    {
        self.check(in_turn, bench)?;
        lpa_star::begin(&self.chart, bench);
        Ok(self.loosen())
    }

    pub(crate) fn price_if(
        &mut self,
        in_turn: bool,
        bench: &mut Bench<C::Price>,
        link: u16,
        price: C::Price,
    ) -> Result<(), Fault>
        ensures turned { (k : ℕ) → in_turn ≡ is_turn (state C.Chart.meaning C.Price.PriceKind.value self.old bench.old) (price_turn k link (C.Price.PriceKind.value price)) → Turned (state C.Chart.meaning C.Price.PriceKind.value self.old bench.old) (price_turn k link (C.Price.PriceKind.value price)) (priced result) (state C.Chart.meaning C.Price.PriceKind.value self.new bench.new) }
        ensures same { is_err result ≡ true → (self.new ≡ self.old) × (bench.new ≡ bench.old) }
        ensures lender { bench.new.records.ghost_name ≡ bench.old.records.ghost_name }
    {
        self.check(in_turn, bench)?;
        lpa_star::reprice(&mut self.chart, bench, link, price)?;
        Ok(())
    }

    pub(crate) fn repair_if(
        &mut self,
        in_turn: bool,
        ticket: Loose,
        bench: &mut Bench<C::Price>,
    ) -> Result<Repaired<C::Price>, Refused<Loose>>
        ensures turned { in_turn ≡ is_turn (state C.Chart.meaning C.Price.PriceKind.value self.old bench.old) (repair_turn ticket.number) → Turned (state C.Chart.meaning C.Price.PriceKind.value self.old bench.old) (repair_turn ticket.number) (repaired C.Price.PriceKind.value result) (state C.Chart.meaning C.Price.PriceKind.value self.new bench.new) }
        ensures same { ((is_err result ≡ true → self.new ≡ self.old)) × ((in_turn ≡ is_turn (state C.Chart.meaning C.Price.PriceKind.value self.old bench.old) (repair_turn ticket.number) → passes (state C.Chart.meaning C.Price.PriceKind.value self.old bench.old) (repair_turn ticket.number) ≡ false → bench.new ≡ bench.old)) }
        ensures back { HandsBack ticket result }
        ensures chart { self.new.chart ≡ self.old.chart }
        ensures lender { bench.new.records.ghost_name ≡ bench.old.records.ghost_name }
        ensures promise { in_turn ≡ is_turn (state C.Chart.meaning C.Price.PriceKind.value self.old bench.old) (repair_turn ticket.number) → Reachable (state C.Chart.meaning C.Price.PriceKind.value self.old bench.old) → precheck (state C.Chart.meaning C.Price.PriceKind.value self.old bench.old) (repair_turn ticket.number) ≡ None → RepairPromises (state C.Chart.meaning C.Price.PriceKind.value self.old bench.old) (repaired C.Price.PriceKind.value result) }
    {
        if let Err(fault) = self.check(in_turn, bench) {
            return Err(Refused { ticket, fault });
        }
        let Ok(steps) = lpa_star::repair(&self.chart, bench) else {
            return Err(Refused {
                ticket,
                fault: Fault::NotSettled,
            });
        };
        let distance = self.goal_standing(bench);
        Ok(self.firm_up(ticket, distance, steps))
    }

    pub(crate) fn trace_if(
        &self,
        in_turn: bool,
        bench: &Bench<C::Price>,
        out: &mut [u16],
    ) -> Result<usize, Fault>
        ensures turned { (k : ℕ) → in_turn ≡ is_turn (state C.Chart.meaning C.Price.PriceKind.value self.now bench.now) (trace_turn k (length out.old)) → Turned (state C.Chart.meaning C.Price.PriceKind.value self.now bench.now) (trace_turn k (length out.old)) (traced result out.new) (state C.Chart.meaning C.Price.PriceKind.value self.now bench.now) }
        ensures out { WritesOnly result out.old out.new }
        ensures promise { (k : ℕ) → in_turn ≡ is_turn (state C.Chart.meaning C.Price.PriceKind.value self.now bench.now) (trace_turn k (length out.old)) → Reachable (state C.Chart.meaning C.Price.PriceKind.value self.now bench.now) → precheck (state C.Chart.meaning C.Price.PriceKind.value self.now bench.now) (trace_turn k (length out.old)) ≡ None → TracePromises (state C.Chart.meaning C.Price.PriceKind.value self.now bench.now) (length out.old) (traced result out.new) }
    {
        self.check(in_turn, bench)?;
        let places = trace::trace(&self.chart, bench, out)?;
        Ok(places)
    }

    pub(crate) fn end_if(&mut self, in_turn: bool, ticket: Ticket) -> Result<(), Refused<Ticket>>
        ensures turned { (b : Memory) → in_turn ≡ is_turn (state_with C.Chart.meaning self.old b) (end_with ticket) → Turned (state_with C.Chart.meaning self.old b) (end_with ticket) (ended result) (state_with C.Chart.meaning self.new b) }
        ensures same { is_err result ≡ true → self.new ≡ self.old }
        ensures back { HandsBack ticket result }
        ensures chart { self.new.chart ≡ self.old.chart }
    {
        if !in_turn {
            return Err(Refused {
                ticket,
                fault: Fault::OutOfTurn,
            });
        }
        self.rest(ticket);
        Ok(())
    }
}
