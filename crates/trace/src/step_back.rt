// One move of a trace, backwards over a link.
ghost use Rattle.std.specs.Prelude.{◌≡◌};
ghost use Rattle.chart.specs.Meaning.{link_at};
ghost use Rattle.bench.specs.Contents.{standings};
ghost use Rattle.lifelong.specs.Trace.{move, move_over, nearest};
ghost use Rattle.std.specs.Option.{option_map};
ghost use Rattle.trace.specs.Moves.{before_on_the_way, move_of};

use crate::trail::Trail;
use chart::{Chart, End, LinksAt};
use lpa_star::standing_of;
use price::PriceKind;

// A link taken backwards: the standing at its from place plus its price, that place, and its number. The nearer step is the
// smaller one: the smaller cost, of equals the lower from place, of equals the lower link number.
#[derive(Clone, Copy, PartialEq, Eq, PartialOrd, Ord)]
pub struct Step<P> {
    pub cost: P,
    pub from: u16,
    pub number: u16,
}

// The nearer of the best so far and a new one. `Option`'s own order would put no step first.
fn nearer_of<P: PriceKind>(best: Option<Step<P>>, new: Option<Step<P>>) -> Option<Step<P>>
    ensures { option_map (move_of P.PriceKind.value) result ≡ nearest (option_map (move_of P.PriceKind.value) best) (option_map (move_of P.PriceKind.value) new) }
{
    match (best, new) {
        (Some(old), Some(step)) => Some(if step < old { step } else { old }),
        (None, step) => step,
        (old, None) => old,
    }
}

impl<C: Chart> Trail<'_, '_, '_, C> {
    // The move over a link, none where the number names none.
    fn step_over(&self, number: u16) -> Option<Step<C::Price>>
        ensures { option_map (move_of C.Price.PriceKind.value) result ≡ move_over (C.Chart.meaning self.now.chart.now).kind (standings C.Price.PriceKind.value self.now.bench.now) number (link_at (C.Chart.meaning self.now.chart.now) number) }
    {
        let link = self.chart.link(number)?;
        Some(Step {
            cost: standing_of(self.bench, link.from).plus(link.price),
            from: link.from,
            number,
        })
    }

    // The nearest move over the links into a place.
    fn best_step(&self, place: u16) -> Option<Step<C::Price>>
        ensures { option_map (move_of C.Price.PriceKind.value) result ≡ move (C.Chart.meaning self.now.chart.now) (standings C.Price.PriceKind.value self.now.bench.now) place }
    {
        let mut best = None;
        for number in LinksAt::new(self.chart, End::To, place) {
            best = nearer_of(best, self.step_over(number));
        }
        best
    }

    // The place before this one on the way back; none where no open move leads on.
    pub(crate) fn place_before(&self, place: u16) -> Option<u16>
        ensures { result ≡ before_on_the_way (C.Chart.meaning self.now.chart.now) (standings C.Price.PriceKind.value self.now.bench.now) place }
    {
        let step = self.best_step(place)?;
        (step.cost < C::Price::closed()).then_some(step.from)
    }
}
