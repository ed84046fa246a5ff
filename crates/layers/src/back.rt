// A return: a chart travelled the other way.
ghost use Rattle.std.specs.Prelude.{◌≡◌, Some};
ghost use Rattle.chart.specs.Questions.{answered};
ghost use Rattle.layer_meaning.proofs.Returning.{lawful_returned};
ghost use Rattle.layer_meaning.specs.Returned.{returned, reversed};

use chart::{Chart, ChartFault, End, Link};
use price::PriceKind;

// A chart one higher, in which each link leads the other way, from the goal to the start. Every estimate is zero, all
// else is as in the chart below.
#[derive(Drop)]
pub struct Return<C: Chart> {
    chart: C,
}

// The link the other way round.
fn reversed_link<P: PriceKind>(link: Link<P>) -> Link<P>
    ensures { Some (answered P.PriceKind.value result) ≡ reversed (Some (answered P.PriceKind.value link)) }
{
    Link {
        from: link.to,
        to: link.from,
        ..link
    }
}

impl<C: Chart> Return<C> {
    // The way back over a chart.
    pub fn over(chart: C) -> Return<C>
        ensures { result.chart ≡ chart }
    {
        Return { chart }
    }

    // The chart below.
    pub fn below(&self) -> &C
        ensures { result.now ≡ self.now.chart }
    {
        &self.chart
    }
}

impl<C: Chart> Chart for Return<C> {
    type Price = C::Price;

    ghost meaning = { λ s. returned (C.Chart.meaning s.chart) };

    ghost lawful = { λ s. lawful_returned (C.Chart.meaning s.chart) (C.Chart.lawful s.chart) };

    fn places(&self) -> u16 {
        self.chart.places()
    }

    fn start(&self) -> u16 {
        self.chart.goal()
    }

    fn goal(&self) -> u16 {
        self.chart.start()
    }

    fn height(&self) -> u8 {
        self.chart.height().saturating_add(1)
    }

    fn link_numbers(&self) -> u16 {
        self.chart.link_numbers()
    }

    fn link(&self, number: u16) -> Option<Link<C::Price>> {
        self.chart.link(number).map(reversed_link)
    }

    fn estimate(&self, place: u16) -> Option<C::Price> {
        self.chart.estimate(place).map(|_| C::Price::zero())
    }

    fn nth_link(&self, end: End, place: u16, n: u16) -> Option<u16> {
        self.chart.nth_link(end.opposite(), place, n)
    }

    fn next_link(&self, end: End, place: u16, from: u16) -> Option<u16> {
        self.chart.next_link(end.opposite(), place, from)
    }

    fn set_price(&mut self, link: u16, price: C::Price) -> Result<(), ChartFault> {
        self.chart.set_price(link, price)
    }

    ghost priced_in = { λ s. C.Chart.priced_in s.chart };
}
