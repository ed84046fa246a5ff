// A guard: keeps a traveller away from listed places.
ghost use Rattle.std.specs.Prelude.{◌≡◌, true, [], is_err, Some};
ghost use Rattle.chart.specs.Meaning.{link_at};
ghost use Rattle.chart.specs.Questions.{answered};
ghost use Rattle.chart.specs.Refusals.{number, refused, told, unless};
ghost use Rattle.layer_meaning.proofs.Guarding.{lawful_guarded};
ghost use Rattle.layer_meaning.specs.Guarded.{guarded, held_at, is_among, touched};
ghost use Rattle.layer_meaning.specs.Heights.{above};
ghost use Rattle.layers.specs.Listing.{listing_refusal, with_place};

use arrayvec::ArrayVec;
use chart::{Cause, Chart, ChartFault, End, Link};
use price::PriceKind;

// How many places a guard lists at most.
const MOST: usize = 64;

// A chart one higher, in which a link with a listed end is closed and held. All else is as in the chart below.
#[derive(Drop)]
pub struct Guard<C: Chart> {
    chart: C,
    listed: ArrayVec<u16, MOST>,
}

impl<C: Chart> Guard<C> {
    // A guard that lists no place yet.
    pub fn over(chart: C) -> Guard<C>
        ensures below { result.chart ≡ chart }
        ensures listed { result.listed.items ≡ [] }
    {
        Guard {
            chart,
            listed: ArrayVec::new(),
        }
    }

    // The chart below.
    pub fn below(&self) -> &C
        ensures { result.now ≡ self.now.chart }
    {
        &self.chart
    }

    // Lists one more place. A refusal leaves everything as it was.
    pub fn list(&mut self, place: u16) -> Result<(), ChartFault>
        ensures answer { refused result ≡ listing_refusal (C.Chart.meaning self.old.chart) self.old.listed.items place }
        ensures after { self.new.listed.items ≡ unless (listing_refusal (C.Chart.meaning self.old.chart) self.old.listed.items place) self.old.listed.items (with_place self.old.listed.items place) }
        ensures below { self.new.chart ≡ self.old.chart }
        ensures same { is_err result ≡ true → self.new ≡ self.old }
    {
        if place >= self.chart.places() {
            return Err(self.refuse(Cause::OutsideLimits, None));
        }
        if self.lists(place) {
            return Ok(());
        }
        if self.listed.len() == MOST {
            return Err(self.refuse(Cause::GuardFull, None));
        }
        self.listed.push(place);
        Ok(())
    }

    // Is the place listed?
    fn lists(&self, place: u16) -> bool
        ensures { result ≡ is_among self.now.listed.items place }
    {
        self.listed.contains(&place)
    }

    // Has the link a listed end?
    fn touches(&self, link: Link<C::Price>) -> bool
        ensures { result ≡ touched self.now.listed.items (Some (answered C.Price.PriceKind.value link)) }
    {
        self.lists(link.from) || self.lists(link.to)
    }

    // The link as the guard holds it.
    fn held(&self, link: Link<C::Price>) -> Link<C::Price>
        ensures { Some (answered C.Price.PriceKind.value result) ≡ held_at (above (C.Chart.meaning self.now.chart).height) (Some (answered C.Price.PriceKind.value link)) }
    {
        Link {
            price: C::Price::closed(),
            held: self.height(),
            ..link
        }
    }

    // A refusal at the guard's own height.
    fn refuse(&self, cause: Cause, link: Option<u16>) -> ChartFault
        ensures { told result ≡ record { by = number cause; link = link; height = above (C.Chart.meaning self.now.chart).height } }
    {
        ChartFault {
            cause,
            link,
            height: self.height(),
        }
    }

    // Has the link of this number a listed end?
    fn holds(&self, number: u16) -> bool
        ensures { result ≡ touched self.now.listed.items (link_at (C.Chart.meaning self.now.chart) number) }
    {
        self.chart
            .link(number)
            .is_some_and(|link| self.touches(link))
    }
}

impl<C: Chart> Chart for Guard<C> {
    type Price = C::Price;

    ghost meaning = { λ s. guarded s.listed.items (C.Chart.meaning s.chart) };

    ghost lawful = { λ s. lawful_guarded s.listed.items (C.Chart.meaning s.chart) (C.Chart.lawful s.chart) };

    fn places(&self) -> u16 {
        self.chart.places()
    }

    fn start(&self) -> u16 {
        self.chart.start()
    }

    fn goal(&self) -> u16 {
        self.chart.goal()
    }

    fn height(&self) -> u8 {
        self.chart.height().saturating_add(1)
    }

    fn link_numbers(&self) -> u16 {
        self.chart.link_numbers()
    }

    fn link(&self, number: u16) -> Option<Link<C::Price>> {
        let link = self.chart.link(number)?;
        Some(if self.touches(link) {
            self.held(link)
        } else {
            link
        })
    }

    fn estimate(&self, place: u16) -> Option<C::Price> {
        self.chart.estimate(place)
    }

    // Handed on whole, like every question: one by one, each number would go through all layers of a pile.
    fn nth_link(&self, end: End, place: u16, n: u16) -> Option<u16> {
        self.chart.nth_link(end, place, n)
    }

    fn next_link(&self, end: End, place: u16, from: u16) -> Option<u16> {
        self.chart.next_link(end, place, from)
    }

    fn set_price(&mut self, link: u16, price: C::Price) -> Result<(), ChartFault> {
        if self.holds(link) {
            return Err(self.refuse(Cause::Held, Some(link)));
        }
        self.chart.set_price(link, price)
    }

    ghost priced_in = { λ s. C.Chart.priced_in s.chart };
}
