// What a chart is to the code above it.
ghost use Rattle.std.specs.Prelude.{◌≡◌, true, length, is_err};
ghost use Rattle.chart.specs.Lawful.{Lawful};
ghost use Rattle.chart.specs.Meaning.{Meaning, link_at, places as place_count, priced};
ghost use Rattle.chart.specs.Questions.{Next, answered, leads_at, numbers_at};
ghost use Rattle.chart.specs.Refusals.{refusal, refusal_at, refused, unless};
ghost use Rattle.std.specs.Option.{option_map};
ghost use Rattle.std.specs.List.{slice_get};

use crate::end::End;
use crate::fault::{Cause, ChartFault};
use crate::link::Link;
use price::PriceKind;

// A chart answers from its meaning alone, and only `set_price` changes it. Outside its tables it answers none.
pub trait Chart {
    type Price: PriceKind;

    // all that the chart says
    ghost meaning: { Self → Meaning };

    // the laws hold of every chart, always
    ghost lawful: { (x : Self) → Lawful (meaning x) };

    fn places(&self) -> u16
        ensures { result ≡ place_count (meaning self.now) };

    fn start(&self) -> u16
        ensures { result ≡ (meaning self.now).start };

    fn goal(&self) -> u16
        ensures { result ≡ (meaning self.now).goal };

    fn height(&self) -> u8
        ensures { result ≡ (meaning self.now).height };

    // How many link numbers the table has. A number may name no link.
    fn link_numbers(&self) -> u16
        ensures { result ≡ length (meaning self.now).links };

    // The link that a number names.
    fn link(&self, number: u16) -> Option<Link<Self::Price>>
        ensures { option_map (answered Self.Price.PriceKind.value) result ≡ link_at (meaning self.now) number };

    // The estimate of a place.
    fn estimate(&self, place: u16) -> Option<Self::Price>
        ensures { option_map Self.Price.PriceKind.value result ≡ slice_get (meaning self.now).estimates place };

    // The n-th number of the links with this end at a place, in rising order, n from 0. `LinksAt` would say it shorter, but
    // a body of the trait cannot pass `Self` where a chart with all laws is asked.
    fn nth_link(&self, end: End, place: u16, n: u16) -> Option<u16>
        ensures { result ≡ slice_get (numbers_at end (meaning self.now) place) n }
    {
        let mut number = self.next_link(end, place, 0)?;
        for _ in 0..n {
            number = self.next_link(end, place, number + 1)?;
        }
        Some(number)
    }

    // The lowest number, from a number on, of the links with this end at a place.
    fn next_link(&self, end: End, place: u16, from: u16) -> Option<u16>
        ensures { Next (leads_at end place) (meaning self.now).links from result };

    fn row_length(&self) -> usize
        ensures { result ≡ (meaning self.now).kind.long }
    {
        Self::Price::row_length()
    }

    fn ceiling(&self) -> u64
        ensures { result ≡ (meaning self.now).kind.ceiling }
    {
        Self::Price::ceiling()
    }

    // The largest number of a link at a position of its row, from 0.
    fn largest(&self, position: usize) -> Option<u64>
        ensures { result ≡ slice_get (meaning self.now).kind.largest position }
    {
        Self::Price::largest(position)
    }

    // May a link be set to this price? Nothing changes.
    fn check_price(&self, link: u16, price: Self::Price) -> Result<(), ChartFault>
        ensures { refused result ≡ refusal (meaning self.now) link (Self.Price.PriceKind.value price) }
    {
        check_link_price(link, self.link(link), price)
    }

    // Sets the price of one link. A refusal leaves everything as it was.
    fn set_price(&mut self, link: u16, price: Self::Price) -> Result<(), ChartFault>
        ensures answer { refused result ≡ refusal (meaning self.old) link (Self.Price.PriceKind.value price) }
        ensures after { meaning self.new ≡ unless (refusal (meaning self.old) link (Self.Price.PriceKind.value price)) (meaning self.old) (priced (meaning self.old) link (Self.Price.PriceKind.value price)) }
        ensures same { is_err result ≡ true → self.new ≡ self.old };

    // its prices are of one kind, that of their type
    ghost priced_in: { (x : Self) → (meaning x).kind ≡ Self.Price.PriceKind.kind };
}

// May a link have another price? The link is the one that the number names, if it names one.
pub fn check_link_price<P: PriceKind>(
    number: u16,
    link: Option<Link<P>>,
    price: P,
) -> Result<(), ChartFault>
    ensures { refused result ≡ refusal_at P.PriceKind.kind (option_map (answered P.PriceKind.value) link) number (P.PriceKind.value price) }
{
    let link = link.ok_or(ChartFault::at_link(Cause::NoLink, number))?;
    if link.held != 0 {
        return Err(ChartFault {
            height: link.held,
            ..ChartFault::at_link(Cause::Held, number)
        });
    }
    if price.below(link.floor) || !price.fits_link() {
        return Err(ChartFault::at_link(Cause::BadPrice, number));
    }
    Ok(())
}
