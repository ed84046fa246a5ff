// What a lattice is asked: links by number, and the link numbers at a place.
ghost use Rattle.std.specs.Prelude.{◌≡◌, length};
ghost use Rattle.chart.specs.Meaning.{link_at};
ghost use Rattle.chart.specs.Questions.{Next, answered, leads_at, numbers_at};
ghost use Rattle.lattice.specs.Drawn.{chart_of};
ghost use Rattle.lattice.specs.Layouts.{number, shape};
ghost use Rattle.lattice.specs.Lowest.{from_on, lower_of};
ghost use Rattle.lattice_meaning.specs.Numbers.{number_at};
ghost use Rattle.price.specs.Kinds.{time_value};
ghost use Rattle.std.specs.Option.{option_map};
ghost use Rattle.std.specs.List.{slice_get};

use crate::direction::{Direction, LINKS_PER_PLACE};
use crate::lattice::Lattice;
use crate::numbers::price_of;
use chart::{End, Link};
use price::Time;

// The lower of two numbers, where there are any.
fn lower_of(a: Option<u16>, b: Option<u16>) -> Option<u16>
    ensures { result ≡ lower_of a b }
{
    match (a, b) {
        (Some(a), Some(b)) => Some(a.min(b)),
        (None, b) => b,
        (a, None) => a,
    }
}

impl Lattice<'_> {
    // How many link numbers the table has.
    pub(crate) fn table_length(&self) -> u16
        ensures { result ≡ length (chart_of self.now).links }
    {
        self.link_count
    }

    // The link that a number names.
    pub(crate) fn named(&self, number: u16) -> Option<Link<Time>>
        ensures { option_map (answered time_value) result ≡ link_at (chart_of self.now) number }
    {
        if number >= self.link_count {
            return None;
        }
        let to = self.grid().leads_to(number)?;
        Some(Link {
            from: number / LINKS_PER_PLACE,
            to,
            floor: Time::Open {
                ms: self.layout.least.into(),
            },
            price: price_of(self.prices[usize::from(number)]),
            held: 0,
        })
    }

    // The number of the link in a direction with this end at a place.
    fn link_toward(&self, end: End, place: u16, toward: Direction) -> Option<u16>
        ensures { result ≡ number_at end (shape self.now.layout) self.now.link_count place (number toward) }
    {
        let from = self.grid().link_from(end, place, toward)?;
        let link = LINKS_PER_PLACE * from + toward.number();
        (link < self.link_count).then_some(link)
    }

    // The same, where it is no lower than a number.
    fn link_past(&self, end: End, place: u16, toward: Direction, from: u16) -> Option<u16>
        ensures { result ≡ from_on from (number_at end (shape self.now.layout) self.now.link_count place (number toward)) }
    {
        let link = self.link_toward(end, place, toward)?;
        (link >= from).then_some(link)
    }

    // The lowest link number, from a number on, of the links with this end at a place. The four directions stand one by
    // one, so that each is known where it is compiled: over an iterator this took twice the time.
    pub(crate) fn next_at(&self, end: End, place: u16, from: u16) -> Option<u16>
        ensures { Next (leads_at end place) (chart_of self.now).links from result }
    {
        let up = self.link_past(end, place, Direction::Up, from);
        let right = self.link_past(end, place, Direction::Right, from);
        let down = self.link_past(end, place, Direction::Down, from);
        let left = self.link_past(end, place, Direction::Left, from);
        lower_of(lower_of(lower_of(up, right), down), left)
    }

    // The n-th of them, from 0. There are four at most.
    pub(crate) fn nth_at(&self, end: End, place: u16, n: u16) -> Option<u16>
        ensures { result ≡ slice_get (numbers_at end (chart_of self.now) place) n }
    {
        let mut number = self.next_at(end, place, 0)?;
        for _ in 0..n {
            number = self.next_at(end, place, number + 1)?;
        }
        Some(number)
    }
}
