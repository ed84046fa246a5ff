// The cells of a layout, where its link numbers lead, and its estimates.
ghost use Rattle.std.specs.Prelude.{◌≡◌, ◌<◌, ◌≤◌, true, ◌++◌, length, drop};
ghost use Rattle.chart.specs.Refusals.{refused};
ghost use Rattle.lattice.specs.Layouts.{number, shape, shape_refusal};
ghost use Rattle.lattice_meaning.specs.Directions.{direction};
ghost use Rattle.lattice_meaning.specs.Numbers.{link_from};
ghost use Rattle.lattice_meaning.specs.Prices.{distance, estimates, first_price, first_prices};
ghost use Rattle.lattice_meaning.specs.Shape.{in_limits, leads_to, link_count, neighbour, place_count};
ghost use Rattle.price.specs.Kinds.{time_value};
ghost use Rattle.std.specs.Option.{option_map};
ghost use Rattle.std.specs.Result.{IfOk};
ghost use Rattle.std.specs.List.{slice_get};

use crate::direction::{Direction, LINKS_PER_PLACE};
use crate::layout::Layout;
use chart::{Cause, ChartFault, End};
use price::Time;

// A layout whose sizes, places and least step are within their limits.
#[derive(Clone, Copy)]
pub(crate) struct Grid {
    pub(crate) layout: Layout,
    ghost within: { in_limits (shape layout) ≡ true },
}

impl Grid {
    // Refused by 2.
    pub(crate) fn new(layout: Layout) -> Result<Grid, ChartFault>
        ensures answer { refused result ≡ shape_refusal (shape layout) }
        ensures laid { IfOk result (λ g. g.layout ≡ layout) }
    {
        if !layout.is_within() {
            return Err(ChartFault::of_chart(Cause::OutsideLimits));
        }
        Ok(Grid { layout })
    }

    // How many places there are, each with an estimate.
    pub(crate) fn places(self) -> u16
        ensures count { result ≡ place_count (shape self.layout) }
        ensures table { result ≡ length (estimates (shape self.layout)) }
    {
        self.layout.width * self.layout.height
    }

    // How many link numbers there are.
    pub(crate) fn links(self) -> u16
        ensures { result ≡ link_count (shape self.layout) }
    {
        LINKS_PER_PLACE * self.places()
    }

    // The neighbour of a place in a direction, if it has one.
    pub(crate) fn neighbour(self, place: u16, toward: Direction) -> Option<u16>
        ensures { result ≡ neighbour (shape self.layout) (direction (number toward)) place }
    {
        let Layout { width, height, .. } = self.layout;
        if place >= self.places() {
            return None;
        }
        let (x, y) = toward.step(place % width, place / width)?;
        if x >= width || y >= height {
            return None;
        }
        Some(y * width + x)
    }

    // The place that a link number leads to, if it names a link.
    pub(crate) fn leads_to(self, link: u16) -> Option<u16>
        ensures { result ≡ leads_to (shape self.layout) link }
    {
        self.neighbour(link / LINKS_PER_PLACE, Direction::of_link(link))
    }

    // The place that the link in a direction with this end at a place leads from, if there is such a link.
    pub(crate) fn link_from(self, end: End, place: u16, toward: Direction) -> Option<u16>
        ensures { result ≡ link_from end (shape self.layout) place (number toward) }
    {
        match end {
            End::From => self.neighbour(place, toward).map(|_to| place),
            End::To => self.neighbour(place, toward.opposite()),
        }
    }

    // The columns and rows between a place and the goal.
    fn distance(self, place: u16) -> u16
        requires { place < place_count (shape self.layout) }
        ensures { result ≡ distance (shape self.layout) place }
    {
        let Layout { width, goal, .. } = self.layout;
        let columns = (place % width).abs_diff(goal % width);
        let rows = (place / width).abs_diff(goal / width);
        columns + rows
    }

    // The estimate of a place: the least step for each column and row.
    pub(crate) fn estimate(self, place: u16) -> Option<Time>
        ensures { option_map time_value result ≡ slice_get (estimates (shape self.layout)) place }
    {
        if place >= self.places() {
            return None;
        }
        let ms = self.layout.least * u32::from(self.distance(place));
        Some(Time::Open { ms: ms.into() })
    }

    // The least step where a link is, else 0.
    fn first_price(self, link: u16) -> u32
        ensures { result ≡ first_price (shape self.layout) link }
    {
        self.leads_to(link).map_or(0, |_to| self.layout.least)
    }

    // Writes the first prices over the first numbers of the memory; what lies past them stays. There are 16,384 at most,
    // so a link number has 16 bits.
    pub(crate) fn write_first_prices(self, prices: &mut [u32])
        requires { link_count (shape self.layout) ≤ length prices.old }
        ensures { prices.new ≡ first_prices (shape self.layout) ++ drop (link_count (shape self.layout)) prices.old }
    {
        let first = &mut prices[..usize::from(self.links())];
        for (link, price) in first.iter_mut().enumerate() {
            *price = self.first_price(link as u16);
        }
    }
}
