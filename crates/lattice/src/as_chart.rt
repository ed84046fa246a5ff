// The lattice as a chart.
ghost use Rattle.std.specs.Prelude.{refl};
ghost use Rattle.lattice.specs.Drawn.{chart_lawful, chart_of};

use crate::lattice::Lattice;
use chart::{Chart, ChartFault, End, Link};
use price::Time;

impl<'a> Chart for Lattice<'a> {
    type Price = Time;

    ghost meaning = { chart_of };

    ghost lawful = { chart_lawful };

    fn places(&self) -> u16 {
        self.grid().places()
    }

    fn start(&self) -> u16 {
        self.layout.start
    }

    fn goal(&self) -> u16 {
        self.layout.goal
    }

    fn height(&self) -> u8 {
        0
    }

    fn link_numbers(&self) -> u16 {
        self.table_length()
    }

    fn link(&self, number: u16) -> Option<Link<Time>> {
        self.named(number)
    }

    fn estimate(&self, place: u16) -> Option<Time> {
        self.grid().estimate(place)
    }

    fn nth_link(&self, end: End, place: u16, n: u16) -> Option<u16> {
        self.nth_at(end, place, n)
    }

    fn next_link(&self, end: End, place: u16, from: u16) -> Option<u16> {
        self.next_at(end, place, from)
    }

    fn set_price(&mut self, link: u16, price: Time) -> Result<(), ChartFault> {
        self.check_price(link, price)?;
        self.reprice(link, price);
        Ok(())
    }

    ghost priced_in = { λ c. refl };
}
