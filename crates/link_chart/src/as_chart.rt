// A link chart is a chart.
ghost use Rattle.link_chart.specs.Drawn.{chart_lawful, chart_of};
ghost use Rattle.std.specs.Prelude.{refl};

use crate::over::LinkChart;
use chart::{Chart, ChartFault, End, Link};
use price::Lift;

impl<'a> Chart for LinkChart<'a> {
    type Price = Lift;

    ghost meaning = { chart_of };

    ghost lawful = { chart_lawful };

    // A chart that no file was read into has one place.
    fn places(&self) -> u16 {
        self.place_count.max(1)
    }

    fn start(&self) -> u16 {
        self.start
    }

    fn goal(&self) -> u16 {
        self.goal
    }

    fn height(&self) -> u8 {
        0
    }

    fn link_numbers(&self) -> u16 {
        self.link_count
    }

    fn link(&self, number: u16) -> Option<Link<Lift>> {
        let record = self.link_record(number)?;
        Some(Link {
            from: record.from,
            to: record.to,
            floor: record.floor(),
            price: record.price(),
            held: 0,
        })
    }

    fn estimate(&self, place: u16) -> Option<Lift> {
        self.place_record(place).map(Lift::from)
    }

    fn nth_link(&self, end: End, place: u16, n: u16) -> Option<u16> {
        self.nth_at(end, place, n)
    }

    fn next_link(&self, end: End, place: u16, from: u16) -> Option<u16> {
        self.next_at(end, place, from)
    }

    fn set_price(&mut self, link: u16, price: Lift) -> Result<(), ChartFault> {
        self.check_price(link, price)?;
        self.reprice(link, price);
        Ok(())
    }

    ghost priced_in = { λ _. refl };
}
