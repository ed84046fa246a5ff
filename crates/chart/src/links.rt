// The links of a place, one by one.
ghost use Rattle.std.specs.Prelude.{◌≡◌};
ghost use Rattle.std.specs.Iterator.{YieldsFirst, item_count};
ghost use Rattle.chart.specs.Links.{left};
ghost use Rattle.chart.specs.Questions.{numbers_at};

use crate::chart::Chart;
use crate::end::End;

// The numbers of the links with one end at a place, in rising order.
#[derive(Drop)]
pub struct LinksAt<'a, C> {
    chart: &'a C,
    end: End,
    place: u16,
    from: u16,
}

impl<'a, C: Chart> LinksAt<'a, C> {
    pub fn new(chart: &'a C, end: End, place: u16) -> LinksAt<'a, C>
        ensures { left C.Chart.meaning result ≡ numbers_at end (C.Chart.meaning chart.now) place }
    {
        LinksAt {
            chart,
            end,
            place,
            from: 0,
        }
    }
}

impl<'a, C: Chart> Iterator for LinksAt<'a, C> {
    type Item = u16;

    ghost next_gives = { YieldsFirst (left C.Chart.meaning) };

    ghost remaining = { item_count (left C.Chart.meaning) };

    fn next(&mut self) -> Option<u16> {
        let number = self.chart.next_link(self.end, self.place, self.from)?;
        self.from = number + 1;
        Some(number)
    }
}
