// What a link chart's memory holds, and how it changes. The chart's own calls rest on these.
ghost use Rattle.std.specs.Prelude.{◌≡◌, length, None};
ghost use Rattle.chart.specs.Meaning.{link_at, priced};
ghost use Rattle.chart.specs.Questions.{Next, leads_at, numbers_at};
ghost use Rattle.chart.specs.Refusals.{refusal};
ghost use Rattle.chart_file.specs.Checks.{Passed};
ghost use Rattle.chart_file.specs.File.{drawn};
ghost use Rattle.chart_file.specs.Records.{estimate_of, link_of};
ghost use Rattle.link_chart.specs.Drawn.{chart_of, filled_links, filled_places, read_refusal};
ghost use Rattle.price.specs.Kinds.{lift_value};
ghost use Rattle.std.specs.Option.{option_map};
ghost use Rattle.std.specs.List.{slice_get};

use crate::over::LinkChart;
use crate::reprice::with_price;
use chart::End;
use chart_file::{LinkRecord, PlaceRecord, Trailer, copy_records};
use price::Lift;

impl LinkChart<'_> {
    // The record of a place; zeros for the one place of a chart that no file was read into.
    pub(crate) fn place_record(&self, place: u16) -> Option<PlaceRecord>
        ensures { option_map estimate_of result ≡ slice_get (chart_of self.now).estimates place }
    {
        if self.place_count == 0 {
            return (place == 0).then_some(PlaceRecord::default());
        }
        let places = &self.places[..usize::from(self.place_count)];
        places.get(usize::from(place)).copied()
    }

    pub(crate) fn link_record(&self, number: u16) -> Option<LinkRecord>
        ensures { option_map link_of result ≡ link_at (chart_of self.now) number }
    {
        let links = &self.links[..usize::from(self.link_count)];
        links.get(usize::from(number)).copied()
    }

    // Does a link have this end at a place?
    pub(crate) fn leads_at(&self, number: u16, end: End, place: u16) -> bool
        ensures { result ≡ leads_at end place (link_at (chart_of self.now) number) }
    {
        self.link_record(number)
            .is_some_and(|link| link.end(end) == place)
    }

    // The lowest number, from a number on, of the links with this end at a place.
    pub(crate) fn next_at(&self, end: End, place: u16, from: u16) -> Option<u16>
        ensures { Next (leads_at end place) (chart_of self.now).links from result }
    {
        for n in from..self.link_count {
            if self.leads_at(n, end, place) {
                return Some(n);
            }
        }
        None
    }

    // The n-th of them, from 0, by one walk over the table.
    pub(crate) fn nth_at(&self, end: End, place: u16, n: u16) -> Option<u16>
        ensures { result ≡ slice_get (numbers_at end (chart_of self.now) place) n }
    {
        let mut number = self.next_at(end, place, 0)?;
        for _ in 0..n {
            number = self.next_at(end, place, number + 1)?;
        }
        Some(number)
    }

    // Sets the price of a link, which is not refused.
    pub(crate) fn reprice(&mut self, link: u16, price: Lift)
        requires { None ≡ refusal (chart_of self.old) link (lift_value price) }
        ensures { chart_of self.new ≡ priced (chart_of self.old) link (lift_value price) }
    {
        let n = usize::from(link);
        self.links[n] = with_price(self.links[n], price);
    }

    // Fills the memory from a file that passed every check.
    pub(crate) fn fill(&mut self, file: &[u8], trailer: Trailer)
        requires passed { Passed file.now (length self.old.places.now) (length self.old.links.now) trailer }
        requires accepted { None ≡ read_refusal self.old file.now }
        ensures after { chart_of self.new ≡ drawn file.now }
        ensures place_memory { self.new.places.now ≡ filled_places self.old file.now }
        ensures link_memory { self.new.links.now ≡ filled_links self.old file.now }
        ensures lender { (self.new.places.ghost_name ≡ self.old.places.ghost_name) × (self.new.links.ghost_name ≡ self.old.links.ghost_name) }
    {
        // All fields at once: the rules hold again when each is set.
        let LinkChart {
            places,
            links,
            start,
            goal,
            place_count,
            link_count,
        } = self;
        copy_records(file, places);
        copy_records(file, links);
        *start = trailer.start;
        *goal = trailer.goal;
        *place_count = trailer.places;
        *link_count = trailer.links;
    }
}
