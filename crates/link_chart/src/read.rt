// Making a link chart, and filling it from a chart file.
ghost use Rattle.std.specs.Prelude.{◌≡◌, true, is_err};
ghost use Rattle.chart.specs.Refusals.{refused, unless};
ghost use Rattle.chart_file.specs.File.{drawn};
ghost use Rattle.link_chart.specs.Drawn.{chart_of, filled_links, filled_places, read_refusal};
ghost use Rattle.link_chart.specs.Places.{one_place};

use crate::over::LinkChart;
use chart::ChartFault;
use chart_file::{LinkRecord, PlaceRecord, check_file};

impl<'a> LinkChart<'a> {
    // A chart of one place and no links over any lent records, to be filled from a file. Nothing is written.
    pub fn over(places: &'a mut [PlaceRecord], links: &'a mut [LinkRecord]) -> LinkChart<'a>
        ensures meaning { chart_of result ≡ one_place }
        ensures place_memory { result.places.now ≡ places.old }
        ensures link_memory { result.links.now ≡ links.old }
    {
        LinkChart {
            places,
            links,
            start: 0,
            goal: 0,
            place_count: 0,
            link_count: 0,
        }
    }

    // The chart becomes the one that a file draws, or the file is refused and everything is as it was. Records past the
    // file's counts stay.
    pub fn read(&mut self, file: &[u8]) -> Result<(), ChartFault>
        ensures answer { refused result ≡ read_refusal self.old file.now }
        ensures after { chart_of self.new ≡ unless (read_refusal self.old file.now) (chart_of self.old) (drawn file.now) }
        ensures place_memory { self.new.places.now ≡ unless (read_refusal self.old file.now) self.old.places.now (filled_places self.old file.now) }
        ensures link_memory { self.new.links.now ≡ unless (read_refusal self.old file.now) self.old.links.now (filled_links self.old file.now) }
        ensures same { is_err result ≡ true → self.new ≡ self.old }
        ensures lender { (self.new.places.ghost_name ≡ self.old.places.ghost_name) × (self.new.links.ghost_name ≡ self.old.links.ghost_name) }
    {
        let trailer = check_file(file, self.places.len(), self.links.len())?;
        self.fill(file, trailer);
        Ok(())
    }
}
