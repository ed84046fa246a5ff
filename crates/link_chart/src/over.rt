// The chart over lent records. Its rules over that memory hold of every value.
ghost use Rattle.std.specs.Prelude.{◌≤◌, length, take};
ghost use Rattle.chart_file.specs.Rules.{Rules};
ghost use Rattle.link_chart.specs.Places.{places_of};

use chart_file::{LinkRecord, PlaceRecord};

// The first records of each memory are the chart's. What was lent may be longer, so their counts stand beside them. While
// no file was read, no record is the chart's: it has then one place and no links.
#[derive(Drop)]
pub struct LinkChart<'a> {
    pub(crate) places: &'a mut [PlaceRecord],
    pub(crate) links: &'a mut [LinkRecord],
    pub(crate) start: u16,
    pub(crate) goal: u16,
    pub(crate) place_count: u16,
    pub(crate) link_count: u16,
    ghost place_room: { place_count ≤ length places.now },
    ghost link_room: { link_count ≤ length links.now },
    ghost rules: { Rules start goal (places_of place_count places.now) (take link_count links.now) },
}
