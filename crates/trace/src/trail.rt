// What a trace reads.
use bench::Bench;
use chart::Chart;

// A chart, and the bench whose standings lead back from its goal.
#[derive(Drop)]
pub(crate) struct Trail<'c, 'b, 'm, C: Chart> {
    pub(crate) chart: &'c C,
    pub(crate) bench: &'b Bench<'m, C::Price>,
}
