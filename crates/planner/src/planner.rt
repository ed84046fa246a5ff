// The planner itself.
use crate::parts::Stage;
use chart::Chart;

// planner: keeps its chart, the number that its owner gives, and its stage. All else lies on the bench.
#[derive(Drop)]
pub struct Planner<C: Chart> {
    pub(crate) chart: C,
    pub(crate) number: u32,
    pub(crate) stage: Stage,
}
