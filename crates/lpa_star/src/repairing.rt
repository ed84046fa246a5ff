// A repair: steps until settled (published: ComputeShortestPath).
ghost use Rattle.std.specs.Prelude.{◌≡◌, ◌*◌, ◌≤◌, is_ok, length, not};
ghost use Rattle.chart.specs.Meaning.{places};
ghost use Rattle.rows.specs.Keys.{key_less};
ghost use Rattle.bench.specs.Contents.{SameLender, room, standings};
ghost use Rattle.bench.specs.Keys.{key_of};
ghost use Rattle.lifelong.specs.Step.{next, settled};
ghost use Rattle.lifelong.specs.Run.{repair as defined_repair};
ghost use Rattle.lpa_star.specs.Memory.{memory};
ghost use Rattle.lpa_star.specs.Outcomes.{steps_of};
ghost use Rattle.lpa_star.specs.Past.{KeepsPast};
ghost use Rattle.lpa_star.specs.UpToDate.{UpToDate, WhereCurrent};
ghost use Rattle.lpa_star.specs.Steps.{after_step};

use crate::look::{differ, kept_lookahead, key_for, standing_of};
use crate::step::expand;
use bench::{Bench, Key};
use chart::Chart;
use price::PriceKind;

// A repair that took all its steps, or found no place to expand, and is not settled: how many steps it took.
#[derive(Clone, Copy, PartialEq, Eq, Debug)]
pub struct Unsettled {
    pub steps: u16,
}

// Is the one key no smaller than the other?
fn at_least<P: PriceKind>(key: Key<P>, other: Key<P>) -> bool
    ensures { result ≡ not (key_less (key_of P.PriceKind.value key) (key_of P.PriceKind.value other)) }
{
    !key.below(other)
}

// Takes the uneven place of smallest key, of equals the lowest number, and expands it. None where no place of the chart is
// at the top of the queue.
fn take_step<C: Chart>(chart: &C, bench: &mut Bench<C::Price>) -> Option<u16>
    ensures lender { SameLender bench.old bench.new }
    ensures taken { UpToDate (C.Chart.meaning chart.now) (memory C.Price.PriceKind.value bench.old) → result ≡ next (C.Chart.meaning chart.now) (standings C.Price.PriceKind.value bench.old) }
    ensures standings { WhereCurrent C.Price.PriceKind.value (C.Chart.meaning chart.now) bench.old (standings C.Price.PriceKind.value bench.new ≡ after_step (C.Chart.meaning chart.now) (standings C.Price.PriceKind.value bench.old) result) }
    ensures current { WhereCurrent C.Price.PriceKind.value (C.Chart.meaning chart.now) bench.old (UpToDate (C.Chart.meaning chart.now) (memory C.Price.PriceKind.value bench.new)) }
    ensures past { KeepsPast (places (C.Chart.meaning chart.now)) bench.old bench.new }
{
    let place = bench.top()?;
    if place >= chart.places() {
        return None;
    }
    expand(chart, bench, place);
    Some(place)
}

// Is the goal even, and no uneven place's key below the goal's?
fn is_settled<C: Chart>(chart: &C, bench: &Bench<C::Price>) -> bool
    ensures { UpToDate (C.Chart.meaning chart.now) (memory C.Price.PriceKind.value bench.now) → result ≡ settled (C.Chart.meaning chart.now) (standings C.Price.PriceKind.value bench.now) }
{
    let goal = chart.goal();
    let standing = standing_of(bench, goal);
    let lookahead = kept_lookahead(bench, goal);
    if differ(standing, lookahead) {
        return false;
    }
    let Some(place) = bench.top() else {
        return true;
    };
    match bench.key(place) {
        Some(key) => at_least(key, key_for(chart, goal, standing.min(lookahead))),
        None => true,
    }
}

// The most steps of a repair: two for each place.
fn step_limit<C: Chart>(chart: &C) -> u16
    ensures { result ≡ 2 * places (C.Chart.meaning chart.now) }
{
    2 * chart.places()
}

// Steps until settled, or for two steps for each place, and answers how many were taken.
pub fn repair<C: Chart>(chart: &C, bench: &mut Bench<C::Price>) -> Result<u16, Unsettled>
    ensures lender { SameLender bench.old bench.new }
    ensures few { steps_of result ≤ 2 * places (C.Chart.meaning chart.now) }
    ensures steps { WhereCurrent C.Price.PriceKind.value (C.Chart.meaning chart.now) bench.old (steps_of result ≡ length (defined_repair (C.Chart.meaning chart.now) (standings C.Price.PriceKind.value bench.old)).steps) }
    ensures standings { WhereCurrent C.Price.PriceKind.value (C.Chart.meaning chart.now) bench.old (standings C.Price.PriceKind.value bench.new ≡ (defined_repair (C.Chart.meaning chart.now) (standings C.Price.PriceKind.value bench.old)).left) }
    ensures settled { WhereCurrent C.Price.PriceKind.value (C.Chart.meaning chart.now) bench.old (is_ok result ≡ settled (C.Chart.meaning chart.now) (standings C.Price.PriceKind.value bench.new)) }
    ensures current { WhereCurrent C.Price.PriceKind.value (C.Chart.meaning chart.now) bench.old (UpToDate (C.Chart.meaning chart.now) (memory C.Price.PriceKind.value bench.new)) }
    ensures past { KeepsPast (places (C.Chart.meaning chart.now)) bench.old bench.new }
{
    let limit = step_limit(chart);
    for steps in 0..limit {
        if is_settled(chart, bench) {
            return Ok(steps);
        }
        if take_step(chart, bench).is_none() {
            return Err(Unsettled { steps });
        }
    }
    if is_settled(chart, bench) {
        return Ok(limit);
    }
    Err(Unsettled { steps: limit })
}
