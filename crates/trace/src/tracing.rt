// The walk back from the goal, counted first and then written.
ghost use Rattle.std.specs.Prelude.{◌≡◌, ◌≤◌, length, Some};
ghost use Rattle.bench.specs.Contents.{standings};
ghost use Rattle.lifelong.specs.Trace.{trace as defined_trace};
ghost use Rattle.trace.specs.Answers.{answer, written};
ghost use Rattle.trace.specs.Lengths.{route_length};
ghost use Rattle.trace.specs.Moves.{way_back};

use crate::trail::Trail;
use bench::Bench;
use chart::Chart;
use lpa_star::standing_of;
use price::PriceKind;

// Why no route is shown.
#[derive(Clone, Copy, PartialEq, Eq, Debug)]
pub enum Untraced {
    // the goal's standing is closed
    GoalClosed,
    // no way back leads to the start within as many moves as places
    StartMissed,
    // the route is longer than its buffer: how many places it has
    ShortBuffer(usize),
}

impl<C: Chart> Trail<'_, '_, '_, C> {
    // How many places the way back from the goal has, if it reaches the start within as many moves as places.
    fn length(&self) -> Option<usize>
        ensures { result ≡ route_length (way_back (C.Chart.meaning self.now.chart.now) (standings C.Price.PriceKind.value self.now.bench.now)) }
    {
        let start = self.chart.start();
        let places = usize::from(self.chart.places());
        let mut place = self.chart.goal();
        for moves in 0..places {
            if place == start {
                return Some(moves + 1);
            }
            place = self.place_before(place)?;
        }
        (place == start).then_some(places + 1)
    }

    // Writes the way back from the goal, the start first, over the first `count` numbers.
    fn write(&self, out: &mut [u16], count: usize)
        requires count { (route_length (way_back (C.Chart.meaning self.now.chart.now) (standings C.Price.PriceKind.value self.now.bench.now)) ≡ Some count) × (count ≤ length out.old) }
        ensures { out.new ≡ written (way_back (C.Chart.meaning self.now.chart.now) (standings C.Price.PriceKind.value self.now.bench.now)) out.old }
    {
        let mut place = self.chart.goal();
        for left in (1..count).rev() {
            out[left] = place;
            match self.place_before(place) {
                None => return,
                Some(before) => place = before,
            }
        }
        out[0] = place;
    }
}

// Writes the places of the route by standings, start first, and answers how many. Where it is refused the buffer stays as
// it was.
pub fn trace<C: Chart>(
    chart: &C,
    bench: &Bench<C::Price>,
    out: &mut [u16],
) -> Result<usize, Untraced>
    ensures answer { result ≡ answer (defined_trace (C.Chart.meaning chart.now) (standings C.Price.PriceKind.value bench.now)) (length out.old) }
    ensures out { out.new ≡ written (defined_trace (C.Chart.meaning chart.now) (standings C.Price.PriceKind.value bench.now)) out.old }
{
    if standing_of(bench, chart.goal()) >= C::Price::closed() {
        return Err(Untraced::GoalClosed);
    }
    let trail = Trail { chart, bench };
    let count = trail.length().ok_or(Untraced::StartMissed)?;
    if count > out.len() {
        return Err(Untraced::ShortBuffer(count));
    }
    trail.write(out, count);
    Ok(count)
}
