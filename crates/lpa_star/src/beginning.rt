// A plan from the beginning: every standing closed.
ghost use Rattle.std.specs.Prelude.{◌≡◌, ℕ, ◌≤◌};
ghost use Rattle.chart.specs.Meaning.{places as place_count};
ghost use Rattle.bench.specs.Contents.{SameLender, Sorted, Waits, lookaheads, past, room, standings};
ghost use Rattle.lpa_star.specs.Closing.{closed_first};
ghost use Rattle.lpa_star.specs.Memory.{memory};
ghost use Rattle.lpa_star.specs.UpToDate.{UpToDate};

use crate::step::update;
use bench::Bench;
use chart::Chart;
use price::PriceKind;

// Closes the standings and the lookaheads of all places of the chart, and empties the queue.
fn close_all<C: Chart>(chart: &C, bench: &mut Bench<C::Price>)
    ensures lender { SameLender bench.old bench.new }
    ensures standings { standings C.Price.PriceKind.value bench.new ≡ closed_first (place_count (C.Chart.meaning chart.now)) (standings C.Price.PriceKind.value bench.old) }
    ensures lookaheads { lookaheads C.Price.PriceKind.value bench.new ≡ closed_first (place_count (C.Chart.meaning chart.now)) (lookaheads C.Price.PriceKind.value bench.old) }
    ensures queue { (q : ℕ) → Waits bench.new q → ⊥ }
    ensures order { Sorted C.Price.PriceKind.value bench.new }
    ensures past { past (place_count (C.Chart.meaning chart.now)) bench.new ≡ past (place_count (C.Chart.meaning chart.now)) bench.old }
{
    bench.clear();
    for place in 0..chart.places() {
        bench.put_standing(place, C::Price::closed());
        bench.put_lookahead(place, C::Price::closed());
    }
}

// Closes all standings, and brings the bench up to date: only the start is queued.
pub fn begin<C: Chart>(chart: &C, bench: &mut Bench<C::Price>)
    ensures lender { SameLender bench.old bench.new }
    ensures standings { standings C.Price.PriceKind.value bench.new ≡ closed_first (place_count (C.Chart.meaning chart.now)) (standings C.Price.PriceKind.value bench.old) }
    ensures current { place_count (C.Chart.meaning chart.now) ≤ room bench.old → UpToDate (C.Chart.meaning chart.now) (memory C.Price.PriceKind.value bench.new) }
    ensures past { past (place_count (C.Chart.meaning chart.now)) bench.new ≡ past (place_count (C.Chart.meaning chart.now)) bench.old }
{
    close_all(chart, bench);
    update(chart, bench, chart.start());
}
