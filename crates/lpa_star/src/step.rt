// The step of a repair.
ghost use Rattle.std.specs.Prelude.{◌≡◌, ℕ, ◌<◌, ◌≤◌, ◌≢◌, slice_index_or, slice_set};
ghost use Rattle.rows.specs.Rows.{closed};
ghost use Rattle.chart.specs.Meaning.{places};
ghost use Rattle.bench.specs.Contents.{SameLender, Sorted, lookaheads, room, standings};
ghost use Rattle.lifelong.specs.Standings.{standing_at};
ghost use Rattle.lifelong.specs.Step.{changed};
ghost use Rattle.lpa_star.specs.Memory.{memory};
ghost use Rattle.lpa_star.specs.Past.{KeepsPast};
ghost use Rattle.lpa_star.specs.UpToDate.{RightAt, SameAt, UpToDate, UpToDateBut, WhereCurrent};

use crate::look::{differ, kept_lookahead, key_for, led_to, lookahead_of, standing_of};
use bench::Bench;
use chart::{Chart, End, LinksAt};
use price::PriceKind;

// Puts right what is kept of a place (published: UpdateVertex).
pub(crate) fn update<C: Chart>(chart: &C, bench: &mut Bench<C::Price>, place: u16)
    ensures lender { SameLender bench.old bench.new }
    ensures standings { standings C.Price.PriceKind.value bench.new ≡ standings C.Price.PriceKind.value bench.old }
    ensures right { place < places (C.Chart.meaning chart.now) → places (C.Chart.meaning chart.now) ≤ room bench.old → RightAt (C.Chart.meaning chart.now) (memory C.Price.PriceKind.value bench.new) place }
    ensures others { (q : ℕ) → (q ≢ place) → SameAt (memory C.Price.PriceKind.value bench.old) (memory C.Price.PriceKind.value bench.new) q }
    ensures order { Sorted C.Price.PriceKind.value bench.old → Sorted C.Price.PriceKind.value bench.new }
    ensures past { (n : ℕ) → place < n → KeepsPast n bench.old bench.new }
{
    let lookahead = lookahead_of(chart, bench, place);
    let standing = standing_of(bench, place);
    bench.put_lookahead(place, lookahead);
    if differ(standing, lookahead) {
        let key = key_for(chart, place, standing.min(lookahead));
        bench.enqueue(place, key);
        return;
    }
    bench.dequeue(place);
}

// Puts right all places to which a link leads from a place whose standing has changed, and then that place.
pub(crate) fn update_from<C: Chart>(chart: &C, bench: &mut Bench<C::Price>, place: u16)
    ensures lender { SameLender bench.old bench.new }
    ensures standings { standings C.Price.PriceKind.value bench.new ≡ standings C.Price.PriceKind.value bench.old }
    ensures current { place < places (C.Chart.meaning chart.now) → places (C.Chart.meaning chart.now) ≤ room bench.old → UpToDateBut (C.Chart.meaning chart.now) place 0 (memory C.Price.PriceKind.value bench.old) → UpToDate (C.Chart.meaning chart.now) (memory C.Price.PriceKind.value bench.new) }
    ensures past { place < places (C.Chart.meaning chart.now) → KeepsPast (places (C.Chart.meaning chart.now)) bench.old bench.new }
{
    for number in LinksAt::new(chart, End::From, place) {
        if let Some(to) = led_to(chart, number) {
            update(chart, bench, to);
        }
    }
    update(chart, bench, place);
}

// Lowered to the lookahead, or raised to closed.
fn changed<P: PriceKind>(standing: P, lookahead: P) -> P
    ensures { P.PriceKind.value result ≡ changed (P.PriceKind.value standing) (P.PriceKind.value lookahead) }
{
    if lookahead < standing {
        lookahead
    } else {
        P::closed()
    }
}

// Expands a place: its standing is lowered or raised, and what hangs on it is put right.
pub(crate) fn expand<C: Chart>(chart: &C, bench: &mut Bench<C::Price>, place: u16)
    ensures lender { SameLender bench.old bench.new }
    ensures standings { place < room bench.old → standings C.Price.PriceKind.value bench.new ≡ slice_set (standings C.Price.PriceKind.value bench.old) place (changed (standing_at (standings C.Price.PriceKind.value bench.old) place) (slice_index_or (lookaheads C.Price.PriceKind.value bench.old) place closed)) }
    ensures current { place < places (C.Chart.meaning chart.now) → WhereCurrent C.Price.PriceKind.value (C.Chart.meaning chart.now) bench.old (UpToDate (C.Chart.meaning chart.now) (memory C.Price.PriceKind.value bench.new)) }
    ensures past { place < places (C.Chart.meaning chart.now) → KeepsPast (places (C.Chart.meaning chart.now)) bench.old bench.new }
{
    let standing = changed(standing_of(bench, place), kept_lookahead(bench, place));
    bench.put_standing(place, standing);
    update_from(chart, bench, place);
}
