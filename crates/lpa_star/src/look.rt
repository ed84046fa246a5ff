// What a place costs by its links, asked of a chart and a bench.
ghost use Rattle.std.specs.Prelude.{◌≡◌, slice_index_or};
ghost use Rattle.rows.specs.Rows.{closed};
ghost use Rattle.chart.specs.Meaning.{link_at};
ghost use Rattle.bench.specs.Contents.{lookaheads, standings};
ghost use Rattle.bench.specs.Keys.{key_of};
ghost use Rattle.std.specs.Option.{option_map};
ghost use Rattle.lifelong.specs.Standings.{differ, key_for as defined_key, lookahead, standing_at, through};

use bench::{Bench, Key};
use chart::{Chart, End, LinksAt};
use price::PriceKind;

// Are standing and lookahead of a place two prices, so that it is uneven?
pub(crate) fn differ<P: PriceKind>(a: P, b: P) -> bool
    ensures { result ≡ differ (P.PriceKind.value a) (P.PriceKind.value b) }
{
    a.below(b) || b.below(a)
}

// The standing of a place; closed outside the memory.
pub fn standing_of<P: PriceKind>(bench: &Bench<P>, place: u16) -> P
    ensures { P.PriceKind.value result ≡ standing_at (standings P.PriceKind.value bench.now) place }
{
    bench.standing(place).unwrap_or(P::closed())
}

// The lookahead that is kept of a place; closed outside the memory. Beside `standing_of` it is one line, and a shared
// function would be told by a closure which column to read.
pub(crate) fn kept_lookahead<P: PriceKind>(bench: &Bench<P>, place: u16) -> P
    ensures { P.PriceKind.value result ≡ slice_index_or (lookaheads P.PriceKind.value bench.now) place closed }
{
    bench.lookahead(place).unwrap_or(P::closed())
}

// The place that a link leads to, if the number names one.
pub(crate) fn led_to<C: Chart>(chart: &C, number: u16) -> Option<u16>
    ensures { result ≡ option_map (λ l. l.to) (link_at (C.Chart.meaning chart.now) number) }
{
    chart.link(number).map(|link| link.to)
}

// What it costs to come over a link: the standing of its from place plus its price.
fn cost_through<C: Chart>(chart: &C, bench: &Bench<C::Price>, number: u16) -> C::Price
    ensures { C.Price.PriceKind.value result ≡ through (C.Chart.meaning chart.now).kind (standings C.Price.PriceKind.value bench.now) (link_at (C.Chart.meaning chart.now) number) }
{
    match chart.link(number) {
        Some(link) => standing_of(bench, link.from).plus(link.price),
        None => C::Price::closed(),
    }
}

// The lookahead of a place: zero at the start, elsewhere the smallest cost of the links into it.
pub(crate) fn lookahead_of<C: Chart>(chart: &C, bench: &Bench<C::Price>, place: u16) -> C::Price
    ensures { C.Price.PriceKind.value result ≡ lookahead (C.Chart.meaning chart.now) (standings C.Price.PriceKind.value bench.now) place }
{
    if place == chart.start() {
        return C::Price::zero();
    }
    let mut best = C::Price::closed();
    for number in LinksAt::new(chart, End::To, place) {
        best = best.min(cost_through(chart, bench, number));
    }
    best
}

// The key of a place whose smaller price is known.
pub(crate) fn key_for<C: Chart>(chart: &C, place: u16, own: C::Price) -> Key<C::Price>
    ensures { key_of C.Price.PriceKind.value result ≡ defined_key (C.Chart.meaning chart.now) place (C.Price.PriceKind.value own) }
{
    let whole = match chart.estimate(place) {
        Some(estimate) => own.plus(estimate),
        None => C::Price::closed(),
    };
    Key { whole, own }
}
