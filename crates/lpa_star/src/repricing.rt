// Another price for a link.
ghost use Rattle.std.specs.Prelude.{◌≡◌, ℕ, ◌≤◌, true, false, is_err};
ghost use Rattle.chart.specs.Meaning.{link_at, places, priced};
ghost use Rattle.chart.specs.Questions.{leads_into};
ghost use Rattle.chart.specs.Refusals.{refusal, refused, unless};
ghost use Rattle.bench.specs.Contents.{SameLender, room, standings};
ghost use Rattle.lpa_star.specs.Memory.{memory};
ghost use Rattle.lpa_star.specs.Past.{KeepsPast};
ghost use Rattle.lpa_star.specs.UpToDate.{SameAt, UpToDate, WhereCurrent};

use crate::look::led_to;
use crate::step::update;
use bench::Bench;
use chart::{Chart, ChartFault};
use price::PriceKind;

// Sets the price of a link, and puts right what is kept of the place that it leads to. A refusal changes nothing.
pub fn reprice<C: Chart>(
    chart: &mut C,
    bench: &mut Bench<C::Price>,
    link: u16,
    price: C::Price,
) -> Result<(), ChartFault>
    ensures lender { SameLender bench.old bench.new }
    ensures answer { refused result ≡ refusal (C.Chart.meaning chart.old) link (C.Price.PriceKind.value price) }
    ensures after { C.Chart.meaning chart.new ≡ unless (refusal (C.Chart.meaning chart.old) link (C.Price.PriceKind.value price)) (C.Chart.meaning chart.old) (priced (C.Chart.meaning chart.old) link (C.Price.PriceKind.value price)) }
    ensures same { is_err result ≡ true → (chart.new ≡ chart.old) × (bench.new ≡ bench.old) }
    ensures standings { standings C.Price.PriceKind.value bench.new ≡ standings C.Price.PriceKind.value bench.old }
    ensures others { (q : ℕ) → leads_into q (link_at (C.Chart.meaning chart.old) link) ≡ false → SameAt (memory C.Price.PriceKind.value bench.old) (memory C.Price.PriceKind.value bench.new) q }
    ensures current { WhereCurrent C.Price.PriceKind.value (C.Chart.meaning chart.old) bench.old (UpToDate (C.Chart.meaning chart.new) (memory C.Price.PriceKind.value bench.new)) }
    ensures past { KeepsPast (places (C.Chart.meaning chart.old)) bench.old bench.new }
{
    let to = led_to(chart, link);
    chart.set_price(link, price)?;
    if let Some(to) = to {
        update(chart, bench, to);
    }
    Ok(())
}
