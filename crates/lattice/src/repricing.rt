// Setting one price.
ghost use Rattle.std.specs.Prelude.{◌≡◌, None};
ghost use Rattle.chart.specs.Meaning.{priced};
ghost use Rattle.chart.specs.Refusals.{refusal};
ghost use Rattle.lattice.specs.Drawn.{chart_of};
ghost use Rattle.price.specs.Kinds.{time_value};

use crate::lattice::Lattice;
use crate::numbers::number_of;
use price::Time;

impl Lattice<'_> {
    // Writes the price of a link that may have it.
    pub(crate) fn reprice(&mut self, link: u16, price: Time)
        requires { refusal (chart_of self.old) link (time_value price) ≡ None }
        ensures after { chart_of self.new ≡ priced (chart_of self.old) link (time_value price) }
        ensures lender { self.new.prices.ghost_name ≡ self.old.prices.ghost_name }
    {
        self.prices[usize::from(link)] = number_of(price);
    }
}
