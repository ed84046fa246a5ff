// A price, and the number that stands for it in the memory: 0 is closed. Both types come from elsewhere, so no `From` can stand
// here.
ghost use Rattle.std.specs.Prelude.{◌≡◌, true};
ghost use Rattle.lattice_meaning.specs.Prices.{number_of, price_of};
ghost use Rattle.price.specs.Kinds.{time_kind, time_value};
ghost use Rattle.rows.specs.Rows.{linkable};

use price::Time;

pub(crate) fn price_of(number: u32) -> Time
    ensures { time_value result ≡ price_of number }
{
    match number {
        0 => Time::Closed,
        ms => Time::Open { ms: ms.into() },
    }
}

// Of a price that a link may have.
pub(crate) fn number_of(price: Time) -> u32
    requires { linkable time_kind (time_value price) ≡ true }
    ensures { result ≡ number_of (time_value price) }
{
    match price {
        Time::Open { ms } => ms.get() as u32,
        Time::Closed => 0,
    }
}
