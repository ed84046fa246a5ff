// A link record with another price.
ghost use Rattle.std.specs.Prelude.{◌≡◌, true};
ghost use Rattle.link_chart.specs.Repriced.{repriced};
ghost use Rattle.price.specs.Kinds.{lift_kind, lift_value};
ghost use Rattle.rows.specs.Rows.{linkable};

use chart_file::LinkRecord;
use price::Lift;

// The same link at a price that a link may have, which the record has room for.
pub(crate) fn with_price(link: LinkRecord, price: Lift) -> LinkRecord
    requires { linkable lift_kind (lift_value price) ≡ true }
    ensures { result ≡ repriced link (lift_value price) }
{
    match price {
        Lift::Open { lifts, ms } => LinkRecord {
            price_lifts: lifts.get() as u16,
            price_ms: ms.get() as u32,
            ..link
        },
        Lift::Closed => LinkRecord {
            price_lifts: 0,
            price_ms: 0,
            ..link
        },
    }
}
