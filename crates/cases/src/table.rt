// A chart asked everything and priced, compared with a table.
use chart::{Cause, Chart, ChartFault, End, Link};
use price::PriceKind;
use std::process::Abort;

// What a chart says of itself as a whole.
#[derive(Clone, Copy, PartialEq, Eq, Debug)]
pub struct Whole {
    pub places: u16,
    pub start: u16,
    pub goal: u16,
    pub height: u8,
    pub link_numbers: u16,
}

// A link with the milliseconds of its floor and of its price, none where it is closed.
pub type LinkInMs = Link<Option<u64>>;

// A link number, and the link that it names.
pub type LinkRow = (u16, Option<LinkInMs>);

// An end and a place: which of the links with this end there is the n-th, and which is the next from a number on.
pub type WayRow = (End, u16, (u16, Option<u16>), (u16, Option<u16>));

// A place, and the milliseconds of its estimate.
pub type EstimateRow = (u16, Option<u64>);

// A link number, and why and at which height setting its price is refused.
pub type PriceRow = (u16, Result<(), (Cause, u8)>);

// What a chart is to answer, the links also after prices were set.
#[derive(Clone, Copy)]
pub struct Table {
    pub whole: Whole,
    pub links: [LinkRow; 5],
    pub ways: &'static [WayRow],
    pub estimates: [EstimateRow; 4],
    pub prices: [PriceRow; 4],
    pub after: [LinkRow; 2],
}

// A link that no layer holds.
pub fn free(from: u16, to: u16, floor: u64, price: u64) -> Option<LinkInMs> {
    Some(Link {
        from,
        to,
        floor: Some(floor),
        price: Some(price),
        held: 0,
    })
}

// A link that the layer at a height holds closed.
pub fn held(from: u16, to: u16, floor: u64, height: u8) -> Option<LinkInMs> {
    Some(Link {
        from,
        to,
        floor: Some(floor),
        price: None,
        held: height,
    })
}

// The last number of a price's row; none where the price is closed.
fn ms_of<P: PriceKind>(price: P) -> Option<u64> {
    price.number(P::row_length().saturating_sub(1))
}

pub fn link_in_ms<C: Chart>(chart: &C, number: u16) -> Option<LinkInMs> {
    let Link {
        from,
        to,
        floor,
        price,
        held,
    } = chart.link(number)?;
    Some(Link {
        from,
        to,
        floor: ms_of(floor),
        price: ms_of(price),
        held,
    })
}

fn check_links<C: Chart>(rt: &impl Abort, chart: &C, rows: &[LinkRow]) {
    for &(number, link) in rows {
        assert_eq!(rt; link_in_ms(chart, number), link, "link {number}");
    }
}

fn check_ways<C: Chart>(rt: &impl Abort, chart: &C, rows: &[WayRow]) {
    for &(end, place, (n, nth), (from, next)) in rows {
        assert_eq!(rt; chart.nth_link(end, place, n), nth, "place {place}");
        assert_eq!(rt; chart.next_link(end, place, from), next, "place {place}");
    }
}

fn check_estimates<C: Chart>(rt: &impl Abort, chart: &C, rows: &[EstimateRow]) {
    for &(place, ms) in rows {
        assert_eq!(rt; chart.estimate(place).and_then(ms_of), ms, "place {place}");
    }
}

// Each price may be set where it is then set, and is refused alike where it is only asked for.
pub fn check_prices<C: Chart>(rt: &impl Abort, chart: &mut C, price: C::Price, rows: &[PriceRow]) {
    for &(link, answer) in rows {
        let answer = answer.map_err(|(cause, height)| ChartFault {
            height,
            ..ChartFault::at_link(cause, link)
        });
        assert_eq!(rt; chart.check_price(link, price), answer, "link {link}");
        assert_eq!(rt; chart.set_price(link, price), answer, "link {link}");
    }
}

fn check_whole<C: Chart>(rt: &impl Abort, chart: &C, whole: Whole) {
    let asked = Whole {
        places: chart.places(),
        start: chart.start(),
        goal: chart.goal(),
        height: chart.height(),
        link_numbers: chart.link_numbers(),
    };
    assert_eq!(rt; asked, whole);
}

fn check_kind<C: Chart>(rt: &impl Abort, chart: &C) {
    assert_eq!(rt; chart.row_length(), C::Price::row_length());
    assert_eq!(rt; chart.ceiling(), C::Price::ceiling());
    assert_eq!(rt; chart.largest(0), C::Price::largest(0));
}

// The chart answers what the table says, before and after each price of it is set.
pub fn check_table<C: Chart>(rt: &impl Abort, chart: &mut C, price: C::Price, table: &Table) {
    check_whole(rt, chart, table.whole);
    check_kind(rt, chart);
    check_links(rt, chart, &table.links);
    check_ways(rt, chart, table.ways);
    check_estimates(rt, chart, &table.estimates);
    check_prices(rt, chart, price, &table.prices);
    check_links(rt, chart, &table.after);
}
