// The link chart: asked everything, priced, and asked outside its tables.
use crate::files::{CHART, LINK, PLACE};
use crate::prices::lift;
use chart::{Cause, Chart, ChartFault, End, Link};
use chart_file::{LinkRecord, PlaceRecord};
use link_chart::LinkChart;
use price::{Lift, PriceKind};
use std::test::Fail;

// The chart of three places over lent records.
pub fn three_places<'a>(
    places: &'a mut [PlaceRecord],
    links: &'a mut [LinkRecord],
) -> Result<LinkChart<'a>, ChartFault> {
    let mut chart = LinkChart::over(places, links);
    chart.read(&CHART)?;
    Ok(chart)
}

#[test]
fn a_chart_without_a_file_has_one_place(rt: HostRuntime) {
    let mut places = [PLACE; 5];
    let mut links = [LINK; 4];
    let chart = LinkChart::over(&mut places, &mut links);
    assert_eq!(rt; chart.places(), 1);
    assert_eq!(rt; chart.link_numbers(), 0);
    assert_eq!(rt; chart.estimate(0), Some(Lift::zero()));
    assert_eq!(rt; chart.estimate(1), None);
    assert_eq!(rt; chart.link(0), None);
}

#[test]
fn a_chart_answers_what_its_file_says(rt: HostRuntime) -> Result<(), Fail> {
    let mut places = [PLACE; 5];
    let mut links = [LINK; 4];
    let chart = three_places(&mut places, &mut links)?;
    assert_eq!(rt; chart.places(), 3);
    assert_eq!(rt; chart.start(), 0);
    assert_eq!(rt; chart.goal(), 2);
    assert_eq!(rt; chart.height(), 0);
    assert_eq!(rt; chart.link_numbers(), 3);
    assert_eq!(rt;
        chart.link(1),
        Some(Link {
            from: 1,
            to: 2,
            floor: lift(0, 1),
            price: lift(0, 3),
            held: 0,
        })
    );
    Ok(())
}

#[test]
fn the_links_of_a_place_come_in_rising_order(rt: HostRuntime) -> Result<(), Fail> {
    let mut places = [PLACE; 3];
    let mut links = [LINK; 3];
    let chart = three_places(&mut places, &mut links)?;
    assert_eq!(rt; chart.nth_link(End::To, 2, 0), Some(1));
    assert_eq!(rt; chart.nth_link(End::To, 2, 1), Some(2));
    assert_eq!(rt; chart.nth_link(End::To, 2, 2), None);
    assert_eq!(rt; chart.nth_link(End::From, 0, 0), Some(0));
    assert_eq!(rt; chart.nth_link(End::From, 0, 1), Some(2));
    assert_eq!(rt; chart.next_link(End::To, 2, 2), Some(2));
    assert_eq!(rt; chart.next_link(End::To, 2, 3), None);
    assert_eq!(rt; chart.next_link(End::From, 0, 1), Some(2));
    assert_eq!(rt; chart.next_link(End::From, 9, 0), None);
    Ok(())
}

#[test]
fn outside_its_tables_a_chart_answers_none(rt: HostRuntime) -> Result<(), Fail> {
    let mut places = [PLACE; 5];
    let mut links = [LINK; 4];
    let chart = three_places(&mut places, &mut links)?;
    assert_eq!(rt; chart.link(3), None);
    assert_eq!(rt; chart.link(65535), None);
    assert_eq!(rt; chart.estimate(3), None);
    assert_eq!(rt; chart.nth_link(End::To, 3, 0), None);
    assert_eq!(rt; chart.largest(2), None);
    Ok(())
}

#[test]
fn prices_are_set_or_refused(rt: HostRuntime) -> Result<(), Fail> {
    let mut places = [PLACE; 3];
    let mut links = [LINK; 3];
    let mut chart = three_places(&mut places, &mut links)?;
    assert_eq!(rt;
        chart.set_price(3, lift(0, 4)),
        Err(ChartFault::at_link(Cause::NoLink, 3))
    );
    assert_eq!(rt;
        chart.set_price(1, lift(0, 0)),
        Err(ChartFault::at_link(Cause::BadPrice, 1))
    );
    assert_eq!(rt;
        chart.set_price(1, lift(0, 1_000_001)),
        Err(ChartFault::at_link(Cause::BadPrice, 1))
    );
    assert_eq!(rt; chart.set_price(1, Lift::Closed), Ok(()));
    assert_eq!(rt; chart.link(1).map(|link| link.price), Some(Lift::Closed));
    assert_eq!(rt; chart.set_price(1, lift(0, 1)), Ok(()));
    Ok(())
}
