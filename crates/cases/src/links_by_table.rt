// The link chart by tables: asked everything and priced.
use crate::files::{LINK, PLACE};
use crate::links::three_places;
use crate::prices::lift;
use crate::table::{EstimateRow, Table, WayRow, Whole, check_prices, check_table, free};
use chart::{Cause, End};
use link_chart::LinkChart;
use price::Lift;
use std::test::Fail;

pub const WAYS: [WayRow; 6] = [
    (End::To, 2, (1, Some(2)), (2, Some(2))),
    (End::From, 2, (1, None), (2, None)),
    (End::To, 0, (1, None), (1, None)),
    (End::From, 0, (1, Some(2)), (1, Some(2))),
    (End::To, 3, (0, None), (0, None)),
    (End::From, 3, (0, None), (0, None)),
];

pub const ESTIMATES: [EstimateRow; 4] = [(0, Some(0)), (2, Some(0)), (3, None), (65535, None)];

fn three_places_table() -> Table {
    Table {
        whole: Whole {
            places: 3,
            start: 0,
            goal: 2,
            height: 0,
            link_numbers: 3,
        },
        links: [
            (0, free(0, 1, 1, 4)),
            (1, free(1, 2, 1, 3)),
            (2, free(0, 2, 1, 9)),
            (3, None),
            (65535, None),
        ],
        ways: &WAYS,
        estimates: ESTIMATES,
        prices: [
            (0, Ok(())),
            (1, Ok(())),
            (3, Err((Cause::NoLink, 0))),
            (65535, Err((Cause::NoLink, 0))),
        ],
        after: [(0, free(0, 1, 1, 3)), (2, free(0, 2, 1, 9))],
    }
}

const ONE_PLACE: Table = Table {
    whole: Whole {
        places: 1,
        start: 0,
        goal: 0,
        height: 0,
        link_numbers: 0,
    },
    links: [(0, None); 5],
    ways: &[
        (End::To, 0, (0, None), (0, None)),
        (End::From, 0, (0, None), (0, None)),
    ],
    estimates: [(0, Some(0)), (1, None), (4, None), (65535, None)],
    prices: [(0, Err((Cause::NoLink, 0))); 4],
    after: [(0, None); 2],
};

#[test]
fn no_file_by_table(rt: HostRuntime) {
    let mut places = [PLACE; 5];
    let mut links = [LINK; 4];
    let mut chart = LinkChart::over(&mut places, &mut links);
    check_table(&rt, &mut chart, lift(0, 3), &ONE_PLACE);
}

#[test]
fn a_file_by_table(rt: HostRuntime) -> Result<(), Fail> {
    let mut places = [PLACE; 5];
    let mut links = [LINK; 4];
    let mut chart = three_places(&mut places, &mut links)?;
    check_table(&rt, &mut chart, lift(0, 3), &three_places_table());
    Ok(())
}

#[test]
fn prices_by_table(rt: HostRuntime) -> Result<(), Fail> {
    let mut places = [PLACE; 3];
    let mut links = [LINK; 3];
    let mut chart = three_places(&mut places, &mut links)?;
    let bad = Err((Cause::BadPrice, 0));
    check_prices(&rt, &mut chart, lift(0, 0), &[(1, bad)]);
    check_prices(&rt, &mut chart, lift(0, 1_000_001), &[(1, bad)]);
    check_prices(&rt, &mut chart, Lift::Closed, &[(1, Ok(()))]);
    check_prices(&rt, &mut chart, lift(0, 1), &[(1, Ok(()))]);
    Ok(())
}
