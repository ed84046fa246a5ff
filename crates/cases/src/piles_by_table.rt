// Layers piled over both bottoms, by tables. A pile is made and asked in a function over any chart, which the tests then call.
use crate::files::{LINK, PLACE};
use crate::lattices::{layout, three_by_three};
use crate::links::three_places;
use crate::prices::{lift, time};
use crate::table::{EstimateRow, Table, Whole, check_table, free, held};
use crate::{lattices_by_table, links_by_table};
use chart::{Cause, Chart, ChartFault};
use lattice::Lattice;
use layers::{Guard, Return};
use std::process::Abort;
use std::test::Fail;

// Return over guard over return: the guard lists one place.
fn three<C: Chart + Drop>(
    rt: &impl Abort,
    chart: C,
    place: u16,
    price: C::Price,
    table: &Table,
) -> Result<(), Fail> {
    let mut guard = Guard::over(Return::over(chart));
    guard.list(place)?;
    let mut pile = Return::over(guard);
    check_table(rt, &mut pile, price, table);
    Ok(())
}

// The same over one more guard: a link that both guards hold bears the upper one's height.
fn four<C: Chart + Drop>(
    rt: &impl Abort,
    chart: C,
    places: [u16; 2],
    price: C::Price,
    table: &Table,
) -> Result<(), Fail> {
    let mut lower = Guard::over(chart);
    lower.list(places[0])?;
    three(rt, lower, places[1], price, table)
}

fn links_three() -> Table {
    Table {
        whole: Whole {
            places: 3,
            start: 0,
            goal: 2,
            height: 3,
            link_numbers: 3,
        },
        links: [
            (0, held(0, 1, 1, 2)),
            (1, held(1, 2, 1, 2)),
            (2, free(0, 2, 1, 9)),
            (3, None),
            (65535, None),
        ],
        ways: &links_by_table::WAYS,
        estimates: links_by_table::ESTIMATES,
        prices: [
            (0, Err((Cause::Held, 2))),
            (1, Err((Cause::Held, 2))),
            (2, Ok(())),
            (3, Err((Cause::NoLink, 0))),
        ],
        after: [(0, held(0, 1, 1, 2)), (2, free(0, 2, 1, 3))],
    }
}

fn links_four() -> Table {
    Table {
        whole: Whole {
            places: 3,
            start: 0,
            goal: 2,
            height: 4,
            link_numbers: 3,
        },
        links: [
            (0, held(0, 1, 1, 3)),
            (1, held(1, 2, 1, 3)),
            (2, held(0, 2, 1, 1)),
            (3, None),
            (65535, None),
        ],
        ways: &links_by_table::WAYS,
        estimates: links_by_table::ESTIMATES,
        prices: [
            (0, Err((Cause::Held, 3))),
            (1, Err((Cause::Held, 3))),
            (2, Err((Cause::Held, 1))),
            (3, Err((Cause::NoLink, 0))),
        ],
        after: [(0, held(0, 1, 1, 3)), (2, held(0, 2, 1, 1))],
    }
}

// A return has no estimate but zero.
const ZEROS: [EstimateRow; 4] = [(0, Some(0)), (4, Some(0)), (8, Some(0)), (9, None)];

fn cells_three() -> Table {
    Table {
        whole: Whole {
            places: 9,
            start: 0,
            goal: 8,
            height: 3,
            link_numbers: 36,
        },
        links: [
            (0, None),
            (1, free(0, 1, 2, 2)),
            (16, held(4, 1, 2, 2)),
            (35, free(8, 7, 2, 2)),
            (36, None),
        ],
        ways: &lattices_by_table::WAYS,
        estimates: ZEROS,
        prices: [
            (1, Ok(())),
            (0, Err((Cause::NoLink, 0))),
            (36, Err((Cause::NoLink, 0))),
            (16, Err((Cause::Held, 2))),
        ],
        after: [(1, free(0, 1, 2, 3)), (17, held(4, 5, 2, 2))],
    }
}

fn cells_four() -> Table {
    Table {
        whole: Whole {
            places: 9,
            start: 0,
            goal: 8,
            height: 4,
            link_numbers: 36,
        },
        links: [
            (0, None),
            (1, free(0, 1, 2, 2)),
            (16, held(4, 1, 2, 3)),
            (35, held(8, 7, 2, 1)),
            (36, None),
        ],
        ways: &lattices_by_table::WAYS,
        estimates: ZEROS,
        prices: [
            (1, Ok(())),
            (0, Err((Cause::NoLink, 0))),
            (35, Err((Cause::Held, 1))),
            (16, Err((Cause::Held, 3))),
        ],
        after: [(1, free(0, 1, 2, 3)), (17, held(4, 5, 2, 3))],
    }
}

#[test]
fn three_layers_over_a_link_chart(rt: HostRuntime) -> Result<(), Fail> {
    let mut places = [PLACE; 3];
    let mut links = [LINK; 3];
    let chart = three_places(&mut places, &mut links)?;
    three(&rt, chart, 1, lift(0, 3), &links_three())
}

#[test]
fn four_layers_over_a_link_chart(rt: HostRuntime) -> Result<(), Fail> {
    let mut places = [PLACE; 3];
    let mut links = [LINK; 3];
    let chart = three_places(&mut places, &mut links)?;
    four(&rt, chart, [2, 1], lift(0, 3), &links_four())
}

#[test]
fn three_layers_over_a_lattice(rt: HostRuntime) -> Result<(), Fail> {
    let mut prices = [0u32; 36];
    let bed = three_by_three(&mut prices)?;
    three(&rt, bed, 4, time(3), &cells_three())
}

#[test]
fn four_layers_over_a_lattice(rt: HostRuntime) -> Result<(), Fail> {
    let mut prices = [0u32; 36];
    let bed = three_by_three(&mut prices)?;
    four(&rt, bed, [8, 4], time(3), &cells_four())
}

// A refusal of the lowest guard to list a place.
fn unlisted(cause: Cause) -> ChartFault {
    ChartFault {
        height: 1,
        ..ChartFault::of_chart(cause)
    }
}

// A guard lists 64 places, each as often as one likes, and none outside the chart.
fn filled<C: Chart + Drop>(rt: &impl Abort, chart: C) -> Result<(), Fail> {
    let mut guard = Guard::over(chart);
    for place in 0..64 {
        guard.list(place)?;
    }
    assert_eq!(rt; guard.list(63), Ok(()));
    assert_eq!(rt; guard.list(0), Ok(()));
    assert_eq!(rt; guard.list(64), Err(unlisted(Cause::GuardFull)));
    assert_eq!(rt; guard.list(100), Err(unlisted(Cause::OutsideLimits)));
    Ok(())
}

#[test]
fn a_guard_lists_sixty_four_places(rt: HostRuntime) -> Result<(), Fail> {
    let mut prices = [0u32; 400];
    let mut bed = Lattice::over(&mut prices);
    bed.lay_out(layout(10, 10, 1, 0, 99))?;
    filled(&rt, bed)
}
