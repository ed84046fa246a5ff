// The lattice by tables: asked everything, priced, its sizes and its refusals.
use crate::lattices::layout;
use crate::prices::time;
use crate::table::{Table, WayRow, Whole, check_prices, check_table, free};
use chart::{Cause, Chart, ChartFault, End};
use lattice::{Lattice, Layout};
use price::Time;
use std::test::Fail;

pub const WAYS: [WayRow; 6] = [
    (End::To, 4, (1, Some(13)), (10, Some(13))),
    (End::From, 4, (1, Some(17)), (10, Some(16))),
    (End::To, 0, (1, Some(12)), (4, Some(7))),
    (End::From, 0, (1, Some(2)), (4, None)),
    (End::To, 9, (0, None), (0, None)),
    (End::From, 9, (0, None), (0, None)),
];

fn cells_table() -> Table {
    Table {
        whole: Whole {
            places: 9,
            start: 0,
            goal: 8,
            height: 0,
            link_numbers: 36,
        },
        links: [
            (0, None),
            (1, free(0, 1, 2, 2)),
            (16, free(4, 1, 2, 2)),
            (35, free(8, 7, 2, 2)),
            (36, None),
        ],
        ways: &WAYS,
        estimates: [(0, Some(8)), (4, Some(4)), (8, Some(0)), (9, None)],
        prices: [
            (1, Ok(())),
            (0, Err((Cause::NoLink, 0))),
            (36, Err((Cause::NoLink, 0))),
            (16, Ok(())),
        ],
        after: [(1, free(0, 1, 2, 3)), (17, free(4, 5, 2, 2))],
    }
}

#[test]
fn a_lattice_answers_by_its_layout(rt: HostRuntime) -> Result<(), Fail> {
    let mut prices = [7u32; 40];
    let mut bed = Lattice::over(&mut prices);
    assert_eq!(rt; [bed.places(), bed.link_numbers()], [1, 0]);
    bed.lay_out(layout(3, 3, 2, 0, 8))?;
    check_table(&rt, &mut bed, time(3), &cells_table());
    let bad = Err((Cause::BadPrice, 0));
    check_prices(&rt, &mut bed, time(1), &[(1, bad)]);
    check_prices(&rt, &mut bed, time(1_000_001), &[(1, bad)]);
    check_prices(&rt, &mut bed, Time::Closed, &[(1, Ok(()))]);
    Ok(())
}

// Layouts over 256 numbers, why each is refused, and how many places there are after it.
fn layouts() -> [(Layout, Result<(), Cause>, u16); 10] {
    [
        (layout(1, 1, 1, 0, 0), Ok(()), 1),
        (layout(1, 64, 1_000_000, 0, 63), Ok(()), 64),
        (layout(0, 1, 1, 0, 0), Err(Cause::OutsideLimits), 64),
        (layout(65, 1, 1, 0, 0), Err(Cause::OutsideLimits), 64),
        (layout(1, 1, 0, 0, 0), Err(Cause::OutsideLimits), 64),
        (layout(1, 1, 1_000_001, 0, 0), Err(Cause::OutsideLimits), 64),
        (layout(2, 2, 1, 4, 0), Err(Cause::OutsideLimits), 64),
        (layout(2, 2, 1, 0, 4), Err(Cause::OutsideLimits), 64),
        (layout(64, 64, 1, 0, 0), Err(Cause::ShortMemory), 64),
        (layout(64, 1, 1, 63, 0), Ok(()), 64),
    ]
}

#[test]
fn sizes_by_table(rt: HostRuntime) {
    let mut prices = [0u32; 256];
    let mut bed = Lattice::over(&mut prices);
    for (layout, answer, places) in layouts() {
        assert_eq!(rt; bed.lay_out(layout), answer.map_err(ChartFault::of_chart));
        assert_eq!(rt; bed.places(), places);
    }
    assert_eq!(rt; bed.estimate(63), Some(time(63)));
    assert_eq!(rt; bed.nth_link(End::To, 1, 1), Some(11));
}
