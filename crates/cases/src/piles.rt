// Layers piled over both bottoms. A pile is made and asked in a function over any chart, which the tests then call.
use crate::files::{LINK, PLACE};
use crate::lattices::three_by_three;
use crate::links::three_places;
use crate::prices::{lift, time};
use crate::table::{free, held, link_in_ms};
use chart::{Cause, Chart, ChartFault, End};
use layers::{Guard, Return};
use std::process::Abort;
use std::test::Fail;

// The guard at a height holds the link closed.
fn held_at(height: u8, link: u16) -> ChartFault {
    ChartFault {
        height,
        ..ChartFault::at_link(Cause::Held, link)
    }
}

// A guard over the chart of three places.
fn guarded<C: Chart + Drop>(rt: &impl Abort, chart: C, price: C::Price) {
    let mut guard = Guard::over(chart);
    assert_eq!(rt; link_in_ms(&guard, 1), free(1, 2, 1, 3));
    assert_eq!(rt; guard.list(2), Ok(()));
    assert_eq!(rt; guard.list(2), Ok(()));
    assert_eq!(rt;
        guard.list(9),
        Err(ChartFault {
            height: 1,
            ..ChartFault::of_chart(Cause::OutsideLimits)
        })
    );
    assert_eq!(rt; guard.height(), 1);
    assert_eq!(rt; link_in_ms(&guard, 1), held(1, 2, 1, 1));
    assert_eq!(rt; guard.set_price(1, price), Err(held_at(1, 1)));
    assert_eq!(rt;
        guard.set_price(9, price),
        Err(ChartFault::at_link(Cause::NoLink, 9))
    );
    assert_eq!(rt; guard.set_price(0, price), Ok(()));
}

// A return over the chart of three places.
fn returned<C: Chart + Drop>(rt: &impl Abort, chart: C) {
    let back = Return::over(chart);
    assert_eq!(rt; back.start(), 2);
    assert_eq!(rt; back.goal(), 0);
    assert_eq!(rt; back.height(), 1);
    assert_eq!(rt; link_in_ms(&back, 1), free(2, 1, 1, 3));
    assert_eq!(rt; back.nth_link(End::From, 2, 1), Some(2));
    assert_eq!(rt; back.next_link(End::To, 0, 1), Some(2));
    assert!(rt; back.estimate(2).is_some());
    assert!(rt; back.estimate(3).is_none());
}

// Return over guard over return over guard: a link that both guards hold bears the upper one's height.
fn piled<C: Chart + Drop>(rt: &impl Abort, chart: C, price: C::Price) {
    let mut lower = Guard::over(chart);
    assert_eq!(rt; lower.list(2), Ok(()));
    let mut upper = Guard::over(Return::over(lower));
    assert_eq!(rt; upper.list(1), Ok(()));
    let mut pile = Return::over(upper);
    assert_eq!(rt; pile.height(), 4);
    assert_eq!(rt; pile.start(), 0);
    assert_eq!(rt; link_in_ms(&pile, 1), held(1, 2, 1, 3));
    assert_eq!(rt; link_in_ms(&pile, 2), held(0, 2, 1, 1));
    assert_eq!(rt; pile.set_price(1, price), Err(held_at(3, 1)));
    assert_eq!(rt; pile.set_price(2, price), Err(held_at(1, 2)));
    assert_eq!(rt;
        pile.set_price(9, price),
        Err(ChartFault::at_link(Cause::NoLink, 9))
    );
}

// The cells of a 3 by 3 lattice round the middle one, which is guarded in the return of it.
fn over_cells<C: Chart + Drop>(rt: &impl Abort, chart: C, price: C::Price) {
    let mut guard = Guard::over(Return::over(chart));
    assert_eq!(rt; guard.list(4), Ok(()));
    let mut pile = Return::over(guard);
    assert_eq!(rt; pile.height(), 3);
    assert_eq!(rt; pile.goal(), 8);
    assert_eq!(rt; link_in_ms(&pile, 1), free(0, 1, 2, 2));
    assert_eq!(rt; link_in_ms(&pile, 16), held(4, 1, 2, 2));
    assert_eq!(rt; pile.set_price(16, price), Err(held_at(2, 16)));
    assert_eq!(rt; pile.set_price(1, price), Ok(()));
    assert_eq!(rt;
        pile.set_price(0, price),
        Err(ChartFault::at_link(Cause::NoLink, 0))
    );
}

#[test]
fn layers_over_a_link_chart(rt: HostRuntime) -> Result<(), Fail> {
    let mut places = [PLACE; 3];
    let mut links = [LINK; 3];
    let chart = three_places(&mut places, &mut links)?;
    piled(&rt, chart, lift(0, 3));
    Ok(())
}

#[test]
fn a_guard_over_a_link_chart(rt: HostRuntime) -> Result<(), Fail> {
    let mut places = [PLACE; 3];
    let mut links = [LINK; 3];
    let chart = three_places(&mut places, &mut links)?;
    guarded(&rt, chart, lift(0, 3));
    Ok(())
}

#[test]
fn a_return_over_a_link_chart(rt: HostRuntime) -> Result<(), Fail> {
    let mut places = [PLACE; 3];
    let mut links = [LINK; 3];
    let chart = three_places(&mut places, &mut links)?;
    returned(&rt, chart);
    Ok(())
}

#[test]
fn layers_over_a_lattice(rt: HostRuntime) -> Result<(), Fail> {
    let mut prices = [0u32; 36];
    let bed = three_by_three(&mut prices)?;
    over_cells(&rt, bed, time(3));
    Ok(())
}
