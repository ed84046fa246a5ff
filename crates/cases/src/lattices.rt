// The lattice: its sizes and its refusals.
use crate::prices::time;
use chart::{Cause, Chart, ChartFault, End};
use lattice::{Lattice, Layout};
use price::Time;
use std::test::Fail;

pub fn layout(width: u16, height: u16, least: u32, start: u16, goal: u16) -> Layout {
    Layout {
        width,
        height,
        least,
        start,
        goal,
    }
}

// Three by three cells from a corner to the one opposite, at 2 ms a step, over lent prices.
pub fn three_by_three<'a>(prices: &'a mut [u32]) -> Result<Lattice<'a>, ChartFault> {
    let mut bed = Lattice::over(prices);
    bed.lay_out(layout(3, 3, 2, 0, 8))?;
    Ok(bed)
}

#[test]
fn two_cells_side_by_side(rt: HostRuntime) -> Result<(), Fail> {
    let mut prices = [7u32; 9];
    let mut bed = Lattice::over(&mut prices);
    assert_eq!(rt; bed.places(), 1);
    bed.lay_out(layout(2, 1, 5, 0, 1))?;
    assert_eq!(rt; bed.places(), 2);
    assert_eq!(rt; bed.link_numbers(), 8);
    assert_eq!(rt; bed.estimate(0), Some(time(5)));
    assert_eq!(rt; bed.estimate(2), None);
    assert_eq!(rt; bed.next_link(End::From, 0, 0), Some(1));
    assert_eq!(rt; bed.next_link(End::To, 0, 0), Some(7));
    assert_eq!(rt; bed.nth_link(End::From, 0, 1), None);
    assert_eq!(rt;
        bed.set_price(1, time(4)),
        Err(ChartFault::at_link(Cause::BadPrice, 1))
    );
    assert_eq!(rt;
        bed.set_price(0, time(5)),
        Err(ChartFault::at_link(Cause::NoLink, 0))
    );
    assert_eq!(rt; bed.set_price(1, Time::Closed), Ok(()));
    assert_eq!(rt; bed.link(8), None);
    Ok(())
}

#[test]
fn sizes_are_one_to_sixty_four(rt: HostRuntime) {
    let mut prices = [0u32; 256];
    let mut bed = Lattice::over(&mut prices);
    assert_eq!(rt; bed.lay_out(layout(1, 1, 1, 0, 0)), Ok(()));
    assert_eq!(rt; bed.lay_out(layout(1, 64, 1_000_000, 0, 63)), Ok(()));
    assert_eq!(rt; bed.estimate(0), Some(time(63_000_000)));
    assert_eq!(rt; bed.lay_out(layout(64, 1, 1, 63, 0)), Ok(()));
    assert_eq!(rt; bed.nth_link(End::To, 1, 1), Some(11));
    for outside in [
        layout(0, 1, 1, 0, 0),
        layout(65, 1, 1, 0, 0),
        layout(1, 1, 0, 0, 0),
        layout(1, 1, 1_000_001, 0, 0),
        layout(2, 2, 1, 4, 0),
    ] {
        assert_eq!(rt;
            bed.lay_out(outside),
            Err(ChartFault::of_chart(Cause::OutsideLimits))
        );
    }
    assert_eq!(rt;
        bed.lay_out(layout(64, 64, 1, 0, 0)),
        Err(ChartFault::of_chart(Cause::ShortMemory))
    );
    assert_eq!(rt; bed.places(), 64);
}

#[test]
fn the_largest_lattice(rt: HostRuntime) -> Result<(), Fail> {
    let mut prices = vec![in rt.alloc(); 0u32; 16384]?;
    let mut bed = Lattice::over(&mut prices);
    bed.lay_out(layout(64, 64, 10, 0, 4095))?;
    assert_eq!(rt; bed.places(), 4096);
    assert_eq!(rt; bed.link_numbers(), 16384);
    assert_eq!(rt; bed.estimate(0), Some(time(1260)));
    assert_eq!(rt; bed.nth_link(End::From, 65, 3), Some(263));
    assert_eq!(rt; bed.nth_link(End::To, 65, 0), Some(6));
    Ok(())
}
