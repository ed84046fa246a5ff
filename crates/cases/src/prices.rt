// Prices at their edges: the ceiling, the largest numbers of a link, closed.
use price::{Lift, PriceKind, Time};
use std::fmt::Debug;
use std::process::Abort;

const LAST: u64 = (1 << 40) - 1;

pub fn time(ms: u64) -> Time {
    Time::from_numbers(&[ms]).unwrap_or(Time::Closed)
}

pub fn lift(lifts: u64, ms: u64) -> Lift {
    Lift::from_numbers(&[lifts, ms]).unwrap_or(Lift::Closed)
}

#[test]
fn numbers_stay_below_the_ceiling(rt: HostRuntime) {
    assert!(rt; Time::from_numbers(&[LAST]).is_some());
    assert!(rt; Time::from_numbers(&[LAST + 1]).is_none());
    assert!(rt; Time::from_numbers(&[]).is_none());
    assert!(rt; Time::from_numbers(&[1, 2]).is_none());
    assert!(rt; Lift::from_numbers(&[LAST, LAST]).is_some());
    assert!(rt; Lift::from_numbers(&[LAST + 1, 0]).is_none());
    assert!(rt; Lift::from_numbers(&[0, LAST + 1]).is_none());
    assert!(rt; Lift::from_numbers(&[0]).is_none());
}

// The sums of pairs of prices, either way round.
fn check_sums<P: PriceKind + Debug>(rt: &impl Abort, rows: &[(P, P, P)]) {
    for &(one, other, sum) in rows {
        assert_eq!(rt; one.plus(other), sum);
        assert_eq!(rt; other.plus(one), sum);
    }
}

#[test]
fn a_sum_that_reaches_the_ceiling_is_closed(rt: HostRuntime) {
    check_sums(
        &rt,
        &[
            (time(LAST - 1), time(1), time(LAST)),
            (time(LAST), time(1), Time::Closed),
            (time(LAST), time(LAST), Time::Closed),
            (time(7), Time::Closed, Time::Closed),
            (Time::Closed, time(0), Time::Closed),
        ],
    );
    check_sums(
        &rt,
        &[
            (lift(1, LAST), lift(1, 1), Lift::Closed),
            (lift(LAST, 1), lift(1, 1), Lift::Closed),
            (lift(1, 2), lift(3, 4), lift(4, 6)),
        ],
    );
}

// Is the first price of each pair the smaller one? The derived order says the same.
fn check_order<P: PriceKind>(rt: &impl Abort, rows: &[(P, P, bool)]) {
    for &(one, other, below) in rows {
        assert_eq!(rt; one.below(other), below);
        assert_eq!(rt; one < other, below);
    }
}

#[test]
fn the_first_difference_decides(rt: HostRuntime) {
    check_order(
        &rt,
        &[
            (time(3), time(4), true),
            (time(4), time(4), false),
            (time(LAST), Time::Closed, true),
            (Time::Closed, Time::Closed, false),
        ],
    );
    check_order(
        &rt,
        &[
            (lift(0, 9), lift(1, 0), true),
            (lift(1, 0), lift(0, 9), false),
            (lift(1, 0), lift(1, 1), true),
            (Lift::Closed, lift(0, 0), false),
        ],
    );
}

// May a link have each of these prices?
fn check_fits<P: PriceKind>(rt: &impl Abort, rows: &[(P, bool)]) {
    for &(price, fits) in rows {
        assert_eq!(rt; price.fits_link(), fits);
    }
}

#[test]
fn a_link_keeps_the_largest_numbers(rt: HostRuntime) {
    check_fits(
        &rt,
        &[
            (time(1_000_000), true),
            (time(1_000_001), false),
            (Time::Closed, true),
        ],
    );
    check_fits(
        &rt,
        &[
            (lift(255, 1_000_000), true),
            (lift(256, 0), false),
            (lift(0, 1_000_001), false),
            (Lift::Closed, true),
        ],
    );
}

#[test]
fn a_price_reads_back(rt: HostRuntime) {
    assert_eq!(rt; time(5).number(0), Some(5));
    assert_eq!(rt; time(5).number(1), None);
    assert_eq!(rt; Time::Closed.number(0), None);
    assert_eq!(rt; lift(2, 5).number(0), Some(2));
    assert_eq!(rt; lift(2, 5).number(1), Some(5));
    assert_eq!(rt; lift(2, 5).number(2), None);
    assert_eq!(rt; Lift::zero(), lift(0, 0));
    assert_eq!(rt; Lift::largest(0), Some(255));
    assert_eq!(rt; Time::largest(1), None);
}
