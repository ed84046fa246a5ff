use crate::fill::{key, memory, price};
use bench::{Bench, MOST_PLACES};
use price::{Lift, PriceKind, Time};
use std::alloc::Global;
use std::process::Abort;
use std::test::Fail;

// The number of the key under which a place is queued at last: every third place is given another, with many ties.
fn key_number(place: u16) -> u64 {
    if place % 3 == 0 {
        u64::from(place % 17)
    } else {
        u64::from(place % 29)
    }
}

// The n-th place in a mixed order.
fn scattered(n: u16, count: u16) -> u16 {
    n.wrapping_mul(5).checked_rem(count).unwrap_or(0)
}

fn queue_all<P: PriceKind>(rt: &impl Abort, bench: &mut Bench<P>, count: u16) {
    for place in (0..count).map(|n| scattered(n, count)) {
        assert!(rt; bench.enqueue(place, key(u64::from(place % 29))));
        assert!(rt; bench.is_queued(place));
    }
}

fn rekey_thirds<P: PriceKind>(rt: &impl Abort, bench: &mut Bench<P>, count: u16) {
    for place in (0..count)
        .map(|n| scattered(n, count))
        .filter(|place| place % 3 == 0)
    {
        assert!(rt; bench.enqueue(place, key(key_number(place))));
    }
}

fn remove_fifths<P: PriceKind>(rt: &impl Abort, bench: &mut Bench<P>, count: u16) {
    for place in (0..count)
        .map(|n| scattered(n, count))
        .filter(|place| place % 5 == 0)
    {
        assert!(rt; bench.dequeue(place));
        assert!(rt; !bench.dequeue(place));
        assert!(rt; !bench.is_queued(place));
    }
}

// Takes out what is left, by the top: keys rise, and of equal keys the numbers. Answers how many there were.
fn drain<P: PriceKind>(rt: &impl Abort, bench: &mut Bench<P>, count: u16) -> Result<usize, Fail> {
    let mut last: Option<(u64, u16)> = None;
    for taken in 0..count {
        let Some(place) = bench.top() else {
            return Ok(usize::from(taken));
        };
        assert!(rt; place % 5 != 0);
        if let Some((number, before)) = last {
            assert!(rt; number <= key_number(place));
            assert!(rt; number < key_number(place) || before < place);
        }
        last = Some((key_number(place), place));
        assert!(rt; bench.dequeue(place));
    }
    Ok(usize::from(count))
}

fn come_out_in_order<P: PriceKind>(rt: &impl Abort, heap: Global, count: u16) -> Result<(), Fail> {
    let mut records = memory::<P>(heap, count)?;
    let mut bench = Bench::lay(&mut records, 7);
    assert!(rt; bench.top().is_none());
    queue_all(rt, &mut bench, count);
    rekey_thirds(rt, &mut bench, count);
    remove_fifths(rt, &mut bench, count);
    let fifths = usize::from(count).div_ceil(5);
    assert_eq!(rt; drain(rt, &mut bench, count)?, usize::from(count) - fifths);
    assert!(rt; bench.top().is_none());
    assert_eq!(rt; bench.len(), usize::from(count));
    Ok(())
}

#[test]
fn no_places(rt: HostRuntime) -> Result<(), Fail> {
    come_out_in_order::<Time>(&rt, rt.alloc(), 0)?;
    come_out_in_order::<Lift>(&rt, rt.alloc(), 0)
}

#[test]
fn one_place(rt: HostRuntime) -> Result<(), Fail> {
    come_out_in_order::<Time>(&rt, rt.alloc(), 1)?;
    come_out_in_order::<Lift>(&rt, rt.alloc(), 1)
}

#[test]
fn some_hundred_places_by_time(rt: HostRuntime) -> Result<(), Fail> {
    come_out_in_order::<Time>(&rt, rt.alloc(), 303)
}

#[test]
fn some_hundred_places_by_lifts(rt: HostRuntime) -> Result<(), Fail> {
    come_out_in_order::<Lift>(&rt, rt.alloc(), 303)
}

#[test]
fn as_many_places_as_a_chart_may_have(rt: HostRuntime) -> Result<(), Fail> {
    come_out_in_order::<Time>(&rt, rt.alloc(), MOST_PLACES)?;
    come_out_in_order::<Lift>(&rt, rt.alloc(), MOST_PLACES)
}

// A place past the memory is refused by every call.
fn refuses_the_place_past_the_last<P: PriceKind>(
    rt: &impl Abort,
    heap: Global,
    count: u16,
) -> Result<(), Fail> {
    let mut records = memory::<P>(heap, count)?;
    let mut bench = Bench::lay(&mut records, 90_210);
    assert_eq!(rt; bench.number(), 90_210);
    assert_eq!(rt; bench.len(), usize::from(count));
    assert!(rt; bench.standing(count).is_none());
    assert!(rt; bench.lookahead(count).is_none());
    assert!(rt; bench.key(count).is_none());
    assert!(rt; !bench.put_standing(count, price(1)));
    assert!(rt; !bench.put_lookahead(count, price(1)));
    assert!(rt; !bench.is_queued(count));
    assert!(rt; !bench.enqueue(count, key(1)));
    assert!(rt; !bench.dequeue(count));
    assert!(rt; bench.top().is_none());
    Ok(())
}

// What is set can be asked for, at that place and no other, and stays in the memory when the bench is gone.
fn keeps_what_is_set<P: PriceKind>(rt: &impl Abort, heap: Global) -> Result<(), Fail> {
    let mut records = memory::<P>(heap, 40)?;
    {
        let mut bench = Bench::lay(&mut records, 1);
        assert!(rt; bench.standing(7) == Some(price(7)));
        assert!(rt; bench.key(7) == Some(key(3)));
        assert!(rt; key::<P>(40).below(key(50)) && !key::<P>(50).below(key(50)));
        assert!(rt; bench.put_standing(7, price(123)));
        assert!(rt; bench.put_lookahead(7, price(99)));
        assert!(rt; bench.enqueue(7, key(50)));
        assert!(rt; bench.enqueue(8, key(40)));
        assert_eq!(rt; bench.top(), Some(8));
        assert!(rt; bench.enqueue(8, key(50)));
        assert_eq!(rt; bench.top(), Some(7));
        assert!(rt; bench.standing(7) == Some(price(123)) && bench.standing(6) == Some(price(6)));
        assert!(rt; bench.lookahead(7) == Some(price(99)) && bench.lookahead(6) != Some(price(99)));
        assert!(rt; bench.key(7) == Some(key(50)) && bench.key(6) == Some(key(3)));
        bench.clear();
        assert!(rt; bench.top().is_none() && !bench.is_queued(7) && bench.key(7) == Some(key(50)));
    }
    assert!(rt; records.get(7).map(|record| record.standing) == Some(price(123)));
    Ok(())
}

#[test]
fn places_outside_are_refused(rt: HostRuntime) -> Result<(), Fail> {
    refuses_the_place_past_the_last::<Time>(&rt, rt.alloc(), 0)?;
    refuses_the_place_past_the_last::<Lift>(&rt, rt.alloc(), 1)?;
    refuses_the_place_past_the_last::<Time>(&rt, rt.alloc(), MOST_PLACES)
}

#[test]
fn a_place_that_no_chart_has_is_not_queued(rt: HostRuntime) -> Result<(), Fail> {
    let mut records = memory::<Lift>(rt.alloc(), 5_000)?;
    let mut bench = Bench::lay(&mut records, 1);
    assert!(rt; bench.put_standing(4_500, price(1)));
    assert!(rt; !bench.enqueue(4_500, key(1)));
    assert!(rt; !bench.enqueue(MOST_PLACES, key(1)));
    assert!(rt; bench.enqueue(MOST_PLACES - 1, key(1)));
    assert_eq!(rt; bench.top(), Some(MOST_PLACES - 1));
    Ok(())
}

#[test]
fn what_is_set_is_kept(rt: HostRuntime) -> Result<(), Fail> {
    keeps_what_is_set::<Time>(&rt, rt.alloc())?;
    keeps_what_is_set::<Lift>(&rt, rt.alloc())
}
