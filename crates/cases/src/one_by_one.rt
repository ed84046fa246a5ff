// The links of a place one by one, by a `for` and by iterator methods, over piles of layers.
use crate::files::{LINK, PLACE};
use crate::lattices::three_by_three;
use crate::links::three_places;
use chart::{Chart, End, LinksAt};
use layers::{Guard, Return};
use std::alloc::Global;
use std::process::Abort;
use std::test::Fail;

// The way back over a guard that lists one place. Its links lead the other way, also those that the guard holds.
fn way_back<C: Chart + Drop>(chart: C, listed: u16) -> Result<Return<Guard<C>>, Fail> {
    let mut guard = Guard::over(chart);
    guard.list(listed)?;
    Ok(Return::over(guard))
}

// The links with an end at a place have these numbers.
fn check_numbers<C: Chart>(
    rt: &impl Abort,
    heap: Global,
    pile: &C,
    (end, place): (End, u16),
    expected: &[u16],
) -> Result<(), Fail> {
    assert_eq!(rt; LinksAt::new(pile, end, place).count(), expected.len());
    let numbers = LinksAt::new(pile, end, place).collect::<Vec<u16>>(heap)?;
    assert_eq!(rt; numbers.as_slice(), expected);
    Ok(())
}

// The links out of a place lead to these places.
fn check_neighbours<C: Chart>(
    rt: &impl Abort,
    heap: Global,
    pile: &C,
    place: u16,
    expected: &[u16],
) -> Result<(), Fail> {
    let mut neighbours = Vec::new(heap);
    for number in LinksAt::new(pile, End::From, place) {
        let link = pile.link(number).ok_or("a number names a link")?;
        assert_eq!(rt; link.from, place);
        neighbours.push(link.to)?;
    }
    assert_eq!(rt; neighbours.as_slice(), expected);
    Ok(())
}

// The file draws links 0 to 1, 1 to 2 and 0 to 2.
#[test]
fn the_links_of_a_place_on_the_way_back(rt: HostRuntime) -> Result<(), Fail> {
    let heap = rt.alloc();
    let mut places = [PLACE; 3];
    let mut links = [LINK; 3];
    let pile = way_back(three_places(&mut places, &mut links)?, 1)?;
    check_numbers(&rt, heap, &pile, (End::From, 2), &[1, 2])?;
    check_numbers(&rt, heap, &pile, (End::From, 0), &[])?;
    check_numbers(&rt, heap, &pile, (End::To, 0), &[0, 2])?;
    check_numbers(&rt, heap, &pile, (End::To, 3), &[])?;
    check_neighbours(&rt, heap, &pile, 2, &[1, 0])?;
    check_neighbours(&rt, heap, &pile, 1, &[0])?;
    check_neighbours(&rt, heap, &pile, 0, &[])
}

// The links of cell n of the lattice are 4n up, 4n + 1 right, 4n + 2 down and 4n + 3 left. On the way back those from the
// cells above, left, right and below lead out of the middle cell.
#[test]
fn the_links_of_a_cell_on_the_way_back(rt: HostRuntime) -> Result<(), Fail> {
    let heap = rt.alloc();
    let mut prices = [0u32; 36];
    let pile = way_back(three_by_three(&mut prices)?, 4)?;
    check_numbers(&rt, heap, &pile, (End::From, 4), &[6, 13, 23, 28])?;
    check_numbers(&rt, heap, &pile, (End::To, 4), &[16, 17, 18, 19])?;
    check_numbers(&rt, heap, &pile, (End::To, 0), &[1, 2])?;
    check_neighbours(&rt, heap, &pile, 4, &[1, 3, 5, 7])?;
    check_neighbours(&rt, heap, &pile, 0, &[1, 3])
}
