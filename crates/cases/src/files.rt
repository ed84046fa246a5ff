// Damaged chart files: each refusal, and which of two comes first.
use chart::{Cause, ChartFault};
use chart_file::{LinkRecord, PlaceRecord, Trailer, read_chart};
use std::process::Abort;
use std::test::Fail;

// Three places, two remark bytes before them: links 0 to 1, 1 to 2 and 0 to 2, as charts/three-places.txt has them.
pub const CHART: [u8; 90] = [
    b'h', b'i', 0, 0, 0, 0, 0, 0, 0, 0, 0, 0, 0, 0, 0, 0, 0, 0, 0, 0, 0, 0, 0, 0, 0, 0, 0, 0, 1, 0,
    0, 0, 0, 0, 1, 0, 0, 0, 4, 0, 0, 0, 1, 0, 2, 0, 0, 0, 0, 0, 1, 0, 0, 0, 3, 0, 0, 0, 0, 0, 2, 0,
    0, 0, 0, 0, 1, 0, 0, 0, 9, 0, 0, 0, 0, 0, 2, 0, 3, 0, 3, 0, 88, 0, 0, 0, b'L', b'A', b'S',
    b'T',
];

// Where the parts of the chart begin.
const PLACE_0_MS: usize = 6;

const PLACE_1_MS: usize = 14;

const GOAL_LIFTS: usize = 18;

const LINK_0: usize = 26;

const LINK_1: usize = 42;

const LINK_2: usize = 58;

const START: usize = 74;

const GOAL: usize = 76;

const PLACES: usize = 78;

const LINKS: usize = 80;

const BACK: usize = 82;

const LETTERS: usize = 86;

// Bytes to write over the chart, and the cause that it is then refused by and the link or place that is named, if any.
type Damage = (&'static [(usize, u8)], Cause, Option<u16>);

const DAMAGES: [Damage; 27] = [
    // 1
    (&[(LETTERS, b'l')], Cause::NotAChart, None),
    (&[(LETTERS + 3, 0), (PLACES, 0)], Cause::NotAChart, None),
    // 2
    (&[(PLACES, 0)], Cause::OutsideLimits, None),
    (&[(PLACES, 1), (PLACES + 1, 16)], Cause::OutsideLimits, None),
    (&[(LINKS, 1), (LINKS + 1, 64)], Cause::OutsideLimits, None),
    (&[(START, 3)], Cause::OutsideLimits, None),
    (&[(GOAL, 3)], Cause::OutsideLimits, None),
    (&[(BACK, 89)], Cause::OutsideLimits, None),
    (&[(PLACES, 4), (BACK, 96)], Cause::OutsideLimits, None),
    (&[(START, 3), (LINK_0, 9)], Cause::OutsideLimits, None),
    // 4: ends
    (&[(LINK_1, 3)], Cause::BadLink, Some(1)),
    (&[(LINK_1 + 2, 3)], Cause::BadLink, Some(1)),
    (&[(LINK_1, 2)], Cause::BadLink, Some(1)),
    (&[(LINK_2 + 1, 1)], Cause::BadLink, Some(2)),
    // 4: floor and price
    (&[(LINK_0 + 8, 0)], Cause::BadLink, Some(0)),
    (&[(LINK_0 + 5, 1), (LINK_0 + 7, 1)], Cause::BadLink, Some(0)),
    (&[(LINK_0 + 7, 1)], Cause::BadLink, Some(0)),
    (
        &[(LINK_0 + 10, 16), (LINK_0 + 14, 17)],
        Cause::BadLink,
        Some(0),
    ),
    (&[(LINK_0 + 14, 16)], Cause::BadLink, Some(0)),
    (&[(LINK_0 + 8, 5)], Cause::BadLink, Some(0)),
    // 4: the lowest, and before 5
    (&[(LINK_2, 2), (LINK_0, 1)], Cause::BadLink, Some(0)),
    (&[(LINK_2, 2), (GOAL_LIFTS, 1)], Cause::BadLink, Some(2)),
    (&[(LINK_2, 2), (PLACE_0_MS, 2)], Cause::BadLink, Some(2)),
    // 5
    (&[(GOAL_LIFTS, 1)], Cause::BadEstimate, None),
    (&[(PLACE_0_MS, 2)], Cause::BadEstimate, Some(0)),
    (&[(PLACE_1_MS, 9)], Cause::BadEstimate, Some(1)),
    (
        &[(PLACE_1_MS, 9), (GOAL_LIFTS, 1)],
        Cause::BadEstimate,
        None,
    ),
];

// A record of lent memory that no file was read into yet.
pub const PLACE: PlaceRecord = PlaceRecord { lifts: 77, ms: 78 };

pub const LINK: LinkRecord = LinkRecord {
    from: 71,
    to: 72,
    floor_lifts: 73,
    price_lifts: 74,
    floor_ms: 75,
    price_ms: 76,
};

// The chart with these bytes written over it.
fn damaged(writes: &[(usize, u8)]) -> [u8; 90] {
    let mut file = CHART;
    for &(at, byte) in writes {
        if let Some(place) = file.get_mut(at) {
            *place = byte;
        }
    }
    file
}

// The file is refused, and the memory lent is left as it was.
fn check_refusal(
    rt: &impl Abort,
    file: &[u8],
    places: &mut [PlaceRecord],
    links: &mut [LinkRecord],
    fault: ChartFault,
) {
    assert_eq!(rt; read_chart(file, places, links), Err(fault));
    assert!(rt; places.iter().all(|place| *place == PLACE));
    assert!(rt; links.iter().all(|link| *link == LINK));
}

#[test]
fn each_damage_is_refused_by_its_number(rt: HostRuntime) {
    let mut places = [PLACE; 5];
    let mut links = [LINK; 4];
    for (writes, cause, link) in DAMAGES {
        let fault = ChartFault {
            link,
            ..ChartFault::of_chart(cause)
        };
        check_refusal(&rt, &damaged(writes), &mut places, &mut links, fault);
    }
}

#[test]
fn a_short_file_is_no_chart(rt: HostRuntime) {
    let mut places = [PLACE; 5];
    let mut links = [LINK; 4];
    for (file, cause) in [
        (&CHART[..0], Cause::NotAChart),
        (&CHART[75..], Cause::NotAChart),
        (&CHART[74..], Cause::OutsideLimits),
        (&CHART[3..], Cause::OutsideLimits),
    ] {
        let fault = ChartFault::of_chart(cause);
        check_refusal(&rt, file, &mut places, &mut links, fault);
    }
}

#[test]
fn short_memory_comes_after_limits_and_before_records(rt: HostRuntime) {
    let mut places = [PLACE; 3];
    let mut links = [LINK; 3];
    for (file, cause) in [
        (CHART, Cause::ShortMemory),
        (damaged(&[(LINK_1, 3), (GOAL_LIFTS, 1)]), Cause::ShortMemory),
        (damaged(&[(START, 3), (GOAL, 3)]), Cause::OutsideLimits),
    ] {
        let fault = ChartFault::of_chart(cause);
        check_refusal(&rt, &file, &mut places[..2], &mut links, fault);
    }
    let short = ChartFault::of_chart(Cause::ShortMemory);
    check_refusal(&rt, &CHART, &mut places, &mut links[..2], short);
}

#[test]
fn a_good_file_fills_the_first_records(rt: HostRuntime) -> Result<(), Fail> {
    let mut places = [PLACE; 5];
    let mut links = [LINK; 4];
    let trailer = read_chart(&CHART, &mut places, &mut links)?;
    assert_eq!(rt;
        trailer,
        Trailer {
            start: 0,
            goal: 2,
            places: 3,
            links: 3,
            back: 88,
        }
    );
    let zero = PlaceRecord::default();
    assert_eq!(rt; places, [zero, zero, zero, PLACE, PLACE]);
    assert_eq!(rt;
        links[1],
        LinkRecord {
            from: 1,
            to: 2,
            floor_lifts: 0,
            price_lifts: 0,
            floor_ms: 1,
            price_ms: 3,
        }
    );
    assert_eq!(rt; links[3], LINK);
    Ok(())
}

#[test]
fn a_closed_link_and_a_file_without_remarks_are_good(rt: HostRuntime) {
    let mut places = [PLACE; 3];
    let mut links = [LINK; 3];
    let closed = damaged(&[(LINK_0 + 12, 0)]);
    assert!(rt; read_chart(&closed[2..90], &mut places, &mut links).is_ok());
    assert_eq!(rt; links[0].price_ms, 0);
}
