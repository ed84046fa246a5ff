// What is on a chart.
use std::fmt;

#[derive(Clone, Copy, PartialEq, Eq, Debug)]
pub struct Report {
    pub places: u16,
    pub links: u16,
    pub open_links: usize,
    pub start: u16,
    pub goal: u16,
}

// One line with five numbers, of a struct that is no error: nothing derives it.
impl fmt::Display for Report {
    fn fmt<W: fmt::Write>(&self, f: &mut fmt::Formatter<W>) -> fmt::Result {
        let Report {
            places,
            links,
            open_links,
            start,
            goal,
        } = self;
        write!(
            f,
            "places {places} links {links} open {open_links} start {start} goal {goal}"
        )
    }
}
