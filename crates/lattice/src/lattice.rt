// The lattice over lent prices. Its rules over that memory hold of every value.
ghost use Rattle.std.specs.Prelude.{◌≡◌, ◌≤◌, true, length, take};
ghost use Rattle.lattice.specs.Layouts.{shape};
ghost use Rattle.lattice_meaning.specs.Prices.{Counted, Priced, Unlinked};
ghost use Rattle.lattice_meaning.specs.Shape.{in_limits};

use crate::grid::Grid;
use crate::layout::Layout;

// The first numbers are the prices of its link numbers, 0 where a link is closed or none is. Until it is laid out it
// is one cell with no link numbers. The memory is lent, and mostly longer than what is in use: so a count stands
// beside it. The layout is no `Grid` here: a struct that holds a `&mut` and a struct with a ghost field cannot be the
// type argument of another struct, so no layer could stand over it.
#[derive(Drop)]
pub struct Lattice<'a> {
    pub(crate) prices: &'a mut [u32],
    pub(crate) layout: Layout,
    pub(crate) link_count: u16,
    // sizes, places and least step are within their limits
    ghost within: { in_limits (shape layout) ≡ true },
    // the memory is long enough
    ghost room: { link_count ≤ length prices.now },
    // no more numbers are in use than there are link numbers
    ghost counted: { Counted (shape layout) (take link_count prices.now) },
    // each is 0, or between the least step and 1,000,000
    ghost priced: { Priced (shape layout) (take link_count prices.now) },
    // each is 0 where no link is
    ghost unlinked: { Unlinked (shape layout) (take link_count prices.now) },
}

impl Lattice<'_> {
    // The grid of its cells.
    pub(crate) fn grid(&self) -> Grid
        ensures { result.layout ≡ self.now.layout }
    {
        Grid {
            layout: self.layout,
        }
    }
}
