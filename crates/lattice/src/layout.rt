// How a lattice is to be laid out.
ghost use Rattle.std.specs.Prelude.{◌≡◌};
ghost use Rattle.lattice.specs.Layouts.{shape};
ghost use Rattle.lattice_meaning.specs.Shape.{in_limits};

// Columns, rows, the least step in milliseconds, and two places. Cell (x, y) is place y * width + x.
#[derive(Clone, Copy, PartialEq, Eq, Debug)]
pub struct Layout {
    pub width: u16,
    pub height: u16,
    pub least: u32,
    pub start: u16,
    pub goal: u16,
}

impl Layout {
    // Are the sizes, the least step and the places within their limits?
    pub(crate) fn is_within(self) -> bool
        ensures { result ≡ in_limits (shape self) }
    {
        (1..=64).contains(&self.width)
            && (1..=64).contains(&self.height)
            && (1..=1_000_000).contains(&self.least)
            && self.start < self.width * self.height
            && self.goal < self.width * self.height
    }
}
