// The four directions in which links lead.
ghost use Rattle.std.specs.Prelude.{◌≡◌, ◌%◌, ◌<◌};
ghost use Rattle.lattice.specs.Layouts.{next_cell, number};
ghost use Rattle.lattice_meaning.specs.Directions.{back, direction, links_per_place};

// In the order of the link numbers of a place.
#[derive(Clone, Copy, PartialEq, Eq, Debug)]
pub(crate) enum Direction {
    Up = 0,
    Right = 1,
    Down = 2,
    Left = 3,
}

// Each place has a link number for each direction.
pub(crate) const LINKS_PER_PLACE: u16 = 4;

impl Direction {
    // The direction of a link number.
    pub(crate) fn of_link(link: u16) -> Direction
        ensures { number result ≡ link % links_per_place }
    {
        match link % LINKS_PER_PLACE {
            0 => Direction::Up,
            1 => Direction::Right,
            2 => Direction::Down,
            _ => Direction::Left,
        }
    }

    pub(crate) fn number(self) -> u16
        ensures number { result ≡ number self }
        ensures few { result < links_per_place }
    {
        u16::from(self as u8)
    }

    pub(crate) fn opposite(self) -> Direction
        ensures { number result ≡ back (number self) }
    {
        match self {
            Direction::Up => Direction::Down,
            Direction::Right => Direction::Left,
            Direction::Down => Direction::Up,
            Direction::Left => Direction::Right,
        }
    }

    // The cell next to cell (x, y), unless a number would fall below 0.
    pub(crate) fn step(self, x: u16, y: u16) -> Option<(u16, u16)>
        requires { (x < 64) × (y < 64) }
        ensures { result ≡ next_cell (direction (number self)) x y }
    {
        match self {
            Direction::Up => Some((x, y.checked_sub(1)?)),
            Direction::Right => Some((x + 1, y)),
            Direction::Down => Some((x, y + 1)),
            Direction::Left => Some((x.checked_sub(1)?, y)),
        }
    }
}
