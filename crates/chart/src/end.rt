// The two ends of a link.
ghost use Rattle.std.specs.Prelude.{◌≡◌};
ghost use Rattle.chart.specs.Questions.{opposite};

// Which end of a link is meant: a link is out of its from place, and into its to place.
#[derive(Clone, Copy, PartialEq, Eq, Debug)]
pub enum End {
    From,
    To,
}

impl End {
    pub fn opposite(self) -> End
        ensures { result ≡ opposite self }
    {
        match self {
            End::From => End::To,
            End::To => End::From,
        }
    }
}
