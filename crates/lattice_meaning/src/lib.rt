// What a lattice means, and why it is a lawful chart. Nothing runs here; each function states theorems about the
// definitions in specs/.
#![tactic(auto)]

ghost use Rattle.lattice_meaning.specs.Theorems.{FirstRuled, LatticesLawful, NextAt, OneCell, SetIsPriced};

// Of all sizes, starts, goals and numbers that keep the rules.
pub fn lattices_are_lawful() -> u8
    ensures { LatticesLawful }
{
    0
}

// The numbers that laying out and setting a price write.
pub fn written_numbers_are_prices() -> u8
    ensures first { FirstRuled }
    ensures set { SetIsPriced }
{
    0
}

// Only the link numbers of the directions lead out of a place, or into it.
pub fn links_follow_the_directions() -> u8
    ensures { NextAt }
{
    0
}

// One cell with no numbers is the chart of one place.
pub fn one_cell_is_one_place() -> u8
    ensures { OneCell }
{
    0
}
