// The charts of the worked examples are those that the layers and the lattice make. Nothing runs here.
#![tactic(auto)]

ghost use Rattle.examples.specs.Charts.{SameCharts};

// The guarded, the returned and the lattice row of the table of worked examples are of a guard, a return and a lattice.
pub fn the_examples_are_of_these_charts() -> u8
    ensures { SameCharts }
{
    0
}
