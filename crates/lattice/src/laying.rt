// Making a lattice, and laying it out.
ghost use Rattle.std.specs.Prelude.{◌≡◌, true, ◌++◌, length, drop, is_err, None};
ghost use Rattle.chart.specs.Refusals.{refused, unless};
ghost use Rattle.lattice.specs.Drawn.{chart_of};
ghost use Rattle.lattice.specs.Layouts.{shape};
ghost use Rattle.lattice_meaning.specs.Prices.{first_prices, lattice, one_place};
ghost use Rattle.lattice_meaning.specs.Shape.{layout_refusal, link_count};
ghost use Rattle.std.specs.Result.{IfOk};

use crate::grid::Grid;
use crate::lattice::Lattice;
use crate::layout::Layout;
use chart::{Cause, ChartFault};

// May a lattice be laid out over so many numbers? Refused by 2 or 9.
fn check(layout: Layout, room: usize) -> Result<Grid, ChartFault>
    ensures answer { refused result ≡ layout_refusal (shape layout) room }
    ensures laid { IfOk result (λ g. g.layout ≡ layout) }
{
    let grid = Grid::new(layout)?;
    if usize::from(grid.links()) > room {
        return Err(ChartFault::of_chart(Cause::ShortMemory));
    }
    Ok(grid)
}

impl<'a> Lattice<'a> {
    // A chart of one place and no link numbers over any lent memory, to be laid out. Nothing is written.
    pub fn over(prices: &'a mut [u32]) -> Lattice<'a>
        ensures meaning { chart_of result ≡ one_place }
        ensures memory { result.prices.now ≡ prices.old }
        ensures lender { result.prices.ghost_name ≡ prices.entry.ghost_name }
    {
        Lattice {
            prices,
            layout: Layout {
                width: 1,
                height: 1,
                least: 1,
                start: 0,
                goal: 0,
            },
            link_count: 0,
        }
    }

    // Writes the first prices over the first numbers, nothing past them, and means the lattice of that layout from
    // then on; or refuses by 2 or 9, and leaves everything as it was.
    pub fn lay_out(&mut self, layout: Layout) -> Result<(), ChartFault>
        ensures answer { refused result ≡ layout_refusal (shape layout) (length self.old.prices.now) }
        ensures after { chart_of self.new ≡ unless (layout_refusal (shape layout) (length self.old.prices.now)) (chart_of self.old) (lattice (shape layout) (first_prices (shape layout))) }
        ensures memory { self.new.prices.now ≡ unless (layout_refusal (shape layout) (length self.old.prices.now)) self.old.prices.now (first_prices (shape layout) ++ drop (link_count (shape layout)) self.old.prices.now) }
        ensures same { is_err result ≡ true → self.new ≡ self.old }
        ensures lender { self.new.prices.ghost_name ≡ self.old.prices.ghost_name }
    {
        let grid = check(layout, self.prices.len())?;
        self.fill(grid);
        Ok(())
    }

    // Lays out what passed the check.
    fn fill(&mut self, grid: Grid)
        requires { layout_refusal (shape grid.layout) (length self.old.prices.now) ≡ None }
        ensures after { chart_of self.new ≡ lattice (shape grid.layout) (first_prices (shape grid.layout)) }
        ensures memory { self.new.prices.now ≡ first_prices (shape grid.layout) ++ drop (link_count (shape grid.layout)) self.old.prices.now }
        ensures lender { self.new.prices.ghost_name ≡ self.old.prices.ghost_name }
    {
        grid.write_first_prices(self.prices);
        self.layout = grid.layout;
        self.link_count = grid.links();
    }
}
