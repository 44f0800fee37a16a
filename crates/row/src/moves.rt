// What a cell costs at a site, and what a step to the right costs it there.
ghost use Rattle.std.specs.Prelude.{◌≡◌, ◌<◌, ◌≤◌};
ghost use Rattle.row.specs.Costs.{site_cost, site_step};
ghost use Rattle.row.specs.Stack.{Passes};

use crate::Cell;
use measure::{Measure, Move, Step};

impl Cell {
    /// What the cell costs at a site.
    #[inline]
    pub(crate) fn site_cost<M: Measure>(&self, measure: &M, site: u32) -> u64
        requires passes { Passes self.now }
        requires inside { site ≤ 65535 }
        ensures { result ≡ site_cost (M.price measure.now) self.now site }
    {
        measure.price_at(Move {
            wanted: self.wanted.site as u16,
            weight: self.weight as u16,
            place: site as u16,
        })
    }

    /// What a step to the right from a site costs the cell.
    #[inline]
    pub(crate) fn site_step<M: Measure>(&self, measure: &M, site: u32) -> i64
        requires passes { Passes self.now }
        requires inside { site < 65535 }
        ensures { result ≡ site_step (M.price measure.now) self.now site }
    {
        measure.step_at(Step {
            wanted: self.wanted.site as u16,
            weight: self.weight as u16,
            from: site as u16,
        })
    }
}
