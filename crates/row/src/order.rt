// Wanted order and row order.
ghost use Rattle.std.specs.Prelude.{◌≡◌, [], ◌∷◌};
ghost use Rattle.row.specs.Records.{before, row_ahead};
ghost use Rattle.std.proofs.Common.{rules};

use crate::{Cell, Row};
use table::Ranked;

impl Cell {
    /// Whether this cell comes before another in wanted order: by wanted site, then by number.
    pub fn is_before(&self, other: &Cell) -> bool
        ensures { result ≡ before self.now other.now }
    {
        (self.wanted.site, self.number) < (other.wanted.site, other.number)
    }
}

/// Rows are ranked in row order: by line, then by left.
impl Ranked for Row {
    ghost ahead = { row_ahead };

    ghost rank = { λ row. row.line ∷ row.left ∷ [] };

    ghost chain = { Prim.search rules };

    ghost total = { Prim.search rules };

    fn is_ahead(&self, other: &Row) -> bool {
        (self.line, self.left) < (other.line, other.left)
    }
}
