// The best site of a cluster under the squared measure.
ghost use Rattle.row.specs.Rounding.{SquaredRounds};

/// Under the squared measure a cluster's best site is a quotient. Let `q` be the sum, over its
/// cells, of the weight times the wanted site less the cell's distance from the cluster's start,
/// and `e` the sum of the weights: the best site is `q / e`, rounded to the nearest site with
/// halves down, and then limited to the sites from which the cells lie within the row.
///
/// It does nothing: that is what its contract says, of all rows and all cells.
#[tactic(auto, using(crate::proofs::Rounding::squared_rounds))]
pub fn squared_best_sites()
    ensures { SquaredRounds }
{}
