// Setting one row: the checks, the clusters, the sites and their cost.
ghost use Rattle.std.specs.Prelude.{◌≡◌, ◌+◌, ◌≤◌, ◌++◌, length, take, drop, IfOk};
ghost use Rattle.row.specs.Records.{Limits, widths};
ghost use Rattle.row.specs.Settings.{Cheapest};
ghost use Rattle.row.specs.Costs.{sites_cost};
ghost use Rattle.row.specs.Sites.{abut, row_sites};
ghost use Rattle.row.specs.Stack.{InPlaces, Spans, part};
ghost use Rattle.row.specs.Task.{set_answer, set_sites};

use crate::check::check;
use crate::cluster::{Cluster, Clusters};
use crate::task::Task;
use crate::{Cell, FEW_CELLS, MANY_CELLS, MOST_CELLS, Refusal, Row};
use measure::Measure;

impl<'a, M: Measure> Task<'a, M> {
    // Writes the sites of the cells where they abut from `start` on, and answers what they cost
    // there.
    fn abut_from(&self, start: u32, sites: &mut [u32]) -> u64
        requires each { length sites.old ≡ length self.now.cells.now }
        requires inside { start + widths self.now.cells.now ≤ 65535 }
        ensures answer { result ≡ sites_cost (M.price self.now.measure.now) self.now.cells.now
            (abut self.now.cells.now start) }
        ensures after { sites.new ≡ abut self.now.cells.now start }
    {
        let mut cost: u64 = 0;
        let mut site = start;
        // By place: over a `zip` with `iter_mut` an invariant has no name for what has been
        // written, so the proof does not close.
        for (i, cell) in self.cells.iter().enumerate() {
            sites[i] = site;
            cost += cell.site_cost(self.measure, site);
            site += cell.width;
        }
        cost
    }

    // Writes the sites of the cells of one cluster, leaves the others, and answers what these
    // cells cost.
    fn lay_one(&self, cluster: Cluster, sites: &mut [u32]) -> u64
        requires within { cluster.past ≤ length self.now.cells.now }
        requires room { cluster.past ≤ length sites.old }
        requires spans { Spans self.now.cells.now cluster.past cluster }
        requires inside { InPlaces cluster }
        ensures answer { result ≡ sites_cost (M.price self.now.measure.now)
            (part self.now.cells.now cluster) (abut (part self.now.cells.now cluster) cluster.site) }
        ensures after { sites.new ≡ take cluster.first sites.old
            ++ (abut (part self.now.cells.now cluster) cluster.site ++ drop cluster.past sites.old) }
    {
        let first = cluster.first;
        let past = cluster.past;
        self.part(first, past)
            .abut_from(cluster.site, &mut sites[first..past])
    }

    // Fills `sites` with the sites of the row's cells, and answers what they cost, in room for `N`
    // clusters. It is a call of its own for each `N`, so that a row of few cells does not pay for
    // the room of one that has many.
    #[inline(never)]
    fn set_in<const N: usize>(&self, sites: &mut [u32]) -> u64
        requires few { length self.now.cells.now ≤ N }
        requires small { N ≤ 1024 }
        requires each { length sites.old ≡ length self.now.cells.now }
        ensures answer { result ≡ sites_cost (M.price self.now.measure.now) self.now.cells.now
            (row_sites (M.price self.now.measure.now) self.now.row self.now.cells.now) }
        ensures after { sites.new
            ≡ row_sites (M.price self.now.measure.now) self.now.row self.now.cells.now }
    {
        let mut clusters = Clusters::<N>::new();
        self.put_clusters(&mut clusters);
        let mut cost: u64 = 0;
        for cluster in clusters.as_slice() {
            cost += self.lay_one(*cluster, sites);
        }
        cost
    }

    // Fills `sites` with the sites of the row's cells, and answers what they cost.
    fn fill(&self, sites: &mut [u32]) -> u64
        requires { length sites.old ≡ length self.now.cells.now }
        ensures answer { result ≡ sites_cost (M.price self.now.measure.now) self.now.cells.now
            (row_sites (M.price self.now.measure.now) self.now.row self.now.cells.now) }
        ensures after { sites.new
            ≡ row_sites (M.price self.now.measure.now) self.now.row self.now.cells.now }
    {
        // The room is cleared when it is made, so that less room is made sooner.
        if self.cells.len() <= FEW_CELLS {
            self.set_in::<FEW_CELLS>(sites)
        } else if self.cells.len() <= MANY_CELLS {
            self.set_in::<MANY_CELLS>(sites)
        } else {
            self.set_in::<MOST_CELLS>(sites)
        }
    }

    /// Sets the row, as [`set`] does, with no check but that there is a site for each cell: else
    /// it is refused as `Size` (12), and the sites stay.
    pub fn set(&self, sites: &mut [u32]) -> Result<u64, Refusal>
        ensures answer { result
            ≡ set_answer (M.price self.now.measure.now) self.now.row self.now.cells.now sites.old }
        ensures after { sites.new
            ≡ set_sites (M.price self.now.measure.now) self.now.row self.now.cells.now sites.old }
        ensures cheapest { IfOk result (λ cost.
            Cheapest (M.price self.now.measure.now) self.now.row self.now.cells.now sites.new
            × (cost ≡ sites_cost (M.price self.now.measure.now) self.now.cells.now sites.new)) }
    {
        if sites.len() != self.cells.len() {
            return Err(Refusal::Size);
        }
        Ok(self.fill(sites))
    }
}

/// Sets a row: fills `sites` with the sites of its cells, and answers what they cost.
///
/// Of all legal settings in wanted order it is the cheapest, and of the cheapest the leftmost. It
/// is refused by the first check that fails, and the sites stay then: the row outside its ranges
/// (9); more than 1,024 cells, or not as many sites (12); the first cell that is outside its
/// ranges (1 to 4), or not after the one before it in wanted order (13); cells that are wider
/// than the row (14).
///
/// The sites are a buffer that the caller lends, beside the cells, so that it takes no memory.
pub fn set<M: Measure>(
    measure: &M,
    row: Row,
    cells: &[Cell],
    sites: &mut [u32],
) -> Result<u64, Refusal>
    ensures answer { result ≡ set_answer (M.price measure.now) row cells.now sites.old }
    ensures after { sites.new ≡ set_sites (M.price measure.now) row cells.now sites.old }
    ensures cheapest { IfOk result (λ cost. Cheapest (M.price measure.now) row cells.now sites.new
        × (cost ≡ sites_cost (M.price measure.now) cells.now sites.new)) }
    ensures limits { Limits }
{
    check(row, cells, sites.len())?;
    let task = Task {
        measure,
        row,
        cells,
    };
    task.set(sites)
}
