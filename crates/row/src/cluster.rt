// Clusters of a row's cells: how they are found, one cell after another.
ghost use Rattle.std.specs.Prelude.{◌≡◌, ◌+◌, ◌<◌, ◌≤◌, [], length};
ghost use Rattle.row.specs.Stack.{InPlaces, AtBest, Follows, Bracketed, Holds};

use crate::Cell;
use crate::task::Task;
use arrayvec::ArrayVec;
use measure::Measure;

// A cluster: the cells from `first` to `past` - 1 of a list, which abut from `site` on and cover
// `width` sites.
#[derive(Clone, Copy, Default)]
pub(crate) struct Cluster {
    pub(crate) first: usize,
    pub(crate) past: usize,
    pub(crate) site: u32,
    pub(crate) width: u32,
}

impl Cluster {
    // The first site behind a cluster.
    fn end(&self) -> u32
        requires { InPlaces self.now }
        ensures { result ≡ self.now.site + self.now.width }
    {
        self.site + self.width
    }
}

// The clusters of a row of at most `N` cells, the last one on top.
pub(crate) type Clusters<const N: usize> = ArrayVec<Cluster, N>;

impl<'a, M: Measure> Task<'a, M> {
    // The cell at `first` as a cluster of its own, at its best site.
    fn alone(&self, first: usize) -> Cluster
        requires { first < length self.now.cells.now }
        ensures { AtBest (M.price self.now.measure.now) self.now.row self.now.cells.now
            first (first + 1) result }
    {
        let past = first + 1;
        let Cell { wanted, width, .. } = self.cells[first];
        let last = self.row.right - width;
        // At its wanted site a cell costs nothing, so that it stands best there or before.
        let high = wanted.site.max(self.row.left).min(last);
        let site = self.best_between(first, past, self.row.left, high);
        Cluster {
            first,
            past,
            site,
            width,
        }
    }

    // Two clusters that follow one another as one, at its best site.
    fn joined(&self, before: Cluster, last: Cluster) -> Cluster
        requires follows { Follows self.now.cells.now before last }
        requires bracketed { Bracketed (M.price self.now.measure.now) self.now.row self.now.cells.now
            before last }
        ensures { AtBest (M.price self.now.measure.now) self.now.row self.now.cells.now
            before.first last.past result }
    {
        let first = before.first;
        let past = last.past;
        let width = before.width + last.width;
        let low = self.row.left.max(last.site.saturating_sub(before.width));
        let high = before.site.min(self.row.right - width);
        let site = self.best_between(first, past, low, high);
        Cluster {
            first,
            past,
            site,
            width,
        }
    }

    // Takes the cell at `first`: it is joined to the clusters before it while it starts before
    // their end.
    fn add<const N: usize>(&self, first: usize, clusters: &mut Clusters<N>)
        requires within { first < length self.now.cells.now }
        requires few { length self.now.cells.now ≤ N }
        requires holds { Holds (M.price self.now.measure.now) self.now.row self.now.cells.now
            first clusters.old.items }
        ensures { Holds (M.price self.now.measure.now) self.now.row self.now.cells.now
            (first + 1) clusters.new.items }
    {
        let mut last = self.alone(first);
        while let Some(&before) = clusters.last()
            && last.site < before.end()
        {
            let _ = clusters.pop();
            last = self.joined(before, last);
        }
        clusters.push(last);
    }

    // Puts the clusters of all cells into a list that is empty.
    pub(crate) fn put_clusters<const N: usize>(&self, clusters: &mut Clusters<N>)
        requires few { length self.now.cells.now ≤ N }
        requires none { clusters.old.items ≡ [] }
        ensures { Holds (M.price self.now.measure.now) self.now.row self.now.cells.now
            (length self.now.cells.now) clusters.new.items }
    {
        // By place: a cluster is a run of places in the cells.
        for first in 0..self.cells.len() {
            self.add(first, clusters);
        }
    }
}
