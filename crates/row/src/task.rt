// The task of setting a row: how the cost of its cells rises, and where they stand best together.
ghost use Rattle.std.specs.Prelude.{◌≡◌, ◌+◌, ◌-◌, ◌<◌, ◌≤◌, length};
ghost use Rattle.std.specs.List.{between};
ghost use Rattle.std.proofs.Props.{props};
ghost use Rattle.row.specs.Records.{widths};
ghost use Rattle.row.specs.Sites.{cluster_rise, climbs, least};
ghost use Rattle.row.specs.Stack.{Ready};

use crate::{Cell, Row};
use measure::{LAST_PLACE, Measure};

/// A row and its cells, which are not refused, and the measure of what their moves cost.
///
/// Whoever makes one shows that no check of `set` refuses the row and its cells, so that none of
/// them is done again.
#[derive(Drop)]
pub struct Task<'a, M: Measure> {
    pub measure: &'a M,
    pub row: Row,
    pub cells: &'a [Cell],
    ghost ready: { Ready row cells.now } by { Prim.hlevel props },
}

// Where to look next between two starts: a step before the second, or in the middle where the
// step is not shorter than what is between them.
fn probe(from: u32, to: u32, step: u32) -> u32
    requires some { from < to }
    requires forward { 1 ≤ step }
    ensures at { from ≤ result }
    ensures before { result < to }
{
    if step < to - from {
        to - step
    } else {
        from + (to - from) / 2
    }
}

// How far to step on from a start with the rise `rise`, when the start `distance` sites behind had
// the rise `above`: as far as the rise stays at least 0 if it goes on to fall so, and twice as far
// as the last time where it hardly falls.
fn next_step(above: i64, rise: i64, distance: u32) -> u32
    requires { 1 ≤ distance }
    ensures { 1 ≤ result }
{
    let slope = above.abs_diff(rise) / u64::from(distance);
    match rise.unsigned_abs().checked_div(slope) {
        Some(step) => step.clamp(1, u64::from(LAST_PLACE)) as u32,
        None => distance.saturating_mul(2),
    }
}

impl<'a, M: Measure> Task<'a, M> {
    // The same task with the cells from `first` to `past` - 1 alone.
    pub(crate) fn part(&self, first: usize, past: usize) -> Task<'a, M>
        requires some { first ≤ past }
        requires within { past ≤ length self.now.cells.now }
        ensures measure { result.measure.now ≡ self.now.measure.now }
        ensures row { result.row ≡ self.now.row }
        ensures cells { result.cells.now ≡ between first past self.now.cells.now }
    {
        Task {
            measure: self.measure,
            row: self.row,
            cells: &self.cells[first..past],
        }
    }

    // The rise of the cells where they abut from `start` on.
    fn rise_from(&self, start: u32) -> i64
        requires { start + widths self.now.cells.now ≤ 65535 }
        ensures { result ≡ cluster_rise (M.price self.now.measure.now) self.now.cells.now start }
    {
        let mut sum: i64 = 0;
        let mut site = start;
        for cell in self.cells {
            sum += cell.site_step(self.measure, site);
            site += cell.width;
        }
        sum
    }

    // The least start from `low` to `high` that is `high` or where the rise of the cells from
    // `first` to `past` - 1 is at least 0. It is mostly `high`: so the start before that is looked
    // at first, in place, and a search is a call of its own.
    #[inline]
    pub(crate) fn best_between(&self, first: usize, past: usize, low: u32, high: u32) -> u32
        requires begins { first ≤ past }
        requires within { past ≤ length self.now.cells.now }
        requires some { low ≤ high }
        requires inside { high + widths (between first past self.now.cells.now) ≤ 65535 }
        ensures { result ≡ least
            (climbs (M.price self.now.measure.now) (between first past self.now.cells.now))
            low (high - low) }
    {
        if low == high {
            return high;
        }
        let above = self.part(first, past).rise_from(high - 1);
        let climbs = above >= 0;
        if climbs {
            self.part(first, past).best_before(low, high - 1, above)
        } else {
            high
        }
    }

    // The same of all cells, where the rise at `high` was `above`, which guides the search and
    // decides nothing. It goes from there in steps, and by halving where a step would lead too far.
    #[inline(never)]
    fn best_before(&self, low: u32, high: u32, above: i64) -> u32
        requires some { low ≤ high }
        requires inside { high + widths self.now.cells.now ≤ 65535 }
        ensures { result ≡ least (climbs (M.price self.now.measure.now) self.now.cells.now)
            low (high - low) }
    {
        let mut from = low;
        let mut to = high;
        let mut above = above;
        let mut step: u32 = 1;
        // By hand, since std's `partition_point` halves a slice, and this is a range of sites.
        while from < to {
            let probe = probe(from, to, step);
            let rise = self.rise_from(probe);
            let climbs = rise >= 0;
            if climbs {
                step = next_step(above, rise, to - probe);
                above = rise;
                to = probe;
            } else {
                from = probe + 1;
            }
        }
        from
    }
}
