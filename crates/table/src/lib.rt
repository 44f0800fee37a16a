//! Ordered tables of ranked records, and the one search for a record's place in such a table.
#![tactic(auto)]

ghost use Rattle.std.specs.Prelude.{◌≡◌, ℕ, ◌≤◌, Bool, true, false, List, length};
ghost use Rattle.table.specs.Order.{Ordered, rank_of};

/// A record that is ahead of another, or is not: an order on some of its fields, by their ranks.
///
/// It is not `Ord`, since two records that differ in their other fields have one rank.
pub trait Ranked {
    ghost ahead: { Self → Self → Bool };

    ghost rank: { Self → List ℕ };

    /// Whether this record is ahead of another.
    fn is_ahead(&self, other: &Self) -> bool
        ensures { result ≡ ahead self.now other.now };

    // What is behind a record is behind all that are ahead of it.
    ghost chain: { (a b c : Self) → ahead a b ≡ true → ahead b c ≡ true → ahead a c ≡ true };

    // The order is total: two records of which neither is ahead have one rank.
    ghost total: { (a b : Self) → ahead a b ≡ false → ahead b a ≡ false → rank a ≡ rank b };
}

/// Where a key stands in an ordered table, or would stand: behind the records that are ahead of
/// it. It halves the table.
pub fn place_of<R: Ranked>(table: &[R], key: &R) -> usize
    ensures bound { result ≤ length table.now }
    ensures finds { Ordered R.ahead table.now → result ≡ rank_of R.ahead table.now key.now }
{
    table.partition_point(
        |record| -> bool
            ensures { result ≡ R.ahead record.now key.entry.now }
        { record.is_ahead(key) },
    )
}
