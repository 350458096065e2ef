//! Chains of rows: each row is linked to the last one before it in its chain. The rows without an end have a chain of their own; those with
//! an end share one with all ends of the same bucket.
ghost use Rattle.std.specs.Prelude.{◌≡◌, ◌+◌, ◌%◌, ◌^◌, ◌<◌, List, [], ◌∷◌, ◌++◌, length};
ghost use Rattle.glob_lists.specs.Private.Lists.Chains.{AreChained, chain_of, end_chain};
ghost use Rattle.glob_lists.specs.declared.asks.row.Row.{Row};

use crate::asks::row::Row;
use crate::asks::sight::ENDS;
use crate::link::Link;

/// The fewest rows that are chained: among fewer it costs less to look at each row.
pub(crate) const FEWEST_ROWS: usize = 24;

/// The fewest chains of rows that are chained.
pub(crate) const FEWEST_CHAINS: usize = 512;

/// How many chains so many rows have: one for those without an end, and at least four times as many buckets as rows; none where they
/// aren't chained.
pub(crate) fn chain_count(rows: usize) -> usize
    ensures few { result < 2 ^ 32 }
    ensures fits { 1 < result → rows < 2 ^ 32 }
{
    const MOST_ROWS: usize = (1 << 30) - 1;
    if rows < FEWEST_ROWS || rows > MOST_ROWS {
        return 0;
    }
    (4 * rows + 1).max(FEWEST_CHAINS)
}

/// Chains a row to the last one of its chain, and makes it the last. `place` is where it will stand. Without chains it stays as it is.
pub(crate) fn chain(heads: &mut [Link], row: Row, place: usize) -> Row
    requires few { length heads.old < 2 ^ 32 }
    requires fits { 1 < length heads.old → place + 1 < 2 ^ 32 }
    ensures row { result ≡ record row { before = result.before } }
    ensures chained { (rows : List Row) → 1 < length heads.old → length rows ≡ place → row.spare % 8 ≡ 0 → AreChained rows heads.old
        → AreChained (rows ++ result ∷ []) heads.new }
{
    if heads.len() < 2 {
        return row;
    }
    let chain = chain_of(heads.len(), &row);
    let linked = row.after(heads[chain]);
    heads[chain] = Link::to(place);
    linked
}

/// The place of a row's chain among so many.
fn chain_of(count: usize, row: &Row) -> usize
    requires some { 1 < count }
    requires few { count < 2 ^ 32 }
    ensures within { result < count }
    ensures chain { result ≡ chain_of count row.now }
{
    if row.has_no_end() {
        return 0;
    }
    end_chain(count, row.asked())
}

/// The place of the chain of an end among so many: ends of the same bucket have the same.
#[inline(always)]
pub(crate) fn end_chain(count: usize, key: u64) -> usize
    requires some { 1 < count }
    requires few { count < 2 ^ 32 }
    ensures within { result < count }
    ensures chain { result ≡ end_chain count key }
{
    let hash = (key.wrapping_mul(ENDS) >> 32) as usize;
    1 + ((hash * (count - 1)) >> 32)
}
