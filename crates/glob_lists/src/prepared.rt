//! Patterns that are prepared in memory which a caller keeps, so that nothing is allocated, and which of them matches a path last.
//!
//! What stands in that memory is never believed: a walk over its rows stays inside and ends, whatever they say.
ghost use Rattle.std.specs.Prelude.{◌≡◌, ◌↔◌, ◌⊎◌, ◌^◌, ◌<◌, ◌≤◌, ℕ, All, IfSome, IsTrue, [], ◌∷◌, length, map, option_map, take, true, false};
ghost use Rattle.gix_glob.specs.Steps.{IsBlankOf};
ghost use Rattle.glob_lists.specs.Deciding.{Decides};
ghost use Rattle.glob_lists.specs.Prepared.{AreAsked, ArePrepared, IsLawfulEntry, list_without_base};
ghost use Rattle.glob_lists.specs.Private.Lists.Chains.{AreChained};

use crate::asks::probe::Probe;
use crate::asks::row::Row;
use crate::laws;
use crate::link::Link;
use crate::list::answering::is_answer;
use crate::list::chains::{FEWEST_CHAINS, FEWEST_ROWS, chain};
use crate::list::walk::Walk;
use crate::path::RepositoryPath;
use crate::rules::Rules;
use gix_glob::pattern::PatternView;
use gix_glob::wildmatch::Steps;
use std::marker::Brand;
use std::sync::ledger::{Blank, Ledger};

/// The fewest patterns whose rows are read.
const FEWEST_PATTERNS: usize = 8;

/// What can be seen as a pattern.
pub trait Viewed {
    ghost use Rattle.std.specs.Prelude.{◌≡◌};
    ghost use Rattle.gix_glob.specs.Entries.{Entry};

    // The pattern as plain data.
    ghost seen: { Self → Entry (Unit {0}) };

    /// The pattern, borrowed.
    fn view(&self) -> PatternView<'_>
        ensures text { result.text.now ≡ (seen self.now).text }
        ensures mode { result.mode ≡ (seen self.now).mode }
        ensures place { result.first_wildcard_pos ≡ (seen self.now).place };
}

/// The last row of each chain: one of the rows without an end, and one for each bucket of ends.
#[repr(C)]
#[derive(Debug, Copy, Clone)]
pub struct Heads {
    links: [Link; FEWEST_CHAINS],
}

impl Heads {
    /// No row in any chain.
    pub const NONE: Heads = Heads {
        links: [Link::NONE; FEWEST_CHAINS],
    };

    /// The heads of the chains of so many rows; none where few rows are met in turn.
    fn over(&self, rows: usize) -> &[Link]
        ensures links { 1 < length result.now → result.now ≡ self.now.links }
        ensures few { length result.now < 2 ^ 32 }
    {
        if rows < FEWEST_ROWS {
            return &[];
        }
        &self.links
    }
}

/// Prepares patterns: writes the row of each to its place in `rows`, and to `heads` where the chains of rows begin. So many rows
/// have to be there as there are patterns, and no more than 2^32 - 1; where it isn't so, nothing is written, and the answer is
/// `false`.
pub fn prepare<P: Viewed>(patterns: &[P], rows: &mut [Row], heads: &mut Heads) -> bool
    ensures room { (result ≡ false) ↔ ((length rows.old < length patterns.now) ⊎ (2 ^ 32 ≤ length patterns.now)) }
    ensures kept { result ≡ false → (rows.new ≡ rows.old) × (heads.new ≡ heads.old) }
    ensures prepared { result ≡ true → ArePrepared (map P.seen patterns.now) (take (length patterns.now) rows.new) heads.new }
{
    if !has_room(patterns.len(), rows.len()) {
        return false;
    }
    *heads = Heads::NONE;
    'patterns: for i in 0..patterns.len() {
        rows[i] = chain(&mut heads.links, Row::of_view(patterns[i].view()), i);
    }
    true
}

/// Whether so many rows suffice for so many patterns, and these aren't too many for links.
fn has_room(patterns: usize, rows: usize) -> bool
    ensures { IsTrue result ↔ (patterns ≤ rows) × (patterns < 2 ^ 32) }
{
    const PLACES: usize = 1 << 32;
    patterns <= rows && patterns < PLACES
}

/// Whether it costs less to go by the rows of so many patterns than to test each pattern; and whether each pattern has a row.
pub fn pays_for(patterns: usize, rows: &[Row]) -> bool
    ensures { IsTrue result → patterns ≤ length rows.now }
{
    FEWEST_PATTERNS <= patterns && patterns <= rows.len()
}

/// The place of the last of some patterns that matches a path. Those alone are tested whose rows pass.
pub fn last_match<P: Viewed>(
    patterns: &[P],
    rows: &[Row],
    heads: &Heads,
    path: &RepositoryPath<'_>,
    rules: Rules,
) -> Option<usize>
    requires { length patterns.now ≤ length rows.now }
    ensures inside { IfSome result (λ place. place < length patterns.now) }
    ensures exact { All (λ (pattern : P). IsLawfulEntry (P.seen pattern)) patterns.now
        → ArePrepared (map P.seen patterns.now) (take (length patterns.now) rows.now) heads.now
        → Decides (list_without_base (map P.seen patterns.now) ∷ []) path.now.bytes path.now.is_dir rules (option_map (λ (place : ℕ). (0, place)) result) }
{
    last_match_with::<P, Brand>(
        patterns,
        &rows[..patterns.len()],
        heads.over(patterns.len()),
        path,
        rules,
        Blank::new(2),
    )
}

/// The same, with counts that no one asks for.
#[inline(always)]
fn last_match_with<P: Viewed, L: Ledger>(
    patterns: &[P],
    rows: &[Row],
    heads: &[Link],
    path: &RepositoryPath<'_>,
    rules: Rules,
    blank: Blank,
) -> Option<usize>
    requires many { length rows.now ≡ length patterns.now }
    requires few { length heads.now < 2 ^ 32 }
    requires blank { IsBlankOf L.name L.parts blank }
    ensures inside { IfSome result (λ place. place < length patterns.now) }
    ensures exact { All (λ (pattern : P). IsLawfulEntry (P.seen pattern)) patterns.now
        → AreAsked (map P.seen patterns.now) rows.now → (1 < length heads.now → AreChained rows.now heads.now)
        → Decides (list_without_base (map P.seen patterns.now) ∷ []) path.now.bytes path.now.is_dir rules (option_map (λ (place : ℕ). (0, place)) result) }
{
    // a law does nothing: it is called for what it ensures
    laws::answering_patterns_pass();
    let mut counts = Steps::<L>::new(blank);
    // a path with more bytes than there are rows isn't read for the sake of these
    let has_sets = path.bytes().len() <= rows.len();
    let probe = Probe::new(path.bytes(), path.basename_start(), has_sets, &mut counts);
    let mut walk = Walk::down(rows, heads, &probe);
    'candidates: while let Some(place) = walk.next::<false, L>(rows, heads, &probe, &mut counts) {
        let pattern = patterns[place].view();
        if is_answer(&rows[place], &probe, pattern, path, rules, &mut counts) {
            return Some(place);
        }
    }
    None
}
