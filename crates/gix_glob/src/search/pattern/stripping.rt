//! What is left of a path once a base is stripped from its front.
ghost use Rattle.std.specs.Prelude.{◌≡◌, ◌+◌, ◌≤◌, length, Some, MatchOption};
ghost use Rattle.std.specs.Option.{ForSome};
ghost use Rattle.gix_glob.specs.Stripping.{Rest, NothingLeft, IsPlaced, stripped_place, strip_looks};

use crate::pattern::Case;
use crate::wildmatch::Steps;
use std::sync::ledger::Ledger;

/// Strips `base` from the front of `relative_path`, and answers what follows it, a part of the given path, with the
/// place `basename_pos` counted from there; `None` where the path does not begin with the base.
///
/// Places are counted in bytes from 0, and the place 0 of the rest is answered as `None`. With [`Case::Fold`] the case
/// of ASCII letters does not count. Where the path begins with the base, a place must not lie before the base's end.
/// The rule is in `docs/PATTERNS.md`, "Stripping a base".
pub fn strip_base_handle_recompute_basename_pos<'a>(
    base: &[u8],
    relative_path: &'a [u8],
    basename_pos: Option<usize>,
    case: Case,
) -> Option<(&'a [u8], Option<usize>)>
    requires { IsPlaced case (Some base.now) relative_path.now basename_pos }
    ensures { MatchOption result
        (NothingLeft case (Some base.now) relative_path.entry.now)
        (λ left. Rest case base.now relative_path.entry.now left.0.now × (left.1 ≡ stripped_place (length base.now) basename_pos)) }
{
    let rest = strip_base(base, relative_path, case)?;
    Some((rest, stripped_place(base.len(), basename_pos)))
}

/// Strips `base` as [`strip_base_handle_recompute_basename_pos`] does, under its condition, and counts a look at each byte that
/// it may read: those of the base as far as the path goes, and those of the path beside them. No step is counted.
pub fn strip_base_with_counts<'a, L: Ledger>(
    base: &[u8],
    relative_path: &'a [u8],
    basename_pos: Option<usize>,
    case: Case,
    counts: &mut Steps<L>,
) -> Option<(&'a [u8], Option<usize>)>
    requires { IsPlaced case (Some base.now) relative_path.now basename_pos }
    ensures rest { MatchOption result
        (NothingLeft case (Some base.now) relative_path.entry.now)
        (λ left. Rest case base.now relative_path.entry.now left.0.now × (left.1 ≡ stripped_place (length base.now) basename_pos)) }
    ensures steps { counts.new.steps ≡ counts.old.steps }
    ensures looks { counts.new.looks ≡ counts.old.looks + strip_looks (Some base.now) (length relative_path.entry.now) }
{
    let compared = base.len().min(relative_path.len());
    counts.looks(compared);
    counts.looks(compared);
    strip_base_handle_recompute_basename_pos(base, relative_path, basename_pos, case)
}

/// What follows the base; `None` where the path does not begin with it.
fn strip_base<'a>(base: &[u8], path: &'a [u8], case: Case) -> Option<&'a [u8]>
    ensures { MatchOption result
        (NothingLeft case (Some base.now) path.entry.now)
        (λ rest. Rest case base.now path.entry.now rest.now) }
{
    match case {
        Case::Sensitive => strip_exact(base, path),
        Case::Fold => strip_folded(base, path),
    }
}

/// The same where the case of letters counts.
fn strip_exact<'a>(base: &[u8], path: &'a [u8]) -> Option<&'a [u8]>
    ensures { MatchOption result
        (NothingLeft Case.Sensitive (Some base.now) path.entry.now)
        (λ rest. Rest Case.Sensitive base.now path.entry.now rest.now) }
{
    path.strip_prefix(base)
}

/// The same where it does not count.
fn strip_folded<'a>(base: &[u8], path: &'a [u8]) -> Option<&'a [u8]>
    ensures { MatchOption result
        (NothingLeft Case.Fold (Some base.now) path.entry.now)
        (λ rest. Rest Case.Fold base.now path.entry.now rest.now) }
{
    if path.len() < base.len() {
        return None;
    }
    let (front, rest) = path.split_at(base.len());
    if front.eq_ignore_ascii_case(base) {
        Some(rest)
    } else {
        None
    }
}

/// The place, counted from the base's end; the rest's own beginning is no place.
fn stripped_place(base_len: usize, basename_pos: Option<usize>) -> Option<usize>
    requires { ForSome basename_pos (λ at. base_len ≤ at) }
    ensures { result ≡ stripped_place base_len basename_pos }
{
    match basename_pos? - base_len {
        0 => None,
        at => Some(at),
    }
}
