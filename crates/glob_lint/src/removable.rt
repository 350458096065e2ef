//! Which lines may all be taken out together.
ghost use Rattle.std.specs.Prelude.{◌≡◌, ℕ, All, IfOk, List, MatchOption, OnOk};
ghost use Rattle.gix_glob.specs.EntryLists.{EntryList};
ghost use Rattle.glob_lists.specs.declared.rules.Rules.{Rules};
ghost use Rattle.glob_lint.specs.declared.why.Why.TheVariants.{Covered};
ghost use Rattle.glob_lint.specs.Effects.{Before};
ghost use Rattle.glob_lint.specs.Private.Findings.{IsTold};
ghost use Rattle.glob_lint.specs.Private.Reasons.{IsReason, MayAllGo};

use crate::effects::Effect;
use crate::pairs::{comes_before, is_among};
use crate::report::Finding;
use crate::why::Why;
use std::alloc::{AllocError, Global};

/// The lines that may all be taken out together, the last first. Of lines that cover one another the first stays.
///
/// # Errors
/// Only where memory was refused.
pub(crate) fn removable_of(
    alloc: Global,
    findings: &[Finding],
) -> Result<Vec<(usize, usize)>, AllocError>
    ensures { IfOk result (λ removable. (rules : Rules) (lists : List (EntryList (Unit {0}))) → All (IsTold rules lists) findings.now
        → (stay : List (ℕ × ℕ)) × MayAllGo rules lists removable.items stay) }
{
    let mut removable: Vec<(usize, usize)> = Vec::new(alloc);
    let mut stay: Vec<(usize, usize)> = Vec::new(alloc);
    'findings: for at in (0..findings.len()).rev() {
        add_finding(&findings[at], &mut removable, &mut stay)?;
    }
    Ok(removable)
}

/// Adds the line of a finding to those that may be taken out, where it makes no difference and may.
fn add_finding(
    finding: &Finding,
    removable: &mut Vec<(usize, usize)>,
    stay: &mut Vec<(usize, usize)>,
) -> Result<(), AllocError>
    ensures { OnOk result ((rules : Rules) (lists : List (EntryList (Unit {0}))) → IsTold rules lists finding.now
        → MayAllGo rules lists removable.old.items stay.old.items → MayAllGo rules lists removable.new.items stay.new.items) }
{
    match &finding.effect {
        Effect::Idle(why) => add_line(finding.pair, *why, removable, stay),
        _ => Ok(()),
    }
}

/// Adds a line to those that may be taken out, unless one of these needs it, or the line that it needs is one of these.
fn add_line(
    pair: (usize, usize),
    why: Why,
    removable: &mut Vec<(usize, usize)>,
    stay: &mut Vec<(usize, usize)>,
) -> Result<(), AllocError>
    ensures { OnOk result ((rules : Rules) (lists : List (EntryList (Unit {0}))) → IsReason rules lists pair why
        → MayAllGo rules lists removable.old.items stay.old.items → MayAllGo rules lists removable.new.items stay.new.items) }
{
    if is_among(stay, pair) {
        return Ok(());
    }
    let Some(by) = need_of(pair, why) else {
        removable.push(pair)?;
        return Ok(());
    };
    if is_among(removable, by) {
        return Ok(());
    }
    stay.push(by)?;
    removable.push(pair)?;
    Ok(())
}

/// The line that has to stay where the line at a pair of places goes for this reason: an earlier one that covers it.
fn need_of(pair: (usize, usize), why: Why) -> Option<(usize, usize)>
    ensures { MatchOption result
        ((by : ℕ × ℕ) → why ≡ Covered by → ¬ Before by pair)
        (λ by. (why ≡ Covered by) × Before by pair) }
{
    match why {
        Why::Covered(by) => {
            if comes_before(by, pair) {
                Some(by)
            } else {
                None
            }
        }
        _ => None,
    }
}
