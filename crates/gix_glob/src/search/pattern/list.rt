//! A list of patterns that knows where it comes from and what its base is.
ghost use Rattle.std.specs.Prelude.{◌≡◌, ◌+◌, [], None, All, IsTrue, IfOk, MatchOption, length, option_map};
ghost use Rattle.std.specs.Vec.{vec_items};
ghost use Rattle.gix_glob.specs.Stripping.{RestOf, NothingLeft, IsPlaced, place_after, strip_looks};

use super::{Mapping, strip_base_handle_recompute_basename_pos, strip_base_with_counts};
use crate::pattern::Case;
use crate::search::Pattern;
use crate::wildmatch::Steps;
use std::alloc::{AllocError, Global};
use std::sync::ledger::Ledger;

/// A list of patterns, which may know where it was loaded from and what its base is.
///
/// Under a base the patterns look only at the paths that begin with it, and at what follows it there.
#[derive(Debug, PartialEq, Eq, Hash, PartialOrd, Ord, Drop)]
pub struct List<T: Pattern> {
    /// The patterns in the order in which they were read, with their values and their numbers.
    pub patterns: Vec<Mapping<T::Value>>,
    /// The path text that the patterns were read from, or `None` where they come from no file.
    pub source: Option<String>,
    /// The folder of the source below the root, with a slash at its end, or `None` where paths are looked at whole.
    pub base: Option<Vec<u8>>,
}

impl<T: Pattern> List<T> {
    /// A list of no patterns, with no source and no base.
    pub fn empty(alloc: Global) -> List<T>
        ensures patterns { result.patterns.items ≡ [] }
        ensures source { result.source ≡ None }
        ensures base { result.base ≡ None }
    {
        List {
            patterns: Vec::new(alloc),
            source: None,
            base: None,
        }
    }

    /// An equal list, in memory of its own. A clone of each value must equal that value.
    ///
    /// # Errors
    /// Only where memory was refused.
    #[allow(clippy::should_implement_trait)]
    pub fn clone(&self) -> Result<List<T>, AllocError>
        requires { All (λ m. (copy : T.Value) → T.Value.is_clone m.value copy → IsTrue (T.Value.PartialEq.eq m.value copy)) self.now.patterns.items }
        ensures { IfOk result (λ copy. IsTrue (⟦<List<T> as PartialEq>⟧.eq self.now copy)) }
    {
        let patterns = clone_mappings(&self.patterns)?;
        let source = clone_source(&self.source)?;
        let base = clone_base(&self.base)?;
        Ok(List {
            patterns,
            source,
            base,
        })
    }

    /// What is left of `relative_path` under the base of this list, and the place `basename_pos` counted from there;
    /// `None` where the path does not begin with the base. A list without a base hands both back as they came.
    ///
    /// It is [`strip_base_handle_recompute_basename_pos`] with the base of the list, and has its condition.
    pub fn strip_base_handle_recompute_basename_pos<'a>(
        &self,
        relative_path: &'a [u8],
        basename_pos: Option<usize>,
        case: Case,
    ) -> Option<(&'a [u8], Option<usize>)>
        requires { IsPlaced case (option_map vec_items self.now.base) relative_path.now basename_pos }
        ensures { MatchOption result
            (NothingLeft case (option_map vec_items self.now.base) relative_path.entry.now)
            (λ left. RestOf case (option_map vec_items self.now.base) relative_path.entry.now left.0.now
            × (left.1 ≡ place_after (option_map vec_items self.now.base) basename_pos)) }
    {
        match &self.base {
            Some(base) => {
                strip_base_handle_recompute_basename_pos(base, relative_path, basename_pos, case)
            }
            None => Some((relative_path, basename_pos)),
        }
    }

    /// What is left of `relative_path` under the base of this list, as [`List::strip_base_handle_recompute_basename_pos`]
    /// answers it, under its condition, with looks counted as [`strip_base_with_counts`] does. Without a base there are none.
    pub fn strip_base_with_counts<'a, L: Ledger>(
        &self,
        relative_path: &'a [u8],
        basename_pos: Option<usize>,
        case: Case,
        counts: &mut Steps<L>,
    ) -> Option<(&'a [u8], Option<usize>)>
        requires { IsPlaced case (option_map vec_items self.now.base) relative_path.now basename_pos }
        ensures rest { MatchOption result
            (NothingLeft case (option_map vec_items self.now.base) relative_path.entry.now)
            (λ left. RestOf case (option_map vec_items self.now.base) relative_path.entry.now left.0.now
            × (left.1 ≡ place_after (option_map vec_items self.now.base) basename_pos)) }
        ensures steps { counts.new.steps ≡ counts.old.steps }
        ensures looks { counts.new.looks
            ≡ counts.old.looks + strip_looks (option_map vec_items self.now.base) (length relative_path.entry.now) }
    {
        let Some(base) = &self.base else {
            return Some((relative_path, basename_pos));
        };
        strip_base_with_counts(base, relative_path, basename_pos, case, counts)
    }
}

/// Equal mappings, in memory of their own.
fn clone_mappings<V: Clone + PartialEq>(
    mappings: &Vec<Mapping<V>>,
) -> Result<Vec<Mapping<V>>, AllocError>
    requires { All (λ m. (copy : V) → V.is_clone m.value copy → IsTrue (V.PartialEq.eq m.value copy)) mappings.now.items }
    ensures { IfOk result (λ copies. IsTrue (⟦<Vec<Mapping<V>> as PartialEq>⟧.eq mappings.now copies)) }
{
    let mut copies = Vec::with_capacity(*mappings.allocator(), mappings.len())?;
    'mappings: for mapping in mappings {
        copies.push(mapping.clone()?)?;
    }
    Ok(copies)
}

/// An equal source, in memory of its own.
fn clone_source(source: &Option<String>) -> Result<Option<String>, AllocError>
    ensures { IfOk result (λ copy. IsTrue (⟦<Option<String> as PartialEq>⟧.eq source.now copy)) }
{
    match source {
        Some(source) => Ok(Some(source.clone()?)),
        None => Ok(None),
    }
}

/// An equal base, in memory of its own.
fn clone_base(base: &Option<Vec<u8>>) -> Result<Option<Vec<u8>>, AllocError>
    ensures { IfOk result (λ copy. IsTrue (⟦<Option<Vec<u8>> as PartialEq>⟧.eq base.now copy)) }
{
    match base {
        Some(base) => Ok(Some(base.clone()?)),
        None => Ok(None),
    }
}
