//! The lists of attribute files, with the patterns alone that are asked for.
ghost use Rattle.std.specs.Prelude.{◌≡◌, [], IfOk, filter, map};
ghost use Rattle.gix_glob.specs.Entries.{entry_of};
ghost use Rattle.gix_glob.specs.EntryLists.{entry_list_of};
ghost use Rattle.gix_glob.specs.PatternParts.{mode_of};
ghost use Rattle.gix_glob.specs.Patterns.{looks_at_name};
ghost use Rattle.glob_attributes.specs.Views.{seen_assignments};
ghost use Rattle.tree_commands.specs.CheckAttr.{all};
ghost use Rattle.tree_commands.specs.Private.AttributeWays.{asked_of, kept_entries, kept_list, top_list};

use crate::check_attr::question::AskedAttributes;
use gix_glob::Pattern;
use gix_glob::search::Pattern as _;
use gix_glob::search::pattern::{List, Mapping};
use glob_attributes::{Assignment, AttributeLines, MacroTable, keep_named};
use glob_lists::Reading;
use glob_trees::list_in_folder;
use std::alloc::{AllocError, Global};

/// The list of a file for the paths in a folder, with the patterns that the states of these attributes rest on. The top is named by no bytes.
///
/// # Errors
/// Only where memory was refused.
pub(crate) fn kept_list(
    alloc: Global,
    asked: AskedAttributes<'_>,
    macros: &MacroTable,
    folder: &[u8],
    bytes: &[u8],
) -> Result<List<AttributeLines>, AllocError>
    ensures { IfOk result (λ list. entry_list_of seen_assignments list ≡ kept_list (asked_of asked.entry) macros.now folder.now bytes.now) }
{
    let list = keep_asked(list_of(alloc, bytes)?, asked, macros);
    list_in_folder(alloc, list, folder)
}

/// The list with the patterns alone that the states of these attributes rest on.
fn keep_asked(
    mut list: List<AttributeLines>,
    asked: AskedAttributes<'_>,
    macros: &MacroTable,
) -> List<AttributeLines>
    ensures entries { map (entry_of seen_assignments) result.patterns.items ≡ kept_entries (asked_of asked.entry) macros.now (map (entry_of seen_assignments) list.patterns.items) }
    ensures source { result.source ≡ list.source }
    ensures base { result.base ≡ list.base }
{
    match asked {
        AskedAttributes::Names(names) => {
            keep_named(&mut list, names, macros);
            list
        }
        AskedAttributes::All => list,
    }
}

/// The list of a file for the top, with the patterns for names alone, of these those that the states of these attributes rest on.
///
/// # Errors
/// Only where memory was refused.
pub(crate) fn top_list(
    alloc: Global,
    asked: AskedAttributes<'_>,
    macros: &MacroTable,
    bytes: &[u8],
) -> Result<List<AttributeLines>, AllocError>
    ensures { IfOk result (λ list. entry_list_of seen_assignments list ≡ top_list (asked_of asked.entry) macros.now bytes.now) }
{
    let mut list = list_of(alloc, bytes)?;
    keep_names(&mut list.patterns);
    Ok(keep_asked(list, asked, macros))
}

/// Keeps the patterns for names alone.
fn keep_names(patterns: &mut Vec<Mapping<Vec<Assignment<Vec<u8>>>>>)
    ensures { patterns.new.items ≡ filter (λ mapping. looks_at_name (mode_of mapping.pattern)) patterns.old.items }
{
    patterns.retain(|mapping| is_for_names(&mapping.pattern));
}

/// Whether a pattern is one for names.
fn is_for_names(pattern: &Pattern) -> bool
    ensures { result ≡ looks_at_name (mode_of pattern.now) }
{
    pattern.mode().looks_at_name()
}

/// The list of a file as Git reads it, without a base.
fn list_of(alloc: Global, bytes: &[u8]) -> Result<List<AttributeLines>, AllocError>
    ensures { IfOk result (λ list. entry_list_of seen_assignments list ≡ kept_list all [] [] bytes.now) }
{
    let lines = AttributeLines {
        reading: Reading::Git,
    };
    Ok(List {
        patterns: lines.bytes_to_patterns(alloc, bytes, "")?,
        source: None,
        base: None,
    })
}
