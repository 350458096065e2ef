//! A list without the patterns that say nothing of the attributes that are asked for.
ghost use Rattle.std.specs.Prelude.{◌≡◌, ◌++◌, ◌∷◌, All, List, filter, map};
ghost use Rattle.std.specs.List.{list_any};
ghost use Rattle.std.specs.Vec.{vec_items};
ghost use Rattle.glob_lists.specs.declared.rules.Rules.{Rules};
ghost use Rattle.gix_glob.specs.EntryLists.{entry_list_of};
ghost use Rattle.glob_lists.specs.Paths.{Path};
ghost use Rattle.glob_attributes.specs.Views.{assignment_with};
ghost use Rattle.glob_attributes.specs.Narrowing.{concerns};
ghost use Rattle.glob_attributes.specs.Private.Narrowing.{assigns_named, is_named};
ghost use Rattle.glob_attributes.specs.Views.{seen_assignments};
ghost use Rattle.glob_attributes.specs.States.{Assigned, IsAssigned, Lists, state_in};

use crate::assignment::Assignment;
use crate::macro_table::MacroTable;
use crate::parser::AttributeLines;
use gix_glob::search::pattern;

/// Takes from a list the patterns that assign nothing to an attribute of these names, nor to a macro: the states of these attributes
/// stay what they are, for each path, whatever lists stand before this one and behind it. The macros have to be those by which the
/// states are asked. The other patterns stay in their order, each as it was, with its number and with all that it assigns.
pub fn keep_named(list: &mut pattern::List<AttributeLines>, names: &[&[u8]], macros: &MacroTable)
    ensures source { list.new.source ≡ list.old.source }
    ensures base { list.new.base ≡ list.old.base }
    ensures kept { list.new.patterns.items
        ≡ filter (λ mapping. concerns (map (λ name. name.now) names.now) macros.now (seen_assignments mapping.value)) list.old.patterns.items }
    ensures states { (front after : Lists) (path : Path) (rules : Rules) (filled : List Assigned) →
        IsAssigned (front ++ entry_list_of seen_assignments list.old ∷ after) macros.now path rules filled →
        (kept : List Assigned) × IsAssigned (front ++ entry_list_of seen_assignments list.new ∷ after) macros.now path rules kept
        × All (λ name. state_in kept name.now ≡ state_in filled name.now) names.now }
{
    keep_mappings(&mut list.patterns, names, macros);
}

/// Keeps the patterns that assign a state to one of the names, or to a macro.
fn keep_mappings(
    patterns: &mut Vec<pattern::Mapping<Vec<Assignment<Vec<u8>>>>>,
    names: &[&[u8]],
    macros: &MacroTable,
)
    ensures { patterns.new.items ≡ filter (λ mapping. assigns_named names.now macros.now (seen_assignments mapping.value)) patterns.old.items }
{
    patterns.retain(|mapping| assigns_named(&mapping.value, names, macros));
}

/// Whether one of the assignments is to one of the names, or to a macro.
fn assigns_named(assignments: &[Assignment<Vec<u8>>], names: &[&[u8]], macros: &MacroTable) -> bool
    ensures { result ≡ assigns_named names.now macros.now (map (assignment_with vec_items) assignments.now) }
{
    assignments
        .iter()
        .any(|assignment| is_named(&assignment.name, names, macros))
}

/// Whether a name is one of the names, or a macro's.
fn is_named(name: &[u8], names: &[&[u8]], macros: &MacroTable) -> bool
    ensures { result ≡ is_named names.now macros.now name.now }
{
    macros.place_of(name).is_some() || names.iter().any(|other| *other == name)
}
