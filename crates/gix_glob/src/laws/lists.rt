//! Laws of mappings and lists of patterns: what their order is, and that it and their hash agree with equality.
ghost use Rattle.std.specs.Prelude.{◌≡◌, ◌↔◌, IsTrue};
ghost use Rattle.std.specs.declared.cmp.Ordering.TheVariants.{Equal};
ghost use Rattle.gix_glob.specs.Laws.Orders.{list_cmp, mapping_cmp};

use crate::search::Pattern;
use crate::search::pattern::{List, Mapping};
use std::hash::Hash;

/// Mappings are ordered by their pattern, then by their value, then by their number. They tie exactly where they are
/// equal, and then hash alike.
pub fn mapping_order_agrees_with_equality<V: Ord + Hash>()
    ensures order { (a b : Mapping V) → ⟦<Mapping<V> as Ord>⟧.cmp a b ≡ mapping_cmp V.Ord.cmp a b }
    ensures ties { (a b : Mapping V) → (⟦<Mapping<V> as Ord>⟧.cmp a b ≡ Equal) ↔ IsTrue (⟦<Mapping<V> as PartialEq>⟧.eq a b) }
    ensures hash { (a b : Mapping V) → IsTrue (⟦<Mapping<V> as PartialEq>⟧.eq a b)
        → ⟦<Mapping<V> as Hash>⟧.hash_input a ≡ ⟦<Mapping<V> as Hash>⟧.hash_input b }
{
    comparisons_agree::<Mapping<V>>()
}

/// Lists are ordered by their mappings, then by their source, then by their base, where `None` comes first. They tie
/// exactly where they are equal, and then hash alike.
pub fn list_order_agrees_with_equality<T: Pattern>()
    ensures order { (a b : List T T.Value) → ⟦<List<T> as Ord>⟧.cmp a b ≡ list_cmp T.Value.Ord.cmp a b }
    ensures ties { (a b : List T T.Value) → (⟦<List<T> as Ord>⟧.cmp a b ≡ Equal) ↔ IsTrue (⟦<List<T> as PartialEq>⟧.eq a b) }
    ensures hash { (a b : List T T.Value) → IsTrue (⟦<List<T> as PartialEq>⟧.eq a b)
        → ⟦<List<T> as Hash>⟧.hash_input a ≡ ⟦<List<T> as Hash>⟧.hash_input b }
{
    comparisons_agree::<List<T>>()
}

/// What holds for each type: ties are equalities, and equal values hash alike.
fn comparisons_agree<T: Ord + Hash>()
    ensures ties { (a b : T) → (T.Ord.cmp a b ≡ Equal) ↔ IsTrue (T.PartialEq.eq a b) }
    ensures hash { (a b : T) → IsTrue (T.PartialEq.eq a b) → T.Hash.hash_input a ≡ T.Hash.hash_input b }
{}
