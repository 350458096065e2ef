//! A row of assignments with what macros put in.
ghost use Rattle.std.specs.Prelude.{◌≡◌, ◌+◌, ◌++◌, ◌∷◌, ◌≤◌, [], List, IfOk, OnOk, false, length, map, replicate, reverse};
ghost use Rattle.std.specs.Vec.{vec_items};
ghost use Rattle.glob_attributes.specs.Views.{assignment_with};
ghost use Rattle.glob_attributes.specs.Private.Filling.{AreMarked, seen_entry, unmarked};
ghost use Rattle.glob_attributes.specs.States.{Assigned, IsFilledIn, put_in};

use crate::assignment::Assignment;
use crate::macro_table::MacroTable;
use crate::marking::marked_place;
use std::alloc::{AllocError, Global};

/// The row of a path, from the weakest assignment to the strongest, with what macros put in, from the strongest to the weakest. Each
/// macro is put in once at most.
pub(crate) fn fill_in<'a>(
    alloc: Global,
    row: Vec<&'a Assignment<Vec<u8>>>,
    macros: &'a MacroTable,
) -> Result<Vec<&'a Assignment<Vec<u8>>>, AllocError>
    ensures { IfOk result (λ filled. IsFilledIn macros.now [] (reverse (map seen_entry row.entry.items)) (map seen_entry filled.items)) }
{
    if row.is_empty() {
        return Ok(row);
    }
    let mut marks = new_marks(alloc, macros.len())?;
    let mut filled = Vec::with_capacity(alloc, row.len())?;
    let mut left = row;
    'left: while let Some(assignment) = left.pop() {
        filled.push(assignment)?;
        push_each(&mut left, put_in(&mut marks, macros, assignment))?;
    }
    Ok(filled)
}

/// No mark for each of so many macros.
fn new_marks(alloc: Global, count: usize) -> Result<Vec<bool>, AllocError>
    ensures { IfOk result (λ marks. marks.items ≡ replicate count false) }
{
    vec![in alloc; false; count]
}

/// What an assignment puts in, in the order of the macro's line. Marks the macro of its name.
fn put_in<'a>(
    marks: &mut [bool],
    macros: &'a MacroTable,
    assignment: &Assignment<Vec<u8>>,
) -> &'a [Assignment<Vec<u8>>]
    requires { length marks.old ≡ length macros.now }
    ensures put_in { (before : List Assigned) → AreMarked macros.now before marks.old →
        reverse (map (assignment_with vec_items) result.now) ≡ put_in macros.now before (assignment_with vec_items assignment.now) }
    ensures marked { (before : List Assigned) → AreMarked macros.now before marks.old →
        AreMarked macros.now (assignment_with vec_items assignment.now ∷ before) marks.new }
    ensures fewer { length result.now + unmarked macros.now marks.new ≤ unmarked macros.now marks.old }
    ensures count { length marks.new ≡ length marks.old }
{
    let named = macros.place_of(&assignment.name);
    match marked_place(marks, named, assignment.state.is_set()) {
        Some(place) => macros.assignments(place),
        None => &[],
    }
}

/// Adds each of the assignments.
pub(crate) fn push_each<'a>(
    row: &mut Vec<&'a Assignment<Vec<u8>>>,
    assignments: &'a [Assignment<Vec<u8>>],
) -> Result<(), AllocError>
    ensures { OnOk result (map seen_entry row.new.items ≡ map seen_entry row.old.items ++ map (assignment_with vec_items) assignments.now) }
{
    for assignment in assignments {
        row.push(assignment)?;
    }
    Ok(())
}
