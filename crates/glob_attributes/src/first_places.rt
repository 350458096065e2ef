//! Where each attribute is named first among assignments, so that one of many is found without a look at each.
ghost use Rattle.std.specs.Prelude.{IfOk, map};
ghost use Rattle.glob_attributes.specs.Private.Filling.{seen_entry};
ghost use Rattle.glob_attributes.specs.Private.Firsts.{AreFirst};

use crate::assignment::Assignment;
use crate::places::Places;
use std::alloc::{AllocError, Global};

/// The place of the first of the assignments that names each attribute.
///
/// # Errors
/// Only where memory was refused.
pub(crate) fn first_places(
    alloc: Global,
    filled: &[&Assignment<Vec<u8>>],
) -> Result<Places, AllocError>
    ensures { IfOk result (AreFirst (map seen_entry filled.now) (map seen_entry filled.now)) }
{
    let mut places = Places::new(alloc);
    'places: for i in 0..filled.len() {
        let name = filled[i].name.as_slice();
        if places.get(name).is_none() {
            places.set(alloc, name, i)?;
        }
    }
    Ok(places)
}
