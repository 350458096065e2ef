//! All macros that count for a path, found by their names.
ghost use Rattle.std.specs.Prelude.{◌≡◌, ◌++◌, ◌<◌, IfOk, OnErr, OnOk, codes, length, map};
ghost use Rattle.glob_attributes.specs.Macros.{macros_of};
ghost use Rattle.glob_attributes.specs.Views.{assignment_with, seen_macro};
ghost use Rattle.glob_attributes.specs.Private.Filling.{HasLastPlaces, assignments_at, last_place};
ghost use Rattle.glob_attributes.specs.Private.Slots.{HasSlots, slot_of};
ghost use Rattle.std.specs.Vec.{vec_items};

use crate::assignment::Assignment;
use crate::macros::{Macro, macros_of};
use crate::places::Places;
use std::alloc::{AllocError, Global};
use std::marker::Model;

/// How many slots there are for names.
const SLOTS: usize = 256;

/// The macros that count for a path, wherever it lies: the one that is built in, and those of the files that define any. Contracts
/// see them in order; of several of one name the last counts.
#[derive(Debug, Drop)]
pub struct MacroTable {
    macros: Vec<Macro>,
    /// The place of the last macro of each name.
    places: Places,
    /// Which slots the names of macros have. Most names that no macro has are known by their slot.
    slots: [bool; SLOTS],
}

impl Model for MacroTable {
    ghost use Rattle.std.specs.Prelude.{List, map};
    ghost use Rattle.glob_attributes.specs.Macros.{Definition};
    ghost use Rattle.glob_attributes.specs.Private.Slots.{IsTable};
    ghost use Rattle.glob_attributes.specs.Views.{seen_macro};

    ghost Value = { List Definition };

    ghost view = { λ table. map seen_macro table.macros.items };

    ghost invariant = { λ table. IsTable table.places table.slots (map seen_macro table.macros.items) };
}

impl MacroTable {
    /// The macro that is built in: `binary`.
    ///
    /// # Errors
    /// Only where memory was refused.
    pub fn new(alloc: Global) -> Result<MacroTable, AllocError>
        ensures { IfOk result (λ table. table ≡ macros_of (codes "[attr]binary -diff -merge -text")) }
    {
        let macros = macros_of(alloc, b"[attr]binary -diff -merge -text")?;
        let places = last_places(alloc, &macros)?;
        let slots = slots_of(&macros);
        Ok(MacroTable {
            macros,
            places,
            slots,
        })
    }

    /// Adds the macros that an attribute file defines. The files come from the weakest to the strongest, as their lists do; one of a
    /// folder below the top defines none, and isn't added.
    ///
    /// # Errors
    /// Only where memory was refused: the macros are then as they were.
    pub fn add_file(&mut self, alloc: Global, bytes: &[u8]) -> Result<(), AllocError>
        ensures added { OnOk result (self.new ≡ self.old ++ macros_of bytes.now) }
        ensures err { OnErr result (self.new ≡ self.old) }
    {
        let mut more = macros_of(alloc, bytes)?;
        let count = self.macros.len();
        self.macros.append(&mut more)?;
        match last_places(alloc, &self.macros) {
            Ok(places) => {
                self.places = places;
                self.slots = slots_of(&self.macros);
                Ok(())
            }
            Err(refused) => {
                self.macros.truncate(count);
                Err(refused)
            }
        }
    }

    /// How many macros there are.
    pub(crate) fn len(&self) -> usize
        ensures { result ≡ length self.now }
    {
        self.macros.len()
    }

    /// The place of the last macro of a name.
    pub(crate) fn place_of(&self, name: &[u8]) -> Option<usize>
        ensures { result ≡ last_place name.now self.now }
    {
        if !self.slots[usize::from(slot_of(name))] {
            return None;
        }
        self.places.get(name)
    }

    /// What the macro at a place assigns.
    pub(crate) fn assignments(&self, place: usize) -> &[Assignment<Vec<u8>>]
        requires { place < length self.now }
        ensures { map (assignment_with vec_items) result.now ≡ assignments_at self.now place }
    {
        &self.macros[place].assignments
    }
}

/// The place of the last macro of each name.
fn last_places(alloc: Global, macros: &[Macro]) -> Result<Places, AllocError>
    ensures { IfOk result (λ places. HasLastPlaces places (map seen_macro macros.now)) }
{
    let mut places = Places::new(alloc);
    'macros: for place in 0..macros.len() {
        places.set(alloc, &macros[place].name, place)?;
    }
    Ok(places)
}

/// Which slots the names of macros have.
fn slots_of(macros: &[Macro]) -> [bool; SLOTS]
    ensures { HasSlots result (map seen_macro macros.now) }
{
    let mut slots = [false; SLOTS];
    'macros: for place in 0..macros.len() {
        slots[usize::from(slot_of(&macros[place].name))] = true;
    }
    slots
}

/// The slot of a name, by its first byte and its last.
fn slot_of(name: &[u8]) -> u8
    ensures { result ≡ slot_of name.now }
{
    let (Some(first), Some(last)) = (name.first(), name.last()) else {
        return 0;
    };
    first.wrapping_mul(32).wrapping_add(*last)
}
