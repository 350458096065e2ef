//! Numbers by names: a sorted tree, so that many names cost little, whoever chose them.
ghost use Rattle.std.specs.Prelude.{◌≡◌, ℕ, if◌then◌else◌, List, None, OnErr, OnOk, Some};
ghost use Rattle.std.specs.Str.{bytes_eq};
ghost use Rattle.glob_attributes.specs.Private.Places.{place_in};

use std::alloc::{AllocError, Global};
use std::collections::BTreeMap;

/// A number for each of some names.
#[derive(Debug, Drop)]
pub(crate) struct Places {
    places: BTreeMap<Vec<u8>, usize>,
}

impl Places {
    /// No numbers.
    pub(crate) fn new(alloc: Global) -> Places
        ensures { (name : List ℕ) → place_in result name ≡ None }
    {
        Places {
            places: BTreeMap::new(alloc),
        }
    }

    /// The number of a name.
    pub(crate) fn get(&self, name: &[u8]) -> Option<usize>
        ensures { result ≡ place_in self.now name.now }
    {
        self.places.get(name).copied()
    }

    /// Gives a name this number, in place of what it had.
    ///
    /// # Errors
    /// Only where memory was refused: nothing is changed then.
    pub(crate) fn set(&mut self, alloc: Global, name: &[u8], place: usize) -> Result<(), AllocError>
        ensures set { OnOk result ((other : List ℕ) → place_in self.new other ≡ (if bytes_eq name.now other then Some place else place_in self.old other)) }
        ensures err { OnErr result ((other : List ℕ) → place_in self.new other ≡ place_in self.old other) }
    {
        let key = Vec::from_slice(alloc, name)?;
        self.places.insert(key, place)?;
        Ok(())
    }
}
