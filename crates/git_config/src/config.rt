//! A configuration: its entries, in order.
ghost use Rattle.std.specs.Prelude.{◌≡◌, ◌<◌, ◌+◌, ◌++◌, ◌∷◌, [], IfOk, List, MatchOption, MatchResult, None, Ok, Err, drop, length, map};
ghost use Rattle.git_config.specs.Configuration.{Seen, last_said, seen_setting, settings_of};
ghost use Rattle.git_config.specs.Private.Answering.{IsLast};
ghost use Rattle.git_config.specs.Private.Sections.{seen_in};

use crate::booleans::boolean;
use crate::entry_place::{EntryPlace, short};
use crate::item::Entry;
use crate::keys::is_key;
use crate::section::Section;
use crate::setting::ReadSetting;
use crate::shown::append_behind_key;
use crate::surroundings::slice_of;
use std::alloc::{AllocError, Global};
use std::marker::Model;
use std::rc::Rc;

/// What a configuration says: its entries, in order. The last of a key counts. Their names and values lie in one text, and each section
/// is kept once.
#[derive(Debug, Drop)]
pub struct Config {
    text: Vec<u8>,
    places: Vec<EntryPlace>,
}

impl Model for Config {
    ghost use Rattle.std.specs.Prelude.{List, map};
    ghost use Rattle.std.specs.List.{AllByRecursion};
    ghost use Rattle.git_config.specs.Configuration.{Seen};

    ghost Value = { List Seen };

    ghost use Rattle.git_config.specs.Private.Sections.{LiesIn, placed};

    ghost view = { λ config. map (placed config.text.items) config.places.items };

    ghost invariant = { λ config. AllByRecursion (LiesIn config.text.items) config.places.items };
}

impl Config {
    /// A configuration without entries.
    pub fn new(alloc: Global) -> Config
        ensures { result ≡ [] }
    {
        Config {
            text: Vec::new(alloc),
            places: Vec::new(alloc),
        }
    }

    /// How many entries it has.
    pub fn len(&self) -> usize
        ensures { result ≡ length self.now }
    {
        self.places.len()
    }

    /// The entry at a place, from 0.
    pub fn at(&self, place: usize) -> ReadSetting<'_>
        requires { place < length self.now }
        ensures { drop place self.now ≡ seen_setting result ∷ drop (place + 1) self.now }
    {
        self.places[place].setting(&self.text)
    }

    /// Adds an entry of a section. The names and values of all may have less than 4 GiB.
    pub(crate) fn push(
        &mut self,
        section: &Rc<Section>,
        entry: Entry<Vec<u8>>,
    ) -> Result<(), AllocError>
        ensures { IfOk result (λ _. self.new ≡ self.old ++ seen_in section.now.value entry ∷ []) }
    {
        let start = self.text.len();
        let name_end = start + entry.name.len();
        let mut written = entry.name;
        append_behind_key(&mut written, slice_of(&entry.value), false)?;
        let place = EntryPlace {
            section: section.clone()?,
            line: short(entry.line)?,
            start: short(start)?,
            name_end: short(name_end)?,
            end: short(start + written.len())?,
        };
        self.text.extend_from_slice(&written)?;
        self.places.push(place)?;
        Ok(())
    }

    /// The entries of a key, in order. A key is the name of a section in lower case, a full stop, the subsection and a full stop where
    /// there is one, and the name of an entry in lower case.
    ///
    /// # Errors
    /// Only where memory was refused.
    pub fn entries_of(&self, alloc: Global, key: &[u8]) -> Result<Vec<ReadSetting<'_>>, AllocError>
        ensures { IfOk result (λ found. map seen_setting found.items ≡ settings_of key.now self.now) }
    {
        let mut found = Vec::new(alloc);
        'places: for place in 0..self.len() {
            let setting = self.at(place);
            if is_key(setting.section, setting.entry.name, key) {
                found.push(setting)?;
            }
        }
        Ok(found)
    }

    /// The last entry of a key, which counts; `None` where there is none.
    pub fn last_of(&self, key: &[u8]) -> Option<ReadSetting<'_>>
        ensures { MatchOption result
            (settings_of key.now self.now ≡ [])
            (λ last. (front : List Seen) × (settings_of key.now self.now ≡ front ++ seen_setting last ∷ [])) }
    {
        let place = self.last_place(key)?;
        Some(self.at(place))
    }

    /// The place of the last entry of a key.
    pub(crate) fn last_place(&self, key: &[u8]) -> Option<usize>
        ensures { MatchOption result (settings_of key.now self.now ≡ []) (λ place. IsLast key.now self.now place) }
    {
        let mut left = self.len();
        'places: while left > 0 {
            left -= 1;
            let setting = self.at(left);
            if is_key(setting.section, setting.entry.name, key) {
                return Some(left);
            }
        }
        None
    }

    /// The boolean of the last entry of a key, as [`boolean`](crate::boolean) reads it; `None` where there is none. Each is looked at.
    ///
    /// # Errors
    /// The first entry that says no boolean, also where a later one does.
    pub fn boolean(&self, key: &[u8]) -> Result<Option<bool>, ReadSetting<'_>>
        ensures { MatchResult result
            (λ last. last_said None (settings_of key.now self.now) ≡ Ok last)
            (λ wrong. last_said None (settings_of key.now self.now) ≡ Err (seen_setting wrong)) }
    {
        let mut last = None;
        'places: for place in 0..self.len() {
            let setting = self.at(place);
            if is_key(setting.section, setting.entry.name, key) {
                let Some(said) = boolean(setting.entry.value) else {
                    return Err(setting);
                };
                last = Some(said);
            }
        }
        Ok(last)
    }
}
