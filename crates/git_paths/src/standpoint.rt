//! Where paths are told from, and where they lead.
ghost use Rattle.std.specs.Prelude.{◌≡◌, ◌↔◌, ◌++◌, [], false, true, IfOk, IsErrOf, IsTrue, None, OnOk, Some};
ghost use Rattle.git_paths.specs.declared.standpoint.LeadFault.TheVariants.{Empty, Memory, Outside};
ghost use Rattle.git_paths.specs.Paths.{names_folder, parts_of};
ghost use Rattle.git_paths.specs.Standpoints.{led, literal_front, shown};

use crate::fronts::front_left;
use crate::paths::{append_seen, below_folder, enter, walk};
use std::alloc::{AllocError, Global};
use thiserror::Error;

/// Where paths are told from.
#[derive(Debug, Drop)]
pub struct Standpoint {
    /// The path of the top of the work tree, without the slash at its front.
    pub top: Vec<u8>,
    /// The path of the current folder: from the top where it lies there, else without the slash at its front.
    pub here: Vec<u8>,
    /// Whether the current folder lies in the work tree.
    pub is_inside: bool,
}

/// Why a told path leads nowhere.
#[derive(Debug, Drop, Error)]
pub enum LeadFault {
    /// Memory was refused.
    #[error("no memory")]
    Memory,
    /// The path has no bytes.
    #[error("an empty text is no path")]
    Empty,
    /// The path leads out of the work tree.
    #[error("the path leads out of the work tree")]
    Outside,
}

impl From<AllocError> for LeadFault {
    ghost from_gives = { λ _ fault. fault ≡ Memory };

    fn from(_refused: AllocError) -> LeadFault {
        LeadFault::Memory
    }
}

impl Standpoint {
    /// Whether paths are told from the top.
    pub fn is_at_top(&self) -> bool
        ensures { IsTrue result ↔ (self.now.is_inside ≡ true) × (self.now.here.items ≡ []) }
    {
        self.is_inside && self.here.is_empty()
    }

    /// Goes where a told path leads: `path` becomes its path from the top. It answers whether the path names a folder by its last part.
    ///
    /// # Errors
    /// [`LeadFault::Empty`] for a path without bytes, and there alone; [`LeadFault::Outside`] for one that leads out of the work tree;
    /// [`LeadFault::Memory`] where memory was refused.
    pub fn lead(&self, alloc: Global, path: &mut Vec<u8>, told: &[u8]) -> Result<bool, LeadFault>
        ensures leads { IfOk result (λ is_folder. (led self.now told.now ≡ Some path.new.items) × (is_folder ≡ names_folder false (parts_of told.now))) }
        ensures empty { IsErrOf result Empty ↔ told.now ≡ [] }
        ensures outside { IsErrOf result Outside → led self.now told.now ≡ None }
    {
        if told.is_empty() {
            return Err(LeadFault::Empty);
        }
        let is_absolute = told[0] == b'/';
        path.clear();
        if !is_absolute {
            path.extend_from_slice(&self.here)?;
        }
        let Some(is_folder) = walk(path, told)? else {
            return Err(LeadFault::Outside);
        };
        if is_absolute || !self.is_inside {
            let Some(left) = below_folder(path, &self.top) else {
                return Err(LeadFault::Outside);
            };
            *path = Vec::from_slice(alloc, left)?;
        }
        Ok(is_folder)
    }

    /// How many bytes of the current folder's path stay in front of where a told path leads, which are not told, and so stand for
    /// themselves where the told path is a pattern: without the slash behind them, and none where the folder lies outside of the work
    /// tree or the path is told from the root.
    pub fn literal_front(&self, told: &[u8]) -> usize
        ensures { result ≡ literal_front self.now told.now }
    {
        if !self.is_inside || told.starts_with(b"/") {
            return 0;
        }
        front_left(&self.here, told)
    }

    /// Appends what leads from the current folder to a path that is told from the top.
    ///
    /// # Errors
    /// Only where memory was refused.
    pub fn append_seen(&self, text: &mut Vec<u8>, path: &[u8]) -> Result<(), AllocError>
        ensures { OnOk result (text.new.items ≡ text.old.items ++ shown self.now path.now) }
    {
        if self.is_inside {
            return append_seen(text, &self.here, path);
        }
        let mut whole = self.top.clone()?;
        enter(&mut whole, path)?;
        append_seen(text, &self.here, &whole)
    }
}
