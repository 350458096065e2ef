//! Where a spelt path leads.
ghost use Rattle.std.specs.Prelude.{◌≡◌, ◌==◌, false, length, None, Some, IfOk, MatchOption};
ghost use Rattle.std.specs.List.{list_any};
ghost use Rattle.git_paths.specs.Paths.{names_folder, parts_of};
ghost use Rattle.git_paths.specs.Standpoints.{led};
ghost use Rattle.pathspecs.specs.Leading.{front_of, leads, leads_from_root, names_folder_so, standing};
ghost use Rattle.pathspecs.specs.Spelling.{seen};

use crate::spelling::Pathspec;
use git_paths::{LeadFault, Standpoint, walk};
use std::alloc::{AllocError, Global};

impl Pathspec<'_> {
    /// Goes where the path leads: `path` becomes its path from the top. It answers whether it is told as a folder's, and `None` where it
    /// leads nowhere in the work tree. One that is told from the top stands for itself: `.` and `..` are names in it, and it leads nowhere
    /// where two slashes follow one another, or one stands in front.
    ///
    /// # Errors
    /// Only where memory was refused.
    pub fn lead(
        &self,
        alloc: Global,
        standpoint: &Standpoint,
        path: &mut Vec<u8>,
    ) -> Result<Option<bool>, AllocError>
        ensures { IfOk result (λ led. MatchOption led (leads standpoint.now (seen self.now) ≡ None)
            (λ is_folder. (leads standpoint.now (seen self.now) ≡ Some path.new.items) × (is_folder ≡ names_folder_so (seen self.now)))) }
    {
        if !self.is_from_top {
            return lead_from_here(alloc, standpoint, path, self.path);
        }
        let Some(bare) = standing(self.path) else {
            return Ok(None);
        };
        path.clear();
        path.extend_from_slice(bare)?;
        Ok(Some(self.path.ends_with(b"/")))
    }

    /// Goes where a path leads that is told from the root: `path` becomes its path from there, without the slash at its front. It answers
    /// whether it is told as a folder's, and `None` where the path is told from elsewhere, or leads above the root.
    ///
    /// # Errors
    /// Only where memory was refused.
    pub fn lead_from_root(&self, path: &mut Vec<u8>) -> Result<Option<bool>, AllocError>
        ensures { IfOk result (λ led. MatchOption led (leads_from_root (seen self.now) ≡ None)
            (λ is_folder. (leads_from_root (seen self.now) ≡ Some path.new.items) × (is_folder ≡ names_folder_so (seen self.now)))) }
    {
        if self.is_from_top || !self.path.starts_with(b"/") {
            return Ok(None);
        }
        path.clear();
        walk(path, self.path)
    }

    /// How many bytes of the current folder's path stay in front of where the path leads ([`Standpoint::literal_front`]).
    pub fn literal_front(&self, standpoint: &Standpoint) -> usize
        ensures { result ≡ front_of standpoint.now (seen self.now) }
    {
        if self.is_from_top {
            return 0;
        }
        standpoint.literal_front(self.path)
    }
}

/// Goes where a path leads that is told from the current folder, which one without bytes is.
pub(crate) fn lead_from_here(
    alloc: Global,
    standpoint: &Standpoint,
    path: &mut Vec<u8>,
    told: &[u8],
) -> Result<Option<bool>, AllocError>
    ensures { IfOk result (λ going. MatchOption going (led standpoint.now told.now ≡ None)
        (λ is_folder. (led standpoint.now told.now ≡ Some path.new.items) × (is_folder ≡ names_folder false (parts_of told.now)))) }
{
    let told = if told.is_empty() {
        b".".as_slice()
    } else {
        told
    };
    match standpoint.lead(alloc, path, told) {
        Ok(is_folder) => Ok(Some(is_folder)),
        Err(LeadFault::Outside | LeadFault::Empty) => Ok(None),
        Err(LeadFault::Memory) => Err(AllocError),
    }
}

/// What a path that is told from the top stands for: itself, without a slash at its end.
fn standing(path: &[u8]) -> Option<&[u8]>
    ensures { MatchOption result (standing path.entry.now ≡ None) (λ bare. standing path.entry.now ≡ Some bare.now) }
{
    if path.is_empty() {
        return Some(path);
    }
    let bare = path.strip_suffix(b"/").unwrap_or(path);
    if bare.split(|byte| *byte == b'/').any(|part| part.is_empty()) {
        return None;
    }
    Some(bare)
}
