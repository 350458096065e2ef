//! A path that is listed, as pathspecs are held against it.
ghost use Rattle.std.specs.Prelude.{◌≡◌, ◌↔◌, IfOk, IsTrue, None, option_map};
ghost use Rattle.std.specs.Vec.{vec_items};
ghost use Rattle.git_index.specs.Entries.{tracked};
ghost use Rattle.pathspecs.specs.declared.manner.Manner.TheVariants.{Exact};
ghost use Rattle.pathspecs.specs.Elements.{MeetsBy};
ghost use Rattle.tree_commands.specs.TrackedFiles.{is_submodule};
ghost use Rattle.globtree.specs.Listed.{IsMetListed, IsText, MatchesListed, MeetsListed, folder_of_entry, seen_listed};

use git_index::{Entry, Kind};
use pathspecs::{Element, Manner, PathspecList};
use std::alloc::{AllocError, Global};
use tree_files::folder_path;

/// A path that is listed, as pathspecs are held against it.
#[derive(Debug, Drop)]
pub(crate) struct ListedPath<'a> {
    /// From the top. That of a folder that is found has a slash at its end, and that of a submodule none.
    path: &'a [u8],
    /// The path with a slash at its end, where it is a submodule's.
    folder: Option<Vec<u8>>,
}

impl<'a> ListedPath<'a> {
    /// That of what is found.
    pub(crate) fn found(path: &'a [u8]) -> ListedPath<'a>
        ensures path { result.path.now ≡ path.entry.now }
        ensures folder { result.folder ≡ None }
    {
        ListedPath { path, folder: None }
    }

    /// That of an entry of the index.
    pub(crate) fn of_entry(alloc: Global, entry: &'a Entry) -> Result<ListedPath<'a>, AllocError>
        ensures path { IfOk result (λ listed. listed.path.now ≡ (tracked entry.entry.now).path) }
        ensures folder { IfOk result (λ listed. option_map vec_items listed.folder ≡ folder_of_entry (tracked entry.entry.now)) }
    {
        let path = entry.path.as_slice();
        let folder = if is_submodule(entry.kind) {
            Some(folder_path(alloc, path)?)
        } else {
            None
        };
        Ok(ListedPath { path, folder })
    }

    /// Whether an element meets it. A submodule's path is met, too, by a text that is the path and a slash.
    pub(crate) fn is_met(&self, element: &Element) -> bool
        ensures { IsTrue result ↔ MeetsListed element.now (seen_listed self.now) }
    {
        element.meets(self.path) || self.is_text(element)
    }

    /// Whether it is a submodule's, and the text of an element is its path and a slash.
    fn is_text(&self, element: &Element) -> bool
        ensures { IsTrue result ↔ IsText element.now (seen_listed self.now) }
    {
        match &self.folder {
            Some(folder) => is_exact(element, folder),
            None => false,
        }
    }

    /// Whether a list matches it.
    pub(crate) fn is_matched(&self, list: &PathspecList) -> bool
        ensures { IsTrue result ↔ MatchesListed list.now (seen_listed self.now) }
    {
        if self.folder.is_none() {
            return list.matches(self.path);
        }
        self.is_met_by(list.elements(), false) && !self.is_met_by(list.elements(), true)
    }

    /// Whether some exclude, or some positive element, meets it.
    fn is_met_by(&self, elements: &[Element], exclude: bool) -> bool
        ensures { IsTrue result ↔ IsMetListed exclude elements.now (seen_listed self.now) }
    {
        'elements: for element in elements {
            if self.is_met_as(element, exclude) {
                return true;
            }
        }
        false
    }

    /// Whether an element is an exclude or not, and meets it.
    fn is_met_as(&self, element: &Element, exclude: bool) -> bool
        ensures { IsTrue result ↔ (element.now.magic.exclude ≡ exclude) × MeetsListed element.now (seen_listed self.now) }
    {
        element.magic().exclude == exclude && self.is_met(element)
    }
}

/// Whether an element meets a path by its text.
fn is_exact(element: &Element, path: &[u8]) -> bool
    ensures { IsTrue result ↔ MeetsBy Exact element.now path.now }
{
    match element.manner(path) {
        Some(Manner::Exact) => true,
        Some(Manner::Wild | Manner::Below) | None => false,
    }
}

/// Whether an entry is a submodule.
fn is_submodule(kind: Kind) -> bool
    ensures { result ≡ is_submodule kind }
{
    matches!(kind, Kind::Submodule)
}
