//! Why a path is ignored, or isn't.
ghost use Rattle.std.specs.Prelude.{◌≡◌};
ghost use Rattle.glob_lists.specs.Deciding.{BasesAreFolders};
ghost use Rattle.glob_explain.specs.Causes.{IsCause, ignores, seen};

use gix_glob::search::pattern::List;
use glob_lines::GitIgnoreLines;
use glob_lists::{ListStack, RepositoryPath, Rules};
use glob_trees::{IgnoredFolder, ignored_folder_by};

/// Why a path is ignored, or isn't. A pair has the places of a list and of a line in it, both from 0.
#[derive(Clone, Copy, Debug, PartialEq, Eq)]
pub enum Cause {
    /// This folder above it is ignored.
    InFolder(IgnoredFolder),
    /// This line ignores it.
    Ignored((usize, usize)),
    /// This line, which has `!` in front, takes it back.
    TakenBack((usize, usize)),
    /// No line matches it.
    Unmatched,
}

impl Cause {
    /// Whether the path is ignored.
    pub fn ignores(self) -> bool
        ensures { result ≡ ignores self }
    {
        matches!(self, Cause::InFolder(_) | Cause::Ignored(_))
    }
}

/// Why a path is ignored, or isn't, by these lists and rules. No memory is taken. The bases of the lists have to be those of folders
/// ([`bases_are_folders`](glob_lists::bases_are_folders)).
pub fn cause_of(lists: &[List<GitIgnoreLines>], path: &RepositoryPath<'_>, rules: Rules) -> Cause
    requires { BasesAreFolders (seen lists.now) }
    ensures { IsCause (seen lists.now) rules path.now result }
{
    if let Some(folder) = ignored_folder_by(&lists, path, rules) {
        return Cause::InFolder(folder);
    }
    let Some(pair) = lists.decide(path, rules) else {
        return Cause::Unmatched;
    };
    if lists.is_negative(pair) {
        return Cause::TakenBack(pair);
    }
    Cause::Ignored(pair)
}
