//! Lists that are asked about many paths, prepared so that each path tests few of their lines.
ghost use Rattle.std.specs.Prelude.{◌≡◌, ◌<◌, IfOk, IsTrue, OnOk, length};
ghost use Rattle.glob_lists.specs.Deciding.{BasesAreFolders};
ghost use Rattle.glob_lists.specs.Matches.{AreMatches};
ghost use Rattle.glob_trees.specs.Trees.{HasNoneIgnored};
ghost use Rattle.glob_lint.specs.Private.Asking.{base_at};
ghost use Rattle.glob_lint.specs.Seen.{seen};

use gix_glob::search::pattern::List;
use glob_lines::GitIgnoreLines;
use glob_lists::{ListStack, PreparedStack, RepositoryPath, Rules, decide_by};
use glob_trees::ignored_folder_by;
use std::alloc::{AllocError, Global};

/// Lists, and the rules by which their lines match.
#[derive(Drop)]
pub(crate) struct AskedLists<'a> {
    pub(crate) lists: &'a [List<GitIgnoreLines>],
    pub(crate) rules: Rules,
    stack: PreparedStack<'a, GitIgnoreLines>,
    ghost same_lists: { stack.lists ≡ lists.now },
    ghost same_rules: { stack.rules ≡ rules },
}

impl<'a> AskedLists<'a> {
    /// Prepares lists.
    ///
    /// # Errors
    /// Only where memory was refused.
    pub(crate) fn new(
        alloc: Global,
        lists: &'a [List<GitIgnoreLines>],
        rules: Rules,
    ) -> Result<AskedLists<'a>, AllocError>
        requires { BasesAreFolders (seen lists.now) }
        ensures { IfOk result (λ asked. (asked.lists.now ≡ lists.entry.now) × (asked.rules ≡ rules)) }
    {
        let stack = PreparedStack::new(alloc, lists, rules)?;
        Ok(AskedLists {
            lists,
            rules,
            stack,
        })
    }

    /// The base of the list at a place; no bytes where it has none.
    pub(crate) fn base_of(&self, at: usize) -> &'a [u8]
        requires { at < length self.now.lists.now }
        ensures { result.now ≡ base_at (seen self.now.lists.now) at }
    {
        match &self.lists[at].base {
            Some(base) => base,
            None => b"",
        }
    }

    /// Whether it is seen that no folder of the base of the list at a place is ignored.
    pub(crate) fn has_free_base(&self, at: usize) -> bool
        requires folders { BasesAreFolders (seen self.now.lists.now) }
        requires inside { at < length self.now.lists.now }
        ensures { IsTrue result → HasNoneIgnored (seen self.now.lists.now) self.now.rules (base_at (seen self.now.lists.now) at) }
    {
        match RepositoryPath::new(self.base_of(at), true) {
            Some(path) => ignored_folder_by(self, &path, self.rules).is_none(),
            None => false,
        }
    }

    /// Puts into `found` the places of all lines that match a path, in order, in place of what it held.
    ///
    /// # Errors
    /// Only where memory was refused.
    pub(crate) fn matches_into(
        &self,
        path: &RepositoryPath<'_>,
        found: &mut Vec<(usize, usize)>,
    ) -> Result<(), AllocError>
        ensures { OnOk result (AreMatches (seen self.now.lists.now) path.now.bytes path.now.is_dir self.now.rules found.new.items) }
    {
        self.stack.matches_into(path, found)
    }
}

impl<'a> ListStack for AskedLists<'a> {
    ghost use Rattle.glob_lists.specs.Deciding.{BasesAreFolders};
    ghost use Rattle.glob_lint.specs.Seen.{seen};

    ghost Seen = { Unit {0} };

    ghost lists = { λ asked. seen asked.lists.now };

    ghost can_decide = { λ asked. BasesAreFolders (seen asked.lists.now) };

    ghost is_lawful = { λ _. Unit {0} };

    fn decide(&self, path: &RepositoryPath<'_>, rules: Rules) -> Option<(usize, usize)> {
        if rules == self.rules {
            return self.stack.decide(path);
        }
        decide_by(self.lists, path, rules)
    }

    fn is_negative(&self, pair: (usize, usize)) -> bool {
        self.lists.is_negative(pair)
    }
}
