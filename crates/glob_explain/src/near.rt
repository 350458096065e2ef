//! Lines that nearly match a path: a small change makes them match, and turns whether it is ignored.
ghost use Rattle.std.specs.Prelude.{◌≡◌, All, IfOk, IsTrue};
ghost use Rattle.gix_glob.specs.EntryLists.{entry_list_of};
ghost use Rattle.gix_glob.specs.Paths.{IsFolder};
ghost use Rattle.glob_lists.specs.Deciding.{BasesAreFolders, HasFolder};
ghost use Rattle.glob_explain.specs.Causes.{IsCause, seen};
ghost use Rattle.glob_explain.specs.Trying.{Turns};

use crate::cause::{Cause, cause_of};
use crate::changes::{Change, changes_of};
use crate::trying::{cause_with, mapping_of};
use bitflags::Flags;
use gix_glob::Pattern;
use gix_glob::pattern::{Case, Mode, PatternView};
use gix_glob::search::pattern::List;
use glob_lines::GitIgnoreLines;
use glob_lists::{RepositoryPath, Rules};
use std::alloc::{AllocError, Global};

/// How many changed lines are decided about at most: each costs what a decision does. Further ones aren't told.
pub const MOST_TRIES: usize = 64;

/// A line that nearly matches.
#[derive(Debug, Drop)]
pub struct Near {
    /// The places of its list and of the line in it, both from 0.
    pub pair: (usize, usize),
    /// What is changed.
    pub change: Change,
    /// The line as changed.
    pub line: Vec<u8>,
}

/// The lines that nearly match a path or a folder above it, in order, each with the first change by which it does and turns whether the
/// path is ignored: of a path that isn't, lines without `!` in front, and else those with it. The lists are as before. Time grows with the
/// lines times the changes, besides [`MOST_TRIES`] decisions.
///
/// # Errors
/// Only where memory was refused. The lists stay as they were.
pub fn near_lines(
    alloc: Global,
    lists: &mut [List<GitIgnoreLines>],
    path: &RepositoryPath<'_>,
    rules: Rules,
) -> Result<Vec<Near>, AllocError>
    requires { BasesAreFolders (seen lists.old) }
    ensures told { IfOk result (λ told. All (λ near. Turns (seen lists.old) rules path.now near.pair near.line.items) told.items) }
    ensures same { seen lists.new ≡ seen lists.old }
{
    let search = Search {
        alloc,
        path,
        rules,
        before: cause_of(lists, path, rules),
    };
    let found = search.candidates(lists)?;
    search.tried(lists, found)
}

/// What near lines are looked for.
#[derive(Drop)]
struct Search<'a, 'p> {
    alloc: Global,
    path: &'a RepositoryPath<'p>,
    rules: Rules,
    /// Why the path is ignored, or isn't.
    before: Cause,
}

impl<'a, 'p> Search<'a, 'p> {
    /// The changed lines that match the path or a folder above it, as the lines themselves don't; not more than are tried.
    fn candidates(&self, lists: &[List<GitIgnoreLines>]) -> Result<Vec<Near>, AllocError>
        requires { BasesAreFolders (seen lists.now) }
    {
        let mut found = Vec::new(self.alloc);
        'places: for (at, list) in lists.iter().enumerate() {
            self.add_of_list(list, at, &mut found)?;
        }
        Ok(found)
    }

    /// Adds those of a list.
    fn add_of_list(
        &self,
        list: &List<GitIgnoreLines>,
        at: usize,
        found: &mut Vec<Near>,
    ) -> Result<(), AllocError>
        requires { HasFolder (entry_list_of {V = Unit {0}} (λ _. tt) list.now) }
    {
        let Some(rest) = self.path.below(base_of(list), self.rules.case) else {
            return Ok(());
        };
        'lines: for (place, mapping) in list.patterns.iter().enumerate() {
            let pattern = &mapping.pattern;
            if pattern.is_negative() == self.before.ignores()
                && found.len() < MOST_TRIES
                && !reaches(pattern.view(), &rest, self.rules)
            {
                self.add_of_line(pattern, (at, place), &rest, found)?;
            }
        }
        Ok(())
    }

    /// Adds those of a line.
    fn add_of_line(
        &self,
        pattern: &Pattern,
        pair: (usize, usize),
        rest: &RepositoryPath<'_>,
        found: &mut Vec<Near>,
    ) -> Result<(), AllocError> {
        let body = body_of(self.alloc, pattern)?;
        'changes: for (change, body) in changes_of(self.alloc, &body)? {
            if reaches(PatternView::from_git_line(&body), rest, self.rules) {
                let mut line = Vec::new(self.alloc);
                if pattern.is_negative() {
                    line.push(b'!')?;
                }
                line.extend_from_slice(&body)?;
                found.push(Near { pair, change, line })?;
            }
        }
        Ok(())
    }

    /// The first changed line of each line that turns whether the path is ignored.
    fn tried(
        &self,
        lists: &mut [List<GitIgnoreLines>],
        found: Vec<Near>,
    ) -> Result<Vec<Near>, AllocError>
        requires folders { BasesAreFolders (seen lists.old) }
        requires was { IsCause (seen lists.old) self.now.rules self.now.path.now self.now.before }
        ensures told { IfOk result (λ told. All (λ near. Turns (seen lists.old) self.now.rules self.now.path.now near.pair near.line.items) told.items) }
        ensures same { seen lists.new ≡ seen lists.old }
    {
        let mut told: Vec<Near> = Vec::new(self.alloc);
        'found: for near in found {
            if is_of_last(&told, &near) {
                continue;
            }
            if !self.turns(lists, &near)? {
                continue;
            }
            told.push(near)?;
        }
        Ok(told)
    }

    /// Whether a changed line turns whether the path is ignored.
    fn turns(&self, lists: &mut [List<GitIgnoreLines>], near: &Near) -> Result<bool, AllocError>
        requires folders { BasesAreFolders (seen lists.old) }
        requires was { IsCause (seen lists.old) self.now.rules self.now.path.now self.now.before }
        ensures told { IfOk result (λ turns. IsTrue turns → Turns (seen lists.old) self.now.rules self.now.path.now near.now.pair near.now.line.items) }
        ensures same { seen lists.new ≡ seen lists.old }
    {
        let Some(mapping) = mapping_of(self.alloc, &near.line)? else {
            return Ok(false);
        };
        match cause_with(lists, near.pair, mapping, self.path, self.rules) {
            Some(after) => Ok(after.ignores() != self.before.ignores()),
            None => Ok(false),
        }
    }
}

/// The base of a list; no bytes where it has none.
fn base_of(list: &List<GitIgnoreLines>) -> &[u8]
    requires { HasFolder (entry_list_of {V = Unit {0}} (λ _. tt) list.now) }
    ensures { IsFolder result.now }
{
    match &list.base {
        Some(base) => base,
        None => b"",
    }
}

/// Whether the line that was told last is this one.
fn is_of_last(told: &[Near], near: &Near) -> bool {
    match told.last() {
        Some(last) => last.pair == near.pair,
        None => false,
    }
}

/// Whether a pattern matches a path, or a folder above it.
fn reaches(pattern: PatternView<'_>, path: &RepositoryPath<'_>, rules: Rules) -> bool {
    let bytes = path.bytes();
    'places: for place in 0..bytes.len() {
        if bytes[place] == b'/' && path.folder_before(place).is_matched_by(pattern, rules) {
            return true;
        }
    }
    path.is_matched_by(pattern, rules)
}

/// The line of a pattern, without a `!` in front.
///
/// # Errors
/// Only where memory was refused.
pub fn body_of(alloc: Global, pattern: &Pattern) -> Result<Vec<u8>, AllocError> {
    let mut line = Vec::new(alloc);
    if pattern.mode().contains(Mode::ABSOLUTE) {
        line.push(b'/')?;
    }
    line.extend_from_slice(pattern.text())?;
    if pattern.mode().contains(Mode::MUST_BE_DIR) {
        line.push(b'/')?;
    }
    Ok(line)
}
