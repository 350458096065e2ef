//! The folders on the way to the path that was asked last, and what is kept of each folder that is known.
ghost use Rattle.std.specs.Prelude.{◌≡◌, ◌⊎◌, ◌+◌, ◌<◌, ◌≤◌, ℕ, [], None, Some, false, IfOk, IsTrue, OnErr, OnOk, length, map, take};
ghost use Rattle.std.specs.List.{Contains};
ghost use Rattle.gix_glob.specs.Bytes.{HasByte, slash};
ghost use Rattle.gix_glob.specs.EntryLists.{entry_list_of};
ghost use Rattle.glob_trees.specs.Private.Entered.{EndsWith, HasFronts, IsFresh, IsNamed, IsReady, IsSomewhere, IsUnderWay, KeepsOn, gave_but};
ghost use Rattle.glob_trees.specs.Trees.{DecidesInTree, Ignores};
ghost use Rattle.glob_trees.specs.Ways.{AreOnTheWay, GivesOnly, GoesOn, IsAskedFor, IsListOf, folders_to};

use crate::deciding::ignoring;
use crate::fault::TreeFault;
use crate::folders::FolderLists;
use crate::keeping::{bytes_of, keep_last, prepared_if_any, put_known_on_way, put_on_way};
use crate::known::KnownFolders;
use crate::on_way::{FolderOnWay, common_length};
use gix_glob::search;
use gix_glob::search::pattern::List;
use glob_lists::{PreparedList, RepositoryPath, Rules, decide_prepared};
use std::alloc::{AllocError, Global};

/// A source of lists, the folders on the way, and what is kept of those that are known.
#[derive(Drop)]
pub(crate) struct Entered<T: search::Pattern, S: FolderLists<T>> {
    pub(crate) alloc: Global,
    pub(crate) source: S,
    pub(crate) rules: Rules,
    /// How many lists stand before those of all folders.
    pub(crate) front_count: usize,
    /// The lists that stand before those of all folders, then those with patterns of the folders on the way, from the top down.
    pub(crate) lists: Vec<PreparedList<T>>,
    /// The path of the folder entered last, with a slash at its end; no bytes where that is the top.
    pub(crate) folder: Vec<u8>,
    /// The top and the folders on the way, from the top down.
    pub(crate) way: Vec<FolderOnWay>,
    pub(crate) known: KnownFolders,
    /// By its place, the list with patterns of each known folder, while the folder isn't on the way.
    pub(crate) kept: Vec<Option<PreparedList<T>>>,
    /// About how many bytes what is kept takes, and how many it may.
    pub(crate) bytes: usize,
    pub(crate) most_bytes: usize,
}

impl<T: search::Pattern, S: FolderLists<T>> Entered<T, S> {
    /// Which pattern decides about a path, as the tree answers it.
    ///
    /// # Errors
    /// Where the source fails, or memory was refused.
    pub(crate) fn find(
        &mut self,
        path: &RepositoryPath<'_>,
    ) -> Result<Option<(usize, usize)>, TreeFault<S::Fault>>
        requires ready { IsReady (S.shows T.Seen) S.gave T.seen self.old }
        ensures decides { IfOk result (λ pair. DecidesInTree (map (entry_list_of T.seen) self.new.lists.items) path.now.bytes path.now.is_dir self.new.rules pair) }
        ensures way { OnOk result (AreOnTheWay (S.shows T.Seen self.new.source) self.new.front_count (map (entry_list_of T.seen) self.new.lists.items) self.new.rules path.now.bytes) }
        ensures ready { IsReady (S.shows T.Seen) S.gave T.seen self.new }
        ensures keeps { KeepsOn (S.shows T.Seen) self.old self.new }
        ensures asks { GivesOnly (IsAskedFor (map (entry_list_of T.seen) self.new.lists.items) self.new.rules path.now.bytes) (S.gave self.old.source) (S.gave self.new.source) }
    {
        // most paths lie in the folder of the one before, and the way of these is kept short
        if self.is_in_folder_of(path) {
            return Ok(decide_prepared(&self.lists, path, self.rules));
        }
        self.find_elsewhere(path)
    }

    /// Whether a path lies right in the folder entered last.
    #[inline(always)]
    fn is_in_folder_of(&self, path: &RepositoryPath<'_>) -> bool
        requires ready { IsReady (S.shows T.Seen) S.gave T.seen self.now }
        ensures { IsTrue result → IsUnderWay (S.shows T.Seen) S.gave T.seen self.now path.now.bytes }
    {
        if self.way.as_slice().is_empty() {
            return false;
        }
        match path.basename_start() {
            Some(start) => self.folder.len() == start && path.bytes().starts_with(&self.folder),
            None => self.folder.as_slice().is_empty(),
        }
    }

    /// What [`Entered::find`] answers, whichever folder was entered last.
    ///
    /// # Errors
    /// Where the source fails, or memory was refused.
    #[inline(never)]
    fn find_elsewhere(
        &mut self,
        path: &RepositoryPath<'_>,
    ) -> Result<Option<(usize, usize)>, TreeFault<S::Fault>>
        requires ready { IsReady (S.shows T.Seen) S.gave T.seen self.old }
        ensures decides { IfOk result (λ pair. DecidesInTree (map (entry_list_of T.seen) self.new.lists.items) path.now.bytes path.now.is_dir self.new.rules pair) }
        ensures way { OnOk result (AreOnTheWay (S.shows T.Seen self.new.source) self.new.front_count (map (entry_list_of T.seen) self.new.lists.items) self.new.rules path.now.bytes) }
        ensures ready { IsReady (S.shows T.Seen) S.gave T.seen self.new }
        ensures keeps { KeepsOn (S.shows T.Seen) self.old self.new }
        ensures asks { GivesOnly (IsAskedFor (map (entry_list_of T.seen) self.new.lists.items) self.new.rules path.now.bytes) (S.gave self.old.source) (S.gave self.new.source) }
    {
        self.keep_to_bound();
        self.enter_top()?;
        let bytes = path.bytes();
        let start = self.leave_to(bytes);
        'bytes: for place in start..bytes.len() {
            if bytes[place] != b'/' {
                continue;
            }
            // a folder that is known isn't ignored: it had been entered
            let is_known = self.enter_known(bytes, place)?;
            if is_known {
                continue;
            }
            let folder = path.folder_before(place);
            if let Some(pair) = ignoring(&self.lists.as_slice(), &folder, self.rules) {
                return Ok(Some(pair));
            }
            self.enter(bytes, place)?;
        }
        Ok(decide_prepared(&self.lists, path, self.rules))
    }

    /// Forgets all folders where what is kept of them has grown beyond the bound. No path lies in any of them between two calls.
    #[inline(always)]
    fn keep_to_bound(&mut self)
        requires ready { IsReady (S.shows T.Seen) S.gave T.seen self.old }
        ensures ready { IsReady (S.shows T.Seen) S.gave T.seen self.new }
        ensures keeps { KeepsOn (S.shows T.Seen) self.old self.new }
        ensures asks { GivesOnly (λ _. ⊥) (S.gave self.old.source) (S.gave self.new.source) }
    {
        if self.bytes > self.most_bytes {
            self.forget();
        }
    }

    /// Forgets all folders, and tells it to the source.
    #[inline(never)]
    fn forget(&mut self)
        requires fronts { HasFronts T.seen self.old }
        ensures fresh { IsFresh (S.shows T.Seen) S.gave T.seen self.new }
        ensures keeps { KeepsOn (S.shows T.Seen) self.old self.new }
    {
        self.lists.truncate(self.front_count);
        self.folder.clear();
        self.way.clear();
        self.known = KnownFolders::new(self.alloc);
        self.kept = Vec::new(self.alloc);
        self.bytes = 0;
        self.source.forget();
    }

    /// Asks for the list of the top, where it wasn't asked for.
    ///
    /// # Errors
    /// Where the source fails, or memory was refused.
    #[inline(always)]
    fn enter_top(&mut self) -> Result<(), TreeFault<S::Fault>>
        requires ready { IsReady (S.shows T.Seen) S.gave T.seen self.old }
        ensures under { OnOk result (IsSomewhere (S.shows T.Seen) S.gave T.seen self.new) }
        ensures ready { OnErr result (IsReady (S.shows T.Seen) S.gave T.seen self.new) }
        ensures keeps { KeepsOn (S.shows T.Seen) self.old self.new }
        ensures asks { GivesOnly (λ folder. folder ≡ []) (S.gave self.old.source) (S.gave self.new.source) }
    {
        if self.way.as_slice().is_empty() {
            return self.ask_for_top();
        }
        Ok(())
    }

    /// Asks for the list of the top, and enters it.
    ///
    /// # Errors
    /// Where the source fails, or memory was refused.
    #[inline(never)]
    fn ask_for_top(&mut self) -> Result<(), TreeFault<S::Fault>>
        requires fresh { IsFresh (S.shows T.Seen) S.gave T.seen self.old }
        ensures under { OnOk result (IsSomewhere (S.shows T.Seen) S.gave T.seen self.new) }
        ensures ready { OnErr result (IsReady (S.shows T.Seen) S.gave T.seen self.new) }
        ensures keeps { KeepsOn (S.shows T.Seen) self.old self.new }
        ensures asks { GivesOnly (λ folder. folder ≡ []) (S.gave self.old.source) (S.gave self.new.source) }
    {
        let list = self.source.list_of(&[]).map_err(TreeFault::Source)?;
        match self.put_top(list) {
            Ok(()) => Ok(()),
            Err(_refused) => {
                self.forget();
                Err(TreeFault::Memory)
            }
        }
    }

    /// Enters the top, which was asked for.
    ///
    /// # Errors
    /// Only where memory was refused.
    fn put_top(&mut self, list: List<T>) -> Result<(), AllocError>
        requires fresh { IsFresh (S.shows T.Seen) (gave_but S.gave []) T.seen self.old }
        requires of { IsListOf (S.shows T.Seen self.old.source) [] (entry_list_of T.seen list) }
        ensures under { OnOk result (IsUnderWay (S.shows T.Seen) S.gave T.seen self.new []) }
        ensures fails { OnErr result (HasFronts T.seen self.new) }
        ensures keeps { KeepsOn (S.shows T.Seen) self.old self.new }
        ensures source { self.new.source ≡ self.old.source }
    {
        self.known.add_top()?;
        self.kept.push(None)?;
        let list = prepared_if_any(self.alloc, list);
        let top = FolderOnWay {
            place: 0,
            length: 0,
            has_list: list.is_some(),
        };
        put_on_way(&mut self.way, &mut self.lists, top, list)
    }

    /// Enters the folder that stands before the slash at a place of a path, where it is known. It answers whether it is.
    ///
    /// # Errors
    /// Only where memory was refused.
    #[inline(never)]
    fn enter_known(&mut self, path: &[u8], place: usize) -> Result<bool, AllocError>
        requires slash { HasByte path.now place slash }
        requires under { IsUnderWay (S.shows T.Seen) S.gave T.seen self.old (take place path.now) }
        ensures entered { IfOk result (λ is_known. IsTrue is_known → IsUnderWay (S.shows T.Seen) S.gave T.seen self.new (take (place + 1) path.now)) }
        ensures under { IfOk result (λ is_known. is_known ≡ false → IsUnderWay (S.shows T.Seen) S.gave T.seen self.new (take place path.now)) }
        ensures none { IfOk result (λ is_known. is_known ≡ false → ¬ (place ≡ 0) → IsNamed self.new path.now place None) }
        ensures fails { OnErr result (IsFresh (S.shows T.Seen) S.gave T.seen self.new) }
        ensures keeps { KeepsOn (S.shows T.Seen) self.old self.new }
        ensures asks { GivesOnly (λ _. ⊥) (S.gave self.old.source) (S.gave self.new.source) }
    {
        if place == 0 {
            return Ok(false);
        }
        let Some(known) = self.place_of(path, place) else {
            return Ok(false);
        };
        match self.put_known(path, place, known) {
            Ok(()) => Ok(true),
            Err(refused) => {
                self.forget();
                Err(refused)
            }
        }
    }

    /// The place of the folder that stands before the slash at a place of a path, in the folder entered last.
    fn place_of(&self, path: &[u8], place: usize) -> Option<usize>
        requires slash { HasByte path.now place slash }
        requires deep { ¬ (place ≡ 0) }
        requires under { IsUnderWay (S.shows T.Seen) S.gave T.seen self.now (take place path.now) }
        ensures { IsNamed self.now path.now place result }
    {
        let outer = self.last_on_way();
        let name = &path[..place][outer.length..];
        self.known.place_in(outer.place, name)
    }

    /// The folder entered last.
    fn last_on_way(&self) -> FolderOnWay
        ensures { EndsWith self.now.way.items result }
    {
        match self.way.last() {
            Some(last) => *last,
            None => FolderOnWay::TOP,
        }
    }

    /// Enters a folder that is known.
    ///
    /// # Errors
    /// Only where memory was refused.
    fn put_known(&mut self, path: &[u8], place: usize, known: usize) -> Result<(), AllocError>
        requires slash { HasByte path.now place slash }
        requires deep { ¬ (place ≡ 0) }
        requires under { IsUnderWay (S.shows T.Seen) S.gave T.seen self.old (take place path.now) }
        requires named { IsNamed self.old path.now place (Some known) }
        ensures entered { OnOk result (IsUnderWay (S.shows T.Seen) S.gave T.seen self.new (take (place + 1) path.now)) }
        ensures fails { OnErr result (HasFronts T.seen self.new) }
        ensures keeps { KeepsOn (S.shows T.Seen) self.old self.new }
        ensures source { self.new.source ≡ self.old.source }
    {
        let start = self.folder.as_slice().len();
        self.folder.extend_from_slice(&path[..place + 1][start..])?;
        let bytes = self.folder.as_slice().len();
        put_known_on_way(&mut self.way, &mut self.lists, &mut self.kept, known, bytes)
    }

    /// Asks for the list of the folder that stands before the slash at a place of a path, and enters it. It wasn't known.
    ///
    /// # Errors
    /// Where the source fails, or memory was refused.
    #[inline(never)]
    fn enter(&mut self, path: &[u8], place: usize) -> Result<(), TreeFault<S::Fault>>
        requires slash { HasByte path.now place slash }
        requires under { IsUnderWay (S.shows T.Seen) S.gave T.seen self.old (take place path.now) }
        requires kept { (pair : ℕ × ℕ) → ¬ Ignores (map (entry_list_of T.seen) self.old.lists.items) self.old.rules (take place path.now) pair }
        requires none { ¬ (place ≡ 0) → IsNamed self.old path.now place None }
        ensures entered { OnOk result (IsUnderWay (S.shows T.Seen) S.gave T.seen self.new (take (place + 1) path.now)) }
        ensures ready { OnErr result (IsFresh (S.shows T.Seen) S.gave T.seen self.new ⊎ IsUnderWay (S.shows T.Seen) S.gave T.seen self.new (take place path.now)) }
        ensures keeps { KeepsOn (S.shows T.Seen) self.old self.new }
        ensures asks { OnOk result (GivesOnly (Contains (folders_to (take (place + 1) path.now))) (S.gave self.old.source) (S.gave self.new.source)) }
        ensures fails { OnErr result (GivesOnly (λ _. ⊥) (S.gave self.old.source) (S.gave self.new.source)) }
    {
        if place == 0 {
            return Ok(());
        }
        let list = self
            .source
            .list_of(&path[..place])
            .map_err(TreeFault::Source)?;
        match self.put_new(path, place, list) {
            Ok(()) => Ok(()),
            Err(_refused) => {
                self.forget();
                Err(TreeFault::Memory)
            }
        }
    }

    /// Enters a folder that was just asked for.
    ///
    /// # Errors
    /// Only where memory was refused.
    fn put_new(&mut self, path: &[u8], place: usize, list: List<T>) -> Result<(), AllocError>
        requires slash { HasByte path.now place slash }
        requires deep { ¬ (place ≡ 0) }
        requires under { IsUnderWay (S.shows T.Seen) (gave_but S.gave (take place path.now)) T.seen self.old (take place path.now) }
        requires kept { (pair : ℕ × ℕ) → ¬ Ignores (map (entry_list_of T.seen) self.old.lists.items) self.old.rules (take place path.now) pair }
        requires none { IsNamed self.old path.now place None }
        requires of { IsListOf (S.shows T.Seen self.old.source) (take place path.now) (entry_list_of T.seen list) }
        ensures entered { OnOk result (IsUnderWay (S.shows T.Seen) S.gave T.seen self.new (take (place + 1) path.now)) }
        ensures fails { OnErr result (HasFronts T.seen self.new) }
        ensures keeps { KeepsOn (S.shows T.Seen) self.old self.new }
        ensures source { self.new.source ≡ self.old.source }
    {
        let outer = self.last_on_way();
        let name = &path[..place][outer.length..];
        let known = self.known.add(outer.place, name)?;
        self.kept.push(None)?;
        self.bytes = self.bytes.saturating_add(bytes_of(name.len(), &list));
        self.folder
            .extend_from_slice(&path[..place + 1][outer.length..])?;
        let list = prepared_if_any(self.alloc, list);
        let there = FolderOnWay {
            place: known,
            length: self.folder.as_slice().len(),
            has_list: list.is_some(),
        };
        put_on_way(&mut self.way, &mut self.lists, there, list)
    }

    /// Leaves the folders that aren't on the way to a path. The answer is how many of the path's bytes name the folder that is
    /// entered then, with the slash at its end.
    fn leave_to(&mut self, path: &[u8]) -> usize
        requires under { IsSomewhere (S.shows T.Seen) S.gave T.seen self.old }
        ensures under { IsUnderWay (S.shows T.Seen) S.gave T.seen self.new (take result path.now) }
        ensures keeps { KeepsOn (S.shows T.Seen) self.old self.new }
        ensures source { self.new.source ≡ self.old.source }
    {
        let alike = common_length(&self.folder, path);
        'folders: while self.folder.as_slice().len() > alike {
            self.leave();
        }
        self.folder.as_slice().len()
    }

    /// Leaves the folder entered last, which isn't the top, and keeps its list by its place.
    #[inline(never)]
    fn leave(&mut self)
        requires under { IsSomewhere (S.shows T.Seen) S.gave T.seen self.old }
        requires deep { 0 < length self.old.folder.items }
        ensures under { IsSomewhere (S.shows T.Seen) S.gave T.seen self.new }
        ensures less { length self.new.folder.items < length self.old.folder.items }
        ensures front { self.new.folder.items ≡ take (length self.new.folder.items) self.old.folder.items }
        ensures keeps { KeepsOn (S.shows T.Seen) self.old self.new }
        ensures source { self.new.source ≡ self.old.source }
    {
        let Some(left) = self.way.pop() else {
            return;
        };
        let outer = self.last_on_way();
        self.folder.truncate(outer.length);
        if left.has_list {
            keep_last(&mut self.lists, &mut self.kept, left.place);
        }
    }
}
