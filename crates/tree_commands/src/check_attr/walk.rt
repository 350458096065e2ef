//! The attribute files of the folders on the way to a path.
ghost use Rattle.std.specs.Prelude.{◌≡◌, ◌+◌, ◌++◌, ◌<◌, ◌≤◌, ◌∷◌, [], None, Some, IfOk, IsTrue, OnOk, false, length, slice_get, take, true};
ghost use Rattle.gix_glob.specs.Bytes.{HasByte, slash};
ghost use Rattle.gix_glob.specs.EntryLists.{entry_list_of};
ghost use Rattle.glob_attributes.specs.Views.{seen_assignments};
ghost use Rattle.glob_trees.specs.Known.{KnowsNone, names_of};
ghost use Rattle.glob_trees.specs.Ways.{unless_empty};
ghost use Rattle.tree_commands.specs.CheckAttr.{ShowsSame, macros_for, names_of as outer_names};
ghost use Rattle.tree_commands.specs.declared.check_attr.walk.FoundFolder.{FoundFolder};
ghost use Rattle.tree_commands.specs.Private.AttributeWays.{EndsFolders, HasGoneTo, HasLooked, HasRead, IsBefore, IsEntered, KeepsList, Knows, NotesNames, PutsList, asked_by, file_seen, kept_list, last_on, lists_held, own_lists, unknown};

use crate::check_attr::fault::AttributeFault;
use crate::check_attr::folders::AttributeFolders;
use crate::check_attr::kept_lists::kept_list;
use crate::check_attr::question::{AskedAttributes, Question};
use gix_glob::search::pattern::List;
use glob_attributes::{AttributeLines, AttributeNames, MacroTable};
use glob_trees::{FolderOnWay, KnownFolders, common_length};
use memchr::memrchr;
use std::alloc::{AllocError, Global};
use std::marker::PhantomData;

/// About how many bytes are kept of folders and their patterns.
const MOST_BYTES: usize = 24 << 20;

/// About how many bytes of memory a byte of an attribute file takes.
const BYTES_OF_BYTE: usize = 8;

/// The attributes that are asked for.
#[derive(Drop)]
pub(crate) enum Asking<'q> {
    /// Those of these names.
    Names(&'q [&'q [u8]]),
    /// All, with the names that were read so far.
    All(AttributeNames),
}

/// The attribute files of the folders on the way to the path that was asked last, and what is known of each folder that was looked at. Each
/// file is read once, and again only where folders were so many that all were forgotten.
#[derive(Drop)]
pub(crate) struct FolderAttributes<'q, 'm, S, Q> {
    pub(crate) alloc: Global,
    pub(crate) source: S,
    pub(crate) asking: Asking<'q>,
    pub(crate) macros: &'m MacroTable,
    /// The lists of the folders on the way that have patterns, from outer to inner, and behind them the repository's own.
    pub(crate) lists: Vec<List<AttributeLines>>,
    /// The path of the folder entered last, with a slash at its end; no bytes where that is the top.
    pub(crate) folder: Vec<u8>,
    /// The folders on the way below the top, from outer to inner.
    pub(crate) way: Vec<FolderOnWay>,
    /// The folders that were looked at, and by its place what was found of each.
    pub(crate) known: KnownFolders,
    pub(crate) found: Vec<FoundFolder>,
    /// About how many bytes are kept of them.
    pub(crate) bytes: usize,
    /// The bytes of the file that was read last.
    pub(crate) file: Vec<u8>,
    pub(crate) question: PhantomData<Q>,
}

/// What was found where a folder may stand.
#[derive(Drop)]
pub(crate) struct FoundFolder {
    /// Whether a folder stands there. Of the top, which isn't looked up, this says nothing.
    pub(crate) is_there: bool,
    /// Its list, where it has patterns, while it isn't on the way.
    pub(crate) list: Option<List<AttributeLines>>,
}

impl<'q, 'm, S: AttributeFolders, Q: Question> FolderAttributes<'q, 'm, S, Q> {
    /// A walk that has entered the top alone, over a source of the files of folders. `info` is the repository's own list.
    ///
    /// # Errors
    /// Only where memory was refused.
    pub(crate) fn new(
        alloc: Global,
        source: S,
        asking: Asking<'q>,
        macros: &'m MacroTable,
        info: List<AttributeLines>,
    ) -> Result<FolderAttributes<'q, 'm, S, Q>, AllocError>
        requires asks { asked_by asking ≡ Q.asked }
        requires macros { macros.now ≡ macros_for Q.files }
        requires source { ShowsSame (S.shows source) Q.shows }
        requires read { HasRead asking (outer_names Q.files []) }
        requires info { entry_list_of seen_assignments info ≡ kept_list Q.asked (macros_for Q.files) [] Q.files.info }
        ensures { IfOk result (IsEntered Q.files Q.asked Q.shows S.shows) }
    {
        let mut lists = Vec::new(alloc);
        lists.push(info)?;
        let mut known = KnownFolders::new(alloc);
        let mut found = Vec::new(alloc);
        know_top(&mut known, &mut found)?;
        Ok(FolderAttributes {
            alloc,
            source,
            asking,
            macros,
            lists,
            folder: Vec::new(alloc),
            way: Vec::new(alloc),
            known,
            found,
            bytes: 0,
            file: Vec::new(alloc),
            question: PhantomData,
        })
    }

    /// Goes to the folder that a path lies in, as far as there are folders: the lists are those on the way to it then.
    ///
    /// # Errors
    /// Where the source fails, or memory was refused. Then the folders are of no more use.
    pub(crate) fn go_to(&mut self, path: &[u8]) -> Result<(), AttributeFault<S::Fault>>
        requires relative { ¬ HasByte path.now 0 slash }
        requires entered { IsEntered Q.files Q.asked Q.shows S.shows self.old }
        ensures { OnOk result (HasGoneTo Q.files Q.asked Q.shows S.shows self.new path.now) }
    {
        self.keep_common(path);
        let end = end_of_folders(path);
        if end <= self.folder.as_slice().len() {
            return Ok(());
        }
        self.enter_folders(path, end)
    }

    /// Leaves the folders that aren't on the way to a path.
    #[inline(always)]
    fn keep_common(&mut self, path: &[u8])
        requires entered { IsEntered Q.files Q.asked Q.shows S.shows self.old }
        ensures entered { IsEntered Q.files Q.asked Q.shows S.shows self.new }
        ensures begins { self.new.folder.items ≡ take (length self.new.folder.items) path.now }
    {
        // most paths lie in the folder of the one before
        if path.starts_with(&self.folder) {
            return;
        }
        self.leave_to(path);
    }

    /// Leaves the folders that aren't on the way to a path, one after the other.
    fn leave_to(&mut self, path: &[u8])
        requires entered { IsEntered Q.files Q.asked Q.shows S.shows self.old }
        ensures entered { IsEntered Q.files Q.asked Q.shows S.shows self.new }
        ensures begins { self.new.folder.items ≡ take (length self.new.folder.items) path.now }
    {
        let alike = common_length(&self.folder, path);
        'folders: while self.folder.as_slice().len() > alike {
            self.leave();
        }
    }

    /// Leaves the folder entered last, which isn't the top, and keeps its list.
    fn leave(&mut self)
        requires entered { IsEntered Q.files Q.asked Q.shows S.shows self.old }
        requires deep { 0 < length self.old.folder.items }
        ensures entered { IsEntered Q.files Q.asked Q.shows S.shows self.new }
        ensures less { length self.new.folder.items < length self.old.folder.items }
        ensures front { self.new.folder.items ≡ take (length self.new.folder.items) self.old.folder.items }
    {
        let Some(left) = self.way.pop() else {
            return;
        };
        let outer = self.last();
        self.folder.truncate(outer.length);
        if left.has_list {
            keep_list(&mut self.lists, &mut self.found, left.place);
        }
    }

    /// The folder entered last, or the top.
    fn last(&self) -> FolderOnWay
        ensures { result ≡ last_on self.now.way.items }
    {
        match self.way.last() {
            Some(last) => *last,
            None => FolderOnWay::TOP,
        }
    }

    /// Enters the folders on the way to a path below the one entered last, as far as they are there. No slash of the path stands at `end` or
    /// behind it.
    ///
    /// # Errors
    /// Where the source fails, or memory was refused.
    #[inline(never)]
    fn enter_folders(&mut self, path: &[u8], end: usize) -> Result<(), AttributeFault<S::Fault>>
        requires relative { ¬ HasByte path.now 0 slash }
        requires ends { EndsFolders path.now end }
        requires entered { IsEntered Q.files Q.asked Q.shows S.shows self.old }
        requires begins { self.old.folder.items ≡ take (length self.old.folder.items) path.now }
        ensures { OnOk result (HasGoneTo Q.files Q.asked Q.shows S.shows self.new path.now) }
    {
        self.keep_to_bound()?;
        'bytes: for place in self.folder.as_slice().len()..end {
            if path[place] != b'/' {
                continue;
            }
            if !self.enter(path, place)? {
                return Ok(());
            }
        }
        Ok(())
    }

    /// Forgets all folders where what is kept of them has grown beyond the bound.
    #[inline(always)]
    fn keep_to_bound(&mut self) -> Result<(), AllocError>
        requires entered { IsEntered Q.files Q.asked Q.shows S.shows self.old }
        ensures entered { OnOk result (IsEntered Q.files Q.asked Q.shows S.shows self.new) }
        ensures begins { OnOk result (self.new.folder.items ≡ take (length self.new.folder.items) self.old.folder.items) }
    {
        if self.bytes > MOST_BYTES {
            return self.forget();
        }
        Ok(())
    }

    /// Forgets all folders, those on the way too.
    #[inline(never)]
    fn forget(&mut self) -> Result<(), AllocError>
        requires entered { IsEntered Q.files Q.asked Q.shows S.shows self.old }
        ensures entered { OnOk result (IsEntered Q.files Q.asked Q.shows S.shows self.new) }
        ensures begins { OnOk result (self.new.folder.items ≡ take (length self.new.folder.items) self.old.folder.items) }
    {
        self.leave_to(&[]);
        self.known = KnownFolders::new(self.alloc);
        self.found = Vec::new(self.alloc);
        self.bytes = 0;
        know_top(&mut self.known, &mut self.found)?;
        Ok(())
    }

    /// Enters the folder that stands before the slash at a place of a path, in the one entered last. It answers whether there is one.
    ///
    /// # Errors
    /// Where the source fails, or memory was refused.
    fn enter(&mut self, path: &[u8], place: usize) -> Result<bool, AttributeFault<S::Fault>>
        requires slash { HasByte path.now place slash }
        requires relative { ¬ HasByte path.now 0 slash }
        requires before { IsBefore self.old.folder.items path.now place }
        requires entered { IsEntered Q.files Q.asked Q.shows S.shows self.old }
        ensures entered { OnOk result (IsEntered Q.files Q.asked Q.shows S.shows self.new) }
        ensures there { IfOk result (λ is_there. IsTrue is_there → self.new.folder.items ≡ take (place + 1) path.now) }
        ensures none { IfOk result (λ is_there. is_there ≡ false → (self.new.folder.items ≡ self.old.folder.items) × Q.shows (take place path.now) None) }
    {
        let known = self.place_of(path, place)?;
        if !self.found[known].is_there {
            return Ok(false);
        }
        self.put_on_way(path, place, known)?;
        Ok(true)
    }

    /// The place of the folder that stands before the slash at a place of a path, in the one entered last. It is looked at where it isn't
    /// known.
    ///
    /// # Errors
    /// Where the source fails, or memory was refused.
    fn place_of(&mut self, path: &[u8], place: usize) -> Result<usize, AttributeFault<S::Fault>>
        requires slash { HasByte path.now place slash }
        requires relative { ¬ HasByte path.now 0 slash }
        requires before { IsBefore self.old.folder.items path.now place }
        requires entered { IsEntered Q.files Q.asked Q.shows S.shows self.old }
        ensures knows { IfOk result (λ known. Knows Q.files Q.asked Q.shows S.shows self.new (take place path.now) known) }
        ensures folder { OnOk result (self.new.folder.items ≡ self.old.folder.items) }
    {
        let outer = self.last();
        let name = &path[..place][outer.length..];
        if let Some(known) = self.known.place_in(outer.place, name) {
            return Ok(known);
        }
        self.look_at(&path[..place])
    }

    /// Looks at a folder in the one entered last, and answers its place.
    ///
    /// # Errors
    /// Where the source fails, or memory was refused.
    #[inline(never)]
    fn look_at(&mut self, folder: &[u8]) -> Result<usize, AttributeFault<S::Fault>>
        requires deep { ¬ (folder.now ≡ []) }
        requires before { IsBefore self.old.folder.items folder.now (length folder.now) }
        requires entered { IsEntered Q.files Q.asked Q.shows S.shows self.old }
        ensures knows { IfOk result (λ known. Knows Q.files Q.asked Q.shows S.shows self.new folder.now known) }
        ensures folder { OnOk result (self.new.folder.items ≡ self.old.folder.items) }
    {
        let is_there = self.read_file(folder)?;
        let list = self.list_found(folder, is_there)?;
        let place = self.remember(folder, is_there, list)?;
        Ok(place)
    }

    /// Reads the file of a folder, and its names where all are asked for. It answers whether the folder stands there.
    ///
    /// # Errors
    /// Where the source fails, or memory was refused.
    fn read_file(&mut self, folder: &[u8]) -> Result<bool, AttributeFault<S::Fault>>
        requires entered { IsEntered Q.files Q.asked Q.shows S.shows self.old }
        ensures looked { IfOk result (λ is_there. HasLooked Q.files Q.asked Q.shows S.shows self.new folder.now (file_seen is_there self.new)) }
        ensures folder { OnOk result (self.new.folder.items ≡ self.old.folder.items) }
    {
        match self.source.read_file(folder, &mut self.file) {
            Ok(true) => {
                self.note_names()?;
                Ok(true)
            }
            Ok(false) => Ok(false),
            Err(fault) => Err(AttributeFault::Source(fault)),
        }
    }

    /// Keeps the names of the file that was read last, where all are asked for.
    ///
    /// # Errors
    /// Only where memory was refused.
    fn note_names(&mut self) -> Result<(), AllocError>
        ensures { OnOk result (NotesNames self.old self.new) }
    {
        if let Asking::All(names) = &mut self.asking {
            names.add_file(self.alloc, &self.file, false)?;
        }
        Ok(())
    }

    /// The list of the file that was read last, where it has patterns, and where its folder stands there.
    ///
    /// # Errors
    /// Only where memory was refused.
    fn list_found(
        &self,
        folder: &[u8],
        is_there: bool,
    ) -> Result<Option<List<AttributeLines>>, AllocError>
        ensures { IfOk result (λ list. lists_held list ≡ own_lists (asked_by self.now.asking) self.now.macros.now (record { folder = folder.now; file = file_seen is_there self.now })) }
    {
        if !is_there {
            return Ok(None);
        }
        let asked = match &self.asking {
            Asking::Names(names) => AskedAttributes::Names(names),
            Asking::All(_) => AskedAttributes::All,
        };
        let list = kept_list(self.alloc, asked, self.macros, folder, &self.file)?;
        Ok(if_any(list))
    }

    /// Keeps what was found at the path of a folder in the one entered last, and answers its place.
    ///
    /// # Errors
    /// Only where memory was refused.
    fn remember(
        &mut self,
        folder: &[u8],
        is_there: bool,
        list: Option<List<AttributeLines>>,
    ) -> Result<usize, AllocError>
        requires deep { ¬ (folder.now ≡ []) }
        requires before { IsBefore self.old.folder.items folder.now (length folder.now) }
        requires looked { HasLooked Q.files Q.asked Q.shows S.shows self.old folder.now (file_seen is_there self.old) }
        requires list { lists_held list ≡ own_lists Q.asked (macros_for Q.files) (record { folder = folder.now; file = file_seen is_there self.old }) }
        ensures knows { IfOk result (λ known. Knows Q.files Q.asked Q.shows S.shows self.new folder.now known) }
        ensures folder { OnOk result (self.new.folder.items ≡ self.old.folder.items) }
    {
        let outer = self.last();
        let name = &folder[outer.length..];
        let read = self.file.as_slice().len().saturating_mul(BYTES_OF_BYTE);
        let bytes = read.saturating_add(name.len().saturating_add(KnownFolders::FOLDER_BYTES));
        self.bytes = self.bytes.saturating_add(bytes);
        self.found.push(FoundFolder { is_there, list })?;
        let place = self.known.add(outer.place, name)?;
        Ok(place)
    }

    /// Puts a known folder behind the others on the way, by its path and the slash at a place of a path, and its list where it has one.
    ///
    /// # Errors
    /// Only where memory was refused.
    fn put_on_way(&mut self, path: &[u8], place: usize, known: usize) -> Result<(), AllocError>
        requires slash { HasByte path.now place slash }
        requires before { IsBefore self.old.folder.items path.now place }
        requires deep { ¬ (place ≡ 0) }
        requires knows { Knows Q.files Q.asked Q.shows S.shows self.old (take place path.now) known }
        requires there { (found : FoundFolder) → slice_get self.old.found.items known ≡ Some found → found.is_there ≡ true }
        ensures entered { OnOk result (IsEntered Q.files Q.asked Q.shows S.shows self.new) }
        ensures folder { OnOk result (self.new.folder.items ≡ take (place + 1) path.now) }
    {
        let has_list = self.found[known].list.is_some();
        let start = self.folder.as_slice().len();
        self.folder.extend_from_slice(&path[..place + 1][start..])?;
        self.way.push(FolderOnWay {
            place: known,
            length: self.folder.as_slice().len(),
            has_list,
        })?;
        if has_list {
            put_list(&mut self.lists, &mut self.found, known)?;
        }
        Ok(())
    }
}

/// Where the folders on the way to a path end: no slash stands there or behind.
fn end_of_folders(path: &[u8]) -> usize
    ensures { EndsFolders path.now result }
{
    match memrchr(b'/', path) {
        Some(last) => last + 1,
        None => 0,
    }
}

/// Knows the top, and nothing of it.
fn know_top(known: &mut KnownFolders, found: &mut Vec<FoundFolder>) -> Result<(), AllocError>
    requires { (names_of known.old).count ≡ 0 }
    ensures known { OnOk result (KnowsNone (names_of known.new) 1) }
    ensures found { OnOk result (found.new.items ≡ found.old.items ++ unknown ∷ []) }
{
    known.add_top()?;
    found.push(FoundFolder {
        is_there: false,
        list: None,
    })?;
    Ok(())
}

/// The list, where it has patterns.
fn if_any(list: List<AttributeLines>) -> Option<List<AttributeLines>>
    ensures { lists_held result ≡ unless_empty (entry_list_of seen_assignments list) }
{
    if list.patterns.is_empty() {
        return None;
    }
    Some(list)
}

/// Takes the last list but one, and keeps it by a place.
fn keep_list(lists: &mut Vec<List<AttributeLines>>, found: &mut Vec<FoundFolder>, place: usize)
    requires place { place < length found.old.items }
    requires some { 2 ≤ length lists.old.items }
    ensures { KeepsList place lists.old.items lists.new.items found.old.items found.new.items }
{
    let at = lists.as_slice().len() - 2;
    let list = lists.remove(at);
    found[place].list = Some(list);
}

/// Puts the list that is kept by a place before the last list.
#[inline(never)]
fn put_list(
    lists: &mut Vec<List<AttributeLines>>,
    found: &mut Vec<FoundFolder>,
    place: usize,
) -> Result<(), AllocError>
    requires place { place < length found.old.items }
    requires some { 1 ≤ length lists.old.items }
    ensures { OnOk result (PutsList place lists.old.items lists.new.items found.old.items found.new.items) }
{
    if let Some(list) = found[place].list.take() {
        let last = lists.as_slice().len() - 1;
        lists.insert(last, list)?;
    }
    Ok(())
}
