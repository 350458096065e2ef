//! What explains paths, one after the other.

use crate::explain::leading::{Led, lead};
use crate::explain::lists::ListsOnWay;
use crate::explain::telling::{Findings, Standing, Teller};
use crate::fault::Result;
use crate::fronts::Fronts;
use crate::listing::{copies_of, nested_repositories, run_listing};
use crate::places::copy_of;
use byte_streams::Watched;
use git_index::TrackedPaths;
use gix_glob::pattern::Case;
use glob_explain::{Cause, cause_of, keeping_lines, near_lines};
use glob_lists::{RepositoryPath, Rules, bases_are_folders, matches_into};
use std::alloc::Global;
use std::rt::{Clock, Env, Files};
use tree_answers::Form;
use tree_commands::files::Listing;
use tree_commands::files::choosing::{Chosen, Folders};
use tree_commands::files::mark::Mark;
use tree_commands::files::source::FileSource;
use tree_files::{CheckFault, FileKinds, TreeFiles};

/// What explains paths.
#[derive(Drop)]
pub(crate) struct Explainer<'a, R: Files + Clock + Eprint> {
    rt: &'a R,
    alloc: Global,
    fronts: &'a Fronts,
    /// The paths that the index tracks.
    tracked: TrackedPaths,
    form: Form,
    case: Case,
    kinds: FileKinds<'a, R>,
    files: TreeFiles<'a, R>,
    on_way: ListsOnWay<'a, R>,
}

impl<'a, R: Files + Env + Clock + Eprint + AllocGlobal + Clone + Drop> Explainer<'a, R> {
    /// No path was explained yet.
    pub(crate) fn new(
        rt: &'a R,
        alloc: Global,
        fronts: &'a Fronts,
        tracked: TrackedPaths,
        form: Form,
        case: Case,
    ) -> Result<Explainer<'a, R>> {
        let nested = nested_repositories(rt, alloc, fronts)?;
        Ok(Explainer {
            rt,
            alloc,
            fronts,
            tracked,
            form,
            case,
            kinds: FileKinds::new(rt, alloc),
            files: TreeFiles::new(rt, alloc, &fronts.indexed, nested, false)?,
            on_way: ListsOnWay::new(rt, alloc, fronts)?,
        })
    }

    /// Appends why a told path is ignored or not, and what to write.
    pub(crate) fn answer(&mut self, text: &mut Vec<u8>, told: &[u8]) -> Result<()> {
        let led = lead(self.alloc, &self.fronts.standpoint, &mut self.kinds, told)?;
        self.on_way.read(&mut self.kinds, &led.path)?;
        let path = RepositoryPath::new(&led.path, led.is_folder).unwrap_or(RepositoryPath::top());
        let repository = self.other_repository(&led)?;
        let is_tracked = self.is_tracked(&led)?;
        let mut findings = self.findings(&path, repository, is_tracked)?;
        let is_silent = matches!(findings.cause, Cause::Unmatched) && findings.near.is_empty();
        if is_silent && led.is_folder && matches!(findings.standing, Standing::Usual) {
            findings.standing = self.standing_of_files(&led.path)?;
        }
        let on_way = &self.on_way;
        let mut teller = Teller {
            alloc: self.alloc,
            text,
            form: self.form,
            lists: &on_way.lists,
        };
        teller.tell(told, &path, &findings)?;
        teller.tell_unread(&on_way.unread)?;
        Ok(())
    }

    /// What is found out about a path that lies in another repository, of whose folder the path's first bytes are, or is tracked.
    fn findings(
        &mut self,
        path: &RepositoryPath<'_>,
        repository: Option<usize>,
        is_tracked: bool,
    ) -> Result<Findings> {
        let (alloc, fronts) = (self.alloc, self.on_way.fronts);
        let rules = Rules::by_git(self.case);
        let lists = self.on_way.lists.as_mut_slice();
        if !bases_are_folders(lists) {
            return Err(CheckFault::Base.into());
        }
        let mut findings = Findings {
            standing: Standing::Usual,
            cause: cause_of(lists, path, rules),
            matches: Vec::new(alloc),
            near: Vec::new(alloc),
            keeping: None,
        };
        match repository {
            Some(length) if !ignores_above(findings.cause, path, length) => {
                findings.standing = Standing::Elsewhere(length);
                return Ok(findings);
            }
            _ => {}
        }
        if is_tracked {
            findings.standing = Standing::Tracked;
            return Ok(findings);
        }
        matches_into(lists, path, rules, &mut findings.matches)?;
        if !matches!(findings.cause, Cause::TakenBack(_)) {
            findings.near = near_lines(alloc, lists, path, rules)?;
        }
        findings.keeping = keeping_lines(alloc, lists, fronts, path, rules)?;
        Ok(findings)
    }

    /// How many bytes of a path name the topmost folder that is another repository.
    fn other_repository(&mut self, led: &Led) -> Result<Option<usize>> {
        if let Some(folder) = self.tracked.submodule_of(&led.path) {
            return Ok(Some(folder.len()));
        }
        'folders: for (end, byte) in led.path.iter().enumerate() {
            if *byte == b'/' && self.files.has_git(&led.path[..end])? {
                return Ok(Some(end));
            }
        }
        if led.is_folder && self.files.has_git(&led.path)? {
            return Ok(Some(led.path.len()));
        }
        Ok(None)
    }

    /// Whether an entry of the index is a path, or lies below it.
    fn is_tracked(&self, led: &Led) -> Result<bool> {
        let mut asked = led.path.clone()?;
        if led.is_folder {
            asked.push(b'/')?;
        }
        Ok(self.tracked.holds(&asked, led.literal))
    }

    /// Which files lie in a folder.
    fn standing_of_files(&mut self, folder: &[u8]) -> Result<Standing> {
        if self.has_file(folder, Chosen::Unignored)? {
            return Ok(Standing::Usual);
        }
        if self.has_file(folder, Chosen::Ignored)? {
            return Ok(Standing::Overlaid);
        }
        Ok(Standing::Empty)
    }

    /// Whether a chosen file lies in a folder.
    fn has_file(&mut self, folder: &[u8], chosen: Chosen) -> Result<bool> {
        let mut standpoint = copy_of(&self.fronts.standpoint)?;
        standpoint.here.clear();
        standpoint.is_inside = true;
        let listing = Listing {
            standpoint,
            form: Form::Records,
            mark: Mark::Bare,
            chosen,
            folders: Folders::Entered,
            fronts: copies_of(self.alloc, &self.fronts.lists)?,
            case: self.case,
        };
        let mut found = Watched::new(Vec::new(self.alloc));
        run_listing(
            self.rt,
            self.alloc,
            listing,
            self.fronts,
            folder,
            false,
            &mut found,
        )?;
        Ok(!found.into_inner().is_empty())
    }
}

/// Whether the folder of these first bytes of a path is ignored, or one above it.
fn ignores_above(cause: Cause, path: &RepositoryPath<'_>, length: usize) -> bool {
    match cause {
        Cause::InFolder(folder) => folder.length <= length,
        Cause::Ignored(_pair) => path.bytes().len() <= length,
        Cause::TakenBack(_) | Cause::Unmatched => false,
    }
}
