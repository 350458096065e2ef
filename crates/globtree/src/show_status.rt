//! The command `status`.
ghost use Rattle.std.specs.Prelude.{IfOk};
ghost use Rattle.globtree.specs.Running.{IsAnswered};

use crate::fault::{Fault, Result};
use crate::fronts::{Fronts, case_of, fronts_on, ground_of};
use crate::index_use::{IndexUse, take_from_index};
use crate::listing::{copies_of, run_listing};
use crate::outcomes::ANSWERED;
use crate::places::{at_top, copy_of};
use crate::words::Options;
use crate::words::status::{IgnoredFiles, ShowStatus};
use byte_streams::Watched;
use git_paths::Standpoint;
use git_repository::{Purpose, ShowUntracked};
use gix_glob::pattern::Case;
use std::alloc::{AllocError, Global};
use std::io::Write;
use std::rt::{Clock, Env, Files};
use tree_answers::Form;
use tree_commands::files::Listing;
use tree_commands::files::choosing::{Chosen, Folders};
use tree_commands::files::mark::Mark;

/// Tells which files aren't tracked, and which are ignored.
pub(crate) fn show_status<R: Files + Env + Clock + Eprint + AllocGlobal + Clone + Drop, O: Write>(
    rt: &R,
    alloc: Global,
    options: &Options<'_>,
    asked: ShowStatus,
    shows_progress: bool,
    output: &mut Watched<O>,
) -> Result<u8>
    ensures { IfOk result IsAnswered }
{
    let ground = ground_of(rt, alloc, options, Purpose::Status)?;
    let untracked = asked.untracked.unwrap_or(ground.tree.untracked);
    if let Some(message) = asked.disagreement(untracked) {
        return Err(Fault::told(String::from_str(alloc, message)));
    }
    if untracked == ShowUntracked::No {
        // Git reads the index, too, and ends at its faults
        take_from_index(rt, alloc, &ground.tree.index, IndexUse::Paths)?;
        return Ok(ANSWERED);
    }
    // records tell paths from the top, also with --short
    let is_relative = asked.short && !asked.nul && ground.tree.relative_paths;
    let fronts = fronts_on(rt, alloc, ground, IndexUse::Paths)?;
    let top = top_of(alloc, &fronts.standpoint)?;
    let lines = StatusLines {
        is_relative,
        form: Form::ended_by(asked.nul, fronts.quoting),
        case: case_of(options, fronts.folds),
    };
    let folders = named_if_normal(untracked, Folders::NamedIfFilled);
    let listing = lines.of(alloc, &fronts, Mark::Untracked, folders)?;
    let status = run_listing(rt, alloc, listing, &fronts, &top, shows_progress, output)?;
    let folders = match asked.ignored {
        IgnoredFiles::No => return Ok(status),
        IgnoredFiles::Matching => Folders::NamedIfIgnored,
        IgnoredFiles::Traditional => named_if_normal(untracked, Folders::EnteredUnlessFilled),
    };
    // what can't be read for those that aren't ignored can't be for these, which lie in more folders
    let listing = lines.of(alloc, &fronts, Mark::Ignored, folders)?;
    run_listing(rt, alloc, listing, &fronts, &top, shows_progress, output)
}

/// How the lines are written.
#[derive(Clone, Copy, Debug)]
struct StatusLines {
    /// Whether paths are told from the current folder, and not from the top.
    is_relative: bool,
    form: Form,
    case: Case,
}

impl StatusLines {
    /// The listing of the paths that a mark is for.
    fn of(
        &self,
        alloc: Global,
        fronts: &Fronts,
        mark: Mark,
        folders: Folders,
    ) -> Result<Listing, AllocError> {
        let standpoint = if self.is_relative {
            copy_of(&fronts.standpoint)?
        } else {
            at_top(&fronts.standpoint)?
        };
        let chosen = match mark {
            Mark::Ignored => Chosen::Ignored,
            Mark::Bare | Mark::Untracked => Chosen::Unignored,
        };
        Ok(Listing {
            standpoint,
            form: self.form,
            mark,
            chosen,
            folders,
            fronts: copies_of(alloc, &fronts.lists)?,
            case: self.case,
        })
    }
}

/// The path of the top of the work tree, told from the root.
fn top_of(alloc: Global, standpoint: &Standpoint) -> Result<Vec<u8>, AllocError> {
    let mut top = Vec::from_slice(alloc, b"/")?;
    top.extend_from_slice(&standpoint.top)?;
    Ok(top)
}

/// How folders are told that have no tracked path: so, where they are told by their names, and else gone into.
fn named_if_normal(untracked: ShowUntracked, named: Folders) -> Folders {
    match untracked {
        ShowUntracked::Normal => named,
        ShowUntracked::No | ShowUntracked::All => Folders::Entered,
    }
}
