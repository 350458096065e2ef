//! The command `files`.
ghost use Rattle.std.specs.Prelude.{IfOk};
ghost use Rattle.globtree.specs.Running.{IsAnswered};

use crate::fault::{Fault, Result};
use crate::fronts::{Fronts, case_of, fronts_on, ground_of, tree_behind};
use crate::index_use::IndexUse;
use crate::list_tracked::{list_index, list_tracked, list_tracked_ignored, records_of};
use crate::listed_path::ListedPath;
use crate::listing::{NOT_ALL_LISTED, copies_of, ended, source_of};
use crate::met_elements::MetElements;
use crate::narrowed_listing::run_narrowed;
use crate::outcomes::{ANSWERED, answer_of};
use crate::pathspec_settings::settings_for;
use crate::places::{at_top, copy_of};
use crate::told_name::{refuse_beyond_link, refuse_pattern};
use crate::told_pathspecs::ToldPathspecs;
use crate::told_patterns::{ToldPatterns, add_told};
use crate::words::Options;
use crate::words::files::ListFiles;
use byte_streams::Watched;
use git_paths::Standpoint;
use git_repository::Purpose;
use std::alloc::{AllocError, Global};
use std::io::Write;
use std::rt::{Clock, Env, Files};
use tree_answers::Form;
use tree_commands::files::choosing::{Chosen, Folders};
use tree_commands::files::mark::Mark;
use tree_commands::files::{Listing, run_files};
use tree_commands::tracked_files::write_paths;
use tree_files::{CheckFault, FolderFiles};

/// What stands where no path is told. To Git, too, it is the current folder.
const HERE: &str = ".";

/// Lists the files that pathspecs match.
pub(crate) fn list_files<R: Files + Env + Clock + Eprint + AllocGlobal + Clone + Drop, O: Write>(
    rt: &R,
    alloc: Global,
    options: &Options<'_>,
    asked: ListFiles<'_>,
    shows_progress: bool,
    output: &mut Watched<O>,
) -> Result<u8>
    ensures status { IfOk result IsAnswered }
{
    if let Some(message) = asked.disagreement() {
        return Err(Fault::told(String::from_str(alloc, message)));
    }
    if lists_index(&asked) && options.top.is_none() {
        let is_unmet = list_index(rt, alloc, options, &asked, output)?;
        return Ok(status_of(ANSWERED, is_unmet));
    }
    let fronts = listing_fronts(rt, alloc, options, &asked)?;
    if asked.directory {
        let folder = told_folder(&asked);
        refuse_pattern(rt, alloc, options.pathspecs, &fronts.standpoint, folder)?;
    }
    let settings = settings_for(rt, alloc, options.pathspecs, &asked.pathspecs)?;
    let told = ToldPathspecs::read(alloc, &fronts.standpoint, settings, &asked.pathspecs)?;
    let mut met = MetElements::none(alloc, &told.list, asked.error_unmatch)?;
    let status = list_found(
        rt,
        alloc,
        options,
        &asked,
        &told,
        &mut met,
        &fronts,
        shows_progress,
        output,
    )?;
    list_tracked_by(rt, alloc, options, &asked, &told, &mut met, fronts, output)?;
    let is_unmet = met.tell_unmet(rt, alloc, &told)?;
    Ok(status_of(status, is_unmet))
}

/// The folder that is told where folders are listed by their names: the current one, where none is.
fn told_folder<'a>(asked: &ListFiles<'a>) -> &'a str {
    match asked.pathspecs.first() {
        Some(word) => word,
        None => HERE,
    }
}

/// What the program ends with after a listing, where a pathspec met nothing or each met something.
fn status_of(status: u8, is_unmet: bool) -> u8
    requires { IsAnswered status }
    ensures { IsAnswered result }
{
    if is_unmet { NOT_ALL_LISTED } else { status }
}

/// Whether nothing is listed but what the index has, whatever the patterns say: a work tree isn't needed then.
fn lists_index(asked: &ListFiles<'_>) -> bool {
    let counts = asked.exclude_standard || asked.tells_patterns();
    asked.lists_tracked() && !(asked.others || asked.ignored || counts)
}

/// Goes to the top of the work tree, and reads the files that count before those of all folders, if patterns count.
fn listing_fronts<R: Files + Env + Eprint + AllocGlobal>(
    rt: &R,
    alloc: Global,
    options: &Options<'_>,
    asked: &ListFiles<'_>,
) -> Result<Fronts> {
    let mut ground = ground_of(rt, alloc, options, Purpose::Paths)?;
    if let Some(file) = ground.tree.listing_excludes.take() {
        ground.tree.excludes = Some(file);
    }
    ground.counts = asked.counts_usual();
    let mut fronts = fronts_on(rt, alloc, ground, index_by(asked))?;
    add_told(rt, alloc, asked, &mut fronts.lists)?;
    Ok(fronts)
}

/// What is taken from the index: which paths are tracked, unless all files are listed.
fn index_by(asked: &ListFiles<'_>) -> IndexUse {
    if asked.are_usual() {
        IndexUse::Patterns
    } else {
        IndexUse::Paths
    }
}

/// Lists the files that are found, where such are listed, and notes which pathspecs met one.
fn list_found<R: Files + Env + Clock + Eprint + AllocGlobal + Clone + Drop, O: Write>(
    rt: &R,
    alloc: Global,
    options: &Options<'_>,
    asked: &ListFiles<'_>,
    told: &ToldPathspecs<'_>,
    met: &mut MetElements,
    fronts: &Fronts,
    shows_progress: bool,
    output: &mut Watched<O>,
) -> Result<u8>
    ensures status { IfOk result IsAnswered }
{
    if !lists_found(asked) {
        return Ok(ANSWERED);
    }
    let form = Form::ended_by(asked.nul, fronts.quoting);
    let standpoint = copy_of(&fronts.standpoint)?;
    if !met.is_asked {
        let listing = listing_by(alloc, options, asked, fronts, standpoint, form)?;
        return list_asked(
            rt,
            alloc,
            listing,
            asked,
            told,
            fronts,
            shows_progress,
            output,
        );
    }
    let top = at_top(&standpoint)?;
    let listing = listing_by(alloc, options, asked, fronts, top, Form::Records)?;
    let mut text = Watched::new(Vec::new(alloc));
    let status = list_asked(
        rt,
        alloc,
        listing,
        asked,
        told,
        fronts,
        shows_progress,
        &mut text,
    )?;
    let text = text.into_inner();
    let paths = records_of(alloc, &text)?;
    'paths: for path in &paths {
        met.note(&told.list, &ListedPath::found(path));
    }
    write_found(alloc, &standpoint, form, &paths, output)?;
    Ok(status)
}

/// Writes paths that were found.
fn write_found<O: Write>(
    alloc: Global,
    standpoint: &Standpoint,
    form: Form,
    paths: &[&[u8]],
    output: &mut Watched<O>,
) -> Result<()> {
    if output.failed() {
        return Err(Fault::Unwritten);
    }
    let told = write_paths(alloc, standpoint, form, paths, output);
    answer_of(told, |fault| CheckFault::of_ignore(alloc, fault))
}

/// The listing that is asked for.
fn listing_by(
    alloc: Global,
    options: &Options<'_>,
    asked: &ListFiles<'_>,
    fronts: &Fronts,
    standpoint: Standpoint,
    form: Form,
) -> Result<Listing> {
    Ok(Listing {
        standpoint,
        form,
        mark: Mark::Bare,
        chosen: chosen_by(asked),
        folders: folders_by(asked),
        fronts: copies_of(alloc, &fronts.lists)?,
        case: case_of(options, fronts.folds),
    })
}

/// Lists what pathspecs ask for. Where there are none, and where folders are listed by their names, it is all below a folder.
fn list_asked<R: Files + Env + Clock + Eprint + AllocGlobal + Clone + Drop, O: Write>(
    rt: &R,
    alloc: Global,
    listing: Listing,
    asked: &ListFiles<'_>,
    told: &ToldPathspecs<'_>,
    fronts: &Fronts,
    shows_progress: bool,
    output: &mut Watched<O>,
) -> Result<u8>
    ensures status { IfOk result IsAnswered }
{
    let is_narrow = !asked.pathspecs.is_empty() || asked.error_unmatch;
    if is_narrow && !asked.directory {
        return run_narrowed(
            rt,
            alloc,
            listing,
            asked,
            told,
            fronts,
            shows_progress,
            output,
        );
    }
    let folder = told_folder(asked);
    refuse_beyond_link(rt, alloc, &fronts.standpoint, folder)?;
    let files = source_of(rt, alloc, fronts, shows_progress)?;
    let mut source = ToldPatterns::before(alloc, asked, files)?;
    let begin = folder.as_bytes();
    let outcome = run_files(alloc, listing, &fronts.tracked, &mut source, begin, output);
    ended(alloc, begin, outcome, source.into_source().end())
}

/// Whether files are listed that are found: with `-o`, and without options.
fn lists_found(asked: &ListFiles<'_>) -> bool {
    asked.are_usual() || asked.others
}

/// Which files are listed that are found: without options those that aren't ignored; else what the patterns say, where they count.
fn chosen_by(asked: &ListFiles<'_>) -> Chosen {
    if asked.ignored {
        return Chosen::Ignored;
    }
    if asked.counts_usual() || asked.tells_patterns() {
        return Chosen::Unignored;
    }
    Chosen::All
}

/// How folders are told that have no tracked path: of the ignored paths, those in which all is ignored are told, and gone into besides.
fn folders_by(asked: &ListFiles<'_>) -> Folders {
    if !asked.directory {
        return Folders::Entered;
    }
    if asked.no_empty_directory {
        return Folders::NamedIfFilled;
    }
    if asked.ignored {
        Folders::NamedIfAllIgnored
    } else {
        Folders::Named
    }
}

/// Lists the tracked paths that pathspecs match, where such are listed; with `-i` those that are ignored.
fn list_tracked_by<R: Files + Env + Eprint + AllocGlobal, O: Write>(
    rt: &R,
    alloc: Global,
    options: &Options<'_>,
    asked: &ListFiles<'_>,
    told: &ToldPathspecs<'_>,
    met: &mut MetElements,
    fronts: Fronts,
    output: &mut Watched<O>,
) -> Result<()> {
    if !asked.lists_tracked() {
        return Ok(());
    }
    if output.failed() {
        return Err(Fault::Unwritten);
    }
    let form = Form::ended_by(asked.nul, fronts.quoting);
    let case = case_of(options, fronts.folds);
    let Fronts {
        standpoint,
        lists,
        tracked,
        indexed,
        ..
    } = fronts;
    let list = &told.list;
    if !asked.ignored {
        return list_tracked(alloc, &standpoint, form, &tracked, list, met, output);
    }
    let files = FolderFiles::of_tracked(rt, alloc, &indexed);
    let source = ToldPatterns::before(alloc, asked, files)?;
    let tree = tree_behind(alloc, lists, source, case)?;
    list_tracked_ignored(
        rt,
        alloc,
        &standpoint,
        form,
        &tracked,
        tree,
        list,
        met,
        output,
    )
}
