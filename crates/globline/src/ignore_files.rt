//! The ignore files that the words name, each as a list of patterns.
ghost use Rattle.std.specs.Prelude.{◌≡◌, true, IfOk, map, string_bytes};
ghost use Rattle.std.specs.Option.{option_copied};
ghost use Rattle.glob_lists.specs.Deciding.{BasesAreFolders};
ghost use Rattle.gix_glob.specs.EntryLists.{entry_list_of};
ghost use Rattle.globline.specs.Words.{AreIgnoreLists, are_files};

use gix_glob::search::pattern::List;
use gix_glob::search::{LoadFault, add_patterns_file};
use glob_lines::{EngineFault, IgnoreLines, laws};
use std::alloc::Global;
use std::rt::Files;

/// The lists of the files, in order, with their bases under the root. A file that is missing, or a directory, is passed over.
pub(crate) fn lists_of<F: Files>(
    rt: &F,
    alloc: Global,
    root: Option<&str>,
    files: &[String],
) -> Result<Vec<List<IgnoreLines>>, EngineFault>
    requires { are_files (map string_bytes files.now) ≡ true }
    ensures loaded { IfOk result (λ lists.
        AreIgnoreLists (option_copied root.entry) (map string_bytes files.now) (map (entry_list_of {V = Unit {0}} (λ _. tt)) lists.items)) }
    ensures folders { IfOk result (λ lists. BasesAreFolders (map (entry_list_of {V = Unit {0}} (λ _. tt)) lists.items)) }
{
    // laws do nothing: they are called for what they ensure
    laws::ignore_entries_are_these();
    gix_glob::laws::bases_end_in_a_slash();
    let mut lists = Vec::new(alloc);
    let mut bytes = Vec::new(alloc);
    for file in files {
        let source = String::from_str(alloc, file.as_str())?;
        match add_patterns_file(rt, alloc, &mut lists, source, root, &mut bytes, IgnoreLines) {
            Ok(_is_added) => {}
            Err(LoadFault::Memory) => return Err(EngineFault::Memory),
            Err(LoadFault::Read(_)) => return Err(EngineFault::Read),
        }
    }
    Ok(lists)
}
