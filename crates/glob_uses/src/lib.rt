//! Short callers of `gix_glob` and `glob_lines`, and a parser, as a stranger would write them: their contracts follow from the
//! public ones alone. A test calls each once; files are in `.ci/rough`.
#![tactic(auto)]

ghost use Rattle.std.specs.Prelude.{◌≡◌, ◌↔◌, true, false, map, IfOk, IsTrue};
ghost use Rattle.gix_glob.specs.declared.pattern.Case.{Case};
ghost use Rattle.glob_lists.specs.Rules.{by_crate};
ghost use Rattle.glob_lists.specs.Deciding.{AnswersFor, BasesAreFolders, Decides};
ghost use Rattle.gix_glob.specs.Entries.{Entry, entry_of};
ghost use Rattle.gix_glob.specs.EntryLists.{entry_list_of};
ghost use Rattle.glob_lists.specs.Paths.{IsPlainPath};
ghost use Rattle.gix_glob.specs.Matching.{Splits};
ghost use Rattle.gix_glob.specs.Patterns.{HasReading, Reads};
ghost use Rattle.gix_glob.specs.Steps.{IsBlankOf};
ghost use Rattle.glob_lines.specs.Ignore.{Ignore};

mod own_parser;
#[cfg(test)]
mod surface;

use gix_glob::laws::line_has_one_reading;
use gix_glob::pattern::{Case, PatternView};
use gix_glob::search::pattern::List;
use gix_glob::wildmatch::{Mode, Steps, marked};
use glob_lines::{IgnoreLines, bases_are_folders, decide, laws, plain_path};
use glob_lists::{RepositoryPath, Rules};
pub use own_parser::{Whole, whole_entries_are_these};
use std::alloc::{AllocError, Global};
use std::marker::Brand;
use std::sync::ledger::{Blank, Ledger};

/// Whether a pattern line matches the path of a file. It takes no memory.
pub fn matches_line(line: &[u8], path: &[u8]) -> bool
    ensures blank { ¬ HasReading line.now true → result ≡ false }
    ensures answers { (entry : Entry (Unit {0})) → Reads line.now true entry.text entry.mode entry.place
        → IsPlainPath path.now → IsTrue result ↔ AnswersFor entry.text entry.mode path.now false (by_crate Case.Sensitive) }
{
    line_has_one_reading();
    let (Some(pattern), Some(path)) = (
        PatternView::from_bytes(line),
        RepositoryPath::new(path, false),
    ) else {
        return false;
    };
    path.is_matched_by(pattern, Rules::by_crate(Case::Sensitive))
}

/// The rules of an ignore file's bytes, for the paths of the folder that it stands in.
pub fn rules(alloc: Global, file: &[u8], name: &str) -> Result<List<IgnoreLines>, AllocError>
    ensures { IfOk result (λ list. Ignore file.now (map (entry_of (λ _. tt)) list.patterns.items)) }
{
    let name = String::from_str(alloc, name)?;
    let list = List::from_bytes(alloc, file, name, None, IgnoreLines)?;
    // a law does nothing: it is called for what it ensures
    laws::ignore_entries_are_these();
    Ok(list)
}

/// Which rule of several ignore files decides about a path: the place of its file and its place among the file's rules, both
/// from 0. `None` where none matches, where the path is no path of a repository, and where a base is that of no folder.
pub fn last_rule(lists: &[List<IgnoreLines>], path: &[u8], is_dir: bool) -> Option<(usize, usize)>
    ensures { IsPlainPath path.now → BasesAreFolders (map (entry_list_of {V = Unit {0}} (λ _. tt)) lists.now)
        → Decides (map (entry_list_of {V = Unit {0}} (λ _. tt)) lists.now) path.now is_dir (by_crate Case.Sensitive) result }
{
    if !plain_path(path) {
        return None;
    }
    if !bases_are_folders(lists) {
        return None;
    }
    decide(lists, path, is_dir, Case::Sensitive)
}

/// Whether a pattern matches a value. Its steps are counted in the ledger that the blank becomes.
fn matches_in_steps<L: Ledger>(pattern: &[u8], value: &[u8], mode: Mode, blank: Blank) -> bool
    requires { IsBlankOf L.name L.parts blank }
    ensures { IsTrue result ↔ Splits value.now pattern.now mode }
{
    let mut steps: Steps<L> = Steps::new(blank);
    marked(pattern, value, mode, &mut steps)
}

/// Whether a pattern matches a value, as a caller asks who has no ledger of its own.
pub fn matches_counted(pattern: &[u8], value: &[u8], mode: Mode) -> bool
    ensures { IsTrue result ↔ Splits value.now pattern.now mode }
{
    matches_in_steps::<Brand>(pattern, value, mode, Blank::new(2))
}

#[cfg(test)]
mod tests {
    use super::*;
    use bitflags::Flags;
    use gix_glob::search::Pattern as _;
    use std::test::Fail;

    #[test]
    fn uses(rt: HostRuntime) -> Result<(), Fail> {
        assert!(rt; matches_line(b"*.rs", b"src/lib.rs"));
        assert!(rt; !matches_line(b"/*.rs", b"src/lib.rs"));
        assert!(rt; !matches_line(b"", b"x"));
        assert!(rt; matches_counted(b"*b", b"ab", Mode::empty()));
        assert!(rt; !matches_counted(b"*b", b"ba", Mode::empty()));
        let list = rules(rt.alloc(), b"#c\n*.rs \n!x\r\n", ".gitignore")?;
        assert!(rt; list.patterns.len() == 2);
        let lists = [list];
        assert!(rt; last_rule(&lists, b"src/lib.rs", false) == Some((0, 0)));
        assert!(rt; last_rule(&lists, b"x", false) == Some((0, 1)));
        assert!(rt; last_rule(&lists, b"y", false).is_none());
        let mappings = Whole.bytes_to_patterns(rt.alloc(), b"!a\nb\n", "f")?;
        assert!(rt; mappings.len() == 1);
        Ok(())
    }
}
