//! Whether a path of a repository matches: what a pattern looks at, directories and case.
ghost use Rattle.std.specs.Prelude.{◌≡◌, ◌↔◌, IsTrue};
ghost use Rattle.glob_patterns.specs.GitPaths.{git_way};
ghost use Rattle.glob_patterns.specs.RepositoryPaths.{IsBasenameStart, with_case};

use super::{Case, Mode, Pattern};
use bitflags::Flags;
use glob_matcher::wildmatch;
use glob_matcher::wildmatch::{Steps, Way};
use memchr::memrchr;
use std::sync::ledger::Ledger;

/// The place after the last slash of a path, counted in bytes from 0; `None` where it has no slash.
pub fn basename_start(path: &[u8]) -> Option<usize>
    ensures { IsBasenameStart path.now result }
{
    memrchr(b'/', path).map(|place| place + 1)
}

/// The mode of a match, in which case doesn't count where it is to be folded.
fn with_case(mode: wildmatch::Mode, case: Case) -> wildmatch::Mode
    ensures { result ≡ with_case mode case }
{
    match case {
        Case::Sensitive => mode,
        Case::Fold => mode.union(wildmatch::Mode::IGNORE_CASE),
    }
}

/// The way in which a pattern that Git reads matches paths.
fn git_way(case: Case) -> Way
    ensures { result ≡ git_way case }
{
    match case {
        Case::Sensitive => Way::Path,
        Case::Fold => Way::ExactPath,
    }
}

/// What is asked of a pattern: whether it matches this path of a repository.
#[derive(Copy, Clone)]
pub(super) struct Asked<'p> {
    pub(super) path: &'p [u8],
    pub(super) basename_start_pos: Option<usize>,
    pub(super) is_dir: Option<bool>,
    pub(super) case: Case,
    /// It counts where the pattern isn't read as Git reads it, which has one mode.
    pub(super) mode: wildmatch::Mode,
    /// Whether the pattern is read as Git reads it.
    pub(super) as_git: bool,
}

impl<'p> Asked<'p> {
    ghost use Rattle.std.specs.Prelude.{◌<◌, ◌≤◌, drop, false, length};
    ghost use Rattle.std.specs.Option.{ForSome};
    ghost use Rattle.glob_matcher.specs.Bytes.{has_slash};
    ghost use Rattle.glob_matcher.specs.Ways.{way_of};
    ghost use Rattle.glob_patterns.specs.RepositoryPaths.{IsAfterLastSlash, subject};

    /// The way in which the pattern is matched.
    #[inline(always)]
    pub(super) fn way(self) -> Way
        ensures by_crate { self.entry.as_git ≡ false → result ≡ way_of (with_case self.entry.mode self.entry.case) }
        ensures by_git { IsTrue self.entry.as_git → result ≡ git_way self.entry.case }
    {
        if self.as_git {
            git_way(self.case)
        } else {
            with_case(self.mode, self.case).way()
        }
    }

    /// The place of the path, counted from 0, from which on a pattern of this mode looks at it: 0, or where the last part
    /// begins, which has no slash.
    #[inline(always)]
    pub(super) fn subject_start(self, pattern_mode: Mode) -> usize
        requires { ForSome self.basename_start_pos (IsAfterLastSlash self.path.now) }
        ensures inside { result ≤ length self.entry.path.now }
        ensures subject { drop result self.entry.path.now ≡ subject pattern_mode self.entry.path.now self.entry.basename_start_pos }
        ensures bare { 0 < result → has_slash (drop result self.entry.path.now) ≡ false }
    {
        match self.basename_start_pos {
            Some(start) if pattern_mode.looks_at_name() => start,
            _ => 0,
        }
    }
}

impl Pattern {
    ghost use Rattle.std.specs.Prelude.{◌+◌, ◌≤◌, length};
    ghost use Rattle.std.specs.Option.{ForSome};
    ghost use Rattle.glob_matcher.specs.Bytes.{HasByte, slash};
    ghost use Rattle.glob_matcher.specs.Steps.{NeverFall};
    ghost use Rattle.glob_patterns.specs.PatternLimits.{pattern_look_limit, pattern_step_limit};
    ghost use Rattle.glob_patterns.specs.PatternParts.{text_of, mode_of};
    ghost use Rattle.glob_patterns.specs.RepositoryPaths.{IsAfterLastSlash, Answers};

    /// Whether a path of a repository matches. The path has no leading slash, and `basename_start_pos` is what
    /// [`basename_start`] answers for it, or `None` where the whole path is to be looked at.
    ///
    /// A pattern for directories matches only where `is_dir` is `Some(true)`. It takes no memory. The rule is "matching a
    /// repository path" in `docs/PATTERNS.md`.
    pub fn matches_repo_relative_path(
        &self,
        path: &[u8],
        basename_start_pos: Option<usize>,
        is_dir: Option<bool>,
        case: Case,
        mode: wildmatch::Mode,
    ) -> bool
        requires relative { ¬ HasByte path.now 0 slash }
        requires basename { ForSome basename_start_pos (IsAfterLastSlash path.now) }
        ensures { IsTrue result ↔ Answers (text_of self.now) (mode_of self.now) path.now basename_start_pos is_dir case mode }
    {
        self.view()
            .matches_repo_relative_path(path, basename_start_pos, is_dir, case, mode)
    }

    /// Whether a path of a repository matches, as [`Pattern::matches_repo_relative_path`] answers it, with its steps and
    /// looks counted.
    ///
    /// The count of steps rises by at most `2 * (p + 1) * (v + 1) + 2 * v`, and that of looks by at most `10 * (p + 1) * (v + 1)`, `p`
    /// and `v` being the lengths in bytes of text and path. No count falls.
    pub fn matches_repo_relative_path_with_counts<L: Ledger>(
        &self,
        path: &[u8],
        basename_start_pos: Option<usize>,
        is_dir: Option<bool>,
        case: Case,
        mode: wildmatch::Mode,
        counts: &mut Steps<L>,
    ) -> bool
        requires relative { ¬ HasByte path.now 0 slash }
        requires basename { ForSome basename_start_pos (IsAfterLastSlash path.now) }
        ensures exact { IsTrue result ↔ Answers (text_of self.now) (mode_of self.now) path.now basename_start_pos is_dir case mode }
        ensures steps { counts.new.steps ≤ counts.old.steps + pattern_step_limit (length (text_of self.now)) (length path.now) }
        ensures looks { counts.new.looks ≤ counts.old.looks + pattern_look_limit (length (text_of self.now)) (length path.now) }
        ensures grows { NeverFall counts.old counts.new }
    {
        self.view()
            .matches_repo_relative_path_with_counts(
                path,
                basename_start_pos,
                is_dir,
                case,
                mode,
                counts,
            )
    }
}
