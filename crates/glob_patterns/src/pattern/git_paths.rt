//! Whether a path of a repository matches, as Git reads a pattern: the literal front is compared by itself, and the rest of the text is a
//! pattern of its own.
ghost use Rattle.std.specs.Prelude.{◌≡◌, ◌↔◌, ◌+◌, ◌*◌, ◌≤◌, ℕ, false, IsTrue, IfSome, IfNone, List, Some, length, take};
ghost use Rattle.std.specs.Option.{ForSome};
ghost use Rattle.glob_matcher.specs.declared.wildmatch.way.Way.{Way};
ghost use Rattle.glob_matcher.specs.Matching.{SplitsBy};
ghost use Rattle.glob_matcher.specs.Steps.{NeverFall, look_limit, step_limit};
ghost use Rattle.glob_patterns.specs.GitPaths.{AnswersAsGit, FrontAndRest};
ghost use Rattle.glob_patterns.specs.PatternLimits.{pattern_look_limit, pattern_step_limit};
ghost use Rattle.glob_patterns.specs.Patterns.{IsPattern, looks_at_name};
ghost use Rattle.glob_patterns.specs.RepositoryPaths.{Answers, IsAfterLastSlash};
ghost use Rattle.glob_patterns.specs.Private.Fronts.{BeginsAlike};
ghost use Rattle.glob_patterns.specs.Private.Shown.{TakesUpTo};

use super::comparisons::Comparison;
use super::paths::Asked;
use super::view::PatternView;
use super::{Case, Pattern};
use glob_matcher::wildmatch;
use glob_matcher::wildmatch::{CountedTexts, Steps, Texts, Way, text_is_short};
use std::marker::Brand;
use std::sync::ledger::{Blank, Ledger};

/// Whether the rest of a text matches the rest of a value, as [`wildmatch::marked_by`] answers it. It is not inlined: few values begin as a front
/// does, and the others don't pay for the registers of the match.
#[inline(never)]
fn decide_rest<L: Ledger>(text: &[u8], value: &[u8], way: Way, counts: &mut Steps<L>) -> bool
    ensures exact { IsTrue result ↔ SplitsBy value.now text.now way }
    ensures limit { counts.new.steps ≤ counts.old.steps + step_limit (length text.now) (length value.now) }
    ensures looks { counts.new.looks ≤ counts.old.looks + look_limit (length text.now) (length value.now) }
    ensures grows { NeverFall counts.old counts.new }
{
    wildmatch::marked_by(text, value, way, counts)
}

impl Pattern {
    ghost use Rattle.glob_patterns.specs.PatternParts.{mode_of, text_of};

    /// Whether a path of a repository matches, as Git reads the pattern. `basename_start_pos` is what [`super::basename_start`] answers for the
    /// path, or `None` where its last part is the whole path.
    ///
    /// A pattern for directories matches only where `is_dir` is `Some(true)`. Of a pattern that looks at the whole path, what stands before
    /// the first `*`, `?`, `[` or `\` is compared with the path's front, and what follows is a pattern of its own: `a**/b` matches
    /// `ax/y/b`. It takes no memory. The rule is "matching a path as Git does" in `docs/PATTERNS.md`.
    pub fn matches_path_as_git(
        &self,
        path: &[u8],
        basename_start_pos: Option<usize>,
        is_dir: Option<bool>,
        case: Case,
    ) -> bool
        requires { ForSome basename_start_pos (IsAfterLastSlash path.now) }
        ensures { IsTrue result ↔ AnswersAsGit (text_of self.now) (mode_of self.now) path.now basename_start_pos is_dir case }
    {
        self.view()
            .matches_path_as_git(path, basename_start_pos, is_dir, case)
    }

    /// Whether a path of a repository matches, as [`Pattern::matches_path_as_git`] answers it, with its steps and looks counted.
    ///
    /// The counts rise by no more than those of [`Pattern::matches_repo_relative_path_with_counts`] may. No count falls.
    pub fn matches_path_as_git_with_counts<L: Ledger>(
        &self,
        path: &[u8],
        basename_start_pos: Option<usize>,
        is_dir: Option<bool>,
        case: Case,
        counts: &mut Steps<L>,
    ) -> bool
        requires { ForSome basename_start_pos (IsAfterLastSlash path.now) }
        ensures exact { IsTrue result ↔ AnswersAsGit (text_of self.now) (mode_of self.now) path.now basename_start_pos is_dir case }
        ensures steps { counts.new.steps ≤ counts.old.steps + pattern_step_limit (length (text_of self.now)) (length path.now) }
        ensures looks { counts.new.looks ≤ counts.old.looks + pattern_look_limit (length (text_of self.now)) (length path.now) }
        ensures grows { NeverFall counts.old counts.new }
    {
        self.view()
            .matches_path_as_git_with_counts(path, basename_start_pos, is_dir, case, counts)
    }
}

impl<'a> PatternView<'a> {
    /// Whether a path of a repository matches, as [`Pattern::matches_path_as_git`] answers, and with its condition on the place.
    pub fn matches_path_as_git(
        self,
        path: &[u8],
        basename_start_pos: Option<usize>,
        is_dir: Option<bool>,
        case: Case,
    ) -> bool
        requires { ForSome basename_start_pos (IsAfterLastSlash path.now) }
        ensures { IsPattern self.entry.text.now self.entry.mode self.entry.first_wildcard_pos →
            IsTrue result ↔ AnswersAsGit self.entry.text.now self.entry.mode path.now basename_start_pos is_dir case }
    {
        self.matches_path_by_reading(path, basename_start_pos, is_dir, case, true)
    }

    /// Whether a path of a repository matches, as [`PatternView::matches_path_as_git`] answers it, with its steps and looks counted.
    ///
    /// The counts rise by no more than those of [`PatternView::matches_with_counts`] for the whole path may. No count falls.
    #[inline(always)]
    pub fn matches_path_as_git_with_counts<L: Ledger>(
        self,
        path: &[u8],
        basename_start_pos: Option<usize>,
        is_dir: Option<bool>,
        case: Case,
        counts: &mut Steps<L>,
    ) -> bool
        requires { ForSome basename_start_pos (IsAfterLastSlash path.now) }
        ensures exact { IsPattern self.entry.text.now self.entry.mode self.entry.first_wildcard_pos →
            IsTrue result ↔ AnswersAsGit self.entry.text.now self.entry.mode path.now basename_start_pos is_dir case }
        ensures steps { counts.new.steps ≤ counts.old.steps + pattern_step_limit (length self.entry.text.now) (length path.now) }
        ensures looks { counts.new.looks
            ≤ counts.old.looks + pattern_look_limit (length self.entry.text.now) (length path.now) }
        ensures grows { NeverFall counts.old counts.new }
    {
        self.matches_path_by_reading_with_counts(
            path,
            basename_start_pos,
            is_dir,
            case,
            true,
            counts,
        )
    }

    /// Whether a path of a repository matches: with `as_git` as [`PatternView::matches_path_as_git`] answers, else as
    /// [`PatternView::matches_repo_relative_path`] does where no wildcard matches a slash. The condition on the place is theirs.
    #[inline(always)]
    pub fn matches_path_by_reading(
        self,
        path: &[u8],
        basename_start_pos: Option<usize>,
        is_dir: Option<bool>,
        case: Case,
        as_git: bool,
    ) -> bool
        requires { ForSome basename_start_pos (IsAfterLastSlash path.now) }
        ensures by_crate { IsPattern self.entry.text.now self.entry.mode self.entry.first_wildcard_pos → as_git ≡ false →
            IsTrue result ↔ Answers self.entry.text.now self.entry.mode path.now basename_start_pos is_dir case (record { 0 = 1 }) }
        ensures by_git { IsPattern self.entry.text.now self.entry.mode self.entry.first_wildcard_pos → IsTrue as_git →
            IsTrue result ↔ AnswersAsGit self.entry.text.now self.entry.mode path.now basename_start_pos is_dir case }
    {
        let asked = Asked {
            path,
            basename_start_pos,
            is_dir,
            case,
            mode: wildmatch::Mode::NO_MATCH_SLASH_LITERAL,
            as_git,
        };
        self.answers_with_new_counts::<Brand>(asked, Blank::new(2))
    }

    /// Whether a path of a repository matches, as [`PatternView::matches_path_by_reading`] answers it, with its steps and looks counted.
    ///
    /// The counts rise by no more than those of [`PatternView::matches_with_counts`] for the whole path may. No count falls.
    #[inline(always)]
    pub fn matches_path_by_reading_with_counts<L: Ledger>(
        self,
        path: &[u8],
        basename_start_pos: Option<usize>,
        is_dir: Option<bool>,
        case: Case,
        as_git: bool,
        counts: &mut Steps<L>,
    ) -> bool
        requires { ForSome basename_start_pos (IsAfterLastSlash path.now) }
        ensures by_crate { IsPattern self.entry.text.now self.entry.mode self.entry.first_wildcard_pos → as_git ≡ false →
            IsTrue result ↔ Answers self.entry.text.now self.entry.mode path.now basename_start_pos is_dir case (record { 0 = 1 }) }
        ensures by_git { IsPattern self.entry.text.now self.entry.mode self.entry.first_wildcard_pos → IsTrue as_git →
            IsTrue result ↔ AnswersAsGit self.entry.text.now self.entry.mode path.now basename_start_pos is_dir case }
        ensures steps { counts.new.steps ≤ counts.old.steps + pattern_step_limit (length self.entry.text.now) (length path.now) }
        ensures looks { counts.new.looks
            ≤ counts.old.looks + pattern_look_limit (length self.entry.text.now) (length path.now) }
        ensures grows { NeverFall counts.old counts.new }
    {
        let asked = Asked {
            path,
            basename_start_pos,
            is_dir,
            case,
            mode: wildmatch::Mode::NO_MATCH_SLASH_LITERAL,
            as_git,
        };
        self.answers(asked, counts)
    }

    /// Where the literal front of the text ends, if it is compared apart. Git does so with a text that looks at the whole path, and neither
    /// begins with a special byte nor has none. Any other text is matched as a whole.
    #[inline(always)]
    pub(super) fn front_apart(self, as_git: bool) -> Option<usize>
        ensures some { IfSome result (λ place. IsTrue as_git × (looks_at_name self.entry.mode ≡ false)
            × (self.entry.first_wildcard_pos ≡ Some place) × (place ≤ length self.entry.text.now)) }
        ensures none { IsPattern self.entry.text.now self.entry.mode self.entry.first_wildcard_pos → IsTrue as_git → IfNone result
            (looks_at_name self.entry.mode ≡ false → (value : List ℕ) (way : Way)
            → FrontAndRest value self.entry.text.now way ↔ SplitsBy value self.entry.text.now way) }
    {
        if !as_git || self.mode.looks_at_name() {
            return None;
        }
        match self.first_wildcard_pos {
            Some(place) if place > 0 && place <= self.text.len() => Some(place),
            _ => None,
        }
    }

    /// Whether the value begins as the literal front of the text does, up to its end, and the rest of the text matches what follows.
    ///
    /// It isn't always inlined: what is makes its callers so large that they lose their own hint.
    #[inline]
    pub(super) fn decide_by_front<L: Ledger>(
        self,
        value: &[u8],
        front_end: usize,
        way: Way,
        counts: &mut Steps<L>,
    ) -> bool
        requires first { self.first_wildcard_pos ≡ Some front_end }
        requires inside { front_end ≤ length self.text.now }
        ensures exact { IsPattern self.entry.text.now self.entry.mode self.entry.first_wildcard_pos →
            IsTrue result ↔ FrontAndRest value.now self.entry.text.now way }
        ensures steps { counts.new.steps ≤ counts.old.steps + pattern_step_limit (length self.entry.text.now) (length value.now) }
        ensures looks { counts.new.looks
            ≤ counts.old.looks + pattern_look_limit (length self.entry.text.now) (length value.now) }
        ensures grows { NeverFall counts.old counts.new }
    {
        text_is_short(self.text);
        text_is_short(value);
        let (begins, counts) = self.front_compared::<L, Brand>(value, front_end, way, counts);
        if !begins {
            return false;
        }
        decide_rest(&self.text[front_end..], &value[front_end..], way, counts)
    }

    /// Whether the value begins with the bytes of the text before a place, and the counts of what that took.
    #[inline(always)]
    fn front_compared<'c, L: Ledger, M: Texts>(
        self,
        value: &'a [u8],
        place: usize,
        way: Way,
        counts: &'c mut Steps<L>,
    ) -> (bool, &'c mut Steps<L>)
        requires pattern { self.text.now ≡ M.pattern }
        requires value { value.now ≡ M.value }
        requires way { way ≡ M.way }
        requires counts { counts.ghost_name ≡ M.counts }
        ensures exact { IsTrue result.0 ↔ BeginsAlike way value.now (take place self.entry.text.now) }
        ensures same { result.1.ghost_name ≡ counts.entry.ghost_name }
        ensures count { TakesUpTo counts.old result.1.now (length value.now) (2 * length self.entry.text.now) }
    {
        let texts = CountedTexts::<'c, 'a, L, M>::new(self.text, value, counts);
        let mut comparison = Comparison::new(texts, false, way);
        let begins = comparison.begins_alike(place);
        (begins, comparison.into_counts())
    }
}
