//! A pattern whose text is borrowed: the parts of a line that was read, without a copy of its text.
ghost use Rattle.std.specs.Prelude.{◌≡◌, ◌↔◌, ◌+◌, ◌*◌, ◌≤◌, length, true, false, IsNone, IsTrue, MatchOption, IfSome};
ghost use Rattle.std.specs.Option.{ForSome};
ghost use Rattle.glob_matcher.specs.Bytes.{HasByte, has_slash, slash};
ghost use Rattle.glob_matcher.specs.Matching.{Splits, SplitsBy};
ghost use Rattle.glob_matcher.specs.Steps.{IsBlankOf, NeverFall};
ghost use Rattle.glob_patterns.specs.PatternLimits.{pattern_look_limit, pattern_step_limit};
ghost use Rattle.glob_patterns.specs.GitLines.{GitReads};
ghost use Rattle.glob_patterns.specs.Patterns.{HasReading, IsPattern, Reads, is_blank, without_negation};
ghost use Rattle.glob_patterns.specs.RepositoryPaths.{Answers, IsAfterLastSlash};
ghost use Rattle.glob_patterns.specs.Private.Asked.{IsAnswered, IsAnsweredAsGit};
ghost use Rattle.glob_patterns.specs.Private.Shown.{IsShown, TakesUpTo, shown_look_limit, shown_step_limit};

use super::comparisons::{Comparison, Shown};
use super::paths::Asked;
use super::{Case, Mode};
use crate::parse;
use bitflags::Flags;
use glob_matcher::wildmatch;
use glob_matcher::wildmatch::{CountedTexts, Steps, Texts, text_is_short};
use std::marker::Brand;
use std::sync::ledger::{Blank, Ledger};

/// The parts of a pattern, its text borrowed: what `parse::pattern` answers. Nothing is allocated to match with it.
///
/// Its answers are right where the parts make a pattern, as [`super::Pattern::from_parts`] says; other parts are safe too.
#[derive(Debug, Copy, Clone)]
pub struct PatternView<'a> {
    /// The bytes that are matched.
    pub text: &'a [u8],
    /// What is known of the text and of what stood around it.
    pub mode: Mode,
    /// The place of the first `*`, `?`, `[` or `\` of the text, counted in bytes from 0; `None` where there is none.
    pub first_wildcard_pos: Option<usize>,
}

impl<'a> PatternView<'a> {
    /// Reads a pattern line as [`super::Pattern::from_bytes`] does, without a copy: `None` where it is blank.
    pub fn from_bytes(line: &'a [u8]) -> Option<PatternView<'a>>
        ensures reads { MatchOption result (¬ HasReading line.now true)
            (λ view. Reads line.now true view.text.now view.mode view.first_wildcard_pos) }
        ensures blank { IsNone result ↔ IsTrue (is_blank (without_negation line.now)) }
        ensures lawful { IfSome result (λ view. IsPattern view.text.now view.mode view.first_wildcard_pos) }
    {
        let (text, mode, first_wildcard_pos) = parse::pattern(line, true)?;
        Some(PatternView {
            text,
            mode,
            first_wildcard_pos,
        })
    }

    /// Reads a pattern line as [`super::Pattern::from_git_line`] does, without a copy.
    pub fn from_git_line(line: &'a [u8]) -> PatternView<'a>
        ensures reads { GitReads line.now result.text.now result.mode result.first_wildcard_pos }
        ensures lawful { IsPattern result.text.now result.mode result.first_wildcard_pos }
    {
        let (text, mode, first_wildcard_pos) = parse::git_pattern(line);
        PatternView {
            text,
            mode,
            first_wildcard_pos,
        }
    }

    /// Whether the text matches the value, as [`super::Pattern::matches`] answers.
    ///
    /// A text without special bytes is decided without the matcher, and so mostly is a literal after a star or between two; a
    /// literal front refuses without it.
    #[inline(always)]
    pub fn matches(self, value: &[u8], mode: wildmatch::Mode) -> bool
        ensures { IsPattern self.entry.text.now self.entry.mode self.entry.first_wildcard_pos →
            IsTrue result ↔ Splits value.now self.entry.text.now mode }
    {
        self.matches_with_new_counts::<Brand>(value, mode, Blank::new(2))
    }

    /// Whether the text matches the value, with new counts that no one asks for.
    #[inline(always)]
    fn matches_with_new_counts<L: Ledger>(
        self,
        value: &[u8],
        mode: wildmatch::Mode,
        blank: Blank,
    ) -> bool
        requires { IsBlankOf L.name L.parts blank }
        ensures { IsPattern self.entry.text.now self.entry.mode self.entry.first_wildcard_pos →
            IsTrue result ↔ Splits value.now self.entry.text.now mode }
    {
        self.matches_with_counts(value, mode, &mut Steps::<L>::new(blank))
    }

    /// Whether the text matches the value, as [`PatternView::matches`] answers it, with its steps and looks counted.
    ///
    /// The count of steps rises by at most `2 * (p + 1) * (v + 1) + 2 * v`, and that of looks by at most `10 * (p + 1) * (v + 1)`, `p`
    /// and `v` being the lengths in bytes of text and value. No count falls.
    #[inline(always)]
    pub fn matches_with_counts<L: Ledger>(
        self,
        value: &[u8],
        mode: wildmatch::Mode,
        counts: &mut Steps<L>,
    ) -> bool
        ensures exact { IsPattern self.entry.text.now self.entry.mode self.entry.first_wildcard_pos →
            IsTrue result ↔ Splits value.now self.entry.text.now mode }
        ensures steps { counts.new.steps ≤ counts.old.steps + pattern_step_limit (length self.entry.text.now) (length value.now) }
        ensures looks { counts.new.looks
            ≤ counts.old.looks + pattern_look_limit (length self.entry.text.now) (length value.now) }
        ensures grows { NeverFall counts.old counts.new }
    {
        self.decide(value, false, mode.way(), counts)
    }

    /// Whether the text matches the value, as [`PatternView::matches_with_counts`] answers it. Where `is_bare`, the value has no
    /// slash.
    #[inline(always)]
    pub(super) fn decide<L: Ledger>(
        self,
        value: &[u8],
        is_bare: bool,
        way: wildmatch::Way,
        counts: &mut Steps<L>,
    ) -> bool
        requires { IsTrue is_bare → has_slash value.now ≡ false }
        ensures exact { IsPattern self.entry.text.now self.entry.mode self.entry.first_wildcard_pos →
            IsTrue result ↔ SplitsBy value.now self.entry.text.now way }
        ensures steps { counts.new.steps ≤ counts.old.steps + pattern_step_limit (length self.entry.text.now) (length value.now) }
        ensures looks { counts.new.looks
            ≤ counts.old.looks + pattern_look_limit (length self.entry.text.now) (length value.now) }
        ensures grows { NeverFall counts.old counts.new }
    {
        text_is_short(self.text);
        text_is_short(value);
        let (shown, counts) = self.compared::<L, Brand>(value, is_bare, way, counts);
        // Each arm names its answer: a bit that is handed on costs every call an instruction.
        match shown {
            Shown::Match => true,
            Shown::Miss => false,
            Shown::Open(way) => wildmatch::marked_by(self.text, value, way, counts),
        }
    }

    /// What a comparison of text and value shows, and the counts of what it took.
    #[inline(always)]
    fn compared<'c, L: Ledger, M: Texts>(
        self,
        value: &'a [u8],
        is_bare: bool,
        way: wildmatch::Way,
        counts: &'c mut Steps<L>,
    ) -> (Shown, &'c mut Steps<L>)
        requires pattern { self.text.now ≡ M.pattern }
        requires value { value.now ≡ M.value }
        requires way { way ≡ M.way }
        requires counts { counts.ghost_name ≡ M.counts }
        requires bare { IsTrue is_bare → has_slash value.now ≡ false }
        ensures meaning { IsPattern self.entry.text.now self.entry.mode self.entry.first_wildcard_pos →
            IsShown result.0 value.now self.entry.text.now way }
        ensures same { result.1.ghost_name ≡ counts.entry.ghost_name }
        ensures count { TakesUpTo counts.old result.1.now (shown_step_limit result.0 (length self.entry.text.now) (length value.now))
            (shown_look_limit result.0 (length self.entry.text.now) (length value.now)) }
    {
        let texts = CountedTexts::<'c, 'a, L, M>::new(self.text, value, counts);
        let mut comparison = Comparison::new(texts, is_bare, way);
        let shown = comparison.shown(self.mode, self.first_wildcard_pos);
        (shown, comparison.into_counts())
    }

    /// Whether a path of a repository matches, as [`super::Pattern::matches_repo_relative_path`] answers, and
    /// with its conditions on the path and the place.
    pub fn matches_repo_relative_path(
        self,
        path: &[u8],
        basename_start_pos: Option<usize>,
        is_dir: Option<bool>,
        case: Case,
        mode: wildmatch::Mode,
    ) -> bool
        requires relative { ¬ HasByte path.now 0 slash }
        requires basename { ForSome basename_start_pos (IsAfterLastSlash path.now) }
        ensures { IsPattern self.entry.text.now self.entry.mode self.entry.first_wildcard_pos →
            IsTrue result ↔ Answers self.entry.text.now self.entry.mode path.now basename_start_pos is_dir case mode }
    {
        let asked = Asked {
            path,
            basename_start_pos,
            is_dir,
            case,
            mode,
            as_git: false,
        };
        self.answers_with_new_counts::<Brand>(asked, Blank::new(2))
    }

    /// Whether a path of a repository matches, with new counts that no one asks for.
    #[inline(always)]
    pub(super) fn answers_with_new_counts<L: Ledger>(self, asked: Asked<'_>, blank: Blank) -> bool
        requires basename { ForSome asked.basename_start_pos (IsAfterLastSlash asked.path.now) }
        requires blank { IsBlankOf L.name L.parts blank }
        ensures by_crate { IsPattern self.entry.text.now self.entry.mode self.entry.first_wildcard_pos → asked.entry.as_git ≡ false →
            IsTrue result ↔ IsAnswered self.entry.text.now self.entry.mode asked.entry }
        ensures by_git { IsPattern self.entry.text.now self.entry.mode self.entry.first_wildcard_pos → IsTrue asked.entry.as_git →
            IsTrue result ↔ IsAnsweredAsGit self.entry.text.now self.entry.mode asked.entry }
    {
        self.answers(asked, &mut Steps::<L>::new(blank))
    }

    /// Whether a path of a repository matches, as [`PatternView::matches_repo_relative_path`] answers it, with its steps and
    /// looks counted.
    ///
    /// The counts rise by no more than those of [`PatternView::matches_with_counts`] for the whole path may. No count falls.
    #[inline(always)]
    pub fn matches_repo_relative_path_with_counts<L: Ledger>(
        self,
        path: &[u8],
        basename_start_pos: Option<usize>,
        is_dir: Option<bool>,
        case: Case,
        mode: wildmatch::Mode,
        counts: &mut Steps<L>,
    ) -> bool
        requires relative { ¬ HasByte path.now 0 slash }
        requires basename { ForSome basename_start_pos (IsAfterLastSlash path.now) }
        ensures exact { IsPattern self.entry.text.now self.entry.mode self.entry.first_wildcard_pos →
            IsTrue result ↔ Answers self.entry.text.now self.entry.mode path.now basename_start_pos is_dir case mode }
        ensures steps { counts.new.steps ≤ counts.old.steps + pattern_step_limit (length self.entry.text.now) (length path.now) }
        ensures looks { counts.new.looks
            ≤ counts.old.looks + pattern_look_limit (length self.entry.text.now) (length path.now) }
        ensures grows { NeverFall counts.old counts.new }
    {
        let asked = Asked {
            path,
            basename_start_pos,
            is_dir,
            case,
            mode,
            as_git: false,
        };
        self.answers(asked, counts)
    }

    /// Whether a path of a repository matches, with its steps and looks counted.
    ///
    /// It is one body for both readings: a caller that takes either has `decide` in line once, and stays small enough to be inlined.
    #[inline(always)]
    pub(super) fn answers<L: Ledger>(self, asked: Asked<'_>, counts: &mut Steps<L>) -> bool
        requires { ForSome asked.basename_start_pos (IsAfterLastSlash asked.path.now) }
        ensures by_crate { IsPattern self.entry.text.now self.entry.mode self.entry.first_wildcard_pos → asked.entry.as_git ≡ false →
            IsTrue result ↔ IsAnswered self.entry.text.now self.entry.mode asked.entry }
        ensures by_git { IsPattern self.entry.text.now self.entry.mode self.entry.first_wildcard_pos → IsTrue asked.entry.as_git →
            IsTrue result ↔ IsAnsweredAsGit self.entry.text.now self.entry.mode asked.entry }
        ensures steps { counts.new.steps ≤ counts.old.steps + pattern_step_limit (length self.entry.text.now) (length asked.entry.path.now) }
        ensures looks { counts.new.looks
            ≤ counts.old.looks + pattern_look_limit (length self.entry.text.now) (length asked.entry.path.now) }
        ensures grows { NeverFall counts.old counts.new }
    {
        if self.mode.contains(Mode::MUST_BE_DIR) && asked.is_dir != Some(true) {
            return false;
        }
        let way = asked.way();
        if let Some(front_end) = self.front_apart(asked.as_git) {
            return self.decide_by_front(asked.path, front_end, way, counts);
        }
        let start = asked.subject_start(self.mode);
        self.decide(&asked.path[start..], start > 0, way, counts)
    }
}
