//! Patterns that are read once and matched often: `struct gix_glob_pattern` of the header, and what is asked of it.
ghost use Rattle.std.specs.Prelude.{◌≡◌, ◌<◌, ◌⊎◌, ◌↔◌, ℕ, [], ◌∷◌, length, All, IsTrue, IfSome, MatchOption, None, option_map, true, false};
ghost use Rattle.glob_lists.specs.Deciding.{AnswersUnder, Decides};
ghost use Rattle.gix_glob.specs.Patterns.{HasReading, IsPattern, is_blank, is_for_directories, is_negative, slash_if, without_negation};
ghost use Rattle.gix_glob_c.specs.Parsed.{IsLawful, IsPathOfFile, IsRead, IsReadAsGit, entry_of_parts, first_of, list_of, mode_of, reading_of, reading_of_all};
ghost use Rattle.gix_glob_c.specs.Parts.{none, reading_told, rules_of, unless_none};
ghost use Rattle.gix_glob_c.specs.Places.{IsPartOf};
ghost use Rattle.gix_glob_c.specs.Private.Parts.{HasBefore};

use crate::places::{count_behind, part_before};
use crate::{place_in, rules_of};
use bitflags::Flags;
use gix_glob::pattern::{Mode, PatternView};
use glob_lists::{Reading, RepositoryPath, Rules};

/// What stands for no place and for no index.
pub(crate) const NONE: usize = usize::MAX;

/// `struct gix_glob_pattern_mode`: the bits of what is known of a pattern's text and of what stood around it.
#[repr(C)]
#[derive(Copy, Clone)]
pub struct GlobPatternMode {
    /// The sum of the bits that stand.
    pub bits: u32,
}

/// `struct gix_glob_pattern`: the parts of a pattern. Its text is borrowed from the line that was read.
#[repr(C)]
#[derive(Copy, Clone)]
pub struct GlobPattern<'a> {
    /// The bytes that are matched.
    pub text: &'a [u8],
    /// The place of the text's first `*`, `?`, `[` or `\`, counted in bytes from 0. The calls that read a pattern write
    /// `usize::MAX` where there is none; those that match take any place past the text's end for none.
    pub first_wildcard_pos: usize,
    /// What is known of the text, and of what stood around it.
    pub mode: GlobPatternMode,
    /// Whose reading it is: 0 for the ported crate's, any other number for Git's. The calls that read a pattern write 0 or 1.
    pub reading: u32,
}

impl<'a> GlobPattern<'a> {
    /// Whose reading it is.
    pub(crate) fn reading(&self) -> Reading
        ensures { result ≡ reading_of self.now }
    {
        if self.reading == 0 {
            Reading::Crate
        } else {
            Reading::Git
        }
    }

    /// The same parts, as Rust keeps them.
    pub(crate) fn view(&self) -> PatternView<'a>
        ensures text { result.text.now ≡ self.now.text.now }
        ensures mode { result.mode ≡ mode_of self.now }
        ensures place { result.first_wildcard_pos ≡ first_of self.now }
    {
        PatternView {
            text: self.text,
            mode: Mode::from_bits_retain(self.mode.bits),
            first_wildcard_pos: place_in(self.text, self.first_wildcard_pos),
        }
    }
}

/// Reads a pattern line, as `Pattern::from_bytes` does. The text of the pattern is a part of the line. A blank line leaves `out` as it
/// was, and is answered by `false`.
#[unsafe(no_mangle)]
pub extern "C" fn gix_glob_parse<'a>(line: &'a [u8], out: &mut GlobPattern<'a>) -> bool
    ensures reads { result ≡ true → IsRead line.now out.new }
    ensures blank { (result ≡ false) ↔ IsTrue (is_blank (without_negation line.now)) }
    ensures unread { result ≡ false → ¬ HasReading line.now true }
    ensures kept { result ≡ false → out.new ≡ out.old }
    ensures place { result ≡ true → IsPartOf out.new.text line.entry }
{
    match PatternView::from_bytes(line) {
        Some(view) => {
            *out = parts_of(part_of(line, view), Reading::Crate);
            true
        }
        None => false,
    }
}

/// Reads a pattern line as Git does, as `Pattern::from_git_line` reads it. Each line has a pattern, whose text is a part of the line.
#[unsafe(no_mangle)]
pub extern "C" fn gix_glob_parse_as_git<'a>(line: &'a [u8], out: &mut GlobPattern<'a>)
    ensures reads { IsReadAsGit line.now out.new }
    ensures place { IsPartOf out.new.text line.entry }
{
    let view = PatternView::from_git_line(line);
    *out = parts_of(part_of(line, view), Reading::Git);
}

/// A pattern that was read of a line, with the text where it lies in the line.
pub(crate) fn part_of<'a>(line: &'a [u8], view: PatternView<'_>) -> PatternView<'a>
    requires { HasBefore line.now view.text.now (length (slash_if (is_for_directories view.mode))) }
    ensures text { result.text.now ≡ view.entry.text.now }
    ensures mode { result.mode ≡ view.entry.mode }
    ensures first { result.first_wildcard_pos ≡ view.entry.first_wildcard_pos }
    ensures place { IsPartOf result.text line.entry }
{
    PatternView {
        text: part_before(line, view.text, count_behind(view.mode)),
        mode: view.mode,
        first_wildcard_pos: view.first_wildcard_pos,
    }
}

/// Whether a pattern matches a path, in path mode, by its reading. The path is that from the folder of the pattern's file on: it isn't
/// empty, has no slash at its front or end, and no two in a row; any other is matched by nothing.
#[unsafe(no_mangle)]
pub extern "C" fn gix_glob_pattern_matches_path(
    pattern: &GlobPattern<'_>,
    path: &[u8],
    is_dir: bool,
    fold: bool,
) -> bool
    ensures other { ¬ IsPathOfFile path.now → result ≡ false }
    ensures exact { IsLawful pattern.now → IsPathOfFile path.now
        → (IsTrue result ↔ AnswersUnder None (entry_of_parts pattern.now) path.now is_dir (rules_of (reading_of pattern.now) fold)) }
{
    let Some(path) = path_of_file(path, is_dir) else {
        return false;
    };
    is_matched(pattern, &path, rules_of(pattern.reading(), fold))
}

/// Whose reading counts for the patterns of a call: that of the first.
pub(crate) fn reading_of_all(patterns: &[GlobPattern<'_>]) -> Reading
    ensures { result ≡ reading_of_all patterns.now }
{
    match patterns {
        [first, ..] => first.reading(),
        [] => Reading::Crate,
    }
}

/// The index of the last of the patterns that matches a path.
pub(crate) fn last_match(
    patterns: &[GlobPattern<'_>],
    path: &RepositoryPath<'_>,
    rules: Rules,
) -> Option<usize>
    ensures inside { IfSome result (λ index. index < length patterns.now) }
    ensures some { IfSome result (λ index. index < none) }
    ensures exact { All IsLawful patterns.now
        → Decides (list_of patterns.now ∷ []) path.now.bytes path.now.is_dir rules (option_map (λ (index : ℕ). (0, index)) result) }
{
    for i in (0..patterns.len()).rev() {
        if is_matched(&patterns[i], path, rules) {
            return Some(i);
        }
    }
    None
}

/// The parts of a pattern of a reading, as C keeps them.
pub(crate) fn parts_of<'a>(view: PatternView<'a>, reading: Reading) -> GlobPattern<'a>
    requires { IsPattern view.text.now view.mode view.first_wildcard_pos }
    ensures text { result.text.now ≡ view.entry.text.now }
    ensures mode { mode_of result ≡ view.entry.mode }
    ensures place { first_of result ≡ view.entry.first_wildcard_pos }
    ensures told { unless_none result.first_wildcard_pos ≡ view.entry.first_wildcard_pos }
    ensures reading { reading_of result ≡ reading }
    ensures lies { result.text ≡ view.entry.text }
{
    GlobPattern {
        text: view.text,
        first_wildcard_pos: view.first_wildcard_pos.unwrap_or(NONE),
        mode: GlobPatternMode {
            bits: view.mode.bits(),
        },
        reading: number_of(reading),
    }
}

/// The number of a reading.
fn number_of(reading: Reading) -> u32
    ensures { reading_told result ≡ reading }
{
    match reading {
        Reading::Crate => 0,
        Reading::Git => 1,
    }
}

/// The path of bytes from a folder on, where they are one that no slash ends.
pub(crate) fn path_of_file(bytes: &[u8], is_dir: bool) -> Option<RepositoryPath<'_>>
    ensures { MatchOption result
        (¬ IsPathOfFile bytes.now)
        (λ path. IsPathOfFile bytes.now × (path ≡ record { bytes = bytes.now; is_dir = is_dir })) }
{
    if bytes.ends_with(b"/") {
        return None;
    }
    RepositoryPath::new(bytes, is_dir)
}

/// Whether the line of a pattern began with `!`.
pub(crate) fn is_negative(pattern: &GlobPattern<'_>) -> bool
    ensures { result ≡ is_negative (mode_of pattern.now) }
{
    Mode::from_bits_retain(pattern.mode.bits).contains(Mode::NEGATIVE)
}

/// Whether a pattern matches a path.
pub(crate) fn is_matched(pattern: &GlobPattern<'_>, path: &RepositoryPath<'_>, rules: Rules) -> bool
    ensures { IsLawful pattern.now →
        (IsTrue result ↔ AnswersUnder None (entry_of_parts pattern.now) path.now.bytes path.now.is_dir rules) }
{
    path.is_matched_by(pattern.view(), rules)
}
