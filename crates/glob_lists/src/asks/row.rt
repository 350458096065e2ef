//! What one pattern asks of a path.
ghost use Rattle.std.specs.Prelude.{◌≡◌, ◌↔◌, ◌-◌, ◌<◌, ◌≤◌, IsTrue, Some, length, slice_get};
ghost use Rattle.gix_glob.specs.PatternParts.{mode_of, text_of};
ghost use Rattle.glob_lists.specs.Private.Asks.Parts.{is_name, part_of};
ghost use Rattle.glob_lists.specs.Private.Asks.Rows.{Asks, HasNoEnd, length_of};
ghost use Rattle.glob_lists.specs.Private.Asks.Showing.{HasBytes, HasEnd, IsTold, Lacks, Passes};

use crate::asks::literals::{LONGEST_END, end_key, has_all, literal_end, needed_bits, spare_bits};
use crate::asks::part::Part;
use crate::asks::probe::{Lacking, Probe};
use crate::link::Link;
use gix_glob::Pattern;
use gix_glob::pattern::PatternView;

/// How many bits are spare where a text has no literal end: all of a number.
const NO_END: u8 = 64;

/// What a pattern asks of a path, in 16 bytes of plain numbers: so memory that a caller keeps holds rows, whatever stands there. Which
/// pattern that is, the place of the row tells.
#[repr(C)]
#[derive(Debug, Copy, Clone)]
pub struct Row {
    /// What is asked for: the number of the text's literal end; where it has none, the set of the bytes and pairs that are needed.
    asked: u64,
    /// The row before this one in its chain.
    before: Link,
    /// How many bits the number of a path's longest end has more than that of the literal end: a shift by so many takes them off.
    spare: u8,
    /// What of a path the pattern looks at: the number of a [`Part`].
    part: u8,
}

impl Row {
    /// A row that asks for nothing.
    pub const BLANK: Row = Row {
        asked: 0,
        before: Link::NONE,
        spare: NO_END,
        part: 0,
    };

    /// The row of a pattern, not chained to another.
    #[inline(always)]
    pub(crate) fn new(pattern: &Pattern) -> Row
        ensures { Asks (text_of pattern.now) (mode_of pattern.now) result }
    {
        Row::of_view(pattern.view())
    }

    /// The row of a borrowed pattern, not chained to another.
    #[inline(always)]
    pub(crate) fn of_view(pattern: PatternView<'_>) -> Row
        ensures { Asks pattern.entry.text.now pattern.entry.mode result }
    {
        let text = pattern.text;
        let length = literal_end(text);
        if length == 0 {
            return Row {
                asked: needed_bits(text),
                part: Part::of_open(pattern).number(),
                ..Row::BLANK
            };
        }
        Row {
            asked: end_key(text, length),
            before: Link::NONE,
            spare: spare_bits(length),
            part: Part::of(pattern, length).number(),
        }
    }

    /// Whether the text has no literal end.
    #[inline(always)]
    pub(crate) fn has_no_end(&self) -> bool
        ensures { IsTrue result ↔ HasNoEnd self.now }
    {
        self.spare >= NO_END
    }

    /// The number of the literal end, or the set of the bytes and pairs that are needed.
    #[inline(always)]
    pub(crate) fn asked(&self) -> u64
        ensures { result ≡ self.now.asked }
    {
        self.asked
    }

    /// The length of the literal end, in bytes; 0 where there is none.
    #[inline(always)]
    pub(crate) fn length(&self) -> u8
        ensures { result ≡ length_of self.now }
    {
        (LONGEST_END as u8).saturating_sub(self.spare / 8)
    }

    /// What of a path the pattern looks at.
    #[inline(always)]
    pub(crate) fn part(&self) -> Part
        ensures { result ≡ part_of self.now.part }
    {
        Part::of_number(self.part)
    }

    /// Whether the pattern looks at the last part of a path alone, and at more of it than its end.
    #[inline(always)]
    pub(crate) fn is_name(&self) -> bool
        ensures { result ≡ is_name (part_of self.now.part) }
    {
        self.part().is_name()
    }

    /// The row before this one in its chain.
    #[inline(always)]
    pub(crate) fn before(&self) -> Link
        ensures { result ≡ self.now.before }
    {
        self.before
    }

    /// The row, chained to another.
    pub(crate) fn after(self, before: Link) -> Row
        ensures { result ≡ record self { before = before } }
    {
        Row { before, ..self }
    }

    /// Whether the path shows what the row asks for.
    #[inline(always)]
    pub(crate) fn is_shown_by(&self, probe: &Probe) -> bool
        ensures { IsTrue result ↔ Passes self.now probe.now }
    {
        if self.has_no_end() {
            self.has_bytes(probe)
        } else {
            self.has_end(probe)
        }
    }

    /// Whether the path ends as the text does.
    #[inline(always)]
    pub(crate) fn has_end(&self, probe: &Probe) -> bool
        ensures { IsTrue result ↔ HasEnd self.now probe.now }
    {
        self.asked == probe.key_without(self.spare)
    }

    /// Whether it is known without a test that the pattern matches what is left under a folder of a path that has its end.
    #[inline(always)]
    pub(crate) fn is_told_by(&self, probe: &Probe) -> bool
        ensures { IsTrue result ↔ IsTold self.now probe.now }
    {
        matches!(self.part(), Part::NameEnd) && probe.has_plain_end()
    }

    /// Whether nothing is needed that a path lacks.
    #[inline(always)]
    pub(crate) fn needs_none_of(&self, lacking: &Lacking) -> bool
        ensures { (probe : Probe) → Lacks probe lacking.now → IsTrue result ↔ HasBytes self.now probe }
    {
        self.asked & lacking.of(self.part()) == 0
    }

    /// Whether the path has the bytes and pairs that are needed.
    #[inline(always)]
    pub(crate) fn has_bytes(&self, probe: &Probe) -> bool
        ensures { IsTrue result ↔ HasBytes self.now probe.now }
    {
        has_all(probe.bytes_for(self.is_name()), self.asked)
    }
}

/// How many rows from a place on ask for nothing that a path doesn't show.
pub(crate) fn count_shown(rows: &[Row], from: usize, probe: &Probe) -> usize
    ensures few { result ≤ length rows.now - from }
    ensures some { (row : Row) → slice_get rows.now from ≡ Some row → Passes row probe.now → 0 < result }
{
    let mut count: usize = 0;
    'rows: for m in from..rows.len() {
        if rows[m].is_shown_by(probe) {
            count += 1;
        }
    }
    count
}
