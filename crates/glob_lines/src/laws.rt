//! Laws of the definitions, each the contract of a function that does nothing.
ghost use Rattle.std.specs.Prelude.{◌≡◌, ◌↔◌, ℕ, List, Option, map};
ghost use Rattle.gix_glob.specs.declared.pattern.Case.{Case};
ghost use Rattle.gix_glob.specs.declared.wildmatch.Mode.{Mode};
ghost use Rattle.gix_glob.specs.EntryLists.{EntryList};
ghost use Rattle.glob_lines.specs.declared.ignore.GitIgnoreLines.{GitIgnoreLines};
ghost use Rattle.glob_lines.specs.declared.ignore.IgnoreLines.{IgnoreLines};
ghost use Rattle.glob_lines.specs.declared.label.LabelLines.{LabelLines};
ghost use Rattle.glob_lines.specs.declared.plain.PlainLines.{PlainLines};
ghost use Rattle.glob_lines.specs.Decisions.{DecisionsText};
ghost use Rattle.glob_lines.specs.GitLines.{BeginsWithGitLine, GitEntries};
ghost use Rattle.glob_lines.specs.Ignore.{BeginsWithLine, Ignore};
ghost use Rattle.glob_lines.specs.Label.{Label, LabelEntry, tab};
ghost use Rattle.glob_lines.specs.Laws.Label.{entry_with_empty_label};
ghost use Rattle.glob_lines.specs.Lines.{EndsInFeed, Lines};
ghost use Rattle.byte_streams.specs.Records.{HasNo};
ghost use Rattle.glob_lines.specs.Equations.Lines.{lines_of};
ghost use Rattle.glob_lines.specs.Mappings.{MappingsText, PatternsAndPaths};
ghost use Rattle.glob_lines.specs.Plain.{Plain, PlainEntry};
ghost use Rattle.glob_lines.specs.Values.{ValuesText};

use crate::ignore::{GitIgnoreLines, IgnoreLines};
use crate::label::LabelLines;
use crate::plain::PlainLines;
use gix_glob::laws::{git_readings_are_these, readings_are_these};
use gix_glob::search;
use glob_lists::laws::decides_one_pair;
pub use glob_lists::laws::loaded_lists_have_folders;

/// Bytes have one list of lines, which the equations of `lines_of` give.
pub fn lines_are_these()
    ensures { (bytes : List ℕ) (texts : List (List ℕ)) → Lines EndsInFeed bytes texts ↔ (texts ≡ lines_of bytes) }
{}

/// The bytes of an ignore file begin with one line: what [`next_ignore_line`](crate::next_ignore_line) answers is determined by
/// them.
pub fn bytes_begin_with_one_line()
    ensures { (bytes rest left : List ℕ) (text other : Option (List ℕ))
        → BeginsWithLine bytes text rest → BeginsWithLine bytes other left → (text ≡ other) × (rest ≡ left) }
{}

/// Bytes have one list of plain entries, which is what [`PlainLines`] means by them.
pub fn plain_entries_are_these()
    ensures { (parser : PlainLines) (source bytes : List ℕ) (entries : List PlainEntry)
        → Plain bytes entries ↔ (entries ≡ ⟦<PlainLines as search::Pattern>⟧.meaning parser bytes source) }
{
    readings_are_these();
}

/// Bytes have one list of ignore entries, which is what [`IgnoreLines`] means by them.
pub fn ignore_entries_are_these()
    ensures { (parser : IgnoreLines) (source bytes : List ℕ) (entries : List PlainEntry)
        → Ignore bytes entries ↔ (entries ≡ ⟦<IgnoreLines as search::Pattern>⟧.meaning parser bytes source) }
{
    readings_are_these();
}

/// As Git reads it, an ignore file begins with one line: what [`next_git_line`](crate::next_git_line) answers is determined by its bytes.
pub fn bytes_begin_with_one_git_line()
    ensures { (bytes rest left : List ℕ) (text other : Option (List ℕ))
        → BeginsWithGitLine bytes text rest → BeginsWithGitLine bytes other left → (text ≡ other) × (rest ≡ left) }
{}

/// As Git reads them, bytes have one list of ignore entries, which is what [`GitIgnoreLines`] means by them.
pub fn git_entries_are_these()
    ensures { (parser : GitIgnoreLines) (source bytes : List ℕ) (entries : List PlainEntry)
        → GitEntries bytes entries ↔ (entries ≡ ⟦<GitIgnoreLines as search::Pattern>⟧.meaning parser bytes source) }
{
    git_readings_are_these();
}

/// Bytes have one list of labelled entries, which is what [`LabelLines`] means by them.
pub fn label_entries_are_these()
    ensures { (parser : LabelLines) (source bytes : List ℕ) (entries : List LabelEntry)
        → Label bytes entries ↔ (entries ≡ ⟦<LabelLines as search::Pattern>⟧.meaning parser bytes source) }
{
    readings_are_these();
}

/// Over bytes without a tab the labelled entries are the plain ones, with empty values.
pub fn lines_without_tabs_keep_their_meaning()
    ensures { (bytes : List ℕ) (entries : List PlainEntry) → HasNo tab bytes
        → Plain bytes entries → Label bytes (map entry_with_empty_label entries) }
{
    readings_are_these();
}

/// The lines of values have one text: what [`run_wild`](crate::run_wild) writes is determined by what it reads.
pub fn values_have_one_text()
    ensures { (pattern : List ℕ) (mode : Mode) (input text other : List ℕ)
        → ValuesText pattern mode input text → ValuesText pattern mode input other → text ≡ other }
{}

/// Pattern lines and path lines have one text: what [`run_list`](crate::run_list) writes is determined by what it reads,
/// under one source, root and case.
pub fn mappings_have_one_text()
    ensures { (source : List ℕ) (root : Option (List ℕ)) (case : Case) (input : PatternsAndPaths) (text other : List ℕ)
        → MappingsText source root case input text → MappingsText source root case input other → text ≡ other }
{
    plain_entries_are_these();
}

/// Path lines and a stack of lists have one text: what [`run_ignore`](crate::run_ignore) writes is determined by what it
/// reads, under the same lists and case.
pub fn decisions_have_one_text<T: search::Pattern>()
    ensures { (lists : List (EntryList T.Seen)) (case : Case) (paths text other : List ℕ)
        → DecisionsText lists case paths text → DecisionsText lists case paths other → text ≡ other }
{
    decides_one_pair::<T>();
}
