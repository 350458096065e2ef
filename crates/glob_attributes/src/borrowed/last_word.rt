//! The words of a text from its end.
ghost use Rattle.std.specs.Prelude.{◌≡◌, ◌++◌, ◌∷◌, [], MatchOption, false};
ghost use Rattle.glob_attributes.specs.Words.{is_blank, words_of};
ghost use Rattle.glob_attributes.specs.Private.Behind.{EndsIn, IsLastStart};

use crate::words::is_blank;

/// What stands before the last word of a text, and that word; `None` where there is no word.
pub(crate) fn last_word(text: &[u8]) -> Option<(&[u8], &[u8])>
    ensures { MatchOption result (words_of text.entry.now ≡ [])
        (λ found. words_of text.entry.now ≡ words_of found.0.now ++ found.1.now ∷ []) }
{
    let text = before_blanks(text);
    if text.is_empty() {
        return None;
    }
    Some(text.split_at(last_start(text)))
}

/// A text without the blanks at its end.
fn before_blanks(text: &[u8]) -> &[u8]
    ensures words { words_of result.now ≡ words_of text.now }
    ensures last { EndsIn false result.now }
{
    for end in (0..text.len()).rev() {
        if !is_blank(text[end]) {
            return &text[..end + 1];
        }
    }
    &[]
}

/// Where the last word of a text begins, which ends with it.
fn last_start(text: &[u8]) -> usize
    ensures { IsLastStart text.now result }
{
    for before in (0..text.len()).rev() {
        if is_blank(text[before]) {
            return before + 1;
        }
    }
    0
}
