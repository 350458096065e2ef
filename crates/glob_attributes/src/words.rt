//! The words of a text: what stands between its blanks.
ghost use Rattle.std.specs.Prelude.{◌≡◌, ◌∷◌, [], MatchOption, drop, not, position};
ghost use Rattle.std.specs.List.{before_first, position_or_len};
ghost use Rattle.std.specs.Iterator.{YieldsFirstRef, item_count};
ghost use Rattle.glob_attributes.specs.Places.{IsPartOf};
ghost use Rattle.glob_attributes.specs.Words.{after_blanks, is_blank, words_of};

/// The words of a text, in order.
#[derive(Drop)]
pub(crate) struct Words<'a> {
    rest: &'a [u8],
}

impl<'a> Words<'a> {
    /// The words of the text, none of which is taken yet.
    pub(crate) fn new(text: &'a [u8]) -> Words<'a>
        ensures { words_of result.rest.now ≡ words_of text.now }
    {
        Words { rest: text }
    }
}

impl<'a> Iterator for Words<'a> {
    type Item = &'a [u8];

    ghost next_gives = { YieldsFirstRef (λ words. words_of words.rest.now) };

    ghost remaining = { item_count (λ words. words_of words.rest.now) };

    fn next(&mut self) -> Option<&'a [u8]> {
        let (word, rest) = next_word(self.rest)?;
        self.rest = rest;
        Some(word)
    }
}

/// The first word of a text, and what follows it; `None` where there is no word.
fn next_word(text: &[u8]) -> Option<(&[u8], &[u8])>
    ensures { MatchOption result (words_of text.entry.now ≡ [])
        (λ found. words_of text.entry.now ≡ found.0.now ∷ words_of found.1.now) }
{
    let rest = after_blanks(text);
    if rest.is_empty() {
        return None;
    }
    Some(split_at_blank(rest))
}

/// Whether a byte is a blank: a space, a tab, a line feed or a carriage return.
pub(crate) fn is_blank(b: u8) -> bool
    ensures { result ≡ is_blank b }
{
    matches!(b, b' ' | b'\t' | b'\n' | b'\r')
}

/// What follows the blanks at the front of a text.
pub(crate) fn after_blanks(text: &[u8]) -> &[u8]
    ensures bytes { result.now ≡ after_blanks text.now }
    ensures place { IsPartOf result text.entry }
{
    match first_other(text) {
        Some(place) => &text[place..],
        None => &text[text.len()..],
    }
}

/// What stands before the first blank of a text, and what follows from that blank on.
pub(crate) fn split_at_blank(text: &[u8]) -> (&[u8], &[u8])
    ensures word { result.0.now ≡ before_first is_blank text.now }
    ensures rest { result.1.now ≡ drop (position_or_len is_blank text.now) text.now }
    ensures word_place { IsPartOf result.0 text.entry }
    ensures rest_place { IsPartOf result.1 text.entry }
{
    match first_blank(text) {
        Some(place) => (&text[..place], &text[place..]),
        None => (text, &text[text.len()..]),
    }
}

/// The place of the first blank.
fn first_blank(text: &[u8]) -> Option<usize>
    ensures { result ≡ position is_blank text.now }
{
    text.iter().position(|b| is_blank(*b))
}

/// The place of the first byte that is no blank.
fn first_other(text: &[u8]) -> Option<usize>
    ensures { result ≡ position (λ b. not (is_blank b)) text.now }
{
    text.iter().position(|b| !is_blank(*b))
}
