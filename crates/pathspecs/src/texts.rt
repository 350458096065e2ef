//! Texts in the order of their bytes: one is found among them without going through all.
ghost use Rattle.std.specs.Prelude.{◌≡◌, ◌≢◌, ◌⊎◌, ◌↔◌, ◌+◌, ◌++◌, ◌<◌, ◌≤◌, false, true, ℕ, List, [], IsSorted, IsTrue, length, map, slice_index, take};
ghost use Rattle.std.specs.Cmp.Lexicographic.{slice_cmp};
ghost use Rattle.std.specs.List.{AllWithin, Contains};
ghost use Rattle.std.specs.Ordering.{is_gt, nat_cmp};
ghost use Rattle.std.specs.Vec.{vec_items};
ghost use Rattle.glob_matcher.specs.Bytes.{slash};
ghost use Rattle.pathspecs.specs.Elements.{is_below};
ghost use Rattle.pathspecs.specs.Private.Texts.{EndsAt, bytes_cmp};

use std::marker::Model;

/// Texts in the order of their bytes.
#[derive(Debug, Drop)]
pub(crate) struct Texts {
    sorted: Vec<Vec<u8>>,
}

impl Model for Texts {
    ghost use Rattle.std.specs.Prelude.{ℕ, IsSorted, List, map};
    ghost use Rattle.std.specs.Vec.{vec_items};
    ghost use Rattle.pathspecs.specs.Private.Texts.{bytes_cmp};

    ghost Value = { List (List ℕ) };

    ghost view = { λ texts. map vec_items texts.sorted.items };

    ghost invariant = { λ texts. IsSorted bytes_cmp texts.sorted.items };
}

impl Texts {
    /// These texts, put in order.
    pub(crate) fn new(mut texts: Vec<Vec<u8>>) -> Texts
        ensures { (text : List ℕ) → Contains result text ↔ Contains (map vec_items texts.items) text }
    {
        texts.sort_unstable();
        Texts { sorted: texts }
    }

    /// Whether a text is among them.
    pub(crate) fn have(&self, text: &[u8]) -> bool
        ensures { IsTrue result ↔ Contains self.now text.now }
    {
        is_among(&self.sorted, text)
    }

    /// Whether one of them is longer than a text, and begins with it.
    pub(crate) fn go_on(&self, text: &[u8]) -> bool
        ensures { IsTrue result ↔ (rest : List ℕ) × (rest ≢ []) × Contains self.now (text.now ++ rest) }
    {
        goes_on(&self.sorted, text)
    }

    /// Whether a path lies below one of them.
    pub(crate) fn have_above(&self, path: &[u8]) -> bool
        ensures { IsTrue result ↔ (text rest : List ℕ) × Contains self.now text × (path.now ≡ text ++ rest) × IsTrue (is_below text rest) }
    {
        if self.have(b"") {
            return true;
        }
        'places: for place in 0..path.len() {
            if self.end_at(path, place) {
                return true;
            }
        }
        false
    }

    /// Whether at this place of a path a slash stands, before which or with which one of them ends.
    fn end_at(&self, path: &[u8], place: usize) -> bool
        requires { place < length path.now }
        ensures { IsTrue result ↔ EndsAt self.now path.now place }
    {
        path[place] == b'/' && (self.have(&path[..place]) || self.have(&path[..place + 1]))
    }
}

/// Whether a text is among some in order.
fn is_among(sorted: &[Vec<u8>], text: &[u8]) -> bool
    requires { IsSorted bytes_cmp sorted.now }
    ensures { IsTrue result ↔ Contains (map vec_items sorted.now) text.now }
{
    let behind = first_behind(sorted, text);
    behind > 0 && sorted[behind - 1].as_slice() == text
}

/// Whether one of some in order is longer than a text, and begins with it.
fn goes_on(sorted: &[Vec<u8>], text: &[u8]) -> bool
    requires { IsSorted bytes_cmp sorted.now }
    ensures { IsTrue result ↔ (rest : List ℕ) × (rest ≢ []) × Contains (map vec_items sorted.now) (text.now ++ rest) }
{
    let behind = first_behind(sorted, text);
    behind < sorted.len() && sorted[behind].starts_with(text)
}

/// The place of the first text that comes behind another.
fn first_behind(sorted: &[Vec<u8>], text: &[u8]) -> usize
    requires { IsSorted bytes_cmp sorted.now }
    ensures within { result ≤ length sorted.now }
    ensures before { AllWithin (λ each. is_gt (slice_cmp nat_cmp each.items text.now) ≡ false) sorted.now 0 result }
    ensures behind { AllWithin (λ each. is_gt (slice_cmp nat_cmp each.items text.now) ≡ true) sorted.now result (length sorted.now) }
{
    sorted.partition_point(|each| !comes_behind(each, text))
}

/// Whether a text comes behind another. (Most texts are short, and differ early: byte by byte that is told soonest.)
fn comes_behind(text: &[u8], other: &[u8]) -> bool
    ensures { result ≡ is_gt (slice_cmp nat_cmp text.now other.now) }
{
    let mut place = 0;
    'bytes: while place < text.len() && place < other.len() && text[place] == other[place] {
        place += 1;
    }
    match (text.get(place), other.get(place)) {
        (Some(byte), Some(least)) => byte > least,
        (Some(_), None) => true,
        (None, _) => false,
    }
}
