//! The words of a command line and of the environment, each `KEY=VALUE` or `KEY`.
ghost use Rattle.std.specs.Prelude.{◌≡◌, ◌==◌, ◌≤◌, ◌-◌, ◌&&◌, ◌++◌, length, map, nat_eq, not, option_map, position, IfOk, OnOk, codes};
ghost use Rattle.std.specs.Char.{to_ascii_lowercase};
ghost use Rattle.std.specs.List.{before_first, ends_with, list_any, starts_with};
ghost use Rattle.std.specs.Option.{option_copied};
ghost use Rattle.std.specs.Vec.{vec_items};
ghost use Rattle.git_config.specs.Words.{begins_with_letter, canonical_of, is_equals, joins, name_start, section_end, value_of_word};

use crate::bytes::is_name_byte;
use std::alloc::{AllocError, Global};

/// The key and the value of a word: what stands before its first equals sign and behind it. A word without one has no value, which is
/// another thing than an empty value.
pub fn split_word(word: &[u8]) -> (&[u8], Option<&[u8]>)
    ensures key { result.0.now ≡ before_first is_equals word.now }
    ensures value { option_copied result.1 ≡ value_of_word word.now }
{
    match first_equals(word) {
        Some(place) => (&word[..place], Some(&word[place + 1..])),
        None => (word, None),
    }
}

/// The place of the first equals sign.
fn first_equals(word: &[u8]) -> Option<usize>
    ensures { result ≡ position is_equals word.now }
{
    word.iter().position(|b| *b == b'=')
}

/// The canonical form of a key that is told in a word, as [`Config::entries_of`](crate::Config::entries_of) takes it: what
/// stands before the first full stop and behind the last in lower case. `None` where it is no key: these two have another byte than a
/// letter, a digit or a hyphen, the second doesn't begin with a letter, a full stop is missing or only at the front, or a line feed
/// stands between.
///
/// # Errors
/// Only where memory was refused.
pub fn canonical_key(alloc: Global, key: &[u8]) -> Result<Option<Vec<u8>>, AllocError>
    ensures { IfOk result (λ found. option_map vec_items found ≡ canonical_of key.now) }
{
    let start = name_start(key);
    if start <= 1 {
        return Ok(None);
    }
    let (front, name) = key.split_at(start);
    let end = section_end(key);
    if end >= start {
        return Ok(None);
    }
    let (section, middle) = front.split_at(end);
    if !is_split(middle, name) {
        return Ok(None);
    }
    let mut canonical = Vec::new(alloc);
    push_lowercase(&mut canonical, section)?;
    canonical.extend_from_slice(middle)?;
    push_lowercase(&mut canonical, name)?;
    Ok(Some(canonical))
}

/// Whether these are the middle and the name of a key.
fn is_split(middle: &[u8], name: &[u8]) -> bool
    ensures { result ≡ (joins middle.now && begins_with_letter name.now) }
{
    joins(middle) && begins_with_letter(name)
}

/// Whether a text begins and ends with a full stop, and has no line feed.
fn joins(middle: &[u8]) -> bool
    ensures { result ≡ joins middle.now }
{
    middle.starts_with(b".") && middle.ends_with(b".") && !has_feed(middle)
}

/// Whether a line feed is among the bytes.
fn has_feed(bytes: &[u8]) -> bool
    ensures { result ≡ list_any (λ b. b == 10) bytes.now }
{
    bytes.contains(&b'\n')
}

/// Whether a text begins with a letter.
fn begins_with_letter(text: &[u8]) -> bool
    ensures { result ≡ begins_with_letter text.now }
{
    match text {
        [b, ..] => b.is_ascii_alphabetic(),
        [] => false,
    }
}

/// Where the name of a section ends.
fn section_end(key: &[u8]) -> usize
    ensures value { result ≡ section_end key.now }
    ensures within { result ≤ length key.now }
{
    let mut end = 0;
    'bytes: while end < key.len() {
        if !is_name_byte(key[end]) {
            return end;
        }
        end += 1;
    }
    end
}

/// Where the name of an entry begins.
fn name_start(key: &[u8]) -> usize
    ensures value { result ≡ name_start key.now }
    ensures within { result ≤ length key.now }
{
    let mut start = key.len();
    'bytes: while start > 0 {
        if !is_name_byte(key[start - 1]) {
            return start;
        }
        start -= 1;
    }
    start
}

/// Adds a text in lower case.
fn push_lowercase(out: &mut Vec<u8>, text: &[u8]) -> Result<(), AllocError>
    ensures { OnOk result (out.new.items ≡ out.old.items ++ map to_ascii_lowercase text.now) }
{
    for b in text {
        out.push(b.to_ascii_lowercase())?;
    }
    Ok(())
}
