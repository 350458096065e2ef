//! The small changes that are tried on a line, in order.

use memchr::{memchr, memrchr};
use std::alloc::{AllocError, Global};

/// How many arms of braces are tried at most.
const MOST_ARMS: usize = 32;

/// A small change of a line, by what people take it to mean.
#[derive(Clone, Copy, Debug, PartialEq, Eq)]
pub enum Change {
    /// No blank and `#..` behind it.
    Comment,
    /// No tab at its end.
    Tab,
    /// No blank in front.
    Blank,
    /// No quotes.
    Quotes,
    /// No `^` in front and `$` behind.
    Anchors,
    /// One arm of its braces.
    Braces,
    /// No `./` in front.
    HereFolder,
    /// `/` for `\`.
    Backslash,
    /// No slash at its end.
    FolderSlash,
    /// `**/` in front.
    AnyFolder,
    /// `**/` before its last part.
    AnyDepth,
    /// Letters of either case.
    Case,
}

/// Each change that there is of a line, told without a `!` in front, with what it makes of it, in the order of [`Change`].
pub(crate) fn changes_of(alloc: Global, line: &[u8]) -> Result<Vec<(Change, Vec<u8>)>, AllocError> {
    let mut changes = Changes {
        alloc,
        made: Vec::new(alloc),
    };
    changes.add_part(Change::Comment, line)?;
    changes.add_part(Change::Tab, line)?;
    changes.add_part(Change::Blank, line)?;
    changes.add_part(Change::Quotes, line)?;
    changes.add_part(Change::Anchors, line)?;
    changes.add_arms(line)?;
    changes.add_part(Change::HereFolder, line)?;
    changes.add_each(Change::Backslash, line)?;
    changes.add_part(Change::FolderSlash, line)?;
    changes.add_stars(line)?;
    changes.add_each(Change::Case, line)?;
    Ok(changes.made)
}

/// The changes so far.
#[derive(Drop)]
struct Changes {
    alloc: Global,
    made: Vec<(Change, Vec<u8>)>,
}

impl Changes {
    /// Adds a change that leaves a part of the line, where there is one.
    fn add_part(&mut self, change: Change, line: &[u8]) -> Result<(), AllocError> {
        match part_of(change, line) {
            Some(part) => self.add(change, b"", part, b""),
            None => Ok(()),
        }
    }

    /// Adds a change that makes three pieces of the line, one behind the other.
    fn add(
        &mut self,
        change: Change,
        front: &[u8],
        middle: &[u8],
        back: &[u8],
    ) -> Result<(), AllocError> {
        let mut line = Vec::from_slice(self.alloc, front)?;
        line.extend_from_slice(middle)?;
        line.extend_from_slice(back)?;
        self.made.push((change, line))?;
        Ok(())
    }

    /// Adds each of the first arms between the first brace and the one that ends it.
    fn add_arms(&mut self, line: &[u8]) -> Result<(), AllocError> {
        let Some(open) = memchr(b'{', line) else {
            return Ok(());
        };
        let (front, behind) = (&line[..open], &line[open + 1..]);
        let Some(end) = memchr(b'}', behind) else {
            return Ok(());
        };
        let (arms, back) = (&behind[..end], &behind[end + 1..]);
        for arm in arms.split(|byte| *byte == b',').take(MOST_ARMS) {
            self.add(Change::Braces, front, arm, back)?;
        }
        Ok(())
    }

    /// Adds the line with `**/` in front, and with it before its last part, where a slash ties it to its folder.
    fn add_stars(&mut self, line: &[u8]) -> Result<(), AllocError> {
        let bare = line.strip_suffix(b"/").unwrap_or(line);
        let Some(slash) = memrchr(b'/', bare) else {
            return Ok(());
        };
        let below = line.strip_prefix(b"/").unwrap_or(line);
        self.add(Change::AnyFolder, b"", b"**/", below)?;
        let (front, last) = (&line[..slash + 1], &line[slash + 1..]);
        self.add(Change::AnyDepth, front, b"**/", last)
    }

    /// Adds a change of each byte, where it changes some.
    fn add_each(&mut self, change: Change, line: &[u8]) -> Result<(), AllocError> {
        let mut made = Vec::with_capacity(self.alloc, line.len())?;
        let mut place = Place::Bare;
        'bytes: for byte in line {
            let both = [
                b'[',
                byte.to_ascii_lowercase(),
                byte.to_ascii_uppercase(),
                b']',
            ];
            match (change, place) {
                (Change::Backslash, _) if *byte == b'\\' => made.push(b'/')?,
                (Change::Case, Place::Bare) if byte.is_ascii_alphabetic() => {
                    made.extend_from_slice(&both)?
                }
                _ => made.push(*byte)?,
            }
            place = place.behind(*byte);
        }
        if made.as_slice() == line {
            return Ok(());
        }
        self.made.push((change, made))?;
        Ok(())
    }
}

/// Where a byte of a pattern stands.
#[derive(Clone, Copy)]
enum Place {
    /// For itself.
    Bare,
    /// Behind a backslash.
    Escaped,
    /// First in brackets.
    First,
    /// In brackets.
    Inside,
}

impl Place {
    /// Where the byte behind this one stands.
    fn behind(self, byte: u8) -> Place {
        match (self, byte) {
            (Place::Bare, b'\\') => Place::Escaped,
            (Place::Bare, b'[') => Place::First,
            (Place::Bare, _) | (Place::Escaped, _) | (Place::Inside, b']') => Place::Bare,
            (Place::First, b'!' | b'^') => Place::First,
            (Place::First, _) | (Place::Inside, _) => Place::Inside,
        }
    }
}

/// The part of a line that a change leaves, where it changes it.
fn part_of(change: Change, line: &[u8]) -> Option<&[u8]> {
    match (change, line) {
        (Change::Comment, _) => before_comment(line),
        (Change::Tab, [front @ .., b'\t']) => Some(front.trim_ascii_end()),
        (Change::Blank, [b' ' | b'\t', rest @ ..]) => Some(rest.trim_ascii_start()),
        (Change::Quotes, [b'"', inside @ .., b'"'] | [b'\'', inside @ .., b'\'']) => Some(inside),
        (Change::Anchors, [b'^', inside @ .., b'$'] | [b'^', inside @ ..] | [inside @ .., b'$']) =>
            Some(inside),
        (Change::HereFolder, [b'.', b'/', rest @ ..]) => Some(rest),
        (Change::FolderSlash, [front @ .., b'/']) => Some(front),
        _ => None,
    }
}

/// What stands before the first blank with a number sign behind it, without the blanks at its end.
fn before_comment(line: &[u8]) -> Option<&[u8]> {
    for place in 0..line.len() {
        if let [b' ' | b'\t', b'#', ..] = &line[place..] {
            return Some(line[..place].trim_ascii_end());
        }
    }
    None
}
