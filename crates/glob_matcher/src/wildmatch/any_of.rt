//! One of several bytes, at any of which a search stops.
ghost use Rattle.memchr.specs.Find.{IsFirstByte};
ghost use Rattle.glob_matcher.specs.Private.Finding.{is_any_of};

use memchr::{memchr, memchr2, memchr3};

/// The bytes at which a search stops.
#[derive(Copy, Clone)]
pub enum AnyOf {
    /// At none: the search goes to the text's end.
    Nothing,
    /// At this byte.
    One(u8),
    /// At either of these.
    Two(u8, u8),
    /// At each of these three.
    Three(u8, u8, u8),
}

impl AnyOf {
    /// The first place that has one of these bytes. It is not inlined, so that a loop which may come to it keeps its registers.
    #[cold]
    #[inline(never)]
    pub(super) fn first_in(self, bytes: &[u8]) -> Option<usize>
        ensures { IsFirstByte (is_any_of self) bytes.now result }
    {
        match self {
            AnyOf::Nothing => None,
            AnyOf::One(byte) => memchr(byte, bytes),
            AnyOf::Two(one, other) => memchr2(one, other, bytes),
            AnyOf::Three(one, other, third) => memchr3(one, other, third, bytes),
        }
    }
}
