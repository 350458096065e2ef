//! Links: where a row or an end stands, in four bytes.
ghost use Rattle.std.specs.Prelude.{◌≡◌, ◌↔◌, ◌+◌, ◌^◌, ◌<◌, ◌≤◌, IsTrue, MatchOption, true};

/// Where something stands among others, or that there is none, in four bytes: the number is one more than its place, or 0.
#[repr(C)]
#[derive(Debug, Copy, Clone)]
pub(crate) struct Link(u32);

impl Link {
    /// The link to no row.
    pub(crate) const NONE: Link = Link(0);

    /// The link to the row at a place.
    pub(crate) fn to(place: usize) -> Link
        requires { place + 1 < 2 ^ 32 }
        ensures { result.0 ≡ place + 1 }
    {
        Link(place as u32 + 1)
    }

    /// The place of the row, where there is one.
    #[inline(always)]
    pub(crate) fn place(self) -> Option<usize>
        ensures { MatchOption result (self.0 ≡ 0) (λ place. place + 1 ≡ self.0) }
    {
        // counted in 32 bits: that costs less for a row that is mostly passed over
        match self.0.checked_sub(1) {
            Some(place) => Some(place as usize),
            None => None,
        }
    }

    /// The link, where it leads to one of the first rows, so many, as one that is believed does; else one to no row. So nothing has to be
    /// believed of links in memory that a caller keeps.
    #[inline(always)]
    pub(crate) fn among<const IS_BELIEVED: bool>(self, count: usize) -> Link
        requires { IS_BELIEVED ≡ true → self.0 ≤ count }
        ensures below { result.0 ≤ count }
        ensures same { self.0 ≤ count → result ≡ self }
    {
        if IS_BELIEVED || self.0 as usize <= count {
            self
        } else {
            Link::NONE
        }
    }

    /// A link that a row has at the place of this one, where it leads further back, as one that is believed does; else one to the row
    /// before that.
    #[inline(always)]
    pub(crate) fn back_to<const IS_BELIEVED: bool>(self, before: Link) -> Link
        requires some { 0 < self.0 }
        requires low { IS_BELIEVED ≡ true → before.0 < self.0 }
        ensures below { result.0 < self.0 }
        ensures same { before.0 < self.0 → result ≡ before }
    {
        if IS_BELIEVED {
            return before;
        }
        Link(before.0.min(self.0 - 1))
    }

    /// One more than the place of the row, or 0.
    #[inline(always)]
    pub(crate) fn number(self) -> usize
        ensures { result ≡ self.0 }
    {
        self.0 as usize
    }

    /// Whether there is a row, and it stands after that of another link, if that has one.
    #[inline(always)]
    pub(crate) fn is_after(self, other: Link) -> bool
        ensures { IsTrue result ↔ other.0 < self.0 }
    {
        self.0 > other.0
    }
}
