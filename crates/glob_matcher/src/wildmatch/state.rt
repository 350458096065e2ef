//! Where the engine with two marks stands, and what one turn of it comes to.

use super::marks::Mark;

/// The mark of the last token met that crosses slashes.
#[derive(Copy, Clone)]
pub enum Crossing {
    /// No such token was met.
    Unmet,
    /// Of a run of stars.
    Free(Mark),
    /// Of a double star with its slash.
    Dirs(Mark),
}

/// Where the engine stands: a place of the pattern, a place of the value, and the two marks.
#[derive(Copy, Clone)]
pub struct State {
    /// The place of the pattern.
    pub(super) place: usize,
    /// The place of the value.
    pub(super) at: usize,
    /// The mark of the last token met that crosses slashes.
    pub(super) crossing: Crossing,
    /// The mark of the last run of stars within a component met after it.
    pub(super) local: Option<Mark>,
}

/// What one turn of the engine comes to.
#[derive(Copy, Clone)]
pub enum Turn {
    /// The pattern matches.
    Match,
    /// The pattern does not match.
    NoMatch,
    /// The token there does not fit; a mark may help.
    Miss(State),
    /// The engine goes on from there.
    On(State),
}
