//! What stands before each path of a listing.

/// What stands before each path. Behind a sign and a space, names in lines are quoted also where they have a space.
#[derive(Clone, Copy, Debug, PartialEq, Eq)]
pub enum Mark {
    /// Nothing.
    Bare,
    /// Two question marks, as before what isn't tracked.
    Untracked,
    /// Two exclamation marks, as before what is ignored.
    Ignored,
}
