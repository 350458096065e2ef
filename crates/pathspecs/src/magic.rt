//! What a path is marked with.

/// What a path is marked with.
#[derive(Debug, Clone, Copy, PartialEq, Eq)]
pub struct Magic {
    /// It is told from the top, and not from the current folder.
    pub top: bool,
    /// No byte of it is special.
    pub literal: bool,
    /// As a pattern, its wildcards match no slash.
    pub glob: bool,
    /// The case of ASCII letters doesn't count.
    pub icase: bool,
    /// What it meets is left out.
    pub exclude: bool,
}

impl Magic {
    /// No mark.
    pub const NONE: Magic = Magic {
        top: false,
        literal: false,
        glob: false,
        icase: false,
        exclude: false,
    };
}
