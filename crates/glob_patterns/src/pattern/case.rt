//! Whether the case of letters counts when paths are compared.

/// Whether the case of ASCII letters counts.
#[derive(Debug, Default, PartialOrd, PartialEq, Copy, Clone, Hash, Ord, Eq)]
pub enum Case {
    /// Letters match only letters of their own case.
    #[default]
    Sensitive,
    /// The case of ASCII letters does not count.
    Fold,
}
