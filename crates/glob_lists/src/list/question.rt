//! What lists are asked: which of their patterns match this path.

use crate::asks::probe::Probe;
use crate::path::RepositoryPath;
use crate::rules::Rules;

/// What lists are asked: which of their patterns match this path.
#[derive(Debug, Drop)]
pub(crate) struct Question<'q, 'p> {
    pub(crate) path: &'q RepositoryPath<'p>,
    /// What the path shows.
    pub(crate) probe: Probe,
    pub(crate) rules: Rules,
}
