//! The section that entries stand in, which they share.
ghost use Rattle.std.specs.Prelude.{◌≡◌};
ghost use Rattle.std.specs.Option.{option_copied};
ghost use Rattle.git_config.specs.Private.Sections.{file_seen};

use std::rc::Rc;

/// A section of a file, or what stands in no section.
#[derive(Debug, Drop)]
pub(crate) struct Section {
    /// The path of the file, as it was told or included; `None` of a word.
    pub(crate) file: Option<Rc<Vec<u8>>>,
    /// What the keys of its entries begin with, as [`Item::Section`](crate::Item::Section) has it; nothing before the first section, and
    /// of a word.
    pub(crate) keys: Vec<u8>,
}

/// The path of a section's file.
pub(crate) fn file_of(section: &Section) -> Option<&[u8]>
    ensures { option_copied result ≡ file_seen section.now }
{
    match &section.file {
        Some(path) => Some(path.as_slice()),
        None => None,
    }
}
