//! Where an entry lies in the text of a configuration, and the entry that lies there.
ghost use Rattle.std.specs.Prelude.{◌≡◌, ◌≤◌, IfOk, length};
ghost use Rattle.std.specs.Option.{option_copied};
ghost use Rattle.git_config.specs.Configuration.{seen_setting};
ghost use Rattle.git_config.specs.Private.Sections.{LiesIn, placed, value_placed};

use crate::item::Entry;
use crate::section::{Section, file_of};
use crate::setting::{ReadSetting, Setting};
use std::alloc::AllocError;
use std::rc::Rc;

/// Where an entry lies in a text: its name, and an equals sign and its value behind it, where it has one.
#[derive(Debug, Drop)]
pub(crate) struct EntryPlace {
    /// The section that it stands in.
    pub(crate) section: Rc<Section>,
    /// Its line.
    pub(crate) line: u32,
    /// Where its name begins.
    pub(crate) start: u32,
    /// Where its name ends.
    pub(crate) name_end: u32,
    /// Where its value ends, or its name, where it has no value.
    pub(crate) end: u32,
}

impl EntryPlace {
    /// The entry that lies there.
    pub(crate) fn setting<'a>(&'a self, text: &'a [u8]) -> ReadSetting<'a>
        requires { LiesIn text.now self.now }
        ensures { seen_setting result ≡ placed text.now self.now }
    {
        let section: &Section = &self.section;
        Setting {
            file: file_of(section),
            section: &section.keys,
            entry: Entry {
                name: &text[self.start as usize..self.name_end as usize],
                value: value_in(text, self.name_end as usize, self.end as usize),
                line: self.line as usize,
            },
        }
    }
}

/// The value that lies behind the end of a name.
fn value_in(text: &[u8], name_end: usize, end: usize) -> Option<&[u8]>
    requires { (name_end ≤ end) × (end ≤ length text.now) }
    ensures { option_copied result ≡ value_placed text.now name_end end }
{
    if name_end == end {
        return None;
    }
    Some(&text[name_end + 1..end])
}

/// A number of bytes or lines as an entry has it.
///
/// # Errors
/// Where it is 2 ^ 32 or more: a configuration has no room for more bytes.
pub(crate) fn short(number: usize) -> Result<u32, AllocError>
    ensures { IfOk result (λ n. n ≡ number) }
{
    if number > u32::MAX as usize {
        return Err(AllocError);
    }
    Ok(number as u32)
}
