//! The name of an entry, and what follows it.
ghost use Rattle.std.specs.Prelude.{◌≡◌, ◌≤◌, ◌&&◌, ◌∷◌, [], false, length, not};
ghost use Rattle.std.specs.Char.{to_ascii_lowercase};
ghost use Rattle.git_config.specs.Grammar.{before, between, entry_of, in_name, is_name_byte, read, text_of};
ghost use Rattle.git_config.specs.Items.{seen_entry};
ghost use Rattle.git_config.specs.Private.Taking.{Reads};
ghost use Rattle.git_config.specs.declared.item.Item.TheVariants.{Sets};

use crate::bytes::{is_gap, is_name_byte};
use crate::fault::{ConfigFault, Wrong};
use crate::item::Entry;
use crate::text::Text;
use crate::value::read_value;
use std::alloc::Global;

/// Reads an entry behind its first letter.
pub(crate) fn read_entry(
    alloc: Global,
    text: &mut Text<'_>,
    first: u8,
) -> Result<Entry<Vec<u8>>, ConfigFault>
    ensures reads { Reads (λ entry. before (Sets (seen_entry entry)) (read (text_of text.new.rest.now) text.new.line between)) result
        (read (text_of text.old.rest.now) text.old.line (in_name false (to_ascii_lowercase first ∷ []))) }
    ensures fewer { length text.new.rest.now ≤ length text.old.rest.now }
{
    let mut name = Vec::new(alloc);
    name.push(first.to_ascii_lowercase())?;
    let mut ended = false;
    'bytes: loop {
        let line = text.line;
        let Some(byte) = text.take_byte() else {
            return Ok(without_value(name, line));
        };
        if byte == b'\n' {
            return Ok(without_value(name, line));
        }
        if byte == b'=' {
            return read_value(alloc, text, name);
        }
        if is_gap(byte) {
            ended = true;
        } else if goes_on(byte, ended) {
            name.push(byte.to_ascii_lowercase())?;
        } else {
            return Err(ConfigFault::Line {
                line,
                what: Wrong::Name,
            });
        }
    }
}

/// Whether a name that may have ended goes on with a byte.
fn goes_on(byte: u8, ended: bool) -> bool
    ensures { result ≡ (is_name_byte byte && not ended) }
{
    is_name_byte(byte) && !ended
}

/// The entry of a name without a value.
fn without_value(name: Vec<u8>, line: usize) -> Entry<Vec<u8>>
    ensures { Sets (seen_entry result) ≡ entry_of name.items None line }
{
    Entry {
        name,
        value: None,
        line,
    }
}
