//! The head of a section, from behind its bracket.
ghost use Rattle.std.specs.Prelude.{◌≡◌, ◌≤◌, ◌++◌, ◌∷◌, [], false, length};
ghost use Rattle.std.specs.Str.{byte};
ghost use Rattle.git_config.specs.Grammar.{before, behind_quotes, between, in_gap, in_head, in_quotes, read, text_of};
ghost use Rattle.git_config.specs.Private.Taking.{Reads};
ghost use Rattle.git_config.specs.declared.item.Item.TheVariants.{Section};

use crate::bytes::{ends_head, is_head_byte, is_space};
use crate::fault::{ConfigFault, Wrong};
use crate::text::Text;
use std::alloc::Global;

/// Reads the head of a section behind its bracket: what the keys of its entries begin with.
pub(crate) fn read_head(alloc: Global, text: &mut Text<'_>) -> Result<Vec<u8>, ConfigFault>
    ensures reads { Reads (λ prefix. before (Section prefix.items) (read (text_of text.new.rest.now) text.new.line between)) result
        (read (text_of text.old.rest.now) text.old.line (in_head [])) }
    ensures fewer { length text.new.rest.now ≤ length text.old.rest.now }
{
    let mut name = Vec::new(alloc);
    'bytes: loop {
        let line = text.line;
        let Some(byte) = text.take_byte() else {
            return Err(ConfigFault::Line {
                line: line + 1,
                what: Wrong::Head,
            });
        };
        if is_head_byte(byte) {
            name.push(byte.to_ascii_lowercase())?;
        } else if is_space(byte) {
            return read_gap(text, name);
        } else if ends_head(byte, &name) {
            name.push(b'.')?;
            return Ok(name);
        } else {
            return Err(ConfigFault::Line {
                line,
                what: Wrong::Head,
            });
        }
    }
}

/// Reads what follows the blank behind the name of a section.
fn read_gap(text: &mut Text<'_>, name: Vec<u8>) -> Result<Vec<u8>, ConfigFault>
    ensures reads { Reads (λ prefix. before (Section prefix.items) (read (text_of text.new.rest.now) text.new.line between)) result
        (read (text_of text.old.rest.now) text.old.line (in_gap name.items)) }
    ensures fewer { length text.new.rest.now ≤ length text.old.rest.now }
{
    let line = text.line;
    'bytes: while let Some(byte) = text.take_byte() {
        if byte == b'"' {
            return read_quotes(text, name);
        }
        if !is_space(byte) {
            return Err(ConfigFault::Line {
                line,
                what: Wrong::Head,
            });
        }
    }
    Err(ConfigFault::Line {
        line,
        what: Wrong::Head,
    })
}

/// Reads the subsection behind its quote, to the end of the head.
fn read_quotes(text: &mut Text<'_>, name: Vec<u8>) -> Result<Vec<u8>, ConfigFault>
    ensures reads { Reads (λ prefix. before (Section prefix.items) (read (text_of text.new.rest.now) text.new.line between)) result
        (read (text_of text.old.rest.now) text.old.line (in_quotes false (name.items ++ byte "." ∷ []))) }
    ensures fewer { length text.new.rest.now ≤ length text.old.rest.now }
{
    let line = text.line;
    let mut key = name;
    key.push(b'.')?;
    let mut behind_backslash = false;
    'bytes: while let Some(byte) = text.take_byte() {
        if byte == b'\n' {
            return Err(ConfigFault::Line {
                line,
                what: Wrong::Subsection,
            });
        }
        if behind_backslash {
            behind_backslash = false;
            key.push(byte)?;
        } else if byte == b'"' {
            return read_end(text, key);
        } else if byte == b'\\' {
            behind_backslash = true;
        } else {
            key.push(byte)?;
        }
    }
    Err(ConfigFault::Line {
        line,
        what: Wrong::Subsection,
    })
}

/// Reads the bracket behind the quotes of a subsection.
fn read_end(text: &mut Text<'_>, mut key: Vec<u8>) -> Result<Vec<u8>, ConfigFault>
    ensures reads { Reads (λ prefix. before (Section prefix.items) (read (text_of text.new.rest.now) text.new.line between)) result
        (read (text_of text.old.rest.now) text.old.line (behind_quotes key.items)) }
    ensures fewer { length text.new.rest.now ≤ length text.old.rest.now }
{
    let line = text.line;
    let Some(byte) = text.take_byte() else {
        return Err(ConfigFault::Line {
            line: line + 1,
            what: Wrong::Head,
        });
    };
    if byte != b']' {
        return Err(ConfigFault::Line {
            line: text.line,
            what: Wrong::Head,
        });
    }
    key.push(b'.')?;
    Ok(key)
}
