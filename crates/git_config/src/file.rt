//! The items of a configuration file, one after the other.
ghost use Rattle.std.specs.Prelude.{◌≡◌, ◌<◌, ◌≤◌, ◌+◌, ◌∷◌, [], ℕ, false, length, nat_eq, option_map, IfOk, IsSome};
ghost use Rattle.std.specs.List.{starts_with};
ghost use Rattle.std.specs.Vec.{vec_items};
ghost use Rattle.git_config.specs.Grammar.{Place, before, between, ended, front, is_blank, is_mark, read, stop, text_of, turn};
ghost use Rattle.git_config.specs.Items.{item_with};
ghost use Rattle.git_config.specs.Private.Taking.{Reads, before_some, turn_mark};
ghost use Rattle.git_config.specs.declared.fault.ConfigFault.TheVariants.{Line};
ghost use Rattle.git_config.specs.declared.fault.Wrong.TheVariants.{Mark};

use crate::bytes::{is_blank, is_mark};
use crate::entry::read_entry;
use crate::fault::{ConfigFault, Wrong};
use crate::head::read_head;
use crate::item::Item;
use crate::text::Text;
use std::alloc::Global;

/// Passes a byte order mark over, where one begins here.
pub(crate) fn skip_mark(text: &mut Text<'_>) -> Result<(), ConfigFault>
    ensures { Reads (λ _. read (text_of text.new.rest.now) text.new.line between) result (read (text_of text.old.rest.now) text.old.line front) }
{
    if !begins_with_mark(text.rest) {
        return Ok(());
    }
    text.take_byte();
    skip_mark_byte(text, 0xBB)?;
    skip_mark_byte(text, 0xBF)
}

/// Whether the first byte of a byte order mark stands at the front.
fn begins_with_mark(bytes: &[u8]) -> bool
    ensures { result ≡ starts_with nat_eq bytes.now (239 ∷ []) }
{
    bytes.starts_with(&[0xEF])
}

/// Passes this byte of a byte order mark over.
fn skip_mark_byte(text: &mut Text<'_>, wanted: u8) -> Result<(), ConfigFault>
    ensures { (place next : Place) → ((b : ℕ) → turn text.old.line place b ≡ turn_mark text.old.line wanted next b)
        → ended text.old.line place ≡ stop (text.old.line + 1) Mark
        → Reads (λ _. read (text_of text.new.rest.now) text.new.line next) result (read (text_of text.old.rest.now) text.old.line place) }
{
    let line = text.line;
    let Some(byte) = text.take_byte() else {
        return Err(ConfigFault::Line {
            line: line + 1,
            what: Wrong::Mark,
        });
    };
    if byte != wanted {
        return Err(ConfigFault::Line {
            line: text.line,
            what: Wrong::Mark,
        });
    }
    Ok(())
}

/// Takes the next item off a text, where one is left.
pub(crate) fn next_item(
    alloc: Global,
    text: &mut Text<'_>,
) -> Result<Option<Item<Vec<u8>>>, ConfigFault>
    ensures reads { Reads (λ item. before_some (option_map (item_with vec_items) item) (read (text_of text.new.rest.now) text.new.line between)) result
        (read (text_of text.old.rest.now) text.old.line between) }
    ensures fewer { IfOk result (λ item. IsSome item → length text.new.rest.now < length text.old.rest.now) }
{
    'bytes: while let Some(byte) = text.take_byte() {
        if is_mark(byte) {
            text.skip_comment();
        } else if !is_blank(byte) {
            return Ok(Some(read_item(alloc, text, byte)?));
        }
    }
    Ok(None)
}

/// Reads the item that begins with a byte.
fn read_item(alloc: Global, text: &mut Text<'_>, byte: u8) -> Result<Item<Vec<u8>>, ConfigFault>
    requires no_blank { is_blank byte ≡ false }
    requires no_mark { is_mark byte ≡ false }
    ensures reads { Reads (λ item. before (item_with vec_items item) (read (text_of text.new.rest.now) text.new.line between)) result
        (read (byte ∷ text_of text.old.rest.now) text.old.line between) }
    ensures fewer { length text.new.rest.now ≤ length text.old.rest.now }
{
    if byte == b'[' {
        return Ok(Item::Section(read_head(alloc, text)?));
    }
    if byte.is_ascii_alphabetic() {
        return Ok(Item::Sets(read_entry(alloc, text, byte)?));
    }
    Err(ConfigFault::Line {
        line: text.line,
        what: Wrong::Outside,
    })
}
