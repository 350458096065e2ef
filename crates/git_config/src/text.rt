//! The text of a configuration file, which is taken off byte by byte, and the line of what is left.
ghost use Rattle.std.specs.Prelude.{◌≡◌, ◌==◌, ◌&&◌, ◌+◌, ◌≤◌, ◌^◌, ◌∷◌, [], length, nat_eq};
ghost use Rattle.std.specs.List.{starts_with};

/// What is left of a text.
#[derive(Drop)]
pub(crate) struct Text<'a> {
    /// The bytes that are left.
    pub(crate) rest: &'a [u8],
    /// The line on which they begin, from 1.
    pub(crate) line: usize,
    ghost counted: { line + length rest.now ≤ 2 ^ 63 },
}

impl<'a> Text<'a> {
    ghost use Rattle.std.specs.Prelude.{MatchOption, List, ℕ};
    ghost use Rattle.git_config.specs.Grammar.{between, entry_of, before, in_comment, in_tail, read, text_of, before_zero};
    ghost use Rattle.git_config.specs.Private.Taking.{IsAtEnd, TakesByte};

    /// The text of a file, of which nothing is taken yet.
    pub(crate) fn new(bytes: &'a [u8]) -> Text<'a>
        ensures rest { result.rest.now ≡ bytes.now }
        ensures line { result.line ≡ 1 }
    {
        Text {
            rest: bytes,
            line: 1,
        }
    }

    /// Takes the next byte off, where one is left. A carriage return directly before a line feed is passed over.
    pub(crate) fn take_byte(&mut self) -> Option<u8>
        ensures { MatchOption result (IsAtEnd self.old.rest.now self.new.rest.now self.old.line self.new.line)
            (λ b. TakesByte self.old.rest.now self.new.rest.now self.old.line self.new.line b) }
    {
        let (first, rest) = self.rest.split_first()?;
        let byte = *first;
        if is_line_ending(byte, rest) {
            self.rest = &rest[1..];
            self.line += 1;
            return Some(b'\n');
        }
        self.rest = rest;
        if byte == b'\n' {
            self.line += 1;
        }
        Some(byte)
    }

    /// Takes the rest of a comment off, and the line feed behind it.
    pub(crate) fn skip_comment(&mut self)
        ensures between { read (text_of self.old.rest.now) self.old.line in_comment ≡ read (text_of self.new.rest.now) self.new.line between }
        ensures tail { (name bytes : List ℕ) → read (text_of self.old.rest.now) self.old.line (in_tail name bytes)
            ≡ before (entry_of name (Some (before_zero bytes)) self.old.line) (read (text_of self.new.rest.now) self.new.line between) }
        ensures fewer { length self.new.rest.now ≤ length self.old.rest.now }
    {
        'bytes: while let Some(byte) = self.take_byte() {
            if byte == b'\n' {
                return;
            }
        }
    }
}

/// Whether a byte and the bytes behind it begin with a carriage return and a line feed.
fn is_line_ending(byte: u8, rest: &[u8]) -> bool
    ensures { result ≡ (byte == 13 && starts_with nat_eq rest.now (10 ∷ [])) }
{
    byte == b'\r' && rest.starts_with(b"\n")
}
