//! A line as one row of tokens: what stands in front of each path that it matches, and its pattern.
ghost use Rattle.std.specs.Prelude.{◌≤◌, length};

use glob_matcher::wildmatch::{TokenKind, Way, token_at};

/// The tokens of a line that aren't read yet, front to back.
#[derive(Clone, Copy)]
pub(crate) struct LineTokens<'a> {
    /// The bytes of the base, each of which stands for itself.
    pub(crate) base: &'a [u8],
    /// The literal front of the text, where Git compares it by itself.
    pub(crate) front: &'a [u8],
    /// Whether folders of any name follow, as before a line that looks at names.
    pub(crate) any_folder: bool,
    /// The rest of the text, which is a pattern of its own.
    pub(crate) text: &'a [u8],
    /// The place in it up to which it is read, in bytes from 0.
    pub(crate) place: usize,
    ghost inside: { place ≤ length text.now },
}

/// A token of a line, and what is left behind it.
#[derive(Clone, Copy)]
pub(crate) struct NextToken<'a> {
    /// Its kind.
    pub(crate) kind: TokenKind,
    /// The tokens behind it.
    pub(crate) after: LineTokens<'a>,
}

impl<'a> LineTokens<'a> {
    ghost use Rattle.std.specs.Prelude.{◌↔◌, IfSome, IsTrue, MatchOption};
    ghost use Rattle.glob_matcher.specs.Matching.{Fits};
    ghost use Rattle.glob_lint.specs.Private.Rows.{IsEnd, IsNext, Row, row_of};
    ghost use Rattle.glob_lint.specs.Private.Running.{KeepsWithin, TakesFolders};

    /// The next token; `None` at the end.
    pub(crate) fn next(&self, way: Way) -> Option<NextToken<'a>>
        ensures { MatchOption result
            (IsEnd way (row_of self.now))
            (λ next. IsNext way (row_of self.now) next.kind (row_of next.after)) }
    {
        let mut after = *self;
        if let [byte, base @ ..] = self.base {
            after.base = base;
            let kind = TokenKind::Byte(*byte);
            return Some(NextToken { kind, after });
        }
        if let [byte, front @ ..] = self.front {
            after.front = front;
            let kind = TokenKind::Byte(*byte);
            return Some(NextToken { kind, after });
        }
        if self.any_folder {
            after.any_folder = false;
            let kind = TokenKind::Dirs;
            return Some(NextToken { kind, after });
        }
        if self.place == self.text.len() {
            return None;
        }
        let token = token_at(self.text, self.place, way);
        after.place = token.end;
        let kind = token.kind;
        Some(NextToken { kind, after })
    }

    /// Whether the next token, of this kind, takes this byte alone.
    pub(crate) fn fits(&self, kind: TokenKind, byte: u8, way: Way) -> bool
        ensures { (after : Row) (next : IsNext way (row_of self.now) kind after) → IsTrue result ↔ Fits way next.token byte }
    {
        match kind {
            TokenKind::Byte(wanted) => way.alike(byte, wanted),
            TokenKind::Any => !(way.is_path() && byte == b'/'),
            TokenKind::Set => self.place < self.text.len()
                && kind.fits_at(self.text, self.place, byte, way),
            TokenKind::Free | TokenKind::Local | TokenKind::Dirs | TokenKind::Nothing => false,
        }
    }

    /// Whether the next token, of this kind, matches no slash.
    pub(crate) fn keeps_within(&self, kind: TokenKind, way: Way) -> bool
        ensures { (after : Row) (next : IsNext way (row_of self.now) kind after) → IsTrue result → KeepsWithin way next.token }
    {
        match kind {
            TokenKind::Local => true,
            TokenKind::Byte(_) | TokenKind::Any | TokenKind::Set => !self.fits(kind, b'/', way),
            TokenKind::Free | TokenKind::Dirs | TokenKind::Nothing => false,
        }
    }

    /// What is left behind the next folders: those of any name, or all up to the next slash.
    pub(crate) fn past_folders(&self, way: Way) -> Option<LineTokens<'a>>
        ensures { IfSome result (λ after. TakesFolders way (row_of self.now) (row_of after)) }
    {
        let next = self.next(way)?;
        if let TokenKind::Dirs = next.kind {
            return Some(next.after);
        }
        self.past_slash(way)
    }

    /// What is left behind the next slash.
    fn past_slash(&self, way: Way) -> Option<LineTokens<'a>>
        ensures { IfSome result (λ after. TakesFolders way (row_of self.now) (row_of after)) }
    {
        let mut left = *self;
        'tokens: while let Some(next) = left.next(way) {
            if let TokenKind::Byte(b'/') = next.kind {
                return Some(next.after);
            }
            left = next.after;
        }
        None
    }
}
