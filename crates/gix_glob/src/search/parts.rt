//! The parts of a path text, one after the other.
ghost use Rattle.std.specs.Prelude.{◌≡◌, ◌==◌, position};
ghost use Rattle.glob_matcher.specs.Bytes.{slash};

/// The parts of a path text, in order; the rule is in `docs/PATTERNS.md`, "Parts of a path".
#[derive(Drop)]
pub(crate) struct Parts<'a> {
    rest: &'a [u8],
    is_at_front: bool,
}

impl<'a> Parts<'a> {
    ghost use Rattle.std.specs.List.{before_first, after_first};
    ghost use Rattle.std.specs.Prelude.{MatchOption, [], ◌∷◌};
    ghost use Rattle.gix_glob.specs.Paths.{parts, named_parts, pieces};
    ghost use Rattle.gix_glob.specs.Private.PartsLeft.{parts_left};

    /// The parts of a text, none of which is taken yet.
    pub(crate) fn new(text: &'a [u8]) -> Parts<'a>
        ensures { parts_left result ≡ parts text.entry.now }
    {
        Parts {
            rest: text,
            is_at_front: true,
        }
    }

    /// The piece before the next slash; it and the slash are taken off.
    fn take_piece(&mut self) -> &'a [u8]
        ensures piece { result.now ≡ before_first (λ b. b == slash) self.old.rest.now }
        ensures rest { self.new.rest.now ≡ after_first (λ b. b == slash) self.old.rest.now }
        ensures same { self.new.is_at_front ≡ self.old.is_at_front }
    {
        let rest = self.rest;
        match slash_place(rest) {
            Some(at) => {
                self.rest = &rest[at + 1..];
                &rest[..at]
            }
            None => {
                self.rest = &[];
                rest
            }
        }
    }

    /// The next piece that is neither empty nor `.`.
    fn next_named(&mut self) -> Option<&'a [u8]>
        ensures found { MatchOption result
            ((named_parts (pieces self.old.rest.now) ≡ []) × (named_parts (pieces self.new.rest.now) ≡ []))
            (λ part. named_parts (pieces self.old.rest.now) ≡ part.now ∷ named_parts (pieces self.new.rest.now)) }
        ensures same { self.new.is_at_front ≡ self.old.is_at_front }
    {
        'pieces: while !self.rest.is_empty() {
            let piece = self.take_piece();
            if !piece.is_empty() && piece != b".".as_slice() {
                return Some(piece);
            }
        }
        None
    }
}

/// The place of the first slash.
fn slash_place(text: &[u8]) -> Option<usize>
    ensures { result ≡ position (λ b. b == slash) text.now }
{
    text.iter().position(|b| *b == b'/')
}

impl<'a> Iterator for Parts<'a> {
    ghost use Rattle.std.specs.Iterator.{YieldsFirstRef, item_count};
    ghost use Rattle.gix_glob.specs.Private.PartsLeft.{parts_left};

    type Item = &'a [u8];

    ghost next_gives = { YieldsFirstRef parts_left };

    ghost remaining = { item_count parts_left };

    fn next(&mut self) -> Option<&'a [u8]> {
        if self.is_at_front {
            self.is_at_front = false;
            let rest = self.rest;
            if let Some((first, others)) = rest.split_first() {
                if *first != b'/' {
                    return Some(self.take_piece());
                }
                self.rest = others;
                return Some(b"/");
            }
        }
        self.next_named()
    }
}

#[cfg(test)]
mod tests {
    use super::Parts;

    /// Texts, and the parts of each.
    const ROWS: &[(&[u8], &[&[u8]])] = &[
        (b"", &[]),
        (b"/", &[b"/"]),
        (b"//", &[b"/"]),
        (b"/.", &[b"/"]),
        (b"./a", &[b".", b"a"]),
        (b"/./a", &[b"/", b"a"]),
        (b"a/./b/.", &[b"a", b"b"]),
        (b"a/../b", &[b"a", b"..", b"b"]),
    ];

    #[test]
    fn parts_of_texts(rt: HostRuntime) {
        for (text, parts) in ROWS {
            assert!(rt; Parts::new(text).eq(parts.iter().copied()));
        }
    }
}
