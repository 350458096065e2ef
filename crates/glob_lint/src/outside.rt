//! The bytes of a line that stand outside of brackets.
ghost use Rattle.std.specs.Prelude.{◌≤◌};

/// The bytes of a line outside of brackets, each behind its place, from 0. A bracket's first byte is among them, and a byte that a backslash
/// escapes isn't.
#[derive(Drop)]
pub(crate) struct OutsideBrackets<'a> {
    text: &'a [u8],
    place: usize,
}

impl<'a> OutsideBrackets<'a> {
    /// Those of a line.
    pub(crate) fn of(text: &'a [u8]) -> OutsideBrackets<'a> {
        OutsideBrackets { text, place: 0 }
    }
}

impl<'a> Iterator for OutsideBrackets<'a> {
    ghost use Rattle.std.specs.Prelude.{◌-◌, length};
    ghost use Rattle.std.specs.Iterator.{at_most};

    type Item = (usize, u8);

    ghost remaining = { λ bytes. at_most (length bytes.text.now - bytes.place) };

    fn next(&mut self) -> Option<(usize, u8)> {
        let place = self.place;
        let byte = *self.text.get(place)?;
        self.place = match byte {
            b'\\' => place + 2,
            b'[' => behind_bracket(self.text, place + 1),
            _ => place + 1,
        };
        Some((place, byte))
    }
}

/// The place behind a bracket, of which what follows its first byte begins at `inner`: all of the line, where it isn't closed.
fn behind_bracket(text: &[u8], inner: usize) -> usize
    ensures { inner ≤ result }
{
    let mut at = inner;
    if let Some(b'!' | b'^') = text.get(at) {
        at += 1;
    }
    // one in front stands for itself
    if let Some(b']') = text.get(at) {
        at += 1;
    }
    match text
        .get(at..)
        .unwrap_or(b"")
        .iter()
        .position(|byte| *byte == b']')
    {
        Some(length) => at + length + 1,
        None => text.len().max(at),
    }
}
