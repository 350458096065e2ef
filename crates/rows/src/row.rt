//! A row of data: fields of bytes with a tab between each two, of which the last are the answer.

use bitflags::Flags;
use gix_glob::pattern::Case;
use gix_glob::wildmatch::Mode;
use std::alloc::{AllocError, Global};
use std::mem;

/// The bytes of a field; `None` where it is spelt `\N`.
pub(crate) type Field = Option<Vec<u8>>;

/// A row.
#[derive(Drop)]
pub(crate) struct Row {
    fields: Vec<Field>,
}

impl Row {
    /// The row of a line: `\\` is a backslash, `\xHH` a byte by two hexadecimal digits, and `\*N{TEXT}` stands for the text, so many
    /// times. A field that `\G` begins, and those behind it, are of Git's answer.
    pub(crate) fn of_line(alloc: Global, line: &[u8]) -> Result<Row, AllocError> {
        let mut reader = Reader::new(alloc);
        'signs: for sign in line {
            reader.take(*sign)?;
        }
        reader.end_field()?;
        Ok(Row {
            fields: reader.fields,
        })
    }

    /// Whether the last fields of the row are those that were answered.
    pub(crate) fn ends_with(&self, answer: &[Field]) -> bool {
        self.fields.ends_with(answer)
    }

    /// The bytes of a field, where there are some.
    pub(crate) fn option(&self, place: usize) -> Option<&[u8]> {
        self.fields.get(place)?.as_deref()
    }

    /// The bytes of a field; none where there is no such field.
    pub(crate) fn bytes(&self, place: usize) -> &[u8] {
        self.option(place).unwrap_or(b"")
    }

    /// Whether a field is a word.
    pub(crate) fn is(&self, place: usize, word: &[u8]) -> bool {
        self.bytes(place) == word
    }

    /// The text of a field, where it is one.
    pub(crate) fn text(&self, place: usize) -> Option<&str> {
        match str::from_utf8(self.option(place)?) {
            Ok(text) => Some(text),
            Err(_bad) => None,
        }
    }

    /// The number of a field, where it is one.
    pub(crate) fn number(&self, place: usize) -> Option<usize> {
        match self.text(place)?.parse::<usize>() {
            Ok(number) => Some(number),
            Err(_bad) => None,
        }
    }

    /// How many fields it has, the answer with them.
    pub(crate) fn len(&self) -> usize {
        self.fields.len()
    }

    /// The fields from a place on, the answer with them.
    pub(crate) fn rest(&self, place: usize) -> &[Field] {
        self.fields.get(place..).unwrap_or(&[])
    }

    /// The case of the first field.
    pub(crate) fn case(&self) -> Case {
        if self.is(0, b"fold") {
            Case::Fold
        } else {
            Case::Sensitive
        }
    }

    /// The mode of a field: `plain`, `path`, `fold` or `path+fold`.
    pub(crate) fn mode(&self, place: usize) -> Mode {
        match self.bytes(place) {
            b"path" => Mode::NO_MATCH_SLASH_LITERAL,
            b"fold" => Mode::IGNORE_CASE,
            b"path+fold" => Mode::NO_MATCH_SLASH_LITERAL.union(Mode::IGNORE_CASE),
            _ => Mode::empty(),
        }
    }
}

/// What was read of a line so far.
#[derive(Drop)]
struct Reader {
    alloc: Global,
    fields: Vec<Field>,
    field: Vec<u8>,
    place: Place,
    /// How often the text behind a `{` stands there, and where it begins; 0 outside of braces.
    times: usize,
    start: usize,
}

/// Where the reader of a line stands.
#[derive(Clone, Copy, Drop)]
enum Place {
    /// Behind no backslash.
    Plain,
    /// Behind a backslash.
    Escape,
    /// Behind a backslash and an `x`.
    High,
    /// Behind the first digit as well.
    Low(u8),
    /// In the number behind `\*`.
    Number,
    /// Behind `\N`.
    Nothing,
    /// Behind `\G`.
    Git,
}

impl Reader {
    /// Nothing was read yet.
    fn new(alloc: Global) -> Reader {
        Reader {
            alloc,
            fields: Vec::new(alloc),
            field: Vec::new(alloc),
            place: Place::Plain,
            times: 0,
            start: 0,
        }
    }

    /// Takes the next sign of the line.
    fn take(&mut self, sign: u8) -> Result<(), AllocError> {
        match (self.place, sign) {
            (Place::Git, _) => Ok(()),
            (Place::Plain | Place::Nothing, b'\t') => self.end_field(),
            (Place::Plain, b'}') if self.times > 0 => self.repeat(),
            (Place::High, _) => self.go_to(Place::Low(digit(sign))),
            (Place::Low(high), _) => self.push(high.wrapping_mul(16).wrapping_add(digit(sign))),
            (Place::Number, b'0'..=b'9') => self.count(sign),
            (Place::Number, _) => self.begin(),
            (Place::Escape, b'x') => self.go_to(Place::High),
            (Place::Escape, b'*') => self.go_to(Place::Number),
            (Place::Escape, b'N') => self.go_to(Place::Nothing),
            (Place::Escape, b'G') => self.go_to(Place::Git),
            (Place::Plain, b'\\') => self.go_to(Place::Escape),
            _ => self.push(sign),
        }
    }

    /// Ends a field, unless it is Git's.
    fn end_field(&mut self) -> Result<(), AllocError> {
        let ended = mem::replace(&mut self.field, Vec::new(self.alloc));
        match self.place {
            Place::Git => {}
            Place::Nothing => self.fields.push(None)?,
            _ => self.fields.push(Some(ended))?,
        }
        self.go_to(Place::Plain)
    }

    /// Stands at a place.
    fn go_to(&mut self, place: Place) -> Result<(), AllocError> {
        self.place = place;
        Ok(())
    }

    /// Adds a byte to the field.
    fn push(&mut self, byte: u8) -> Result<(), AllocError> {
        self.field.push(byte)?;
        self.go_to(Place::Plain)
    }

    /// Adds a digit to the number of times.
    fn count(&mut self, digit: u8) -> Result<(), AllocError> {
        let ones = usize::from(digit.wrapping_sub(b'0'));
        self.times = self.times.saturating_mul(10).saturating_add(ones);
        Ok(())
    }

    /// Begins the text that is repeated.
    fn begin(&mut self) -> Result<(), AllocError> {
        self.start = self.field.len();
        self.go_to(Place::Plain)
    }

    /// Repeats the text behind the `{`.
    fn repeat(&mut self) -> Result<(), AllocError> {
        let text = Vec::from_slice(self.alloc, self.field.get(self.start..).unwrap_or(b""))?;
        for _ in 1..self.times {
            self.field.extend_from_slice(&text)?;
        }
        self.times = 0;
        Ok(())
    }
}

/// The value of a hexadecimal digit.
fn digit(sign: u8) -> u8 {
    match sign {
        b'0'..=b'9' => sign - b'0',
        b'a'..=b'f' => sign - b'a' + 10,
        _ => 0,
    }
}
