//! What a bracket set holds: its items, each of them a byte, a range or a class. How a set is read is in `sets`.
ghost use Rattle.std.specs.Prelude.{◌≡◌, MatchOption};
ghost use Rattle.glob_matcher.specs.declared.wildmatch.items.Class.{Class};
ghost use Rattle.glob_matcher.specs.Sets.{capital_lies, class_holds, is_between, item_holds, member_of, name_of, range_holds};

use super::way::Way;

/// A class of bytes that a set names between `[:` and `:]`.
#[derive(Debug, Copy, Clone, Eq, PartialEq)]
pub enum Class {
    Alnum,
    Alpha,
    Blank,
    Cntrl,
    Digit,
    Graph,
    Lower,
    Print,
    Punct,
    Space,
    Upper,
    Xdigit,
}

/// An item of a set.
#[derive(Debug, Copy, Clone, Eq, PartialEq)]
pub enum Item {
    /// One byte.
    Member(u8),
    /// The bytes from a lower to an upper end.
    Range(u8, u8),
    /// The bytes of a class.
    Class(Class),
}

impl Class {
    /// The class of a name, where there is one.
    #[inline(always)]
    pub fn named(name: &[u8]) -> Option<Class>
        ensures { MatchOption result ((class : Class) → ¬ (name.now ≡ name_of class)) (λ class. name.now ≡ name_of class) }
    {
        match name {
            b"alnum" => Some(Class::Alnum),
            b"alpha" => Some(Class::Alpha),
            b"blank" => Some(Class::Blank),
            b"cntrl" => Some(Class::Cntrl),
            b"digit" => Some(Class::Digit),
            b"graph" => Some(Class::Graph),
            b"lower" => Some(Class::Lower),
            b"print" => Some(Class::Print),
            b"punct" => Some(Class::Punct),
            b"space" => Some(Class::Space),
            b"upper" => Some(Class::Upper),
            b"xdigit" => Some(Class::Xdigit),
            _ => None,
        }
    }

    /// Whether the class holds a byte, which is folded already where the mode asks for it. It is not inlined: its tests would be
    /// made once for each set, before its items are read.
    #[inline(never)]
    fn holds(self, byte: u8, way: Way) -> bool
        ensures { result ≡ class_holds way self byte }
    {
        match self {
            Class::Alnum => byte.is_ascii_alphanumeric(),
            Class::Alpha => byte.is_ascii_alphabetic(),
            Class::Blank => byte == b' ' || byte == b'\t',
            Class::Cntrl => byte.is_ascii_control(),
            Class::Digit => byte.is_ascii_digit(),
            Class::Graph => byte.is_ascii_graphic(),
            Class::Lower => byte.is_ascii_lowercase(),
            Class::Print => byte == b' ' || byte.is_ascii_graphic(),
            Class::Punct => byte.is_ascii_punctuation(),
            Class::Space => (byte == b' ' || byte == b'\t') || (byte == b'\n' || byte == b'\r'),
            Class::Upper => byte.is_ascii_uppercase() || (way.folds() && byte.is_ascii_lowercase()),
            Class::Xdigit => byte.is_ascii_hexdigit(),
        }
    }
}

/// Whether a number lies between two others, in either order.
fn is_between(a: u8, b: u8, n: u8) -> bool
    ensures { result ≡ is_between a b n }
{
    (a <= n && n <= b) || (b <= n && n <= a)
}

/// Whether a capital lies between the ends of a range: as they are where folding is exact, else uppercased.
fn capital_lies(low: u8, high: u8, capital: u8, way: Way) -> bool
    ensures { result ≡ capital_lies way low high capital }
{
    if way.is_exact() {
        return low <= capital && capital <= high;
    }
    is_between(
        way.fold(low).to_ascii_uppercase(),
        way.fold(high).to_ascii_uppercase(),
        capital,
    )
}

/// Whether a range holds a byte. Where case doesn't count, the ends in uppercase count too.
#[inline(always)]
fn range_holds(low: u8, high: u8, byte: u8, way: Way) -> bool
    ensures { result ≡ range_holds way low high byte }
{
    let byte = way.fold(byte);
    (way.fold_inner(low) <= byte && byte <= way.fold_inner(high))
        || (way.folds()
            && byte.is_ascii_lowercase()
            && capital_lies(low, high, byte.to_ascii_uppercase(), way))
}

impl Item {
    /// Whether the item holds a byte.
    #[inline(always)]
    pub fn holds(self, byte: u8, way: Way) -> bool
        ensures { result ≡ item_holds way byte self }
    {
        match self {
            // Most members are other bytes: `alike`, which tests first whether two bytes are equal, would only add a test.
            Item::Member(member) => way.fold(byte) == way.fold_inner(member),
            Item::Range(low, high) => range_holds(low, high, byte, way),
            Item::Class(class) => class.holds(way.fold(byte), way),
        }
    }

    /// The member that a range after this item begins from.
    #[inline(always)]
    pub fn member(self) -> Option<u8>
        ensures { result ≡ member_of self }
    {
        match self {
            Item::Member(byte) => Some(byte),
            Item::Range(..) | Item::Class(_) => None,
        }
    }
}
