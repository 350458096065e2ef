//! The literal bytes of texts: the bytes that each value that a pattern matches has to end in, and those that it has to hold, alone
//! and side by side.
ghost use Rattle.std.specs.Prelude.{◌≡◌, ◌↔◌, ◌==◌, ◌||◌, ◌+◌, ◌-◌, ◌*◌, ◌%◌, ◌<◌, ◌≤◌, ◌^◌, IsTrue, length};
ghost use Rattle.std.specs.Char.{to_ascii_lowercase};
ghost use Rattle.gix_glob.specs.Bytes.{backslash, open_bracket};
ghost use Rattle.gix_glob.specs.LiteralBytes.{is_joining};
ghost use Rattle.glob_lists.specs.Private.Asks.Literals.{AsksForBits, EndsLiterally, NeedsBits, bit_of, end_key, from_end, pair_of, raw_end, without_bytes};
ghost use Rattle.glob_lists.specs.Private.Asks.Parts.{IsPlainEnd};
ghost use Rattle.glob_lists.specs.Private.Asks.Showing.{HasAll, HasEndKeys, HoldsBits, HoldsBytes};

/// The longest end of a text that is looked at, in bytes.
pub(crate) const LONGEST_END: usize = 8;

/// A bit of each byte of a number, which no capital letter has.
pub(crate) const NO_CAPITAL: u64 = 0x2020_2020_2020_2020;

/// The set of all pairs, and of all bytes but those of place 0, for which no pattern asks. So it isn't the set of a list that has no
/// pattern that asks for any, which has each place.
pub(crate) const ALL_BITS: u64 = u64::MAX - 1;

/// The set of all pairs.
pub(crate) const ALL_PAIRS: u64 = 0xFFFF_FFFF_0000_0000;

/// Whether a byte may be the last of a token of more than one byte.
pub(crate) fn is_joining(byte: u8) -> bool
    ensures { result ≡ is_joining byte }
{
    // one test tells that a small letter isn't
    byte <= b']' && matches!(byte, b'*' | b'?' | b'[' | b'\\' | b']' | b'/')
}

/// Whether a set may begin at a byte, or an escape.
fn is_opening(byte: u8) -> bool
    ensures { result ≡ (byte == open_bracket || byte == backslash) }
{
    matches!(byte, b'[' | b'\\')
}

/// How many bytes at the end of a text stand for themselves, up to [`LONGEST_END`].
#[inline(always)]
pub(crate) fn literal_end(text: &[u8]) -> usize
    ensures short { result ≤ LONGEST_END }
    ensures literal { EndsLiterally text.now result }
{
    // one test of the length, and a fixed number of turns, where there are as many bytes
    if text.len() >= LONGEST_END {
        return literal_among(text, LONGEST_END);
    }
    literal_among(text, text.len())
}

/// How many bytes at the end of a text stand for themselves, among so many.
#[inline(always)]
fn literal_among(text: &[u8], most: usize) -> usize
    requires inside { most ≤ length text.now }
    ensures short { result ≤ most }
    ensures literal { EndsLiterally text.now result }
{
    'bytes: for n in 0..most {
        if is_joining(text[text.len() - (n + 1)]) {
            return n;
        }
    }
    most
}

/// The number that the last bytes of a text make, as many as `count` says: letters of both cases are one.
pub(crate) fn end_key(text: &[u8], count: usize) -> u64
    requires inside { count ≤ length text.now }
    requires few { count ≤ LONGEST_END }
    ensures { result ≡ end_key text.now count }
{
    without_bytes(end_number(text), LONGEST_END - count)
}

/// The number of the longest end of a text that is looked at. Where the text is shorter, zeros stand for the bytes that it lacks.
#[inline(always)]
pub(crate) fn end_number(text: &[u8]) -> u64
    ensures { HasEndKeys text.now result }
{
    if text.len() >= LONGEST_END {
        let key = raw_end(text);
        if key & NO_CAPITAL == NO_CAPITAL {
            return key;
        }
    }
    padded_end(text)
}

/// Whether a text has a longest end, and no byte of it is taken for a capital letter: [`end_number`] is then that of its bytes as they
/// are.
#[inline(always)]
pub(crate) fn has_plain_end(text: &[u8]) -> bool
    ensures { IsTrue result → IsPlainEnd text.now LONGEST_END }
{
    if text.len() < LONGEST_END {
        return false;
    }
    raw_end(text) & NO_CAPITAL == NO_CAPITAL
}

/// Whether none of so many last bytes of a text is a capital letter.
pub(crate) fn has_no_capital(text: &[u8], count: usize) -> bool
    requires { count ≤ length text.now }
    ensures { IsTrue result → IsPlainEnd text.now count }
{
    'bytes: for n in 0..count {
        let byte = text[text.len() - (n + 1)];
        if byte.to_ascii_lowercase() != byte {
            return false;
        }
    }
    true
}

/// The number that the last bytes of a text make as they are.
#[inline(always)]
fn raw_end(text: &[u8]) -> u64
    requires { LONGEST_END ≤ length text.now }
    ensures { result ≡ raw_end text.now LONGEST_END }
{
    // one test for all, where tests of places stay
    let bytes = &text[text.len() - LONGEST_END..];
    u64::from_le_bytes([
        bytes[0], bytes[1], bytes[2], bytes[3], bytes[4], bytes[5], bytes[6], bytes[7],
    ])
}

/// What [`end_number`] says, byte by byte.
fn padded_end(text: &[u8]) -> u64
    ensures { HasEndKeys text.now result }
{
    let mut key = 0;
    'bytes: for n in 0..LONGEST_END {
        key = longer_key(key, from_end(text, n));
    }
    key
}

/// The byte that is so many bytes before the last; 0 where the text has none.
fn from_end(text: &[u8], n: usize) -> u8
    requires { n < LONGEST_END }
    ensures { n < length text.now → result ≡ from_end text.now n }
{
    if n < text.len() {
        return text[text.len() - (n + 1)];
    }
    0
}

/// A number without so many of its last bytes.
#[inline(always)]
pub(crate) fn without_bytes(key: u64, count: usize) -> u64
    ensures { result ≡ without_bytes key count }
{
    if count >= LONGEST_END {
        return 0;
    }
    key >> (8 * count)
}

/// How many bits the number of the longest end that is looked at has more than that of an end of so many bytes.
#[inline(always)]
pub(crate) fn spare_bits(length: usize) -> u8
    requires few { length ≤ LONGEST_END }
    ensures { result ≡ 8 * (LONGEST_END - length) }
{
    (8 * (LONGEST_END - length)) as u8
}

/// The number of one byte more.
fn longer_key(key: u64, byte: u8) -> u64
    ensures { result ≡ ((key * 256) % (2 ^ 64) + to_ascii_lowercase byte) % (2 ^ 64) }
{
    key.wrapping_mul(256)
        .wrapping_add(u64::from(byte.to_ascii_lowercase()))
}

/// The bit that stands for a byte in a set of bytes; the two cases of a letter are 32 apart, and share one.
fn bit_of(byte: u8) -> u64
    ensures { result ≡ 1 * 2 ^ bit_of byte % 2 ^ 64 }
{
    1 << (byte % 32)
}

/// The place of a pair of bytes among the pairs, which are the upper half of a set; the case of letters doesn't count.
#[inline(always)]
fn pair_of(first: u8, second: u8) -> u8
    ensures { result ≡ pair_of first second }
{
    first.wrapping_mul(5).wrapping_add(second) % 32
}

/// What each value has to hold that a text matches, as a set: the bytes that stand for themselves before the first `[` and the
/// first `\`, and the pairs of those that stand side by side; not those of place 0.
pub(crate) fn needed_bits(text: &[u8]) -> u64
    ensures { AsksForBits text.now result }
{
    (needed_bytes(text) | needed_pairs(text)) & ALL_BITS
}

/// The bytes of [`needed_bits`].
fn needed_bytes(text: &[u8]) -> u64
    ensures { NeedsBits text.now result }
{
    let mut bits = 0;
    for byte in text {
        if is_opening(*byte) {
            return bits;
        }
        if !is_joining(*byte) {
            bits |= bit_of(*byte);
        }
    }
    bits
}

/// The pairs of [`needed_bits`].
fn needed_pairs(text: &[u8]) -> u64
    ensures { NeedsBits text.now result }
{
    let mut bits = 0;
    'pairs: for n in 0..text.len().saturating_sub(1) {
        if is_opening(text[n]) {
            return bits;
        }
        if !is_joining(text[n]) && !is_joining(text[n + 1]) {
            bits |= 1 << (32 + pair_of(text[n], text[n + 1]));
        }
    }
    bits
}

/// The bytes of a text, as a set without pairs.
pub(crate) fn bytes_of(text: &[u8]) -> u64
    ensures { HoldsBytes text.now result }
{
    // half of the width, so that more bytes are read at once
    let mut bits: u32 = 0;
    for byte in text {
        bits |= 1 << (*byte % 32);
    }
    u64::from(bits)
}

/// The bytes of a text and its pairs, as a set.
pub(crate) fn bits_of(text: &[u8]) -> u64
    ensures { HoldsBits text.now result }
{
    let [first, ..] = text else {
        return 0;
    };
    let mut bytes: u32 = 1 << (*first % 32);
    let mut pairs: u32 = 0;
    'bytes: for n in 1..text.len() {
        bytes |= 1 << (text[n] % 32);
        pairs |= 1 << pair_of(text[n - 1], text[n]);
    }
    (u64::from(pairs) << 32) | u64::from(bytes)
}

/// Whether a set has all that another one has.
pub(crate) fn has_all(held: u64, needed: u64) -> bool
    ensures { IsTrue result ↔ HasAll held needed }
{
    needed & !held == 0
}
