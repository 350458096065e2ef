//! Fields of an index file: numbers of fixed width, the numbers of version 4, and texts that end in a zero byte.
ghost use Rattle.std.specs.Prelude.{◌≡◌, ◌==◌, ◌≤◌, IfOk};
ghost use Rattle.std.specs.Int.{w16, w32, w64};
ghost use Rattle.std.specs.List.{list_all};
ghost use Rattle.git_index.specs.Private.Reading.{Gives, front_at, number_at, shared_number_from, skipped, until_zero};

use crate::fault::IndexFault;
use memchr::memchr;

/// What follows so many bytes.
pub fn skip(bytes: &[u8], count: usize) -> Result<&[u8], IndexFault>
    ensures { Gives (λ x. x.now) result (skipped count bytes.now) }
{
    if bytes.len() < count {
        return Err(IndexFault::Cut);
    }
    Ok(&bytes[count..])
}

/// So many bytes, and what follows them.
pub fn front(bytes: &[u8], count: usize) -> Result<(&[u8], &[u8]), IndexFault>
    ensures { Gives (λ x. (x.0.now, x.1.now)) result (front_at count bytes.now) }
{
    if bytes.len() < count {
        return Err(IndexFault::Cut);
    }
    Ok(bytes.split_at(count))
}

/// The number of two bytes at the front, and what follows it.
pub fn u16_at(bytes: &[u8]) -> Result<(u16, &[u8]), IndexFault>
    ensures { Gives (λ x. (x.0, x.1.now)) result (number_at w16 bytes.now) }
{
    if bytes.len() < 2 {
        return Err(IndexFault::Cut);
    }
    let (front, rest) = bytes.split_at(2);
    Ok((u16::from_be_bytes([front[0], front[1]]), rest))
}

/// The number of four bytes at the front, and what follows it.
pub fn u32_at(bytes: &[u8]) -> Result<(u32, &[u8]), IndexFault>
    ensures { Gives (λ x. (x.0, x.1.now)) result (number_at w32 bytes.now) }
{
    if bytes.len() < 4 {
        return Err(IndexFault::Cut);
    }
    let (front, rest) = bytes.split_at(4);
    let number = u32::from_be_bytes([front[0], front[1], front[2], front[3]]);
    Ok((number, rest))
}

/// The number of eight bytes at the front, and what follows it.
pub fn u64_at(bytes: &[u8]) -> Result<(u64, &[u8]), IndexFault>
    ensures { Gives (λ x. (x.0, x.1.now)) result (number_at w64 bytes.now) }
{
    if bytes.len() < 8 {
        return Err(IndexFault::Cut);
    }
    let (front, rest) = bytes.split_at(8);
    let [a, b, c, d, e, f, g, h] = front else {
        return Err(IndexFault::Cut);
    };
    let number = u64::from_be_bytes([*a, *b, *c, *d, *e, *f, *g, *h]);
    Ok((number, rest))
}

/// Whether each byte is zero.
pub fn is_zero(bytes: &[u8]) -> bool
    ensures { result ≡ list_all (λ b. b == 0) bytes.now }
{
    bytes.iter().all(|byte| *byte == 0)
}

/// The bytes before the first zero, and those behind it.
pub fn text_at(bytes: &[u8]) -> Result<(&[u8], &[u8]), IndexFault>
    ensures { Gives (λ x. (x.0.now, x.1.now)) result (until_zero bytes.now) }
{
    let Some(end) = memchr(0, bytes) else {
        return Err(IndexFault::Cut);
    };
    let (text, rest) = bytes.split_at(end);
    Ok((text, &rest[1..]))
}

/// The number at the front in the form of version 4, and what follows it. A number above the limit is a fault.
pub fn shared_number(bytes: &[u8], limit: usize) -> Result<(usize, &[u8]), IndexFault>
    ensures gives { Gives (λ x. (x.0, x.1.now)) result (shared_number_from limit 0 bytes.now) }
    ensures within { IfOk result (λ x. x.0 ≤ limit) }
{
    let mut high: usize = 0;
    let mut rest = bytes;
    while let [byte, others @ ..] = rest {
        let Some(shifted) = high.checked_mul(128) else {
            return Err(IndexFault::Path);
        };
        let Some(number) = shifted.checked_add(usize::from(*byte % 128)) else {
            return Err(IndexFault::Path);
        };
        if number > limit {
            return Err(IndexFault::Path);
        }
        if *byte < 128 {
            return Ok((number, others));
        }
        if number == limit {
            return Err(IndexFault::Path);
        }
        high = number + 1;
        rest = others;
    }
    Err(IndexFault::Cut)
}
