//! Numbers in decimal digits.
ghost use Rattle.std.specs.Prelude.{◌≡◌, ◌+◌, ◌<◌, ◌/◌, ◌%◌, ◌∷◌, ◌++◌, OnOk, decimal};

use itoa::Buffer;
use std::alloc::AllocError;

/// The two digits of each number below 100, one number after the other.
static PAIRS: [u8; 200] =
    *b"00010203040506070809101112131415161718192021222324252627282930313233343536373839404142434445464748495051525354555657585960616263646566676869707172737475767778798081828384858687888990919293949596979899";

/// Appends a number to a text, without leading zeros.
pub(crate) fn append_decimal(text: &mut Vec<u8>, number: usize) -> Result<(), AllocError>
    ensures { OnOk result (text.new.items ≡ text.old.items ++ decimal number) }
{
    let mut buffer = Buffer::new();
    text.extend_from_slice(buffer.format(number).as_bytes())
}

/// Appends a separator and a number to a text.
///
/// Nearly all numbers in a long list have three to five digits. They go into an array: its length is fixed, so that it is
/// copied without a call.
#[inline(always)]
pub(crate) fn append_separated(
    text: &mut Vec<u8>,
    separator: u8,
    number: usize,
) -> Result<(), AllocError>
    ensures { OnOk result (text.new.items ≡ text.old.items ++ separator ∷ decimal number) }
{
    match number {
        100..=999 => {
            let (tens, ones) = two_digits(number % 100);
            text.extend_from_slice(&[separator, digit(number / 100), tens, ones])
        }
        1000..=9999 => {
            let (thousands, hundreds) = two_digits(number / 100);
            let (tens, ones) = two_digits(number % 100);
            text.extend_from_slice(&[separator, thousands, hundreds, tens, ones])
        }
        10000..=99999 => {
            let (thousands, hundreds) = two_digits(number / 100 % 100);
            let (tens, ones) = two_digits(number % 100);
            text.extend_from_slice(&[
                separator,
                digit(number / 10000),
                thousands,
                hundreds,
                tens,
                ones,
            ])
        }
        _ => {
            text.push(separator)?;
            append_decimal(text, number)
        }
    }
}

/// The digit of a number below 10.
#[inline(always)]
fn digit(number: usize) -> u8
    requires { number < 10 }
    ensures { result ≡ 48 + number }
{
    b'0' + number as u8
}

/// The two digits of a number below 100.
#[inline(always)]
fn two_digits(number: usize) -> (u8, u8)
    requires { number < 100 }
    ensures { (result.0 ≡ 48 + number / 10) × (result.1 ≡ 48 + number % 10) }
{
    (PAIRS[number * 2], PAIRS[number * 2 + 1])
}
