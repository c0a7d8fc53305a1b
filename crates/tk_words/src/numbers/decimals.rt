//! Decimal numbers, in billionths.
ghost use Rattle.std.specs.Prelude.{◌≡◌, ◌≤◌, ◌+◌, ◌-◌, ◌*◌, ◌^◌, ◌++◌, All, IfOk, IfSome, SomeIff, ◌<◌, take, length};
ghost use Rattle.std.specs.Prelude.{option_map, pos};
ghost use Rattle.std.specs.Char.{IsAsciiDigit, is_ascii_digit};
ghost use Rattle.std.specs.Int.RustNames.{unsigned_abs};
ghost use Rattle.tk_problem.specs.Places.{greatest_coordinate};
ghost use Rattle.tk_words.specs.Decimal as Decimal;
ghost use Rattle.tk_words.specs.Lex.{front, behind};

use crate::fault::TextKind;
use crate::numbers::integers::natural;
use tk_problem::{COORDINATE_LIMIT, SCALE};

/// Maximum magnitude of a coordinate, in billionths.
const LIMIT: u64 = COORDINATE_LIMIT * SCALE as u64;

/// The powers of ten up to the limit.
const POWERS_OF_TEN: [u64; 19] = [
    1,
    10,
    100,
    1_000,
    10_000,
    100_000,
    1_000_000,
    10_000_000,
    100_000_000,
    1_000_000_000,
    10_000_000_000,
    100_000_000_000,
    1_000_000_000_000,
    10_000_000_000_000,
    100_000_000_000_000,
    1_000_000_000_000_000,
    10_000_000_000_000_000,
    100_000_000_000_000_000,
    1_000_000_000_000_000_000,
];

/// The digits at the front of these bytes, and the bytes after them.
fn split_digits(bytes: &[u8]) -> (&[u8], &[u8])
    ensures digits { result.0.now ≡ front is_ascii_digit bytes.now }
    ensures rest { result.1.now ≡ behind is_ascii_digit bytes.now }
{
    let mut end = 0;
    while end < bytes.len() && bytes[end].is_ascii_digit() {
        end += 1;
    }
    bytes.split_at(end)
}

/// The digits after a point, and the bytes after them.
fn split_fraction(bytes: &[u8]) -> (&[u8], &[u8])
    ensures digits { result.0.now ≡ Decimal.fraction bytes.now }
    ensures rest { result.1.now ≡ Decimal.behind_fraction bytes.now }
{
    match bytes {
        [b'.', digits @ ..] => split_digits(digits),
        _ => bytes.split_at(0),
    }
}

/// The number that the digits of `number`, followed by these digits, spell; `None` if it exceeds the limit.
fn append_digits(number: u64, digits: &[u8]) -> Option<u64>
    requires limit { number ≤ LIMIT }
    requires digits { All IsAsciiDigit digits.now }
    ensures { let appended = Decimal.number_behind number digits.now in SomeIff result (appended ≤ LIMIT) appended }
{
    let mut number = number;
    for digit in digits {
        number = number * 10 + u64::from(*digit - b'0');
        if number > LIMIT {
            return None;
        }
    }
    Some(number)
}

/// The number that the digits of `number`, followed by zeros, spell; `None` if it exceeds the limit.
fn append_zeros(number: u64, zeros: usize) -> Option<u64>
    ensures { let appended = number * 10 ^ zeros in SomeIff result (appended ≤ LIMIT) appended }
{
    if number == 0 {
        return Some(0);
    }
    if zeros >= POWERS_OF_TEN.len() {
        return None;
    }
    let appended = number.checked_mul(POWERS_OF_TEN[zeros])?;
    if appended > LIMIT {
        return None;
    }
    Some(appended)
}

/// The number that the first `count` digits spell, with zeros if there are fewer; `None` if it exceeds the limit.
fn first_digits(whole: &[u8], fraction: &[u8], count: usize) -> Option<u64>
    requires whole { All IsAsciiDigit whole.now }
    requires fraction { All IsAsciiDigit fraction.now }
    ensures { let digits = whole.now ++ fraction.now in
        let number = Decimal.number_of (take count digits) * 10 ^ (count - length digits) in
        SomeIff result (number ≤ LIMIT) number }
{
    let in_whole = count.min(whole.len());
    let number = append_digits(0, &whole[..in_whole])?;
    let in_fraction = (count - in_whole).min(fraction.len());
    let number = append_digits(number, &fraction[..in_fraction])?;
    append_zeros(number, count - in_whole - in_fraction)
}

/// The number that 1 to 3 digits spell; `None` for other bytes.
fn small(bytes: &[u8]) -> Option<usize>
    ensures value { result ≡ Decimal.small bytes.now }
    ensures bound { IfSome result (λ n. n < 10 ^ 18) }
{
    if bytes.len() > 3 {
        return None;
    }
    Some(natural(bytes)? as usize)
}

/// The powers of ten by which an exponent multiplies and divides: an optional sign and 1 to 3 digits. `None` for other
/// bytes.
fn powers(bytes: &[u8]) -> Option<(usize, usize)>
    ensures value { result ≡ Decimal.powers bytes.now }
    ensures bound { IfSome result (λ e. (e.0 < 10 ^ 18) × (e.1 < 10 ^ 18)) }
{
    match bytes {
        [b'-', digits @ ..] => Some((0, small(digits)?)),
        [b'+', digits @ ..] => Some((small(digits)?, 0)),
        _ => Some((small(bytes)?, 0)),
    }
}

/// The powers of ten by which an optional exponent multiplies and divides; `None` for other bytes.
fn exponent(bytes: &[u8]) -> Option<(usize, usize)>
    ensures value { result ≡ Decimal.exponent bytes.now }
    ensures bound { IfSome result (λ e. (e.0 < 10 ^ 18) × (e.1 < 10 ^ 18)) }
{
    match bytes {
        [] => Some((0, 0)),
        [b'e' | b'E', signed @ ..] => powers(signed),
        _ => None,
    }
}

/// A number without its sign, in billionths, rounded down.
fn billionths(bytes: &[u8]) -> Result<i64, TextKind>
    requires { length bytes.now ≤ 64 }
    ensures value { result ≡ Decimal.limited (option_map pos (Decimal.billionths bytes.now)) }
    ensures bound { IfOk result (λ n. unsigned_abs n ≤ greatest_coordinate) }
{
    let (whole, rest) = split_digits(bytes);
    let (fraction, rest) = split_fraction(rest);
    if whole.is_empty() && fraction.is_empty() {
        return Err(TextKind::BadNumber);
    }
    let Some((up, down)) = exponent(rest) else {
        return Err(TextKind::BadNumber);
    };
    let count = (whole.len() + 9 + up).saturating_sub(down);
    match first_digits(whole, fraction, count) {
        Some(number) => Ok(number as i64),
        None => Err(TextKind::OutOfLimit),
    }
}

/// A decimal number in billionths, rounded towards zero: an optional sign, digits with at most one point, and an
/// optional exponent. `BadNumber` for other bytes, `OutOfLimit` if the rounded magnitude exceeds 10^9.
pub fn decimal(bytes: &[u8]) -> Result<i64, TextKind>
    requires { length bytes.now ≤ 64 }
    ensures value { result ≡ Decimal.limited (Decimal.decimal_of bytes.now) }
    ensures bound { IfOk result (λ n. unsigned_abs n ≤ greatest_coordinate) }
{
    match bytes {
        [b'-', number @ ..] => Ok(-billionths(number)?),
        [b'+', number @ ..] => billionths(number),
        _ => billionths(bytes),
    }
}
