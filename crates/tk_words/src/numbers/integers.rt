//! Integers.
ghost use Rattle.std.specs.Prelude.{◌≡◌, ◌^◌, ◌<◌, pos, IfSome};
ghost use Rattle.std.specs.Int.RustNames.{unsigned_abs};
ghost use Rattle.tk_words.specs.Lex as Lex;

/// The number that 1 to 18 digits spell; `None` for other bytes.
pub(crate) fn natural(bytes: &[u8]) -> Option<i64>
    ensures value { result ≡ Lex.signed pos (Lex.natural bytes.now) }
    ensures bound { IfSome result (λ n. unsigned_abs n < 10 ^ 18) }
{
    if bytes.is_empty() || bytes.len() > 18 {
        return None;
    }
    let mut number = 0;
    for byte in bytes {
        if !byte.is_ascii_digit() {
            return None;
        }
        number = number * 10 + u64::from(*byte - b'0');
    }
    Some(number as i64)
}

/// The number that an optional sign and 1 to 18 digits spell; `None` for other bytes.
pub fn integer(bytes: &[u8]) -> Option<i64>
    ensures { result ≡ Lex.integer bytes.now }
{
    match bytes {
        [b'-', digits @ ..] => Some(-natural(digits)?),
        [b'+', digits @ ..] => natural(digits),
        _ => natural(bytes),
    }
}
