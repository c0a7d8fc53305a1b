//! Tokens that are not the numbers that a section needs.
ghost use Rattle.std.specs.Prelude.{◌≡◌, ◌||◌};
ghost use Rattle.tk_kinds.specs.Misread as Tokens;

use tk_words::spelled;

/// What a token is that is not a number of the kind that is expected.
#[derive(Clone, Copy)]
pub enum Misread {
    /// A number with a comma.
    Comma,
    /// The beginning of a comment.
    Comment,
    /// `nan`, which programs print for a value that is missing or undefined.
    Undefined,
    /// `inf`, which programs print for an infinite value.
    Infinite,
    /// A number with a decimal point.
    Decimal,
    /// Anything else.
    Word,
}

/// What a token is that is not a number of the kind that is expected.
pub fn misread_of(token: &[u8]) -> Misread
    ensures { result ≡ Tokens.misread_of token.now }
{
    if token.contains(&b',') {
        Misread::Comma
    } else if token.contains(&b'#') {
        Misread::Comment
    } else if is_undefined(token) {
        Misread::Undefined
    } else if is_infinite(token) {
        Misread::Infinite
    } else if token.contains(&b'.') {
        Misread::Decimal
    } else {
        Misread::Word
    }
}

/// Whether a token is `nan`, in upper or lower case, with or without a sign.
fn is_undefined(token: &[u8]) -> bool
    ensures { result ≡ Tokens.is_undefined token.now }
{
    spelled(without_sign(token), b"NAN")
}

/// Whether a token is `inf` or `infinity`, in upper or lower case, with or without a sign.
fn is_infinite(token: &[u8]) -> bool
    ensures { result ≡ Tokens.is_infinite token.now }
{
    let token = without_sign(token);
    spelled(token, b"INF") || spelled(token, b"INFINITY")
}

/// A token without the sign at its front.
fn without_sign(token: &[u8]) -> &[u8]
    ensures { result.now ≡ Tokens.without_sign token.now }
{
    match token {
        [b'-' | b'+', rest @ ..] => rest,
        _ => token,
    }
}
