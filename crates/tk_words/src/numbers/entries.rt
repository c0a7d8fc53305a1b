//! How a token is read where a number is expected.
ghost use Rattle.std.specs.Prelude.{◌≡◌, ◌<◌, ◌≤◌, length, pos, false, Some, None, IfSome};
ghost use Rattle.tk_words.specs.Lex as Lex;
ghost use Rattle.tk_words.specs.Words as Words;
ghost use Rattle.tk_words.specs.MinusOne.{is_minus_one, begins_minus_one};
ghost use Rattle.tk_words.specs.Entry as Tokens;
ghost use Rattle.tk_words.specs.Entry.{IsEntry};

use crate::byte_buffer::{ByteBuffer, letter};
use crate::keyword::{Keyword, keyword_of};
use crate::numbers::integers::integer;

/// How a token is read where a number is expected.
#[derive(Clone, Copy)]
pub enum Entry {
    /// An integer.
    Number(i64),
    /// `EOF`, which ends a list.
    Eof,
    /// Another keyword: the list is cut short.
    Word,
    /// None of these.
    Other,
}

/// Whether these bytes are an integer that equals -1.
pub fn minus_one(bytes: &[u8]) -> bool
    ensures { result ≡ is_minus_one (Lex.integer bytes.now) }
{
    match integer(bytes) {
        Some(number) => number == -1,
        None => false,
    }
}

/// Whether these bytes are -1, or become -1 if a 1 follows them.
pub fn begins_minus_one(held: &ByteBuffer<64>) -> bool
    requires room { length held.now < 64 }
    ensures { result ≡ begins_minus_one held.now }
{
    minus_one(held.as_slice()) || minus_one(held.followed_by(b'1').as_slice())
}

/// A number that is within limits; `None` for another one.
pub fn limited(number: i64, low: u32, high: u32) -> Option<u32>
    ensures some { IfSome result (λ n. (number ≡ pos n) × (low ≤ n) × (n ≤ high)) }
    ensures none { result ≡ None → Tokens.in_range low high (Some number) ≡ false }
{
    if number < 0 {
        return None;
    }
    let natural = number as u64;
    if natural < u64::from(low) || natural > u64::from(high) {
        return None;
    }
    Some(natural as u32)
}

/// A token without a colon at its end.
fn without_colon(bytes: &[u8]) -> &[u8]
    ensures { result.now ≡ Tokens.without_colon bytes.now }
{
    if !bytes.is_empty() && bytes[bytes.len() - 1] == b':' {
        return &bytes[..bytes.len() - 1];
    }
    bytes
}

/// Whether these bytes begin with a letter, as every keyword does.
fn begins_word(bytes: &[u8]) -> bool
    ensures { result ≡ Words.begins_word bytes.now }
{
    match bytes {
        [first, ..] => letter(*first),
        [] => false,
    }
}

/// The keyword that a token spells, with or without a colon at its end.
pub fn keyword_in(bytes: &[u8]) -> Option<Keyword>
    ensures { result ≡ Words.keyword_of (Tokens.without_colon bytes.now) }
{
    // Most tokens are numbers, which are not compared with the keywords.
    if !begins_word(bytes) {
        return None;
    }
    keyword_of(without_colon(bytes))
}

/// How a token is read where a number is expected.
pub fn entry_of(bytes: &[u8]) -> Entry
    ensures { IsEntry bytes.now result }
{
    if let Some(number) = integer(bytes) {
        return Entry::Number(number);
    }
    match keyword_in(bytes) {
        Some(Keyword::Eof) => Entry::Eof,
        Some(_) => Entry::Word,
        None => Entry::Other,
    }
}
