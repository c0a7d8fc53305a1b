//! A token as a reader finds it: its bytes, and the number that they spell.
ghost use Rattle.std.specs.Prelude.{◌≡◌, ◌≤◌, ◌<◌, ◌^◌, List, ℕ, length, Some, IfOk, IfSome};
ghost use Rattle.std.specs.Int.RustNames.{unsigned_abs};
ghost use Rattle.tk_problem.specs.Places.{greatest_coordinate};
ghost use Rattle.tk_words.specs.Decimal as Decimal;
ghost use Rattle.tk_words.specs.Entry.{IsEntry, without_colon};
ghost use Rattle.tk_words.specs.FirstToken.{IsFirstToken};
ghost use Rattle.tk_words.specs.Lex as Lex;
ghost use Rattle.tk_words.specs.Words as Words;

use crate::byte_buffer::{blank_or_end, token_length};
use crate::fault::TextKind;
use crate::keyword::Keyword;
use crate::numbers::decimals::decimal;
use crate::numbers::entries::{Entry, entry_of, keyword_in};
use crate::numbers::integers::integer;
use std::marker::Model;
use tk_problem::{COORDINATE_LIMIT, SCALE};

/// Maximum number of bytes of a token.
const TOKEN_LIMIT: usize = 64;

/// Maximum number of digits of a whole number.
const DIGIT_LIMIT: usize = 18;

/// The bytes of a token, and the number that they spell, if it is known. Most tokens are whole numbers, which are
/// computed while the end of the token is searched for.
#[derive(Drop)]
pub struct Lexeme<'a> {
    bytes: &'a [u8],
    natural: Option<u64>,
}

impl<'a> Model for Lexeme<'a> {
    ghost Value = { List ℕ };

    ghost view = { λ s. s.bytes.now };

    ghost invariant = { λ s. IfSome s.natural (λ n. (Lex.natural s.bytes.now ≡ Some n) × (n < 10 ^ 18)) };
}

impl<'a> Lexeme<'a> {
    /// A token of these bytes, whatever they spell.
    pub fn new(bytes: &'a [u8]) -> Self
        ensures { result ≡ bytes.now }
    {
        Lexeme {
            bytes,
            natural: None,
        }
    }

    /// The token at the front of these bytes, if it is not too long and a blank or a line feed follows it.
    #[inline(always)]
    pub fn first(bytes: &'a [u8]) -> Option<Self>
        ensures { IfSome result (λ token. IsFirstToken token bytes.now) }
    {
        let mut number = 0;
        for i in 0..bytes.len().min(DIGIT_LIMIT + 1) {
            let byte = bytes[i];
            if !byte.is_ascii_digit() {
                if i > 0 && blank_or_end(byte) {
                    return Some(Lexeme {
                        bytes: &bytes[..i],
                        natural: Some(number),
                    });
                }
                return Lexeme::other(bytes);
            }
            number = number * 10 + u64::from(byte - b'0');
        }
        Lexeme::other(bytes)
    }

    /// Like `first`, but for a token that might not be a whole number.
    fn other(bytes: &'a [u8]) -> Option<Self>
        ensures { IfSome result (λ token. IsFirstToken token bytes.now) }
    {
        let length = token_length(bytes);
        if length == 0 || length == bytes.len() || length > TOKEN_LIMIT {
            return None;
        }
        Some(Lexeme::new(&bytes[..length]))
    }

    /// The number of bytes.
    pub fn len(&self) -> usize
        ensures { result ≡ length self.now }
    {
        self.bytes.len()
    }

    /// The integer that the token spells; `None` if it does not spell one.
    #[inline(always)]
    pub fn integer(&self) -> Option<i64>
        ensures { result ≡ Lex.integer self.now }
    {
        match self.natural {
            Some(number) => Some(number as i64),
            None => integer(self.bytes),
        }
    }

    /// The decimal number that the token spells, in billionths, rounded towards zero.
    ///
    /// # Errors
    /// Those of `decimal`.
    #[inline(always)]
    pub fn decimal(&self) -> Result<i64, TextKind>
        requires { length self.now ≤ 64 }
        ensures value { result ≡ Decimal.limited (Decimal.decimal_of self.now) }
        ensures bound { IfOk result (λ n. unsigned_abs n ≤ greatest_coordinate) }
    {
        match self.natural {
            Some(number) if number > COORDINATE_LIMIT => Err(TextKind::OutOfLimit),
            Some(number) => Ok(number as i64 * SCALE),
            None => decimal(self.bytes),
        }
    }

    /// The keyword that the token spells, with or without a colon at its end.
    #[inline(always)]
    pub fn keyword(&self) -> Option<Keyword>
        ensures { result ≡ Words.keyword_of (without_colon self.now) }
    {
        match self.natural {
            Some(_) => None,
            None => keyword_in(self.bytes),
        }
    }

    /// How the token is read where a number is expected.
    #[inline(always)]
    pub fn entry(&self) -> Entry
        ensures { IsEntry self.now result }
    {
        match self.natural {
            Some(number) => Entry::Number(number as i64),
            None => entry_of(self.bytes),
        }
    }
}
