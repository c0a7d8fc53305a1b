//! A buffer for some bytes of a text, and the classes of bytes.
ghost use Rattle.std.specs.Prelude.{◌≡◌, ◌<◌, ◌≤◌, ◌||◌, ◌==◌, true, false, List, ℕ, [], ◌∷◌, ◌++◌, All, length};
ghost use Rattle.std.specs.Prelude.{slice_index_or, take};
ghost use Rattle.tk_words.specs.Lex.{is_blank, is_letter, is_word_byte};
ghost use Rattle.tk_words.specs.Words.{spells};

use std::marker::Model;

/// A buffer of up to N bytes.
#[derive(Drop)]
pub struct ByteBuffer<const N: usize> {
    bytes: [u8; N],
    len: usize,
}

impl<const N: usize> Model for ByteBuffer<N> {
    ghost Value = { List ℕ };

    ghost view = { λ s. take s.len s.bytes };

    ghost invariant = { λ s. s.len ≤ N };
}

impl<const N: usize> ByteBuffer<N> {
    /// An empty buffer.
    pub fn new() -> Self
        ensures { result ≡ [] }
    {
        ByteBuffer {
            bytes: [0; N],
            len: 0,
        }
    }

    /// Whether there is no room for another byte.
    pub fn is_full(&self) -> bool
        ensures full { result ≡ true → length self.now ≡ N }
        ensures not_full { result ≡ false → length self.now < N }
    {
        self.len == N
    }

    /// Removes all bytes.
    pub fn clear(&mut self)
        ensures { self.new ≡ [] }
    {
        self.len = 0;
    }

    /// Adds a byte.
    pub fn push(&mut self, byte: u8)
        requires { length self.old < N }
        ensures { self.new ≡ self.old ++ byte ∷ [] }
    {
        self.bytes[self.len] = byte;
        self.len += 1;
    }

    /// A copy with one more byte at its end.
    pub fn followed_by(&self, byte: u8) -> Self
        requires { length self.now < N }
        ensures { result ≡ self.now ++ byte ∷ [] }
    {
        let mut longer = ByteBuffer {
            bytes: self.bytes,
            len: self.len,
        };
        longer.push(byte);
        longer
    }

    /// Adds a byte, if there is room for it.
    pub fn keep(&mut self, byte: u8)
        ensures { self.new ≡ take N (self.old ++ byte ∷ []) }
    {
        if !self.is_full() {
            self.push(byte);
        }
    }

    /// The bytes in their order.
    pub fn as_slice(&self) -> &[u8]
        ensures { result.now ≡ self.now }
    {
        &self.bytes[..self.len]
    }
}

/// Whether a byte is a space, a tab or a carriage return.
pub fn blank(byte: u8) -> bool
    ensures { result ≡ is_blank byte }
{
    byte == b' ' || byte == b'\t' || byte == b'\r'
}

/// Whether a byte is an ASCII letter.
pub fn letter(byte: u8) -> bool
    ensures { result ≡ is_letter byte }
{
    (b'A' <= byte && byte <= b'Z') || (b'a' <= byte && byte <= b'z')
}

/// Whether a byte can be part of a word: a letter, a digit or `_`.
pub fn word_byte(byte: u8) -> bool
    ensures { result ≡ is_word_byte byte }
{
    letter(byte) || byte.is_ascii_digit() || byte == b'_'
}

/// Whether a byte ends a token: a blank or a line feed.
pub fn blank_or_end(byte: u8) -> bool
    ensures { result ≡ (is_blank byte || byte == 10) }
{
    blank(byte) || byte == b'\n'
}

/// The number of bytes before the first one that ends a token.
pub fn token_length(bytes: &[u8]) -> usize
    ensures count { result ≤ length bytes.now }
    ensures solid { All (λ b. (is_blank b || b == 10) ≡ false) (take result bytes.now) }
    ensures ended { result < length bytes.now
        → (is_blank (slice_index_or bytes.now result 0) || slice_index_or bytes.now result 0 == 10) ≡ true }
{
    for i in 0..bytes.len() {
        if blank_or_end(bytes[i]) {
            return i;
        }
    }
    bytes.len()
}

/// Whether these bytes spell a text, which is in capitals. Their own case does not matter.
pub fn spelled(bytes: &[u8], text: &[u8]) -> bool
    ensures { result ≡ spells bytes.now text.now }
{
    if bytes.len() != text.len() {
        return false;
    }
    for i in 0..bytes.len() {
        if bytes[i].to_ascii_uppercase() != text[i] {
            return false;
        }
    }
    true
}
