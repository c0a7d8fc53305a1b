//! The lines of a text, and the words, tokens and numbers of a line.
ghost use Rattle.std.specs.Prelude.{◌≡◌, ◌≤◌, ◌+◌, ◌++◌, ◌==◌, drop, length, not, suc, if◌then◌else◌};
ghost use Rattle.std.specs.Iterator.{at_most};
ghost use Rattle.tk_words.specs.Texts.{line_behind};
ghost use Rattle.tk_words.specs.Lex.{behind, front, is_blank, is_word_byte};
ghost use Rattle.tk_kinds.specs.Lines.{after_front_word, after_line, after_token, first_line, first_token};
ghost use Rattle.tk_kinds.specs.Lines.{front_word, is_solid, number};

use tk_words::{Keyword, blank, integer, keyword_of, letter, word_byte};

/// A line of a text or a part of it, with the number of the line, counted from 1.
#[derive(Clone, Copy)]
pub struct NumberedLine<'a> {
    pub line: u64,
    pub bytes: &'a [u8],
}

/// The lines of a text, each with its number. If the text ends with a line feed, the last line is empty.
#[derive(Drop)]
pub struct Lines<'a> {
    rest: &'a [u8],
    /// The number of lines that have been returned.
    count: u64,
    is_ended: bool,
}

/// The lines of a text.
pub fn lines_of(text: &[u8]) -> Lines<'_> {
    Lines {
        rest: text,
        count: 0,
        is_ended: false,
    }
}

impl<'a> Iterator for Lines<'a> {
    type Item = NumberedLine<'a>;

    ghost remaining = { λ s. at_most (if s.is_ended then 0 else suc (length s.rest.now)) };

    fn next(&mut self) -> Option<NumberedLine<'a>> {
        if self.is_ended {
            return None;
        }
        self.count = self.count.saturating_add(1);
        let (bytes, end) = self.rest.split_at(length_before(self.rest, b'\n'));
        match end.split_first() {
            Some((_, rest)) => self.rest = rest,
            None => self.is_ended = true,
        }
        Some(NumberedLine {
            line: self.count,
            bytes,
        })
    }
}

/// The number of bytes before the first one that equals `sign`, or of all bytes if none does.
pub fn length_before(bytes: &[u8], sign: u8) -> usize
    ensures within { result ≤ length bytes.now }
    ensures rest { drop result bytes.now ≡ behind (λ b. not (b == sign)) bytes.now }
{
    for i in 0..bytes.len() {
        if bytes[i] == sign {
            return i;
        }
    }
    bytes.len()
}

/// The first line of a text, and the text after it.
#[tactic(auto, using(crate::proofs::FrontBytes::take_front))]
pub fn split_line(text: &[u8]) -> (&[u8], &[u8])
    ensures line { result.0.now ≡ first_line text.now }
    ensures rest { result.1.now ≡ after_line text.now }
{
    let (line, end) = text.split_at(length_before(text, b'\n'));
    match end {
        [_, rest @ ..] => (line, rest),
        [] => (line, end),
    }
}

/// The line with this number, if there is one.
pub fn line_at(text: &[u8], number: u64) -> Option<&[u8]> {
    for NumberedLine { line, bytes } in lines_of(text) {
        if line == number {
            return Some(bytes);
        }
    }
    None
}

/// The number of the last line.
pub fn last_line(text: &[u8]) -> u64
    ensures { result ≡ line_behind text.now }
{
    let mut line: u64 = 1;
    for i in 0..text.len() {
        if text[i] == b'\n' {
            line += 1;
        }
    }
    line
}

/// The bytes without the blanks at their front.
fn without_blanks(bytes: &[u8]) -> &[u8]
    ensures rest { result.now ≡ behind is_blank bytes.now }
    ensures within { length result.now ≤ length bytes.now }
{
    for i in 0..bytes.len() {
        if !blank(bytes[i]) {
            return &bytes[i..];
        }
    }
    &[]
}

/// The number of bytes of the word at the front of a line.
fn word_end(line: &[u8]) -> usize
    ensures within { result ≤ length line.now }
    ensures rest { drop result line.now ≡ behind is_word_byte line.now }
{
    for i in 0..line.len() {
        if !word_byte(line[i]) {
            return i;
        }
    }
    line.len()
}

/// The letters, digits and underscores at the front of a line, and the bytes after them.
#[tactic(auto, using(crate::proofs::FrontBytes::take_front))]
fn split_word_bytes(line: &[u8]) -> (&[u8], &[u8])
    ensures word { result.0.now ≡ front is_word_byte line.now }
    ensures rest { result.1.now ≡ behind is_word_byte line.now }
    ensures whole { result.0.now ++ result.1.now ≡ line.now }
{
    line.split_at(word_end(line))
}

/// The word at the front of a line, after blanks, and the bytes after it. The word is empty if the line does not begin
/// with a letter.
pub fn split_word(line: &[u8]) -> (&[u8], &[u8])
    ensures word { result.0.now ≡ front_word (behind is_blank line.now) }
    ensures rest { result.1.now ≡ after_front_word (behind is_blank line.now) }
    ensures whole { result.0.now ++ result.1.now ≡ behind is_blank line.now }
{
    let line = without_blanks(line);
    match line {
        [byte, ..] if letter(*byte) => split_word_bytes(line),
        _ => (b"".as_slice(), line),
    }
}

/// The keyword at the front of a line, if there is one.
pub fn keyword_at(line: &[u8]) -> Option<Keyword> {
    keyword_of(split_word(line).0)
}

/// The bytes after the first word of a line and an optional sign, such as `:` or `=`, without outer blanks.
pub fn value_behind(line: &[u8], sign: u8) -> &[u8] {
    let rest = without_blanks(split_word(line).1);
    match rest.split_first() {
        Some((byte, value)) if *byte == sign => value.trim_ascii(),
        _ => rest.trim_ascii(),
    }
}

/// The tokens of these bytes, which are separated by blanks.
#[derive(Drop)]
pub struct Tokens<'a> {
    rest: &'a [u8],
}

/// The tokens of these bytes.
pub fn tokens_of(bytes: &[u8]) -> Tokens<'_> {
    Tokens { rest: bytes }
}

impl<'a> Iterator for Tokens<'a> {
    type Item = &'a [u8];

    ghost remaining = { λ s. at_most (length s.rest.now) };

    fn next(&mut self) -> Option<&'a [u8]> {
        let (token, rest) = split_token(self.rest);
        self.rest = rest;
        if token.is_empty() {
            return None;
        }
        Some(token)
    }
}

/// The token at the front of these bytes, after blanks, and the bytes after it. Without a token, both are empty.
#[tactic(auto, using(crate::proofs::FrontBytes::take_front))]
pub fn split_token(bytes: &[u8]) -> (&[u8], &[u8])
    ensures token { result.0.now ≡ first_token bytes.now }
    ensures rest { result.1.now ≡ after_token bytes.now }
    ensures within { length result.0.now + length result.1.now ≤ length bytes.now }
{
    let bytes = without_blanks(bytes);
    bytes.split_at(token_end(bytes))
}

/// The number of bytes before the first blank, or of all bytes if there is none.
fn token_end(bytes: &[u8]) -> usize
    ensures within { result ≤ length bytes.now }
    ensures rest { drop result bytes.now ≡ behind is_solid bytes.now }
{
    for i in 0..bytes.len() {
        if blank(bytes[i]) {
            return i;
        }
    }
    bytes.len()
}

/// The first token, which is empty if there is none.
pub fn first_token(bytes: &[u8]) -> &[u8] {
    tokens_of(bytes).next().unwrap_or(b"".as_slice())
}

/// The number of tokens in these bytes.
pub fn count_tokens(bytes: &[u8]) -> u64 {
    tokens_of(bytes).count() as u64
}

/// The token after `others` other tokens.
///
/// # Errors
/// If there are fewer tokens, the number of others that come after these bytes.
pub fn token_after(bytes: &[u8], others: u64) -> Result<&[u8], u64> {
    let mut left = others;
    for token in tokens_of(bytes) {
        if left == 0 {
            return Ok(token);
        }
        left -= 1;
    }
    Err(left)
}

/// The number and the value of the first line that begins with this keyword; `None` if there is none before EOF.
pub fn header(text: &[u8], word: Keyword) -> Option<NumberedLine<'_>> {
    for NumberedLine { line, bytes } in lines_of(text) {
        match keyword_at(bytes) {
            Some(Keyword::Eof) => return None,
            Some(found) if found == word => {
                return Some(NumberedLine {
                    line,
                    bytes: value_behind(bytes, b':'),
                });
            }
            _ => {}
        }
    }
    None
}

/// The number of the first line that begins with this keyword; 1 if there is none before EOF.
pub fn header_line(text: &[u8], word: Keyword) -> u64 {
    match header(text, word) {
        Some(found) => found.line,
        None => 1,
    }
}

/// The number that these bytes spell, if they spell an integer that is not negative.
pub fn natural(bytes: &[u8]) -> Option<u64>
    ensures { result ≡ number bytes.now }
{
    match integer(bytes) {
        Some(number) if number >= 0 => Some(number as u64),
        _ => None,
    }
}
