//! Files in the formats of other programs, recognized by their first two lines.
ghost use Rattle.std.specs.Prelude.{◌≡◌, option_map};
ghost use Rattle.tk_words.specs.Lex.{is_empty};
ghost use Rattle.tk_kinds.specs.Foreign as Files;
ghost use Rattle.tk_kinds.specs.Lines.{first_token};

use crate::lines::{natural, split_line, split_token, split_word};
use tk_params::key_of;
use tk_words::{blank, keyword_of};

/// The format of a file that another program wrote.
#[derive(Clone, Copy)]
pub enum Foreign {
    /// Columns that are separated by commas or semicolons.
    Csv,
    /// An edge list of linkern: the number of cities twice, and then two cities and a length on each line.
    Edges,
    /// A Concorde solution: the number of cities, and then the cities from 0.
    Concorde,
    /// A list of numbers, one on a line.
    Column,
    /// A list of numbers on one line.
    Row,
    /// Other lines of numbers.
    Rows,
}

/// The format of a file that another program wrote, if its first two lines show it.
pub fn foreign_of(text: &[u8]) -> Option<Foreign>
    ensures { result ≡ Files.foreign_of text.now }
{
    let (first, rest) = split_line(text);
    let second = split_line(rest).0;
    if is_csv(first, second) {
        return Some(Foreign::Csv);
    }
    if is_edges(first, second) {
        return Some(Foreign::Edges);
    }
    if is_concorde(first, second) {
        return Some(Foreign::Concorde);
    }
    of_list(first, second)
}

/// The format of a file that is a list of numbers; `None` if a word follows its first line.
fn of_list(first: &[u8], second: &[u8]) -> Option<Foreign>
    ensures { result ≡ Files.of_list first.now second.now }
{
    if has_word(second) {
        None
    } else if is_number(first) {
        Some(Foreign::Column)
    } else if is_one_line(first, second) {
        Some(Foreign::Row)
    } else if after_two(first, u64::MAX).is_some() {
        Some(Foreign::Rows)
    } else {
        None
    }
}

/// Whether a line begins with a word.
fn has_word(line: &[u8]) -> bool
    ensures { result ≡ Files.has_word line.now }
{
    !split_word(line).0.is_empty()
}

/// Whether these are the first two lines of a CSV file.
fn is_csv(first: &[u8], second: &[u8]) -> bool
    ensures { result ≡ Files.is_csv first.now second.now }
{
    has_separator(first) && has_separator(second) && !is_header(first)
}

/// Whether a line contains a comma or a semicolon.
fn has_separator(line: &[u8]) -> bool
    ensures { result ≡ Files.has_separator line.now }
{
    line.contains(&b',') || line.contains(&b';')
}

/// Whether a line is a header, a key or a comment of the formats of tourkit: it contains a colon, an equals sign or #,
/// or begins with a keyword or a key and a blank.
fn is_header(line: &[u8]) -> bool
    ensures { result ≡ Files.is_header line.now }
{
    line.contains(&b':') || line.contains(&b'=') || line.contains(&b'#') || has_keyword(line)
}

/// Whether a line begins with a keyword or a key and a blank.
fn has_keyword(line: &[u8]) -> bool
    ensures { result ≡ Files.has_keyword line.now }
{
    let (word, rest) = split_word(line);
    (keyword_of(word).is_some() || key_of(word).is_some()) && begins_blank(rest)
}

/// Whether these bytes begin with a blank.
fn begins_blank(bytes: &[u8]) -> bool
    ensures { result ≡ Files.begins_blank bytes.now }
{
    match bytes {
        [byte, ..] => blank(*byte),
        [] => false,
    }
}

/// Whether these are the first two lines of an edge list: the same number twice, and three numbers.
fn is_edges(first: &[u8], second: &[u8]) -> bool
    ensures { result ≡ Files.is_edges first.now second.now }
{
    has_equal_numbers(first)
        && is_end(after_two(first, u64::MAX))
        && is_end(after_three(second, u64::MAX))
}

/// Whether the first two tokens of a line are the same number, or are not numbers.
fn has_equal_numbers(line: &[u8]) -> bool
    ensures { result ≡ Files.has_equal_numbers line.now }
{
    let (token, rest) = split_token(line);
    natural(token) == natural(split_token(rest).0)
}

/// Whether these are the first two lines of a Concorde solution: the number of cities, and at least four cities.
fn is_concorde(first: &[u8], second: &[u8]) -> bool
    ensures { result ≡ Files.is_concorde first.now second.now }
{
    match natural(split_token(first).0) {
        Some(cities) => is_number(first) && has_cities(second, cities),
        None => false,
    }
}

/// Whether a line begins with four numbers below `cities`.
fn has_cities(line: &[u8], cities: u64) -> bool
    ensures { result ≡ Files.has_cities line.now cities }
{
    match after_two(line, cities) {
        Some(rest) => after_two(rest, cities).is_some(),
        None => false,
    }
}

/// Whether a line contains one number, and nothing else.
fn is_number(line: &[u8]) -> bool
    ensures { result ≡ Files.is_end (Files.after_number Files.any line.now) }
{
    is_end(after_number(line, u64::MAX))
}

/// Whether only blanks come after the numbers of a line, if it has them.
fn is_end(rest: Option<&[u8]>) -> bool
    ensures { result ≡ Files.is_end (option_map (λ s. s.now) rest.entry) }
{
    match rest {
        Some(rest) => is_blank_line(rest),
        None => false,
    }
}

/// Whether a line contains only blanks.
fn is_blank_line(line: &[u8]) -> bool
    ensures { result ≡ is_empty (first_token line.now) }
{
    split_token(line).0.is_empty()
}

/// The bytes after the number at the front of a line; `None` if there is no number below `limit`.
fn after_number(line: &[u8], limit: u64) -> Option<&[u8]>
    ensures { option_map (λ s. s.now) result ≡ Files.after_number limit line.now }
{
    let (token, rest) = split_token(line);
    match natural(token) {
        Some(number) if number < limit => Some(rest),
        _ => None,
    }
}

/// The bytes after two numbers below `limit`, as `after_number`.
fn after_two(line: &[u8], limit: u64) -> Option<&[u8]>
    ensures { option_map (λ s. s.now) result ≡ Files.after_two limit line.now }
{
    match after_number(line, limit) {
        Some(rest) => after_number(rest, limit),
        None => None,
    }
}

/// The bytes after three numbers below `limit`, as `after_number`.
fn after_three(line: &[u8], limit: u64) -> Option<&[u8]>
    ensures { option_map (λ s. s.now) result ≡ Files.after_three limit line.now }
{
    match after_two(line, limit) {
        Some(rest) => after_number(rest, limit),
        None => None,
    }
}

/// Whether the first line is a list of numbers, and the second one is blank.
fn is_one_line(first: &[u8], second: &[u8]) -> bool
    ensures { result ≡ Files.is_one_line first.now second.now }
{
    is_list(first) && !is_blank_line(first) && is_blank_line(second)
}

/// Whether a line contains only numbers, blanks, commas and brackets.
fn is_list(line: &[u8]) -> bool
    ensures { result ≡ Files.is_list line.now }
{
    for i in 0..line.len() {
        if !is_list_byte(line[i]) {
            return false;
        }
    }
    true
}

/// Whether a byte can be part of a list of numbers.
fn is_list_byte(byte: u8) -> bool
    ensures { result ≡ Files.is_list_byte byte }
{
    byte.is_ascii_digit() || blank(byte) || byte == b',' || byte == b'[' || byte == b']'
}
