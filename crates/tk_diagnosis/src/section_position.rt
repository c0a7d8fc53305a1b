//! The position of a line in a problem or a tour text, which is read line by line and without regard to faults.
ghost use Rattle.std.specs.Prelude.{◌≤◌};

use tk_kinds::{
    NumberedLine, count_tokens, first_token, header, keyword_at, lines_of, natural, token_after,
    tokens_of, value_behind,
};
use tk_words::{Keyword, Role, integer};

/// A position in a section: the section, and the count of its numbers before a line.
#[derive(Clone, Copy)]
pub struct SectionPosition {
    pub section: Keyword,
    pub numbers: u64,
}

/// The length of an entry of a section, in numbers.
pub fn entry_width(section: Keyword) -> u64
    ensures some { 1 ≤ result }
{
    match section {
        Keyword::NodeCoordSection | Keyword::DisplayDataSection => 3,
        Keyword::DemandSection => 2,
        _ => 1,
    }
}

/// The position before this line, if it is in a section: no other keyword has followed that of the section.
pub fn place_of(text: &[u8], number: u64) -> Option<SectionPosition> {
    let mut place = None;
    for NumberedLine { line, bytes } in lines_of(text) {
        if line >= number {
            return place;
        }
        place = place_after(place, bytes);
    }
    place
}

/// The position after a line, given the one before it.
fn place_after(place: Option<SectionPosition>, line: &[u8]) -> Option<SectionPosition> {
    if let Some(word) = keyword_at(line) {
        if word.role() != Role::BeginsSection {
            return None;
        }
        return Some(SectionPosition {
            section: word,
            numbers: count_tokens(value_behind(line, b':')),
        });
    }
    let place = place?;
    Some(SectionPosition {
        section: place.section,
        numbers: place.numbers.saturating_add(count_tokens(line)),
    })
}

/// The count of the numbers in a section, up to the next keyword.
pub fn numbers_in(text: &[u8], section: Keyword) -> u64 {
    let mut place = None;
    for line in lines_of(text) {
        let next = place_after(place, line.bytes);
        if is_in(place, section) && !is_in(next, section) {
            return count_of(place);
        }
        place = next;
    }
    if is_in(place, section) {
        count_of(place)
    } else {
        0
    }
}

/// Whether a position is in this section.
fn is_in(place: Option<SectionPosition>, section: Keyword) -> bool {
    match place {
        Some(place) => place.section == section,
        None => false,
    }
}

/// The count of the numbers before a position, in its section.
fn count_of(place: Option<SectionPosition>) -> u64 {
    match place {
        Some(place) => place.numbers,
        None => 0,
    }
}

/// The part of a line that can contain numbers of a section.
fn numbers_on(line: &[u8]) -> &[u8] {
    match keyword_at(line) {
        Some(_) => value_behind(line, b':'),
        None => line,
    }
}

/// The number with this index in a section, counted from 0, and its line.
pub fn number_at(text: &[u8], section: Keyword, index: u64) -> Option<NumberedLine<'_>> {
    let mut place = None;
    let mut left = index;
    for NumberedLine { line, bytes } in lines_of(text) {
        place = place_after(place, bytes);
        if !is_in(place, section) {
            continue;
        }
        match token_after(numbers_on(bytes), left) {
            Ok(bytes) => return Some(NumberedLine { line, bytes }),
            Err(more) => left = more,
        }
    }
    None
}

/// The index, among the numbers of a section, of the first entry with this node; `None` if there is no such entry.
pub fn node_index(text: &[u8], section: Keyword, node: i64) -> Option<u64> {
    let mut place = None;
    for line in lines_of(text) {
        let begun = if keyword_at(line.bytes).is_some() {
            0
        } else {
            count_of(place)
        };
        place = place_after(place, line.bytes);
        if !is_in(place, section) {
            continue;
        }
        if let Some(index) = node_on(numbers_on(line.bytes), section, begun, node) {
            return Some(index);
        }
    }
    None
}

/// Like `node_index`, for one line; `begun` numbers of the section come before it.
fn node_on(line: &[u8], section: Keyword, begun: u64, node: i64) -> Option<u64> {
    let mut index = begun;
    let width = entry_width(section);
    for token in tokens_of(line) {
        if index % width == 0 && integer(token) == Some(node) {
            return Some(index);
        }
        index = index.saturating_add(1);
    }
    None
}

/// The number that is the value of a header, if there is one.
pub fn header_number(text: &[u8], word: Keyword) -> Option<u64> {
    natural(first_token(header(text, word)?.bytes))
}

/// The first line of a section, up to line `last`, that has an incomplete entry: its line number, and the count of its
/// numbers.
pub fn uneven_line(text: &[u8], section: Keyword, last: u64) -> Option<(u64, u64)> {
    let mut place = None;
    let width = entry_width(section);
    for NumberedLine { line, bytes } in lines_of(text) {
        if line > last {
            return None;
        }
        place = place_after(place, bytes);
        let count = count_tokens(numbers_on(bytes));
        if is_in(place, section) && count % width != 0 {
            return Some((line, count));
        }
    }
    None
}
