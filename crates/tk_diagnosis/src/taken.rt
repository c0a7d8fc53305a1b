//! How the lines of a file are read.
use crate::line_context::LineContext;
use crate::section_position::{SectionPosition, entry_width, place_of};
use crate::sentence::Sentence;
use tk_kinds::{Kind, NumberedLine, count_tokens, keyword_at, lines_of, split_word, value_behind};
use tk_params::key_of;
use tk_words::{Keyword, Role, spelled};

/// A sentence on how a line is read.
pub fn interpretation_of(spot: &LineContext<'_>) -> Sentence {
    if spot.line.trim_ascii().is_empty() {
        return Sentence::of("a blank line");
    }
    if spot.kind == Kind::Solution {
        return in_solution(spot.line);
    }
    if is_after_end(spot) {
        return Sentence::of("ignored, since it comes after EOF");
    }
    if spot.kind == Kind::Parameters {
        in_parameters(spot.line)
    } else {
        in_text(spot)
    }
}

/// Whether an earlier line begins with `EOF`.
fn is_after_end(spot: &LineContext<'_>) -> bool {
    for NumberedLine { line, bytes } in lines_of(spot.text) {
        if line >= spot.number {
            return false;
        }
        if keyword_at(bytes) == Some(Keyword::Eof) {
            return true;
        }
    }
    false
}

/// How a line of a problem or a tour is read.
fn in_text(spot: &LineContext<'_>) -> Sentence {
    let Some(word) = keyword_at(spot.line) else {
        return among_numbers(spot);
    };
    if word == Keyword::Eof {
        return Sentence::of("EOF, the end of the file");
    }
    if word.role() == Role::BeginsSection {
        return Sentence::of("the beginning of {}").keyword(word);
    }
    Sentence::of("the header {} with the value {}")
        .keyword(word)
        .word(value_behind(spot.line, b':'))
}

/// How a line without a keyword is read.
fn among_numbers(spot: &LineContext<'_>) -> Sentence {
    let Some(place) = place_of(spot.text, spot.number) else {
        return Sentence::of("a line outside any section");
    };
    numbers_of(spot.line, place)
}

/// The numbers of a section that are on a line.
fn numbers_of(line: &[u8], place: SectionPosition) -> Sentence {
    let section = place.section;
    let width = entry_width(section);
    let count = count_tokens(line);
    if count == width && place.numbers % width == 0 {
        let entry = (place.numbers / width).saturating_add(1);
        return Sentence::of("entry {} of {}")
            .number(entry)
            .keyword(section);
    }
    let first = place.numbers.saturating_add(1);
    let last = place.numbers.saturating_add(count);
    Sentence::of("numbers {} to {} of {}")
        .numbers([first, last])
        .keyword(section)
}

/// How a line of a solution is read.
fn in_solution(line: &[u8]) -> Sentence {
    let word = split_word(line).0;
    Sentence::of(if spelled(word, b"ROUTE") {
        "a route"
    } else if spelled(word, b"COST") {
        "the cost"
    } else {
        "ignored, since it comes after the cost"
    })
}

/// How a line of a parameter file is read.
fn in_parameters(line: &[u8]) -> Sentence {
    let word = split_word(line).0;
    if let Some(key) = key_of(word) {
        return Sentence::of("the key {} with the value {}")
            .key(key)
            .word(value_behind(line, b'='));
    }
    Sentence::of(if spelled(word, b"EOF") {
        "EOF, the end of the file"
    } else {
        "a comment"
    })
}
