//! Words that are unknown, repeated or too long.
use crate::line_context::{Diagnosis, LineContext};
use crate::nearest::nearest;
use crate::sentence::Sentence;
use std::alloc::{AllocError, Global};
use tk_kinds::{Kind, header_line, keyword_at, split_word, tokens_of, value_behind};
use tk_problem::TEXT_LIMIT;
use tk_words::{Keyword, Role};

/// The keywords that can be suggested for an unknown word.
static KEYWORDS: [&str; 15] = [
    "NAME",
    "TYPE",
    "COMMENT",
    "DIMENSION",
    "CAPACITY",
    "EDGE_WEIGHT_TYPE",
    "EDGE_WEIGHT_FORMAT",
    "NODE_COORD_TYPE",
    "DISPLAY_DATA_TYPE",
    "NODE_COORD_SECTION",
    "EDGE_WEIGHT_SECTION",
    "DEMAND_SECTION",
    "DEPOT_SECTION",
    "DISPLAY_DATA_SECTION",
    "TOUR_SECTION",
];

/// The remedy for an unknown word that is similar to a keyword.
const MEANT: &str =
    "If {} is meant, write that; otherwise put COMMENT : before the line, or remove it.";

/// The list of the words that can begin a line, as a text.
fn keywords(kind: Kind) -> &'static str {
    match kind {
        Kind::Tour => "NAME, COMMENT, TYPE, DIMENSION, TOUR_SECTION or EOF",
        _ => {
            "NAME, COMMENT, TYPE, DIMENSION, CAPACITY, EDGE_WEIGHT_TYPE, EDGE_WEIGHT_FORMAT, a section or EOF"
        }
    }
}

/// The diagnosis of a line that begins with an unknown word.
///
/// # Errors
/// `AllocError` if memory runs out.
pub fn unknown(spot: &LineContext<'_>) -> Result<Diagnosis, AllocError> {
    let bytes = split_word(spot.line).0;
    let here = Diagnosis::new(
        Sentence::of(keywords(spot.kind)),
        Sentence::about("{}, which is not one of these", bytes),
    );
    or_nearest(here, spot.alloc, bytes, KEYWORDS.as_slice(), MEANT)
}

/// The diagnosis with a remedy that suggests the nearest of these names, if one is near enough to the word.
///
/// # Errors
/// `AllocError` if memory runs out.
pub fn or_nearest(
    here: Diagnosis,
    alloc: Global,
    word: &[u8],
    names: &[&'static str],
    remedy: &'static str,
) -> Result<Diagnosis, AllocError> {
    match nearest(alloc, word, names)? {
        Some(name) => Ok(here.with(Sentence::of(remedy).text(name))),
        None => Ok(here),
    }
}

/// The diagnosis of a repeated header or section.
pub fn repeated(spot: &LineContext<'_>) -> Diagnosis {
    let word = keyword_at(spot.line).unwrap_or(Keyword::Name);
    let first = header_line(spot.text, word);
    let read = Sentence::of("{} again; it is already on line {}")
        .keyword(word)
        .number(first);
    Diagnosis {
        wanted: Sentence::of("each header and each section once"),
        read,
        remedy: Some(one_of_two(word, first, spot.number)),
        other: Some(first),
    }
}

/// The remedy for a header or a section that occurs on two lines.
fn one_of_two(word: Keyword, first: u64, second: u64) -> Sentence {
    if word.role() == Role::BeginsSection {
        Sentence::of("Keep one of the sections that begin on lines {} and {}.").numbers([
            first, second,
        ])
    } else {
        remove_either(second, first)
    }
}

/// The remedy for a line that repeats another one.
pub fn remove_either(line: u64, other: u64) -> Sentence {
    Sentence::of("Remove line {} or line {}, whichever is wrong.").numbers([line, other])
}

/// The diagnosis of a file, a line, a word or a number that is too long.
pub fn too_long(spot: &LineContext<'_>) -> Diagnosis {
    if spot.text.len() as u64 > TEXT_LIMIT {
        return Diagnosis::new(
            Sentence::of("a file of at most 1,073,741,824 bytes"),
            Sentence::of("a larger file"),
        );
    }
    let length = split_word(spot.line).0.len();
    if length > 64 {
        return long(
            "a keyword of at most 64 bytes",
            "a word of {} bytes",
            length,
        );
    }
    let value = value_behind(spot.line, b':').len();
    match keyword_at(spot.line) {
        Some(Keyword::Name) => long("a NAME of at most 1,024 bytes", "{} bytes", value),
        Some(word) if word.role() == Role::BeginsHeader => {
            long("at most 4,096 bytes after the keyword", "{} bytes", value)
        }
        _ => long(
            "a number of at most 64 bytes",
            "{} bytes without a blank",
            longest(spot.line),
        ),
    }
}

/// The diagnosis of a part of a text that is too long, with its length.
fn long(wanted: &'static str, read: &'static str, length: usize) -> Diagnosis {
    Diagnosis::new(
        Sentence::of(wanted),
        Sentence::of(read).number(length as u64),
    )
}

/// The length of the longest token on a line.
fn longest(line: &[u8]) -> usize {
    let mut longest = 0;
    for token in tokens_of(line) {
        longest = longest.max(token.len());
    }
    longest
}
