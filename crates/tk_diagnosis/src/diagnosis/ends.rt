//! Sections that end too early, and data where none is allowed.
use crate::line_context::{Diagnosis, LineContext};
use crate::section_position::{SectionPosition, entry_width, header_number, numbers_in, place_of};
use crate::sentence::Sentence;
use tk_kinds::{
    count_tokens, first_token, header, header_line, keyword_at, token_after, tokens_of,
};
use tk_problem::{FORMATS, Format};
use tk_words::{Keyword, keyword_in, letter, spelled};

/// The size of a section: its nodes, and the numbers that it must have.
#[derive(Clone, Copy)]
struct Size {
    /// The number of nodes, and the line of DIMENSION, which states it.
    nodes: u64,
    line: u64,
    numbers: u64,
}

impl Size {
    /// A sentence about the entry that follows `entries` entries of a section. Its values are the entry, the section,
    /// DIMENSION and its line.
    fn entry_after(&self, form: &'static str, section: Keyword, entries: u64) -> Sentence {
        Sentence::of(form)
            .number(entries.saturating_add(1))
            .keyword(section)
            .numbers([self.nodes, self.line])
    }
}

/// The size of a section according to DIMENSION and, for weights, to their format; `None` if these do not determine it.
fn size_of(spot: &LineContext<'_>, section: Keyword) -> Option<Size> {
    let nodes = header_number(spot.text, Keyword::Dimension)?;
    let line = header_line(spot.text, Keyword::Dimension);
    let numbers = match section {
        Keyword::EdgeWeightSection => weights_of(spot, nodes)?,
        Keyword::NodeCoordSection | Keyword::DemandSection | Keyword::DisplayDataSection => {
            nodes.saturating_mul(entry_width(section))
        }
        _ => return None,
    };
    Some(Size {
        nodes,
        line,
        numbers,
    })
}

/// The format that a word names, without regard to case.
fn format_of(word: &[u8]) -> Option<Format> {
    for format in FORMATS.iter() {
        if spelled(word, format.word().as_bytes()) {
            return Some(*format);
        }
    }
    None
}

/// The number of weights in the file's EDGE_WEIGHT_FORMAT; `None` if there is no such header.
fn weights_of(spot: &LineContext<'_>, nodes: u64) -> Option<u64> {
    let found = header(spot.text, Keyword::EdgeWeightFormat)?;
    Some(weights_in(format_of(first_token(found.bytes)), nodes))
}

/// The number of weights in a format.
fn weights_in(format: Option<Format>, nodes: u64) -> u64 {
    let all = nodes.saturating_mul(nodes);
    let below = all.saturating_sub(nodes) / 2;
    match format {
        Some(Format::FullMatrix) => all,
        Some(
            Format::UpperDiagRow
            | Format::LowerDiagRow
            | Format::UpperDiagCol
            | Format::LowerDiagCol,
        ) => below.saturating_add(nodes),
        _ => below,
    }
}

/// The keyword on this line that ends a section, and the number of tokens before it. Without a keyword, the section
/// ends with the file: `None`, and the number of all tokens.
fn end_on(line: &[u8]) -> (Option<&[u8]>, u64) {
    let mut count: u64 = 0;
    for token in tokens_of(line) {
        if keyword_in(token).is_some() {
            return (Some(token), count);
        }
        count = count.saturating_add(1);
    }
    (None, count)
}

/// A sentence whose first value is the end of a section: a keyword, or the end of the file.
fn of_end(text: &'static str, end: Option<&[u8]>) -> Sentence {
    match end {
        Some(word) => Sentence::about(text, word),
        None => Sentence::of(text).text("the end of the file"),
    }
}

/// The diagnosis of a section that ends before its last number.
pub fn truncated(spot: &LineContext<'_>) -> Diagnosis {
    let (end, count) = end_on(spot.line);
    let Some(place) = place_of(spot.text, spot.number) else {
        return Diagnosis::new(Sentence::of("numbers"), of_end("{}", end));
    };
    let section = place.section;
    let have = place.numbers.saturating_add(count);
    match size_of(spot, section) {
        Some(size) if section == Keyword::EdgeWeightSection => few_weights(end, have, size),
        Some(size) => few_entries(end, section, have, size),
        None => short_list(spot, end, section),
    }
}

/// The diagnosis of a section with too few entries, which must have one for each node.
fn few_entries(end: Option<&[u8]>, section: Keyword, have: u64, size: Size) -> Diagnosis {
    let width = entry_width(section);
    let entries = have / width;
    let wanted = size.entry_after(
        "entry {} of {}, since DIMENSION is {} (line {})",
        section,
        entries,
    );
    if have % width != 0 {
        return in_entry(wanted, end, entries, width);
    }
    let Size { nodes, line, .. } = size;
    let missing = nodes.saturating_sub(entries);
    let text = "Write DIMENSION : {} on line {}, or add the missing entries ({} of {}).";
    Diagnosis {
        wanted,
        read: of_end("{}, after {} of {} entries", end).numbers([entries, nodes]),
        remedy: Some(Sentence::of(text).numbers([entries, line, missing, nodes])),
        other: Some(line),
    }
}

/// The diagnosis of a section that ends in the middle of an entry, after `entries` complete ones.
fn in_entry(wanted: Sentence, end: Option<&[u8]>, entries: u64, width: u64) -> Diagnosis {
    let next = entries.saturating_add(1);
    let read = of_end("{} in the middle of entry {}", end).number(next);
    let remedy = Sentence::of("Complete the entry: each has {} numbers.").number(width);
    Diagnosis::new(wanted, read).with(remedy)
}

/// The diagnosis of a section with too few weights.
fn few_weights(end: Option<&[u8]>, have: u64, size: Size) -> Diagnosis {
    let Size {
        nodes,
        line,
        numbers,
    } = size;
    let next = have.saturating_add(1);
    let text = "Add the missing weights, or correct DIMENSION or EDGE_WEIGHT_FORMAT, which \
        determine their number.";
    Diagnosis {
        wanted: Sentence::of("weight {} of {}, since DIMENSION is {} (line {})").numbers([
            next, numbers, nodes, line,
        ]),
        read: of_end("{}, after {} weights", end).number(have),
        remedy: Some(Sentence::of(text)),
        other: Some(line),
    }
}

/// The diagnosis of a list that ends too early, at a keyword or at the end of the file.
fn short_list(spot: &LineContext<'_>, end: Option<&[u8]>, section: Keyword) -> Diagnosis {
    let text = "Move line {} before {}, or write a line -1 before it if the list is complete.";
    Diagnosis {
        wanted: Sentence::of("another entry of {}, or the -1 that ends it").keyword(section),
        read: of_end("{}", end),
        remedy: Some(Sentence::of(text).number(spot.number).keyword(section)),
        other: None,
    }
}

/// The diagnosis of data where none is allowed.
pub fn trailing(spot: &LineContext<'_>) -> Diagnosis {
    let Some(place) = place_of(spot.text, spot.number) else {
        return no_word(spot);
    };
    match size_of(spot, place.section) {
        Some(size) => too_many(spot, place, size),
        None => after_list(spot, place.section),
    }
}

/// The diagnosis of a line that belongs to no section and does not begin with a letter, or has data after its keyword.
fn no_word(spot: &LineContext<'_>) -> Diagnosis {
    if keyword_at(spot.line).is_some() {
        return Diagnosis::new(
            Sentence::of("nothing more on the line"),
            Sentence::of("extra data after the keyword"),
        );
    }
    let bytes = first_token(spot.line);
    match bytes.first() {
        Some(byte) if byte.is_ascii_digit() || *byte == b'-' => no_keyword(
            Sentence::about("{}, a number outside a section", bytes),
            "Add the section's keyword before line {}, such as NODE_COORD_SECTION, or remove the numbers.",
            spot.number,
        ),
        _ => no_keyword(
            Sentence::about("{}, which does not begin with a letter", bytes),
            "Remove line {}, or put COMMENT : before it if it is a comment; there is no other form of comment.",
            spot.number,
        ),
    }
}

/// The diagnosis of a line without a keyword at its front, given what was found and the remedy.
fn no_keyword(read: Sentence, remedy: &'static str, line: u64) -> Diagnosis {
    let wanted = Sentence::of("a keyword, which begins with a letter");
    Diagnosis::new(wanted, read).with(Sentence::of(remedy).number(line))
}

/// The diagnosis of data after the last number of a section whose size is known.
fn too_many(spot: &LineContext<'_>, place: SectionPosition, size: Size) -> Diagnosis {
    let section = place.section;
    let left = size.numbers.saturating_sub(place.numbers);
    let bytes = token_after(spot.line, left).unwrap_or(first_token(spot.line));
    if left > 0 {
        return behind_last(section, size.numbers, bytes);
    }
    if !begins_entry(spot.line) {
        return no_word(spot);
    }
    if section == Keyword::EdgeWeightSection {
        return one_weight_more(bytes, size);
    }
    more_entries(spot, section, size)
}

/// The sentence on what can follow a section that has all of its numbers.
fn after_section(section: Keyword, numbers: u64) -> Sentence {
    Sentence::of("a header, another section or EOF: {} has all of its {} numbers")
        .keyword(section)
        .number(numbers)
}

/// The diagnosis of data after the last number of a section, on the same line.
fn behind_last(section: Keyword, numbers: u64, bytes: &[u8]) -> Diagnosis {
    let read = Sentence::about("{} after the last number of {}", bytes).keyword(section);
    Diagnosis::new(after_section(section, numbers), read).advice(
        "Remove it. If it is a comment, write it on its own COMMENT : line before the section.",
    )
}

/// Whether a line begins like a number or with a letter, or is blank.
fn begins_entry(line: &[u8]) -> bool {
    match first_token(line).first() {
        Some(byte) => byte.is_ascii_digit() || b"-+.".contains(byte) || letter(*byte),
        None => true,
    }
}

/// The diagnosis of a weight after the last one.
fn one_weight_more(bytes: &[u8], size: Size) -> Diagnosis {
    let text =
        "Correct DIMENSION (line {}) or EDGE_WEIGHT_FORMAT, which determine the number of weights.";
    Diagnosis {
        wanted: after_section(Keyword::EdgeWeightSection, size.numbers),
        read: Sentence::about("{}, an extra weight", bytes),
        remedy: Some(Sentence::of(text).number(size.line)),
        other: Some(size.line),
    }
}

/// The diagnosis of further lines after the last entry of a section.
fn more_entries(spot: &LineContext<'_>, section: Keyword, size: Size) -> Diagnosis {
    let entries = numbers_in(spot.text, section) / entry_width(section);
    let text = "Write DIMENSION : {} on line {}, or remove the extra entries, from line {} on.";
    Diagnosis {
        wanted: after_section(section, size.numbers),
        read: size.entry_after(
            "entry {} of {}, but DIMENSION is {} (line {})",
            section,
            size.nodes,
        ),
        remedy: Some(Sentence::of(text).numbers([entries, size.line, spot.number])),
        other: Some(size.line),
    }
}

/// The diagnosis of data after the `-1` that ends a list.
fn after_list(spot: &LineContext<'_>, section: Keyword) -> Diagnosis {
    let count = count_tokens(spot.line);
    let bytes = token_after(spot.line, count.saturating_sub(1)).unwrap_or(spot.line);
    let text = "a header or EOF on a new line, since -1 ends {}";
    let wanted = Sentence::of(text).keyword(section);
    Diagnosis::new(wanted, Sentence::of_word(bytes)).advice(
        "Remove it, or the -1 before it if the list continues.",
    )
}
