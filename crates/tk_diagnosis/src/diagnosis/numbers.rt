//! Tokens that are not numbers, and numbers that a header or an entry does not allow.
use super::misread::{DEMANDS, read_as, remedy_of};
use crate::line_context::{Diagnosis, LineContext};
use crate::repeats::{Repeat, first_repeat};
use crate::section_position::{SectionPosition, entry_width, header_number, place_of, uneven_line};
use crate::sentence::Sentence;
use std::alloc::AllocError;
use tk_kinds::{
    Kind, Misread, first_token, header_line, keyword_at, misread_of, natural, tokens_of,
    value_behind,
};
use tk_problem::{CAPACITY_LIMIT, DISTANCE_LIMIT};
use tk_words::{Keyword, Role, TextKind, decimal, integer};

/// A faulty number of a section, with its index in the section, counted from 0.
#[derive(Clone, Copy)]
struct Faulty<'a> {
    index: u64,
    bytes: &'a [u8],
}

/// A number of a section, with its index in the section, counted from 0, and DIMENSION as `size`.
#[derive(Clone, Copy)]
struct Entry {
    section: Keyword,
    index: u64,
    size: u64,
}

impl Entry {
    /// The sentence on the number that is expected at this index.
    fn wanted(&self) -> Sentence {
        let width = entry_width(self.section);
        let entry = (self.index / width).saturating_add(1);
        let field = self.index % width;
        Sentence::of(text_of_field(self.section, field))
            .number(entry)
            .keyword(self.section)
            .number(self.size)
    }
}

/// The description of a field of a section's entries. Its values are the number of the entry, the section and, for a
/// node, DIMENSION.
fn text_of_field(section: Keyword, field: u64) -> &'static str {
    match (section, field) {
        (Keyword::NodeCoordSection | Keyword::DisplayDataSection | Keyword::DemandSection, 0) => {
            "the node number of entry {} of {}, an integer from 1 to {}"
        }
        (Keyword::NodeCoordSection | Keyword::DisplayDataSection, 1) => {
            "x of entry {} of {}, a decimal number from -1,000,000,000 to 1,000,000,000"
        }
        (Keyword::NodeCoordSection | Keyword::DisplayDataSection, _) => {
            "y of entry {} of {}, a decimal number from -1,000,000,000 to 1,000,000,000"
        }
        (Keyword::DemandSection, _) => {
            "the demand of entry {} of {}, an integer from 0 to 2,000,000,000"
        }
        (Keyword::EdgeWeightSection, _) => "weight {} of {}, an integer from 0 to 4,000,000,000",
        (Keyword::TourSection, _) => {
            "entry {} of {}, an integer from 0 to 4,294,967,295, or -1 at the end"
        }
        _ => "entry {} of {}, an integer",
    }
}

/// The diagnosis of a bad number: it is malformed, outside its limits, not a node, or a repeated node.
///
/// # Errors
/// `AllocError` if memory runs out.
pub fn number(spot: &LineContext<'_>, kind: TextKind) -> Result<Diagnosis, AllocError> {
    match keyword_at(spot.line) {
        Some(word) if word.role() == Role::BeginsHeader => Ok(in_header(spot, word, kind)),
        Some(word) if kind == TextKind::OutOfLimit => Ok(too_many_nodes(spot, word)),
        _ => match place_of(spot.text, spot.number) {
            Some(place) => in_section(spot, place, kind),
            None => Ok(Diagnosis::new(Sentence::of("a number"), Sentence::of_word(spot.line))),
        },
    }
}

/// The diagnosis of a header whose value is not an integer, or is outside its limits.
fn in_header(spot: &LineContext<'_>, word: Keyword, kind: TextKind) -> Diagnosis {
    let limits = match word {
        Keyword::Capacity => "1 to 2,000,000,000",
        _ if spot.kind == Kind::Tour => "1 to 1,000,000",
        _ => "2 to 100,000",
    };
    let form = if kind == TextKind::BadNumber {
        "{}, which is not an integer"
    } else {
        "{}"
    };
    let value = first_token(value_behind(spot.line, b':'));
    Diagnosis {
        wanted: Sentence::of("{} : an integer from {}")
            .keyword(word)
            .text(limits),
        read: Sentence::of_value(form, value),
        remedy: Some(Sentence::of(remedy_of_header(spot.kind, word, value)).text(limits)),
        other: None,
    }
}

/// What to do about a header whose value is not an integer, or is outside its limits. These are the value of the
/// sentence.
fn remedy_of_header(kind: Kind, word: Keyword, value: &[u8]) -> &'static str {
    let is_large = natural(value).unwrap_or(0) > 1;
    match word {
        Keyword::Capacity if is_large => {
            "Use a larger unit: divide CAPACITY and all demands by the same number, and round them to integers."
        }
        Keyword::Capacity if matches!(misread_of(value), Misread::Decimal) => DEMANDS,
        Keyword::Dimension if is_large && kind == Kind::Tour => {
            "Larger tours are not supported: use one of at most 1,000,000 cities."
        }
        Keyword::Dimension if is_large => {
            "Larger problems are not supported: use one of at most 100,000 nodes, such as a part of this one."
        }
        _ => "Write an integer from {}, with nothing between its digits.",
    }
}

/// The diagnosis of a problem with too many nodes for this section.
fn too_many_nodes(spot: &LineContext<'_>, word: Keyword) -> Diagnosis {
    let nodes = header_number(spot.text, Keyword::Dimension).unwrap_or(0);
    let line = header_line(spot.text, Keyword::Dimension);
    let text = "Use a problem of at most 5,000 nodes, or a TSP with coordinates.";
    Diagnosis {
        wanted: Sentence::of("at most 5,000 nodes in a problem with {}").keyword(word),
        read: Sentence::of("DIMENSION {} (line {})").numbers([nodes, line]),
        remedy: Some(Sentence::of(text)),
        other: Some(line),
    }
}

/// The diagnosis of a faulty number in a section.
///
/// # Errors
/// `AllocError` if memory runs out.
fn in_section(
    spot: &LineContext<'_>,
    place: SectionPosition,
    kind: TextKind,
) -> Result<Diagnosis, AllocError> {
    let size = header_number(spot.text, Keyword::Dimension).unwrap_or(0);
    match faulty_on(spot.line, place, size, kind) {
        Some(Faulty { index, bytes }) => {
            let entry = Entry {
                section: place.section,
                index,
                size,
            };
            Ok(of_entry(spot, entry, bytes, kind))
        }
        None if kind == TextKind::BadNode => named_before(spot, place.section, size),
        None => Ok(Diagnosis::new(
            Sentence::of("another number"),
            Sentence::of_word(first_token(spot.line)),
        )),
    }
}

/// The diagnosis of a number with a fault of this kind.
fn of_entry(spot: &LineContext<'_>, entry: Entry, bytes: &[u8], kind: TextKind) -> Diagnosis {
    if !is_marked(bytes) {
        if let Some((line, count)) = uneven_line(spot.text, entry.section, spot.number) {
            return uneven(entry, bytes, line, count);
        }
    }
    match kind {
        TextKind::BadNode => other_node(spot, entry, bytes),
        TextKind::OutOfLimit => outside(entry, bytes),
        _ => no_number(entry, bytes),
    }
}

/// Whether a token cannot be part of a number, whatever comes before it: it contains a comma or #.
fn is_marked(bytes: &[u8]) -> bool {
    matches!(misread_of(bytes), Misread::Comma | Misread::Comment)
}

/// The first number on a line that has a fault of this kind. Repeated nodes are not found here.
fn faulty_on(line: &[u8], place: SectionPosition, size: u64, kind: TextKind) -> Option<Faulty<'_>> {
    let mut index = place.numbers;
    for bytes in tokens_of(line) {
        if fault_of(place.section, index, bytes, size) == Some(kind) {
            return Some(Faulty { index, bytes });
        }
        index = index.saturating_add(1);
    }
    None
}

/// The fault of a number at this index of a section, if it has one.
fn fault_of(section: Keyword, index: u64, bytes: &[u8], size: u64) -> Option<TextKind> {
    let is_node = index % entry_width(section) == 0;
    match section {
        Keyword::NodeCoordSection | Keyword::DisplayDataSection | Keyword::DemandSection
            if is_node => fault_within(bytes, 1, size, TextKind::BadNode),
        Keyword::NodeCoordSection | Keyword::DisplayDataSection if bytes.len() <= 64 => {
            decimal(bytes).err()
        }
        Keyword::DemandSection => fault_within(
            bytes,
            0,
            CAPACITY_LIMIT as u64,
            TextKind::OutOfLimit,
        ),
        Keyword::EdgeWeightSection => fault_within(
            bytes,
            0,
            DISTANCE_LIMIT as u64,
            TextKind::OutOfLimit,
        ),
        Keyword::TourSection => fault_within(bytes, 0, u32::MAX as u64, TextKind::OutOfLimit),
        Keyword::DepotSection if integer(bytes).is_none() => Some(TextKind::BadNumber),
        _ => None,
    }
}

/// `BadNumber` if these bytes are not an integer, `outside` if it is not within the limits; otherwise `None`.
fn fault_within(bytes: &[u8], low: u64, high: u64, outside: TextKind) -> Option<TextKind> {
    let Some(number) = integer(bytes) else {
        return Some(TextKind::BadNumber);
    };
    match u64::try_from(number) {
        Ok(number) if low <= number && number <= high => None,
        _ => Some(outside),
    }
}

/// The diagnosis of a number that is read as another one, since this line or an earlier one has too few numbers or too
/// many.
fn uneven(entry: Entry, bytes: &[u8], line: u64, count: u64) -> Diagnosis {
    let text = "Check line {} first: it has {} numbers, but an entry of {} has {}.";
    let remedy = Sentence::of(text)
        .numbers([line, count])
        .keyword(entry.section)
        .number(entry_width(entry.section));
    Diagnosis {
        wanted: entry.wanted(),
        read: Sentence::of_word(bytes),
        remedy: Some(remedy),
        other: Some(line),
    }
}

/// The diagnosis of a number that is not a node of the problem.
fn other_node(spot: &LineContext<'_>, entry: Entry, bytes: &[u8]) -> Diagnosis {
    match integer(bytes) {
        Some(number) if number < 1 => below_one(entry, bytes),
        _ => above_size(entry, bytes, header_line(spot.text, Keyword::Dimension)),
    }
}

/// The diagnosis of a node number below 1.
fn below_one(entry: Entry, bytes: &[u8]) -> Diagnosis {
    Diagnosis::new(
        entry.wanted(),
        Sentence::about("{}, but node numbers start at 1", bytes),
    )
    .advice(
        "Number the nodes from 1, in the same way in every section. If they start at 0, add 1 to each.",
    )
}

/// The diagnosis of a node number above DIMENSION, which is on this line.
fn above_size(entry: Entry, bytes: &[u8], line: u64) -> Diagnosis {
    let text = "{}, but DIMENSION is {} (line {})";
    Diagnosis {
        wanted: entry.wanted(),
        read: Sentence::about(text, bytes).numbers([entry.size, line]),
        remedy: Some(Sentence::of("Correct the number, or DIMENSION on line {}.").number(line)),
        other: Some(line),
    }
}

/// The diagnosis of a number outside its limits.
fn outside(entry: Entry, bytes: &[u8]) -> Diagnosis {
    let here = Diagnosis::new(entry.wanted(), Sentence::of_word(bytes));
    match entry.section {
        Keyword::NodeCoordSection | Keyword::DisplayDataSection => here.advice(
            "Use a larger unit for all coordinates: divide each of them by the same number.",
        ),
        Keyword::TourSection => here.advice(
            "Number the cities from 1, as the problem does. Only the -1 that ends the list is negative.",
        ),
        _ => here,
    }
}

/// The diagnosis of a token that is not a number.
fn no_number(entry: Entry, bytes: &[u8]) -> Diagnosis {
    let misread = misread_of(bytes);
    let field = entry.index % entry_width(entry.section);
    let has_decimals = matches!(
        entry.section,
        Keyword::NodeCoordSection | Keyword::DisplayDataSection
    );
    let is_decimal = has_decimals && field > 0;
    let here = Diagnosis::new(
        entry.wanted(),
        Sentence::about(read_as(misread, !is_decimal), bytes),
    );
    match misread {
        Misread::Decimal | Misread::Word if is_decimal => here,
        _ => here.advice(remedy_of(misread, entry.section, field)),
    }
}

/// The diagnosis of a node that is repeated in a section.
///
/// # Errors
/// `AllocError` if memory runs out.
fn named_before(
    spot: &LineContext<'_>,
    section: Keyword,
    size: u64,
) -> Result<Diagnosis, AllocError> {
    match first_repeat(spot.alloc, spot.text, section, size)? {
        Some(repeat) => Ok(repeated_node(section, repeat, spot.number)),
        None => Ok(Diagnosis::new(
            Sentence::of("a node of the problem"),
            Sentence::of_word(spot.line),
        )),
    }
}

/// The diagnosis of a node that is repeated on this line.
fn repeated_node(section: Keyword, repeat: Repeat, line: u64) -> Diagnosis {
    let Repeat { node, first } = repeat;
    let read = Sentence::of("node {} again; it is already on line {}").numbers([node, first]);
    let text = "Correct the node number on line {} or line {}, or remove one of the lines.";
    Diagnosis {
        wanted: Sentence::of("each node of {} once").keyword(section),
        read,
        remedy: Some(Sentence::of(text).numbers([line, first])),
        other: Some(first),
    }
}
