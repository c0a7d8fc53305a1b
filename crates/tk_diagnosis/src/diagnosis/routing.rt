//! Depots, demands, and matrices that are not symmetric.
use crate::line_context::{Diagnosis, LineContext};
use crate::section_position::{header_number, node_index, number_at, place_of};
use crate::sentence::Sentence;
use tk_kinds::{NumberedLine, first_token, header, tokens_of};
use tk_words::{Keyword, integer};

/// The diagnosis of a depot section that does not name exactly one node, or of a depot with a demand.
pub fn bad_depot(spot: &LineContext<'_>) -> Diagnosis {
    match place_of(spot.text, spot.number) {
        Some(place) if place.section == Keyword::DepotSection => on_depot(spot, place.numbers),
        _ => depot_with_demand(spot),
    }
}

/// Like `bad_depot`, for a line of the depot section; `begun` numbers of the section come before it.
fn on_depot(spot: &LineContext<'_>, begun: u64) -> Diagnosis {
    let size = header_number(spot.text, Keyword::Dimension).unwrap_or(0);
    match bad_on(spot.line, begun, size) {
        Some((0, bytes)) => no_depot(bytes, size),
        Some((_, bytes)) => second_depot(bytes),
        None => depot_with_demand(spot),
    }
}

/// The first number on a line that is not a valid depot, or is a second one, with its index in the section.
fn bad_on(line: &[u8], begun: u64, size: u64) -> Option<(u64, &[u8])> {
    let mut index = begun;
    for bytes in tokens_of(line) {
        let Some(number) = integer(bytes) else {
            continue;
        };
        if is_bad(index, number, size) {
            return Some((index, bytes));
        }
        index = index.saturating_add(1);
    }
    None
}

/// Whether a number of the depot section is wrong: the first one must be a node, and those after it -1.
fn is_bad(index: u64, number: i64, size: u64) -> bool {
    if index > 0 {
        return number != -1;
    }
    match u64::try_from(number) {
        Ok(node) => node < 1 || size < node,
        Err(_) => true,
    }
}

/// The diagnosis of a number after the depot.
fn second_depot(bytes: &[u8]) -> Diagnosis {
    Diagnosis::advised(
        "-1, since DEPOT_SECTION already has a node",
        Sentence::about("{}, a second node", bytes),
        "Keep one depot. If these are coordinates, write the number of the node that has them.",
    )
}

/// The diagnosis of a depot that is not a node.
fn no_depot(bytes: &[u8], size: u64) -> Diagnosis {
    let wanted = Sentence::of("the number of the depot, from 1 to {}").number(size);
    Diagnosis::new(wanted, Sentence::of_word(bytes)).advice(
        "Write the node number of the depot, and then -1 on the next line.",
    )
}

/// The diagnosis of a depot with a demand.
fn depot_with_demand(spot: &LineContext<'_>) -> Diagnosis {
    let Some(depot) = number_at(spot.text, Keyword::DepotSection, 0) else {
        return Diagnosis::new(Sentence::of("a depot"), Sentence::of_word(spot.line));
    };
    let node = integer(depot.bytes).unwrap_or(0);
    let wanted = Sentence::of("the demand 0 for node {}, which is the depot (line {})")
        .integer(node)
        .number(depot.line);
    let Some(found) = demand_of(spot, node) else {
        return Diagnosis::new(wanted, Sentence::of_word(spot.line));
    };
    let line = found.line;
    let text = "Write 0 as its demand on line {}, or name another node on line {}.";
    Diagnosis {
        wanted,
        read: Sentence::about("the demand {} (line {})", found.bytes).number(line),
        remedy: Some(Sentence::of(text).numbers([line, depot.line])),
        other: Some(line),
    }
}

/// The demand of a node, with its line.
fn demand_of<'a>(spot: &LineContext<'a>, node: i64) -> Option<NumberedLine<'a>> {
    let index = node_index(spot.text, Keyword::DemandSection, node)?;
    number_at(spot.text, Keyword::DemandSection, index.saturating_add(1))
}

/// The diagnosis of a demand that is larger than the capacity.
pub fn over_capacity(spot: &LineContext<'_>, node: u32) -> Diagnosis {
    let (line, capacity) = match header(spot.text, Keyword::Capacity) {
        Some(found) => (found.line, first_token(found.bytes)),
        None => (1, b"".as_slice()),
    };
    let text = "a demand of at most {}, the CAPACITY (line {})";
    let wanted = Sentence::about(text, capacity).number(line);
    let number = u64::from(node);
    let Some(found) = demand_of(spot, node as i64) else {
        return Diagnosis::new(
            wanted,
            Sentence::of("a larger demand for node {}").number(number),
        );
    };
    let text =
        "Correct CAPACITY on line {} or the demand on line {}. One vehicle must serve the whole demand of a node.";
    Diagnosis {
        wanted,
        read: Sentence::about("the demand {} of node {} (line {})", found.bytes).numbers([
            number, found.line,
        ]),
        remedy: Some(Sentence::of(text).numbers([line, found.line])),
        other: Some(found.line),
    }
}

/// The diagnosis of a full matrix in which this entry differs from its mirror entry.
pub fn not_symmetric(spot: &LineContext<'_>, row: u32, column: u32) -> Diagnosis {
    let size = header_number(spot.text, Keyword::Dimension).unwrap_or(0);
    let (Some(first), Some(second)) = (
        entry_at(spot, size, row, column),
        entry_at(spot, size, column, row),
    ) else {
        return Diagnosis::new(
            Sentence::of("a symmetric matrix"),
            Sentence::of_word(spot.line),
        );
    };
    let text =
        "Correct one of the two. If the distances depend on the direction, this is an ATSP, which is not supported.";
    Diagnosis {
        wanted: mirrored(first, u64::from(row), u64::from(column)),
        read: Sentence::about("{} (line {})", second.bytes).number(second.line),
        remedy: Some(Sentence::of(text)),
        other: Some(first.line),
    }
}

/// The sentence on the weight that is expected in row `column` and column `row`, given that in row `row` and column
/// `column`.
fn mirrored(weight: NumberedLine<'_>, row: u64, column: u64) -> Sentence {
    let text = "{} in row {}, column {}, as in row {}, column {} (line {})";
    Sentence::about(text, weight.bytes).numbers([column, row, row, column, weight.line])
}

/// An entry of a full matrix. Rows and columns are counted from 1.
fn entry_at<'a>(
    spot: &LineContext<'a>,
    size: u64,
    row: u32,
    column: u32,
) -> Option<NumberedLine<'a>> {
    let before = u64::from(row).saturating_sub(1).saturating_mul(size);
    let index = before.saturating_add(u64::from(column).saturating_sub(1));
    number_at(spot.text, Keyword::EdgeWeightSection, index)
}
