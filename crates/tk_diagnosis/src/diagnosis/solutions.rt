//! The faults of solution files.
use crate::line_context::{Diagnosis, LineContext};
use crate::sentence::Sentence;
use tk_kinds::{
    NumberedLine, first_token, length_before, lines_of, split_word, token_after, tokens_of,
    value_behind,
};
use tk_words::{TextKind, integer, spelled};

/// The syntax of a route.
const ROUTE: &str = "a line Route #K: CUSTOMERS, as in Route #1: 3 1 2";

/// The syntax of the cost.
const COST: &str = "a line Cost N, with an integer, as in Cost 7567";

/// The diagnosis of a fault of a solution file.
pub fn solution(spot: &LineContext<'_>, kind: TextKind) -> Diagnosis {
    if let TextKind::Missing(_) = kind {
        return no_cost();
    }
    let word = split_word(spot.line).0;
    match kind {
        TextKind::UnknownKeyword => other_line(spot),
        TextKind::TrailingData => after_cost(spot, word),
        TextKind::BadNumber | TextKind::OutOfLimit | TextKind::TooLong if spelled(word, b"COST") =>
            bad_cost(value_behind(spot.line, b':')),
        _ => in_route(spot, kind),
    }
}

/// The diagnosis of a solution file without a cost.
fn no_cost() -> Diagnosis {
    Diagnosis::advised(
        COST,
        Sentence::of("the end of the file, without any Cost"),
        "Add a line Cost 0 at the end: tourkit checksol then prints the cost of the routes.",
    )
}

/// The diagnosis of a cost that is malformed or outside its limits.
fn bad_cost(value: &[u8]) -> Diagnosis {
    let read = if value.is_empty() {
        Sentence::of("Cost without a number")
    } else {
        Sentence::of_word(value)
    };
    Diagnosis::advised(
        "Cost and an integer from 0",
        read,
        "Write an integer, such as Cost 0: tourkit checksol then prints the cost of the routes.",
    )
}

/// The diagnosis of a line before the cost that is neither a route nor the cost.
fn other_line(spot: &LineContext<'_>) -> Diagnosis {
    let bytes = first_token(spot.line);
    let remedy = if integer(bytes).is_some() {
        "A route is one line: join this line to the one before, or write Route #K: before it."
    } else {
        "Remove the line, or move it after the line Cost N."
    };
    Diagnosis::advised(
        "a line Route #K: CUSTOMERS, or the line Cost N",
        Sentence::about("{}, which is neither of these", bytes),
        remedy,
    )
}

/// The diagnosis of data after the cost: on its line, or a route or another cost on a later line.
fn after_cost(spot: &LineContext<'_>, word: &[u8]) -> Diagnosis {
    let line = first_cost(spot.text).unwrap_or(1);
    if line == spot.number {
        return behind_cost(spot.line);
    }
    let text = "no more routes and no other cost after the cost on line {}";
    let wanted = Sentence::of(text).number(line);
    let text = "Move line {} after the last route, and keep only one Cost line.";
    Diagnosis {
        wanted,
        read: Sentence::of_word(word),
        remedy: Some(Sentence::of(text).number(line)),
        other: Some(line),
    }
}

/// The diagnosis of data after the cost, on its line.
fn behind_cost(line: &[u8]) -> Diagnosis {
    let rest = token_after(value_behind(line, b':'), 1).unwrap_or(b"".as_slice());
    Diagnosis::advised(
        "nothing after the cost",
        Sentence::of_word(rest),
        "Remove it, or move it to its own line after the cost.",
    )
}

/// The number of the first line that begins with `Cost`, if there is one.
fn first_cost(text: &[u8]) -> Option<u64> {
    for NumberedLine { line, bytes } in lines_of(text) {
        if spelled(split_word(bytes).0, b"COST") {
            return Some(line);
        }
    }
    None
}

/// The diagnosis of a malformed route, of a bad customer, or of too many routes or customers.
fn in_route(spot: &LineContext<'_>, kind: TextKind) -> Diagnosis {
    let (_, rest) = spot.line.split_at(length_before(spot.line, b':'));
    if rest.is_empty() {
        return other_route("a route without a colon");
    }
    if let Some(bytes) = bad_customer(value_behind(rest, b':'), kind) {
        return other_customer(bytes);
    }
    if kind == TextKind::OutOfLimit {
        return Diagnosis::new(
            Sentence::of("at most 100,000 routes with 1,000,000 customers"),
            Sentence::of("more than that"),
        );
    }
    other_route("a route with something else before the colon")
}

/// The diagnosis of a bad customer.
fn other_customer(bytes: &[u8]) -> Diagnosis {
    Diagnosis::advised(
        "a customer, an integer from 0 to 4,294,967,295",
        Sentence::of_word(bytes),
        "Correct the number. Customers are numbered from 1, without the depot, and separated by blanks.",
    )
}

/// The diagnosis of a malformed route.
fn other_route(read: &'static str) -> Diagnosis {
    Diagnosis::advised(
        ROUTE,
        Sentence::of(read),
        "Write Route #, a number, a colon, and then the customers.",
    )
}

/// The first customer that has a fault of this kind.
fn bad_customer(customers: &[u8], kind: TextKind) -> Option<&[u8]> {
    for token in tokens_of(customers) {
        if fault_of(token) == Some(kind) {
            return Some(token);
        }
    }
    None
}

/// The fault of a customer, if it has one.
fn fault_of(token: &[u8]) -> Option<TextKind> {
    match integer(token) {
        _ if token.len() > 64 => Some(TextKind::TooLong),
        None => Some(TextKind::BadNumber),
        Some(number) if number < 0 || number > u32::MAX as i64 => Some(TextKind::OutOfLimit),
        Some(_) => None,
    }
}
