//! The faults of parameter files.
use super::words::{or_nearest, remove_either};
use crate::line_context::{Diagnosis, LineContext};
use crate::sentence::Sentence;
use std::alloc::AllocError;
use tk_kinds::{NumberedLine, first_token, is_other_key, lines_of, split_word, value_behind};
use tk_params::{Key, ParamKind, key_of};

/// The keys that can be suggested for an unknown word.
static NAMES: [&str; 11] = [
    "PROBLEM_FILE",
    "TOUR_FILE",
    "SOLUTION_FILE",
    "INITIAL_TOUR_FILE",
    "RUNS",
    "MAX_TRIALS",
    "SEED",
    "MAX_CANDIDATES",
    "CONSTRUCTION",
    "FINAL_SWEEP",
    "OR_SEGMENT",
];

/// The remedy for an unknown word that is similar to a key.
const MEANT: &str = "If {} is meant, write that; otherwise put # before the line, or remove it.";

/// The text on what is expected at the front of a line.
const KEYS: &str =
    "PROBLEM_FILE, TOUR_FILE, SOLUTION_FILE, INITIAL_TOUR_FILE, RUNS, MAX_TRIALS, SEED, MAX_CANDIDATES, \
CONSTRUCTION, FINAL_SWEEP, OR_SEGMENT, # or EOF";

/// The diagnosis of a fault of a parameter file.
///
/// # Errors
/// `AllocError` if memory runs out, as for all functions here.
pub fn parameter(spot: &LineContext<'_>, kind: ParamKind) -> Result<Diagnosis, AllocError> {
    match kind {
        ParamKind::UnknownKey => unknown_key(spot),
        ParamKind::RepeatedKey => Ok(repeated_key(spot)),
        ParamKind::BadValue => Ok(bad_value(spot)),
        ParamKind::MissingProblem => Ok(no_problem()),
        ParamKind::DollarInName => Ok(Diagnosis::new(
            Sentence::of("a file name without $"),
            Sentence::of_word(value_behind(spot.line, b'=')),
        )),
        _ => Ok(too_long(spot)),
    }
}

/// The diagnosis of a parameter file without PROBLEM_FILE.
fn no_problem() -> Diagnosis {
    Diagnosis::new(
        Sentence::of("PROBLEM_FILE, which is required"),
        Sentence::of("the end of the file, without any PROBLEM_FILE"),
    )
}

/// The diagnosis of a line, a key or a file that is too long.
fn too_long(spot: &LineContext<'_>) -> Diagnosis {
    Diagnosis::new(
        Sentence::of("a line of at most 4,096 bytes, with a key of at most 64"),
        Sentence::of("a line of {} bytes").number(spot.line.len() as u64),
    )
}

/// The diagnosis of a line that does not begin with a known key.
fn unknown_key(spot: &LineContext<'_>) -> Result<Diagnosis, AllocError> {
    let key = split_word(spot.line).0;
    if key.is_empty() {
        let bytes = first_token(spot.line);
        return Ok(no_key(bytes, "{}, which does not begin with a letter"));
    }
    if is_other_key(key) {
        return Ok(other_key(key));
    }
    let here = no_key(key, "{}, which is not one of these");
    or_nearest(here, spot.alloc, key, NAMES.as_slice(), MEANT)
}

/// The diagnosis of a word that is not a key; `read` is the sentence about it.
fn no_key(bytes: &[u8], read: &'static str) -> Diagnosis {
    Diagnosis::new(Sentence::of(KEYS), Sentence::about(read, bytes))
}

/// The diagnosis of a key of LKH that tourkit does not have.
fn other_key(key: &[u8]) -> Diagnosis {
    Diagnosis::advised(
        KEYS,
        Sentence::about("{}, an LKH key that tourkit does not have", key),
        "Put # before the line, or convert the whole file with examples/lkh-to-tourkit.",
    )
}

/// The diagnosis of a repeated key.
fn repeated_key(spot: &LineContext<'_>) -> Diagnosis {
    let word = split_word(spot.line).0;
    let first = first_with(spot.text, word);
    Diagnosis {
        wanted: Sentence::of("each key once"),
        read: Sentence::about("{} again; it is already on line {}", word).number(first),
        remedy: Some(remove_either(spot.number, first)),
        other: Some(first),
    }
}

/// The number of the first line with this key, or of the last line if there is none.
fn first_with(text: &[u8], word: &[u8]) -> u64 {
    let key = key_of(word);
    let mut count = 0;
    for NumberedLine { line, bytes } in lines_of(text) {
        if key_of(split_word(bytes).0) == key {
            return line;
        }
        count = line;
    }
    count
}

/// A description of the values that a key allows.
fn values_of(key: Key) -> &'static str {
    match key {
        Key::ProblemFile | Key::TourFile | Key::SolutionFile | Key::InitialTourFile =>
            "a file name in UTF-8",
        Key::Runs => "an integer from 1 to 10000",
        Key::MaxTrials => "an integer from 1 to 1000000",
        Key::Seed => "an integer from 0 to 4294967295",
        Key::MaxCandidates => "an integer from 1 to 100",
        Key::OrSegment => "an integer from 1 to 3",
        Key::Construction => "NEAREST or SAVINGS",
        Key::FinalSweep => "YES or NO",
        _ => "any value",
    }
}

/// The diagnosis of a key whose value is not allowed.
fn bad_value(spot: &LineContext<'_>) -> Diagnosis {
    match key_of(split_word(spot.line).0) {
        Some(key) => value_of_key(key, value_behind(spot.line, b'=')),
        None => Diagnosis::new(
            Sentence::of("a key and its value"),
            Sentence::of_word(spot.line),
        ),
    }
}

/// The diagnosis of a value that this key does not allow.
fn value_of_key(key: Key, bytes: &[u8]) -> Diagnosis {
    let values = values_of(key);
    Diagnosis {
        wanted: Sentence::of("{}, as the value of {}").text(values).key(key),
        read: Sentence::of_value("{}", bytes),
        remedy: Some(match bytes {
            [b':', rest @ ..] => Sentence::of(COLON).key(key).word(rest.trim_ascii()),
            _ => other_value(bytes, values),
        }),
        other: None,
    }
}

/// The remedy for a colon after a key. Its values are the key and what follows the colon.
const COLON: &str = "Write an equals sign instead of the colon: {} = {}";

/// The remedy for a value, given a description of the values that are allowed.
fn other_value(bytes: &[u8], values: &'static str) -> Sentence {
    if bytes.is_empty() {
        Sentence::of("Write the value after the key, or put # before the line.")
    } else if bytes.contains(&b'#') {
        Sentence::of(
            "Remove the comment after the value: a comment needs its own line, which begins with #.",
        )
    } else if first_token(bytes).len() < bytes.len() {
        Sentence::of("Write only the value: nothing may follow it.")
    } else {
        Sentence::of("Write {}.").text(values)
    }
}
