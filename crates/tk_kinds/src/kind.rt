//! The kinds of files, and how the kind of a file is recognized.
ghost use Rattle.std.specs.Prelude.{◌≡◌, IfSome};
ghost use Rattle.tk_kinds.specs.Foreign.{foreign_of};
ghost use Rattle.tk_kinds.specs.Kinds.{kind_of_foreign, without_mark};

use crate::foreign::{Foreign, foreign_of};
use crate::lines::{first_token, lines_of, split_word, value_behind};
use tk_params::key_of;
use tk_words::{Keyword, keyword_of, spelled};

/// The kind of a file.
#[derive(Clone, Copy, PartialEq, Eq)]
pub enum Kind {
    Problem,
    Tour,
    Solution,
    Parameters,
}

/// Keys of LKH that tourkit does not have.
static OTHER_KEYS: [&str; 24] = [
    "ASCENT_CANDIDATES",
    "BACKBONE_TRIALS",
    "CANDIDATE_SET_TYPE",
    "DEPOT",
    "EXCESS",
    "GAIN23",
    "INITIAL_PERIOD",
    "INITIAL_STEP_SIZE",
    "INITIAL_TOUR_ALGORITHM",
    "KICKS",
    "KICK_TYPE",
    "MAX_SWAPS",
    "MTSP_SOLUTION_FILE",
    "OUTPUT_TOUR_FILE",
    "POPULATION_SIZE",
    "RECOMBINATION",
    "SALESMEN",
    "SINTEF_SOLUTION_FILE",
    "SPECIAL",
    "STOP_AT_OPTIMUM",
    "SUBGRADIENT",
    "SUBSEQUENT_MOVE_TYPE",
    "TIME_LIMIT",
    "TOTAL_TIME_LIMIT",
];

/// Whether a word is a key of LKH that tourkit does not have.
pub fn is_other_key(word: &[u8]) -> bool {
    for key in OTHER_KEYS.as_slice() {
        if spelled(word, key.as_bytes()) {
            return true;
        }
    }
    false
}

/// The kind of a file, recognized by its lines or, if they do not show it, by its name. A file of another program is
/// read as what it can be converted to.
pub fn kind_of(text: &[u8], name: &str) -> Kind
    ensures foreign { IfSome (foreign_of (without_mark text.now)) (λ foreign. result ≡ kind_of_foreign foreign) }
{
    let text = without_mark(text);
    match foreign_of(text) {
        Some(foreign) => kind_of_foreign(foreign),
        None => kind_of_text(text, name),
    }
}

/// A text without a byte order mark of UTF-8 at its front.
fn without_mark(text: &[u8]) -> &[u8]
    ensures { result.now ≡ without_mark text.now }
{
    match text {
        [0xef, 0xbb, 0xbf, text @ ..] => text,
        _ => text,
    }
}

/// The kind of file to which a file of another program can be converted.
fn kind_of_foreign(foreign: Foreign) -> Kind
    ensures { result ≡ kind_of_foreign foreign }
{
    match foreign {
        Foreign::Csv | Foreign::Rows => Kind::Problem,
        Foreign::Edges | Foreign::Concorde | Foreign::Column | Foreign::Row => Kind::Tour,
    }
}

/// The kind of a text, recognized by its lines or, if they do not show it, by its name.
fn kind_of_text(text: &[u8], name: &str) -> Kind {
    for line in lines_of(text) {
        if let Some(kind) = kind_shown(line.bytes) {
            return kind;
        }
    }
    kind_named(name)
}

/// The only kind of file that contains such a line; `None` if the line does not decide it.
fn kind_shown(line: &[u8]) -> Option<Kind> {
    let (word, rest) = split_word(line);
    if spelled(word, b"ROUTE") || spelled(word, b"COST") {
        return Some(Kind::Solution);
    }
    if key_of(word).is_some() || is_other_key(word) {
        return Some(Kind::Parameters);
    }
    match keyword_of(word) {
        Some(Keyword::Type) if spelled(first_token(value_behind(line, b':')), b"TOUR") => Some(
            Kind::Tour,
        ),
        Some(Keyword::TourSection) => Some(Kind::Tour),
        Some(Keyword::Name | Keyword::Comment | Keyword::Dimension | Keyword::Eof) => None,
        Some(_) => Some(Kind::Problem),
        None if !word.is_empty() && is_assigned(rest) => Some(Kind::Parameters),
        None => None,
    }
}

/// Whether these bytes begin with an equals sign, after any blanks.
fn is_assigned(rest: &[u8]) -> bool {
    rest.trim_ascii_start().starts_with(b"=")
}

/// The kind that the ending of a name means; a problem for any other ending.
fn kind_named(name: &str) -> Kind {
    if name.ends_with(".tour") {
        Kind::Tour
    } else if name.ends_with(".sol") {
        Kind::Solution
    } else if name.ends_with(".par") {
        Kind::Parameters
    } else {
        Kind::Problem
    }
}

/// Whether the first line that is neither blank nor a comment begins with a key of parameter files.
pub fn begins_with_key(text: &[u8]) -> bool {
    for line in lines_of(text) {
        let line = line.bytes.trim_ascii_start();
        if !is_comment(line) {
            return key_of(split_word(line).0).is_some();
        }
    }
    false
}

/// Whether a line is empty or a comment.
fn is_comment(line: &[u8]) -> bool {
    match line.first() {
        None | Some(b'#') => true,
        Some(_) => spelled(split_word(line).0, b"COMMENT"),
    }
}
