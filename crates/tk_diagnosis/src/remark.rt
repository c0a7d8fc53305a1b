//! Remarks on files without a fault that are probably not what their author means.
use crate::section_position::{node_index, number_at};
use tk_kinds::{
    NumberedLine, first_token, length_before, lines_of, natural, split_word, tokens_of,
    value_behind,
};
use tk_params::key_of;
use tk_words::{Keyword, spelled};

/// A remark on a file without a fault.
#[derive(Clone, Copy)]
pub enum Remark {
    /// City 0 is in a tour.
    City0,
    /// 0 is on a route.
    Customer0,
    /// A route begins and ends with the same number.
    Closed,
    /// A file name in a parameter file begins with a colon.
    Colon,
}

impl Remark {
    /// What is probably wrong, as the end of a sentence.
    pub fn reason(self) -> &'static str {
        match self {
            Remark::City0 => "city 0 is in it",
            Remark::Customer0 => "0 is on a route",
            Remark::Closed => "a route begins and ends with the same number",
            Remark::Colon => "a file name begins with a colon",
        }
    }

    /// What to do about it.
    pub fn remedy(self) -> &'static str {
        match self {
            Remark::City0 => {
                "Files count cities from 1: add 1 to each city, or remove the 0 if the others already count from 1."
            }
            Remark::Customer0 | Remark::Closed => {
                "Remove the depot from each route. The others are customers, numbered from 1: customer k is the \
                k-th node that is not the depot."
            }
            Remark::Colon => {
                "Write an equals sign instead of the colon, as in PROBLEM_FILE = four.tsp."
            }
        }
    }

    /// The first line that the remark is about.
    pub fn line(self, text: &[u8]) -> Option<u64> {
        if let Remark::City0 = self {
            let index = node_index(text, Keyword::TourSection, 0)?;
            return Some(number_at(text, Keyword::TourSection, index)?.line);
        }
        for NumberedLine { line, bytes } in lines_of(text) {
            if self.is_about(bytes) {
                return Some(line);
            }
        }
        None
    }

    /// Whether the remark, which is not on a tour, is about this line.
    fn is_about(self, line: &[u8]) -> bool {
        match self {
            Remark::City0 => false,
            Remark::Customer0 => has_zero(customers_on(line)),
            Remark::Closed => is_closed(customers_on(line)),
            Remark::Colon => {
                key_of(split_word(line).0).is_some() && value_behind(line, b'=').starts_with(b":")
            }
        }
    }
}

/// The customers on a line of a solution, which has none if it is not a route.
fn customers_on(line: &[u8]) -> &[u8] {
    if !spelled(split_word(line).0, b"ROUTE") {
        return b"".as_slice();
    }
    let (_, rest) = line.split_at(length_before(line, b':'));
    value_behind(rest, b':')
}

/// Whether one of these numbers is 0.
fn has_zero(numbers: &[u8]) -> bool {
    for token in tokens_of(numbers) {
        if natural(token) == Some(0) {
            return true;
        }
    }
    false
}

/// Whether the first of several numbers is equal to the last one.
fn is_closed(numbers: &[u8]) -> bool {
    let mut last = None;
    let mut count: u64 = 0;
    for token in tokens_of(numbers) {
        last = natural(token);
        count = count.saturating_add(1);
    }
    count > 1 && natural(first_token(numbers)) == last
}
