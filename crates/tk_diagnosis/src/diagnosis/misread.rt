//! Sentences about tokens that are not the numbers that a section needs: what they are, and what to do.

use tk_kinds::Misread;
use tk_words::Keyword;

/// The sentence about such a token, which is its value. An integer is expected if `is_integer` is true.
pub fn read_as(misread: Misread, is_integer: bool) -> &'static str {
    match misread {
        Misread::Comma => "{}, with a comma",
        Misread::Comment => "{}, the beginning of a comment",
        Misread::Decimal if is_integer => "{}, which is not an integer",
        _ => "{}, which is not a number",
    }
}

/// What to do about demands that are not integers.
pub const DEMANDS: &str =
    "Multiply CAPACITY and all demands by the same factor, such as 100, and round them to integers.";

/// What to do about such a token where a section needs an integer. A demand is at index 1 of its entry.
pub fn remedy_of(misread: Misread, section: Keyword, field: u64) -> &'static str {
    match (misread, section, field) {
        (Misread::Comma, _, _) => {
            "Write a decimal point instead of the comma, or a blank if it separates two numbers."
        }
        (Misread::Comment, _, _) => {
            "Remove the comment, since a section contains only numbers. It can be a COMMENT line before the section."
        }
        (Misread::Infinite, Keyword::EdgeWeightSection, _) => {
            "Write a finite number that is larger than all others, such as 1000000."
        }
        (Misread::Undefined | Misread::Infinite, _, _) => {
            "A program printed this because a value was missing or undefined. Write the value, or leave the node out \
            of every section and lower DIMENSION."
        }
        (Misread::Decimal, Keyword::EdgeWeightSection, _) => {
            "Multiply all weights by the same factor, such as 100, and round them to integers."
        }
        (Misread::Decimal, Keyword::DemandSection, 1) => DEMANDS,
        (Misread::Decimal, _, _) =>
            "Write an integer. If this is a coordinate, there is a number missing or extra before it.",
        (Misread::Word, _, _) => "Write an integer, with blanks between the numbers.",
    }
}
