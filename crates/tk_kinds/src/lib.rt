//! What a file is, by its bytes: its kind, the format of another program, or none that can be read. Also its lines and
//! their words, which are read without regard to faults.
#![tactic(auto)]

mod foreign;
mod kind;
mod lines;
mod misread;
mod wrapping;

pub use foreign::{Foreign, foreign_of};
pub use kind::{Kind, begins_with_key, is_other_key, kind_of};
pub use lines::{
    Lines, NumberedLine, Tokens, count_tokens, first_token, header, header_line, keyword_at,
    last_line, length_before, line_at, lines_of, natural, split_line, split_token, split_word,
    token_after, tokens_of, value_behind,
};
pub use misread::{Misread, misread_of};
pub use wrapping::{Wrapping, wrapping_of};
