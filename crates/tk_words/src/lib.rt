//! Bytes, words and numbers: sources and the loop that reads one, keywords, integers, decimals, the final `-1`, faults.
#![tactic(auto)]

mod byte_buffer;
mod fault;
mod keyword;
mod laws;
mod lexeme;
mod numbers;
mod sources;

pub use byte_buffer::{ByteBuffer, blank, blank_or_end, letter, spelled, word_byte};
pub use fault::{TextFault, TextKind};
pub use keyword::{Keyword, Role, each_word_spells_its_keyword, keyword_of};
pub use laws::buffer_size_is_this_number;
pub use lexeme::Lexeme;
pub use numbers::decimals::decimal;
pub use numbers::entries::{Entry, begins_minus_one, entry_of, keyword_in, limited, minus_one};
pub use numbers::integers::integer;
pub use sources::reading::{BUFFER_SIZE, feed_piece, read_text};
pub use sources::source::{Failed, FromRead, Source};
pub use sources::text_reader::{FeedResult, TextReader};
