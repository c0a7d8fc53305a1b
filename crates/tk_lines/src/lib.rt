//! Lines, headers and sections: splits a text into pieces, byte by byte.
#![tactic(auto)]

mod bytes;
mod ends;
mod finish;
mod handler;
mod line_state;
mod reader;
mod run;
mod value_scanner;

pub use handler::{Handler, Taken};
pub use reader::PieceReader;
pub use value_scanner::ValueScanner;
