//! Explanations: of faults, of files with their first fault, and of lines.
#![tactic(auto)]

mod by_word;
mod fault_table;
mod file_pages;
mod one_line;
mod page;
mod read_result;
mod remark;
mod unread;
mod valid;
mod whole;
mod whole_file;

pub use by_word::{fault_page, is_number};
pub use file_pages::{FilePage, file_page, line_page};
pub use unread::read_failure;
