//! The fixed parts of HTML pages: the files of `page/`.
#![tactic(auto)]

mod embedded;
mod page;

pub use page::page_parts;
