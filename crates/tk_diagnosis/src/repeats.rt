//! Nodes that a section names twice.
use crate::section_position::entry_width;
use std::alloc::{AllocError, Global};
use tk_kinds::{NumberedLine, keyword_at, lines_of, natural, tokens_of};
use tk_words::Keyword;

/// A repeated node, and the first line with it.
#[derive(Clone, Copy)]
pub struct Repeat {
    pub node: u64,
    pub first: u64,
}

/// The lines on which nodes have been named, and the count of the numbers that have been read.
#[derive(Drop)]
struct Named {
    /// For each node, the first line with it, or 0 if there is none. Node k is at index k.
    lines: Vec<u64>,
    numbers: u64,
    width: u64,
}

impl Named {
    /// Counts a number of the section, and returns whether it begins an entry.
    fn begins_entry(&mut self) -> bool {
        let begins = self.numbers.checked_rem(self.width) == Some(0);
        self.numbers = self.numbers.saturating_add(1);
        begins
    }

    /// Takes a number of the section, and returns it as a repeated node if it is a node that has been named before.
    fn take(&mut self, bytes: &[u8], line: u64) -> Option<Repeat> {
        if !self.begins_entry() {
            return None;
        }
        let node = natural(bytes)?;
        let first = self.lines.get_mut(node as usize)?;
        if *first != 0 {
            return Some(Repeat {
                node,
                first: *first,
            });
        }
        *first = line;
        None
    }

    /// Takes the numbers of a line, up to a repeated node.
    fn take_line(&mut self, bytes: &[u8], line: u64) -> Option<Repeat> {
        for token in tokens_of(bytes) {
            if let Some(repeat) = self.take(token, line) {
                return Some(repeat);
            }
        }
        None
    }

    /// Takes the lines of a section, up to a repeated node.
    fn take_section(&mut self, text: &[u8], section: Keyword) -> Option<Repeat> {
        let mut is_open = false;
        for NumberedLine { line, bytes } in lines_of(text) {
            if let Some(word) = keyword_at(bytes) {
                is_open = word == section;
            } else if is_open {
                if let Some(repeat) = self.take_line(bytes, line) {
                    return Some(repeat);
                }
            }
        }
        None
    }
}

/// The first node from 1 to `size` that a section names a second time.
///
/// # Errors
/// `AllocError` if memory runs out.
pub fn first_repeat(
    alloc: Global,
    text: &[u8],
    section: Keyword,
    size: u64,
) -> Result<Option<Repeat>, AllocError> {
    let mut named = Named {
        lines: vec![in alloc; 0; size.min(100_000) as usize + 1]?,
        numbers: 0,
        width: entry_width(section),
    };
    Ok(named.take_section(text, section))
}
