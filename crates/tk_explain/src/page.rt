//! The text of an explanation, which is built line by line.
ghost use Rattle.std.specs.Prelude.{◌<◌, IfOk};
ghost use Rattle.std.specs.String.{string_len};

use std::alloc::{AllocError, Global};
use std::fmt;

/// Maximum number of columns of a line.
const WIDTH: usize = 100;

/// The width of a label in columns, without the blank after it.
const INDENT: usize = 13;

/// The text before the first word of a continuation line: a line feed, the width of a label in blanks, and a blank.
const FURTHER: &str = "\n              ";

/// The label of the meaning of a fault.
pub const MEANING: &str = "Meaning:     ";

/// The label of what was expected at its line.
pub const WANTED: &str = "Expected:    ";

/// The label of what was found there.
pub const READ: &str = "Found:       ";

/// The label of its usual causes.
pub const CAUSES: &str = "Usual causes:";

/// The label of the remedy.
pub const REMEDY: &str = "What to do:  ";

/// The lines that have been added, without the line feed that ends the last one.
#[derive(Drop)]
pub struct Page {
    alloc: Global,
    text: String,
}

impl Page {
    /// A page without lines.
    pub fn new(alloc: Global) -> Page {
        Page {
            alloc,
            text: String::new(alloc),
        }
    }

    /// Begins a line. It is blank if nothing is added to it.
    pub fn begin(&mut self) -> Result<(), AllocError> {
        if self.text.is_empty() {
            return Ok(());
        }
        self.text.push_str("\n")
    }

    /// Adds a line.
    ///
    /// # Errors
    /// `AllocError` if memory runs out, as for all functions of a page.
    pub fn line<D: fmt::Display>(&mut self, line: &D) -> Result<(), AllocError> {
        self.begin()?;
        write!(self.text, "{line}")
    }

    /// Adds a line, and a blank line after it.
    pub fn heading<D: fmt::Display>(&mut self, line: &D) -> Result<(), AllocError> {
        self.line(line)?;
        self.begin()
    }

    /// Adds a text after a label.
    pub fn labelled(&mut self, label: &str, text: &str) -> Result<(), AllocError> {
        self.begin()?;
        self.text.push_str(label)?;
        self.wrap(text)
    }

    /// Adds the text of a value after a label.
    pub fn labelled_value<D: fmt::Display>(
        &mut self,
        label: &str,
        value: &D,
    ) -> Result<(), AllocError> {
        let text = value.to_string(self.alloc)?;
        self.labelled(label, &text)
    }

    /// Adds the words of a text. They continue on further lines, which are indented.
    fn wrap(&mut self, text: &str) -> Result<(), AllocError> {
        let mut column = INDENT;
        for word in text.split(' ') {
            let width = word.len().saturating_add(1);
            let mut gap = " ";
            column = column.saturating_add(width);
            if column > WIDTH {
                gap = FURTHER;
                column = INDENT.saturating_add(width);
            }
            self.text.push_str(gap)?;
            self.text.push_str(word)?;
        }
        Ok(())
    }

    /// The whole text, with a line feed after its last line.
    pub fn finished(self) -> Result<String, AllocError>
        ensures { IfOk result (λ text. 0 < string_len text) }
    {
        let mut text = self.text;
        text.push_str("\n")?;
        Ok(text)
    }
}
