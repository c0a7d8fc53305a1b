//! The states of a reader.

use tk_words::Keyword;

/// The state of a reader: the part of the text that it is in.
#[derive(Clone, Copy)]
pub enum LineState {
    /// Before the first word of a line.
    Start,
    /// In the first word of a line.
    Word,
    /// In the value of a header.
    Value(Keyword),
    /// After the word of a section, before its colon.
    Begin,
    /// In a section, between tokens.
    Gap,
    /// In a token of a section.
    Token,
    /// After the last token of a section, on its line.
    Close,
    /// After the `-1` that ends a section; `true` on the line of the `-1`, `false` on a later one.
    After(bool),
    /// In a token after that `-1`, which may be one more `-1`; the flag is that of `After`.
    MinusOne(bool),
}

/// Whether a text continues (`On`) or has ended (`Whole`).
#[derive(Clone, Copy)]
pub enum Flow {
    On,
    Whole,
}
