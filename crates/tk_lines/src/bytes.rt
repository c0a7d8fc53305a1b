//! How a reader takes one byte of a text, in each of its states.
ghost use Rattle.std.specs.Prelude.{◌≡◌, ◌^◌, ◌≤◌, ◌||◌, ◌==◌, true, false};
ghost use Rattle.tk_words.specs.Lex.{is_blank, is_word_byte};
ghost use Rattle.tk_lines.specs.declared.line_state.LineState.TheVariants as places;
ghost use Rattle.tk_lines.specs.Reader.Places.{this, anything};
ghost use Rattle.tk_lines.specs.Reader.Steps.{IsFed, TakesByte, TakesSettled, ends_at};

use crate::handler::Handler;
use crate::line_state::{Flow, LineState};
use crate::reader::PieceReader;
use tk_words::{
    Keyword, TextFault, TextKind, begins_minus_one, blank, blank_or_end, letter, word_byte,
};

/// Maximum number of bytes between a header's word and the end of its line.
const HEADER_LIMIT: u32 = 4096;

impl<F: Handler> PieceReader<F> {
    /// Takes a byte before the first word of a line.
    fn feed_start(&mut self, byte: u8) -> Result<Flow, TextFault>
        requires place { self.old.place ≡ places.Start }
        requires room { self.old.line ≤ 2 ^ 63 }
        ensures { TakesSettled F.promise self.old self.new byte result }
    {
        if byte == b'\n' {
            self.line += 1;
            return Ok(Flow::On);
        }
        if blank(byte) {
            return Ok(Flow::On);
        }
        if !letter(byte) {
            return Err(self.fault(TextKind::TrailingData));
        }
        self.begin(byte, LineState::Word);
        Ok(Flow::On)
    }

    /// Takes a byte of the first word of a line.
    fn feed_word(&mut self, byte: u8) -> Result<Flow, TextFault>
        requires place { self.old.place ≡ places.Word }
        requires word { is_word_byte byte ≡ true }
        ensures { TakesSettled F.promise self.old self.new byte result }
    {
        if self.held.is_full() {
            return Err(self.fault(TextKind::TooLong));
        }
        self.held.push(byte);
        Ok(Flow::On)
    }

    /// Takes a byte of a header's value.
    fn feed_value(&mut self, byte: u8, word: Keyword) -> Result<Flow, TextFault>
        requires place { self.old.place ≡ places.Value word }
        requires room { self.old.line ≤ 2 ^ 63 }
        requires known { IsFed F.promise (this byte) self.old }
        ensures { TakesSettled F.promise self.old self.new byte result }
    {
        if byte == b'\n' {
            self.end_header(word)?;
            self.line += 1;
            return Ok(Flow::On);
        }
        self.scan.push(byte);
        if self.scan.count > HEADER_LIMIT {
            return Err(self.fault(TextKind::TooLong));
        }
        Ok(Flow::On)
    }

    /// Takes a byte between the tokens of a section.
    #[inline(always)]
    pub(crate) fn feed_gap(&mut self, byte: u8) -> Result<Flow, TextFault>
        requires place { self.old.place ≡ places.Gap }
        requires room { self.old.line ≤ 2 ^ 63 }
        ensures { TakesSettled F.promise self.old self.new byte result }
    {
        if byte == b'\n' {
            self.line += 1;
            return Ok(Flow::On);
        }
        if !blank(byte) {
            self.begin(byte, LineState::Token);
        }
        Ok(Flow::On)
    }

    /// Takes a byte after the word of a section.
    fn feed_begin(&mut self, byte: u8) -> Result<Flow, TextFault>
        requires place { self.old.place ≡ places.Begin }
        requires room { self.old.line ≤ 2 ^ 63 }
        ensures { TakesSettled F.promise self.old self.new byte result }
    {
        if blank(byte) {
            return Ok(Flow::On);
        }
        self.place = LineState::Gap;
        if byte == b':' {
            return Ok(Flow::On);
        }
        self.feed_gap(byte)
    }

    /// Takes a byte of a token of a section.
    fn feed_token(&mut self, byte: u8) -> Result<Flow, TextFault>
        requires place { self.old.place ≡ places.Token }
        requires solid { (is_blank byte || byte == 10) ≡ false }
        ensures { TakesSettled F.promise self.old self.new byte result }
    {
        if self.held.is_full() {
            return Err(self.fault(TextKind::TooLong));
        }
        self.held.push(byte);
        Ok(Flow::On)
    }

    /// Takes a byte after the last token of a section.
    fn feed_close(&mut self, byte: u8) -> Result<Flow, TextFault>
        requires place { self.old.place ≡ places.Close }
        requires room { self.old.line ≤ 2 ^ 63 }
        ensures { TakesSettled F.promise self.old self.new byte result }
    {
        if byte == b'\n' {
            self.line += 1;
            self.place = LineState::Start;
            return Ok(Flow::On);
        }
        if blank(byte) {
            return Ok(Flow::On);
        }
        Err(self.fault(TextKind::TrailingData))
    }

    /// Takes a byte after the `-1` that ends a section.
    fn feed_after(&mut self, byte: u8, on_line: bool) -> Result<Flow, TextFault>
        requires place { self.old.place ≡ places.After on_line }
        requires room { self.old.line ≤ 2 ^ 63 }
        ensures { TakesSettled F.promise self.old self.new byte result }
    {
        if byte == b'\n' {
            self.line += 1;
            self.place = LineState::After(false);
            return Ok(Flow::On);
        }
        if blank(byte) {
            return Ok(Flow::On);
        }
        if letter(byte) {
            if on_line {
                return Err(self.fault(TextKind::TrailingData));
            }
            self.begin(byte, LineState::Word);
            return Ok(Flow::On);
        }
        if byte != b'-' {
            return Err(self.fault(TextKind::TrailingData));
        }
        self.begin(byte, LineState::MinusOne(on_line));
        Ok(Flow::On)
    }

    /// Takes a byte of a token after the `-1` that ends a section.
    fn feed_minus_one(&mut self, byte: u8, on_line: bool) -> Result<Flow, TextFault>
        requires place { self.old.place ≡ places.MinusOne on_line }
        requires solid { (is_blank byte || byte == 10) ≡ false }
        requires known { IsFed F.promise (this byte) self.old }
        ensures { TakesSettled F.promise self.old self.new byte result }
    {
        self.held.push(byte);
        if begins_minus_one(&self.held) {
            return Ok(Flow::On);
        }
        Err(self.fault(TextKind::TrailingData))
    }

    /// Whether a byte ends the open word or token.
    fn ends_with(&self, byte: u8) -> bool
        ensures { result ≡ ends_at byte self.now.place }
    {
        match self.place {
            LineState::Word => !word_byte(byte),
            LineState::Token | LineState::MinusOne(_) => blank_or_end(byte),
            _ => false,
        }
    }

    /// Takes a byte that does not end a word or a token.
    ///
    /// # Errors
    /// The fault that the bytes up to this one contain, with its line.
    pub(crate) fn feed_settled(&mut self, byte: u8) -> Result<Flow, TextFault>
        requires settled { ends_at byte self.old.place ≡ false }
        requires room { self.old.line ≤ 2 ^ 63 }
        requires known { IsFed F.promise (this byte) self.old }
        ensures { TakesSettled F.promise self.old self.new byte result }
    {
        match self.place {
            LineState::Start => self.feed_start(byte),
            LineState::Word => self.feed_word(byte),
            LineState::Value(word) => self.feed_value(byte, word),
            LineState::Begin => self.feed_begin(byte),
            LineState::Gap => self.feed_gap(byte),
            LineState::Token => self.feed_token(byte),
            LineState::Close => self.feed_close(byte),
            LineState::After(on_line) => self.feed_after(byte, on_line),
            LineState::MinusOne(on_line) => self.feed_minus_one(byte, on_line),
        }
    }

    /// Takes one byte, after ending the word or token that it ends.
    ///
    /// # Errors
    /// The fault that the bytes up to this one contain, with its line.
    pub(crate) fn feed_byte(&mut self, byte: u8) -> Result<Flow, TextFault>
        requires room { self.old.line ≤ 2 ^ 63 }
        requires known { IsFed F.promise anything self.old }
        ensures { TakesByte F.promise self.old self.new byte result }
    {
        if !self.ends_with(byte) {
            return self.feed_settled(byte);
        }
        match self.close() {
            Ok(Flow::On) => self.feed_settled(byte),
            Ok(Flow::Whole) => Ok(Flow::Whole),
            Err(fault) => Err(fault),
        }
    }
}
