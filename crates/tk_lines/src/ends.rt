//! How words, header values and tokens end.
ghost use Rattle.std.specs.Prelude.{◌≡◌, ◌≤◌, length, Ok, IfOk};
ghost use Rattle.tk_lines.specs.declared.line_state.LineState.TheVariants as places;
ghost use Rattle.tk_lines.specs.declared.line_state.Flow.TheVariants as flows;
ghost use Rattle.tk_lines.specs.Reader.Places.{a_gap, no_word};
ghost use Rattle.tk_lines.specs.Reader.Steps.{Closes, ClosesHeader, ClosesPlace, EndsToken, IsKnown, IsSettled};

use crate::handler::{Handler, Taken};
use crate::line_state::{Flow, LineState};
use crate::reader::PieceReader;
use std::mem;
use tk_words::{ByteBuffer, Keyword, Lexeme, Role, TextFault, TextKind, keyword_of, minus_one};

impl<F: Handler> PieceReader<F> {
    ghost use Rattle.tk_words.specs.declared.keyword.Keyword.{Keyword};

    /// Ends the first word of a line.
    ///
    /// # Errors
    /// `UnknownKeyword` if the word is not a keyword; otherwise the fault of the form. Both are on the current line.
    fn end_word(&mut self) -> Result<Flow, TextFault>
        requires place { self.old.place ≡ places.Word }
        ensures closed { Closes F.promise no_word self.old self.new result }
        ensures settled { result ≡ Ok flows.On → IsSettled self.new.place }
        ensures line { self.new.line ≡ self.old.line }
    {
        let word = match keyword_of(self.held.as_slice()) {
            None => return Err(self.fault(TextKind::UnknownKeyword)),
            Some(word) => word,
        };
        match word.role() {
            Role::EndsText => match self.form.end() {
                None => Ok(Flow::Whole),
                Some(kind) => Err(self.fault(kind)),
            },
            Role::BeginsHeader => {
                self.scan.clear();
                self.place = LineState::Value(word);
                Ok(Flow::On)
            }
            Role::BeginsSection => match self.form.section(word) {
                Err(kind) => Err(self.fault(kind)),
                Ok(()) => {
                    self.place = LineState::Begin;
                    Ok(Flow::On)
                }
            },
        }
    }

    /// Ends the value of a header.
    ///
    /// # Errors
    /// The fault that the form finds in the value, on the current line.
    pub(crate) fn end_header(&mut self, word: Keyword) -> Result<(), TextFault>
        requires place { self.old.place ≡ places.Value word }
        ensures closed { ClosesHeader F.promise word self.old self.new result }
        ensures place { IfOk result (λ _. self.new.place ≡ places.Start) }
        ensures line { self.new.line ≡ self.old.line }
    {
        match self.form.header(word, &self.scan) {
            Err(kind) => Err(self.fault(kind)),
            Ok(()) => {
                self.place = LineState::Start;
                Ok(())
            }
        }
    }

    /// Takes a whole token of a section.
    ///
    /// # Errors
    /// The fault that the form finds in the token; if the token is `EOF`, the fault at the end of the text. Both are on
    /// the current line.
    #[inline(always)]
    pub(crate) fn take_token(&mut self, token: &Lexeme) -> Result<Flow, TextFault>
        requires short { length token.now ≤ 64 }
        ensures taken { EndsToken F.promise token.now self.old self.new result }
        ensures settled { result ≡ Ok flows.On → IsSettled self.new.place }
        ensures line { self.new.line ≡ self.old.line }
    {
        match self.form.token(token) {
            Err(kind) => Err(self.fault(kind)),
            Ok(Taken::More) => {
                self.place = LineState::Gap;
                Ok(Flow::On)
            }
            Ok(Taken::Last) => {
                self.place = LineState::Close;
                Ok(Flow::On)
            }
            Ok(Taken::Ending) => {
                self.place = LineState::After(true);
                Ok(Flow::On)
            }
            Ok(Taken::Eof) => match self.form.end() {
                None => Ok(Flow::Whole),
                Some(kind) => Err(self.fault(kind)),
            },
        }
    }

    /// Ends a token of a section.
    ///
    /// # Errors
    /// Those of `take_token`.
    fn end_token(&mut self) -> Result<Flow, TextFault>
        requires place { self.old.place ≡ places.Token }
        requires short { length self.old.held ≤ 64 }
        ensures closed { Closes F.promise a_gap self.old self.new result }
        ensures settled { result ≡ Ok flows.On → IsSettled self.new.place }
        ensures line { self.new.line ≡ self.old.line }
    {
        let held = mem::replace(&mut self.held, ByteBuffer::new());
        let token = Lexeme::new(held.as_slice());
        self.take_token(&token)
    }

    /// Ends a token after the `-1` that ends a section.
    ///
    /// # Errors
    /// `TrailingData` if the token is not `-1`.
    fn end_minus_one(&mut self, on_line: bool) -> Result<Flow, TextFault>
        requires place { self.old.place ≡ places.MinusOne on_line }
        ensures closed { Closes F.promise a_gap self.old self.new result }
        ensures settled { result ≡ Ok flows.On → IsSettled self.new.place }
        ensures line { self.new.line ≡ self.old.line }
    {
        if minus_one(self.held.as_slice()) {
            self.place = LineState::Close;
            return Ok(Flow::On);
        }
        Err(self.fault(TextKind::TrailingData))
    }

    /// Ends the open word or token, if there is one.
    ///
    /// # Errors
    /// The fault of that word or token.
    pub(crate) fn close(&mut self) -> Result<Flow, TextFault>
        requires { IsKnown F.promise self.old }
        ensures closed { ClosesPlace F.promise self.old self.new result }
        ensures settled { result ≡ Ok flows.On → IsSettled self.new.place }
        ensures line { self.new.line ≡ self.old.line }
    {
        match self.place {
            LineState::Word => self.end_word(),
            LineState::Token => self.end_token(),
            LineState::MinusOne(on_line) => self.end_minus_one(on_line),
            _ => Ok(Flow::On),
        }
    }
}
