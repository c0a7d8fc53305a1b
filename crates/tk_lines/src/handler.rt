//! How a format handles headers and sections.
ghost use Rattle.std.specs.Prelude.{◌≡◌, ◌≤◌, length};
ghost use Rattle.tk_lines.specs.Reader.Handlers.{Promise};
ghost use Rattle.tk_lines.specs.Reader.HandlerSteps.{BeginsSection, EndsSection, HasAll, HasValue, RefusesEnd};
ghost use Rattle.tk_lines.specs.Reader.HandlerSteps.{RefusesHeader, RefusesSection, RefusesToken, TakesHeader};
ghost use Rattle.tk_lines.specs.Reader.HandlerSteps.{TakesToken, TellsEnd};

use crate::value_scanner::ValueScanner;
use tk_words::{Keyword, Lexeme, TextKind};

/// The effect of a token on its section.
#[derive(Clone, Copy)]
pub enum Taken {
    /// More tokens follow.
    More,
    /// This is the last token.
    Last,
    /// This is the last token, except for a `-1` that may follow it.
    Ending,
    /// This is an `EOF`, which ends the section and the text.
    Eof,
}

/// Handles the headers and section tokens of one format.
pub trait Handler: Drop {
    /// The value that is read.
    type Out;

    /// The type of that value in contracts.
    ghost Value: { Type 0 };

    /// The value as contracts see it.
    ghost view: { Self.Out → Value };

    /// The guarantees of the form: its format, and the pieces that it has taken.
    ghost promise: { Promise Value Self };

    /// Takes a header.
    fn header(&mut self, word: Keyword, value: &ValueScanner) -> Result<(), TextKind>
        ensures ok { TakesHeader promise.holds promise.format.header word value.now self.old self.new result }
        ensures err { RefusesHeader promise.holds promise.format.header word value.now self.old result };

    /// Begins a section.
    fn section(&mut self, word: Keyword) -> Result<(), TextKind>
        ensures ok { BeginsSection promise word self.old self.new result }
        ensures err { RefusesSection promise word self.old result };

    /// Takes a token of a section.
    fn token(&mut self, token: &Lexeme) -> Result<Taken, TextKind>
        requires { length token.now ≤ 64 }
        ensures ok { TakesToken promise token.now self.old self.new result }
        ensures err { RefusesToken promise token.now self.old result };

    /// Ends a section at the end of the text.
    fn end_section(&mut self) -> Result<(), TextKind>
        ensures ok { EndsSection promise self.old self.new result }
        ensures err { RefusesEnd promise self.old result };

    /// The fault at the end of the text, if there is one.
    fn end(&self) -> Option<TextKind>
        ensures fault { TellsEnd promise self.now result }
        ensures value { HasValue promise self.now result }
        ensures complete { HasAll promise self.now result };

    /// The value that was read.
    fn value(self) -> Self::Out
        requires { promise.complete self }
        ensures { view result ≡ promise.held self };
}
