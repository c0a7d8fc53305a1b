//! How the end of its bytes completes a text, and the reader as a `TextReader`.
ghost use Rattle.std.specs.Prelude.{◌≡◌, ℕ, List, [], refl};
ghost use Rattle.tk_problem.specs.declared.limits.TheConstants.{TEXT_LIMIT};
ghost use Rattle.tk_words.specs.Texts.{texts_of};
ghost use Rattle.tk_lines.specs.declared.line_state.LineState.TheVariants as places;
ghost use Rattle.tk_lines.specs.Pieces.{decided_by};
ghost use Rattle.tk_lines.specs.Reader.Places.{at_end, AtToken, AtEnd};
ghost use Rattle.tk_lines.specs.Reader.Steps.{Waits, IsFed, HasFinished, Finishes};

use crate::handler::Handler;
use crate::line_state::{Flow, LineState};
use crate::reader::PieceReader;
use tk_problem::TEXT_LIMIT;
use tk_words::{FeedResult, Keyword, TextFault, TextKind, TextReader};

impl<F: Handler> PieceReader<F> {
    /// Ends a text in which no word, token, value or section is open.
    fn end_text(&self) -> Result<(), TextFault>
        ensures { (before : List ℕ) → AtEnd F.promise.format F.promise.holds self.now.form self.now.line before
            → HasFinished F.promise self.now before result }
    {
        match self.form.end() {
            None => Ok(()),
            Some(kind) => Err(self.fault(kind)),
        }
    }

    /// Ends the text in a section, between tokens.
    fn end_section(&mut self) -> Result<(), TextFault>
        ensures { (before : List ℕ)
            → AtToken F.promise.format F.promise.wants at_end self.old.form self.old.line [] before
            → HasFinished F.promise self.new before result }
    {
        match self.form.end_section() {
            Err(kind) => Err(self.fault(kind)),
            Ok(()) => self.end_text(),
        }
    }

    /// Ends the text in a header's value.
    fn end_value(&mut self, word: Keyword) -> Result<(), TextFault>
        requires { self.old.place ≡ places.Value word }
        ensures { Finishes F.promise self.old self.new result }
    {
        self.end_header(word)?;
        self.end_text()
    }

    /// Ends the text in any state.
    fn end_bytes(&mut self) -> Result<(), TextFault>
        requires { IsFed F.promise at_end self.old }
        ensures { Finishes F.promise self.old self.new result }
    {
        match self.close() {
            Ok(Flow::On) => {}
            Ok(Flow::Whole) => return Ok(()),
            Err(fault) => return Err(fault),
        }
        match self.place {
            LineState::Value(word) => self.end_value(word),
            LineState::Begin => self.end_section(),
            LineState::Gap => self.end_section(),
            _ => self.end_text(),
        }
    }
}

impl<F: Handler> TextReader for PieceReader<F> {
    type Out = F::Out;

    type Fault = TextFault;

    ghost Value = { F.Value };

    ghost view = { F.view };

    ghost texts = { texts_of (decided_by F.promise.format) TEXT_LIMIT };

    ghost fed = { λ reader before. Waits F.promise reader before };

    ghost held = { λ reader. F.promise.held reader.form };

    ghost complete = { λ reader. F.promise.complete reader.form };

    ghost too_long_reported = { λ line. refl };

    ghost waits = { λ reader before waits. waits.undecided };

    fn feed(&mut self, bytes: &[u8]) -> Result<FeedResult, TextFault> {
        match self.feed_tokens(bytes) {
            Ok(FeedResult::Done) => return Ok(FeedResult::Done),
            Ok(FeedResult::Taken(0)) => {}
            Ok(FeedResult::Taken(count)) => return Ok(FeedResult::Taken(count)),
            Err(fault) => return Err(fault),
        }
        match self.feed_byte(bytes[0]) {
            Ok(Flow::On) => Ok(FeedResult::Taken(1)),
            Ok(Flow::Whole) => Ok(FeedResult::Done),
            Err(fault) => Err(fault),
        }
    }

    fn finish(self) -> Result<F::Out, TextFault> {
        let mut reader = self;
        reader.end_bytes()?;
        Ok(reader.form.value())
    }

    fn value(self) -> F::Out {
        self.form.value()
    }

    fn limit(&self) -> u64 {
        TEXT_LIMIT
    }

    fn too_long(&self) -> TextFault {
        self.fault(TextKind::TooLong)
    }

    fn cut_off(&self) -> TextFault {
        self.fault(TextKind::Read)
    }
}
