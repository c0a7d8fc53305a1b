//! Takes whole tokens of a section, one after another.
ghost use Rattle.std.specs.Prelude.{◌≡◌, ◌≤◌, ◌^◌, ◌+◌, ◌||◌, ◌==◌, true, false, ℕ, List, length};
ghost use Rattle.tk_words.specs.Lex.{is_blank};
ghost use Rattle.tk_lines.specs.Reader.Places.{Fed, IsToken, IsInSection, anything, this};
ghost use Rattle.tk_lines.specs.Reader.Steps.{IsFed, TakesRun, TakesSettled, TakesWhole, ends_at};

use crate::handler::Handler;
use crate::line_state::{Flow, LineState};
use crate::reader::PieceReader;
use tk_words::{FeedResult, Lexeme, TextFault};

impl<F: Handler> PieceReader<F> {
    /// Takes a whole token of a section, and the byte after it.
    ///
    /// # Errors
    /// Those of `take_token`, and those of the byte after the token.
    #[inline(always)]
    fn feed_whole(&mut self, token: &Lexeme, byte: u8) -> Result<Flow, TextFault>
        requires run { IsToken token.now }
        requires gap { (is_blank byte || byte == 10) ≡ true }
        requires room { self.old.line ≤ 2 ^ 63 }
        requires known { (before : List ℕ) × IsInSection F.promise (this byte) self.old token.now before }
        ensures { TakesWhole F.promise token.now self.old self.new byte result }
    {
        match self.take_token(token) {
            Ok(Flow::On) => self.feed_next(byte),
            Ok(Flow::Whole) => Ok(Flow::Whole),
            Err(fault) => Err(fault),
        }
    }

    /// Takes the byte after a token. The state tested first is the most frequent: most tokens have another one after
    /// them.
    #[inline(always)]
    fn feed_next(&mut self, byte: u8) -> Result<Flow, TextFault>
        requires settled { ends_at byte self.old.place ≡ false }
        requires room { self.old.line ≤ 2 ^ 63 }
        requires known { IsFed F.promise (this byte) self.old }
        ensures { TakesSettled F.promise self.old self.new byte result }
    {
        match self.place {
            LineState::Gap => self.feed_gap(byte),
            _ => self.feed_settled(byte),
        }
    }

    /// Takes tokens of a section, each with the byte after it, as long as they lie whole in the bytes. Stops at a
    /// second blank, or at a token that is too long or reaches the end of the bytes.
    ///
    /// # Errors
    /// The fault of one of these tokens, with its line.
    pub(crate) fn feed_tokens(&mut self, bytes: &[u8]) -> Result<FeedResult, TextFault>
        requires { (before : List ℕ) × Fed F.promise anything self.old before
            × (length before + length bytes.now ≤ 2 ^ 63) }
        ensures { TakesRun F.promise self.old self.new bytes.now result }
    {
        let mut start = 0;
        while let LineState::Gap = self.place {
            let Some(token) = Lexeme::first(&bytes[start..]) else {
                break;
            };
            let end = start + token.len();
            match self.feed_whole(&token, bytes[end]) {
                Ok(Flow::On) => start = end + 1,
                Ok(Flow::Whole) => return Ok(FeedResult::Done),
                Err(fault) => return Err(fault),
            }
        }
        Ok(FeedResult::Taken(start))
    }
}
