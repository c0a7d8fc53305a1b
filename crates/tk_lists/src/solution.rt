//! Reads solution texts.
ghost use Rattle.std.specs.Prelude.{◌≡◌, ◌^◌, ◌≤◌, ◌++◌, ◌∷◌, ℕ, List, [], refl, Ok};
ghost use Rattle.tk_words.specs.Reading.{IsReading};
ghost use Rattle.tk_lists.specs.Solution.{Solution, as_solution, lists_of, solution_texts};
ghost use Rattle.tk_lists.specs.Reader.SolutionReader.{FedLines, HasTakenByte, SolutionWaits};

use crate::solution_reader::{LinePlace, SolutionReader};
use crate::texts::SolText;
use std::alloc::Global;
use tk_problem::TEXT_LIMIT;
use tk_words::{FeedResult, Keyword, Source, TextFault, TextKind, TextReader, read_text};

impl SolutionReader {
    /// A fault on the current line.
    fn fault(&self, kind: TextKind) -> TextFault
        ensures { result ≡ record { line = self.now.line; kind = kind } }
    {
        TextFault {
            line: self.line,
            kind,
        }
    }

    /// Takes a byte.
    ///
    /// # Errors
    /// The fault that the bytes up to this one contain, with its line.
    fn feed_byte(&mut self, byte: u8) -> Result<(), TextFault>
        requires room { self.old.line ≤ 2 ^ 63 }
        requires known { (before : List ℕ) × FedLines self.old before }
        ensures { (before : List ℕ) → FedLines self.old before → HasTakenByte self.new (before ++ byte ∷ []) result }
    {
        if byte != b'\n' {
            return match self.feed_line(byte) {
                Ok(()) => Ok(()),
                Err(kind) => Err(self.fault(kind)),
            };
        }
        match self.end_line() {
            Ok(()) => {}
            Err(kind) => return Err(self.fault(kind)),
        }
        self.line += 1;
        self.place = LinePlace::Start;
        Ok(())
    }
}

impl TextReader for SolutionReader {
    type Out = SolText;

    type Fault = TextFault;

    ghost Value = { Solution };

    ghost view = { as_solution };

    ghost texts = { solution_texts };

    ghost fed = { SolutionWaits };

    ghost held = { λ s. (lists_of s.form.routes.items, s.form.cost) };

    ghost complete = { λ _. Unit {0} };

    ghost too_long_reported = { λ line. refl };

    ghost waits = { λ reader before waits. waits.undecided };

    fn feed(&mut self, bytes: &[u8]) -> Result<FeedResult, TextFault> {
        self.feed_byte(bytes[0])?;
        Ok(FeedResult::Taken(1))
    }

    fn finish(self) -> Result<SolText, TextFault> {
        let mut reader = self;
        match reader.end_line() {
            Ok(()) => {}
            Err(kind) => return Err(reader.fault(kind)),
        }
        if !reader.form.priced {
            return Err(reader.fault(TextKind::Missing(Keyword::Cost)));
        }
        Ok(reader.value())
    }

    fn value(self) -> SolText {
        self.form.into_solution()
    }

    fn limit(&self) -> u64 {
        TEXT_LIMIT
    }

    fn too_long(&self) -> TextFault {
        self.fault(TextKind::TooLong)
    }

    fn cut_off(&self) -> TextFault {
        self.fault(TextKind::Read)
    }
}

/// Reads a solution text, no further than its result requires. If it is not read to its end, every text that begins
/// with the bytes read has this result, except for `Read`, if the source fails, and `NoMemory`.
///
/// # Errors
/// The first fault of the text, with its line; `Read` if the source fails before the result is known, and `NoMemory` if
/// memory runs out.
pub fn read_solution<R: Source>(alloc: Global, source: &mut R) -> Result<SolText, TextFault>
    ensures reads { IsReading R.Source solution_texts as_solution source.old source.new result }
{
    read_text(source, SolutionReader::new(alloc))
}
