//! Reads parameter files.
ghost use Rattle.std.specs.Prelude.{◌≡◌, ◌≢◌, ◌≤◌, ◌^◌, ◌++◌, ◌∷◌, ℕ, List, [], true, false, refl, Ok};
ghost use Rattle.std.specs.Prelude.{OnOk};
ghost use Rattle.tk_words.specs.Lex.{behind, is_blank, is_word_byte};
ghost use Rattle.tk_words.specs.Reading.{IsReading};
ghost use Rattle.tk_params.specs.Requested.{ParamsAre};
ghost use Rattle.tk_params.specs.Reader.Places.{Feeds, HasReadByte, NamesProblem, TakesLine, ParamsWait, params_in};
ghost use Rattle.tk_params.specs.Params.{answer_at_end, spells_eof, params_texts};

use crate::fault::{ParamFault, ParamKind};
use crate::key::Key;
use crate::line::take_line;
use crate::params::Params;
use crate::settings::Settings;
use std::alloc::{AllocError, Global};
use tk_words::{FeedResult, Source, TextReader, blank, read_text, spelled, word_byte};

/// Maximum number of bytes of a line.
const LINE_LIMIT: u32 = 4096;

/// Maximum number of bytes of a text.
const PARAMS_LIMIT: u64 = 1_048_576;

/// Reads the bytes of a parameter file. It stores the settings of the lines before the current one, and the bytes of
/// the current line without leading blanks.
#[derive(Drop)]
pub struct ParamReader {
    alloc: Global,
    line: u64,
    count: u32,
    held: Vec<u8>,
    settings: Settings,
}

/// Adds a byte to those of a line, which are stored without leading blanks.
fn hold(held: &mut Vec<u8>, byte: u8) -> Result<(), AllocError>
    ensures { (pre : List ℕ) → held.old.items ≡ behind is_blank pre
        → OnOk result (held.new.items ≡ behind is_blank (pre ++ byte ∷ [])) }
{
    if !held.as_slice().is_empty() {
        held.push(byte)?;
        return Ok(());
    }
    if blank(byte) {
        return Ok(());
    }
    held.push(byte)?;
    Ok(())
}

impl ParamReader {
    /// A reader that has read nothing.
    pub fn new(alloc: Global) -> Self
        ensures { ParamsWait result [] }
    {
        ParamReader {
            alloc,
            line: 1,
            count: 0,
            held: Vec::new(alloc),
            settings: Settings::new(alloc),
        }
    }

    /// A fault on the current line.
    fn fault(&self, kind: ParamKind) -> ParamFault
        ensures { result ≡ record { line = self.now.line; kind = kind } }
    {
        ParamFault {
            line: self.line,
            kind,
        }
    }

    /// Takes the current line.
    fn take_held(&mut self) -> Result<(), ParamFault>
        ensures { TakesLine self.old self.new result }
    {
        match take_line(self.alloc, &mut self.settings, &self.held) {
            Ok(()) => Ok(()),
            Err(kind) => Err(self.fault(kind)),
        }
    }

    /// Takes the end of a line.
    fn end_line(&mut self) -> Result<FeedResult, ParamFault>
        requires room { self.old.line ≤ 2 ^ 63 }
        requires line { spells_eof self.old.held.items ≡ false }
        ensures { (before : List ℕ) → Feeds self.old before → HasReadByte self.new (before ++ 10 ∷ []) result }
    {
        self.take_held()?;
        self.line += 1;
        self.count = 0;
        self.held.clear();
        Ok(FeedResult::Taken(1))
    }

    /// Takes a byte of a line.
    fn keep(&mut self, byte: u8) -> Result<FeedResult, ParamFault>
        requires line { byte ≢ 10 }
        requires end { spells_eof self.old.held.items ≡ true → is_word_byte byte ≡ true }
        requires known { (before : List ℕ) × Feeds self.old before }
        ensures { (before : List ℕ) → Feeds self.old before → HasReadByte self.new (before ++ byte ∷ []) result }
    {
        if self.count == LINE_LIMIT {
            return Err(self.fault(ParamKind::TooLong));
        }
        match hold(&mut self.held, byte) {
            Ok(()) => {
                self.count += 1;
                Ok(FeedResult::Taken(1))
            }
            Err(_) => Err(self.fault(ParamKind::NoMemory)),
        }
    }

    /// Takes a byte.
    ///
    /// # Errors
    /// The fault that the bytes up to this one contain, with its line.
    fn feed_byte(&mut self, byte: u8) -> Result<FeedResult, ParamFault>
        requires room { self.old.line ≤ 2 ^ 63 }
        requires known { (before : List ℕ) × Feeds self.old before }
        ensures { (before : List ℕ) → Feeds self.old before → HasReadByte self.new (before ++ byte ∷ []) result }
    {
        if !word_byte(byte) && spelled(&self.held, b"EOF") {
            if !self.settings.names(Key::ProblemFile) {
                return Err(self.fault(ParamKind::MissingProblem));
            }
            return Ok(FeedResult::Done);
        }
        if byte == b'\n' {
            return self.end_line();
        }
        self.keep(byte)
    }

    /// The parameters that the settings specify, at the end of the text.
    fn answer(self) -> Result<Params, ParamFault>
        ensures { result ≡ answer_at_end self.line self.settings }
    {
        Params::from_settings(self.settings).ok_or(ParamFault {
            line: self.line,
            kind: ParamKind::MissingProblem,
        })
    }
}

impl TextReader for ParamReader {
    type Out = Params;

    type Fault = ParamFault;

    ghost Value = { ParamsAre };

    ghost view = { λ params. params };

    ghost texts = { params_texts };

    ghost fed = { ParamsWait };

    ghost held = { params_in };

    ghost complete = { NamesProblem };

    ghost too_long_reported = { λ line. refl };

    ghost waits = { λ reader before waits. waits.undecided };

    fn feed(&mut self, bytes: &[u8]) -> Result<FeedResult, ParamFault> {
        self.feed_byte(bytes[0])
    }

    fn finish(self) -> Result<Params, ParamFault> {
        let mut reader = self;
        if spelled(&reader.held, b"EOF") {
            return reader.answer();
        }
        reader.take_held()?;
        reader.answer()
    }

    fn value(self) -> Params {
        Params::from_settings(self.settings).unwrap()
    }

    fn limit(&self) -> u64 {
        PARAMS_LIMIT
    }

    fn too_long(&self) -> ParamFault {
        self.fault(ParamKind::TooLong)
    }

    fn cut_off(&self) -> ParamFault {
        self.fault(ParamKind::Read)
    }
}

/// Reads a parameter file of at most 1,048,576 bytes, in lines of at most 4,096, no further than its result requires.
///
/// If the file is not read to its end, every text that begins with the bytes read has this result, except for `Read`
/// and `NoMemory`.
///
/// # Errors
/// The first fault of the text, with its line; `Read` if the source fails, and `NoMemory` if memory runs out.
pub fn read_params<R: Source>(alloc: Global, source: &mut R) -> Result<Params, ParamFault>
    ensures reads { IsReading R.Source params_texts (λ params. params) source.old source.new result }
{
    read_text(source, ParamReader::new(alloc))
}
