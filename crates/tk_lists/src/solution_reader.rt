//! Reads the lines of a solution text, byte by byte.
ghost use Rattle.std.specs.Prelude.{◌≡◌, ◌≤◌, true, false, List, [], ◌∷◌, length, Some, IfOk, IfErr};
ghost use Rattle.tk_words.specs.Lex.{Token};
ghost use Rattle.tk_lines.specs.Pieces.{Fault};
ghost use Rattle.tk_lines.specs.Reader.Handlers.{IsReportedWord};
ghost use Rattle.tk_lists.specs.Solution.{SolutionLine, Other, has_cost, may_be_word, solid_line, line_stop};
ghost use Rattle.tk_lists.specs.Reader.SolutionReader.{Keeps, IsAtPlace, IsHead, IsWordOf, IsFront, IsLineWord};
ghost use Rattle.tk_lists.specs.Reader.SolutionReader.{IsRoute};
ghost use Rattle.tk_lists.specs.Reader.SolutionReader.{StandsOnLine};
ghost use Rattle.tk_lists.specs.Reader.SolutionReader.{Went, LineStopsAt, line_from};
ghost use Rattle.tk_lists.specs.declared.solution_reader.LinePlace.TheVariants as places;
ghost use Rattle.tk_lists.specs.Reader.SolutionSteps.{EndsLine, RefusesLine, RefusesLineByte, TakesLineByte};

use crate::route_head::{HeadPlace, HeadStep};
use crate::solution_handler::SolutionHandler;
use std::alloc::Global;
use tk_words::{ByteBuffer, TextKind, blank, spelled, word_byte};

/// The state of a reader within a line.
#[derive(Clone, Copy)]
pub enum LinePlace {
    /// Before the first word.
    Start,
    /// In the first word, which may become `Route` or `Cost`.
    Word,
    /// On a line that is ignored.
    Skip,
    /// In the head of a Route line.
    Head(HeadPlace),
    /// Between the customers of a route.
    Gap,
    /// In a customer.
    Customer,
    /// After `Cost`, before its colon.
    Colon,
    /// Before the cost.
    Price,
    /// In the cost.
    Digits,
    /// After the cost.
    Close,
}

/// The first word of a line.
#[derive(Clone, Copy)]
pub enum LineWord {
    Route,
    Cost,
    Other,
}

/// Reads the bytes of a solution text, and stores its routes and its cost.
#[derive(Drop)]
pub struct SolutionReader {
    pub line: u64,
    pub place: LinePlace,
    pub held: ByteBuffer<64>,
    pub form: SolutionHandler,
}

/// Whether these bytes spell the beginning of a text, which is in capitals. Their own case does not matter.
fn begins(bytes: &[u8], text: &[u8]) -> bool
    ensures { result ≡ Rattle.tk_lists.specs.Solution.begins bytes.now text.now }
{
    bytes.len() <= text.len() && spelled(bytes, &text[..bytes.len()])
}

/// Whether these bytes spell the beginning of `Route` or `Cost`.
fn may_become_word(bytes: &[u8]) -> bool
    ensures { result ≡ may_be_word bytes.now }
{
    begins(bytes, b"ROUTE") || begins(bytes, b"COST")
}

/// The word that these bytes spell.
fn word_of(bytes: &[u8]) -> LineWord
    ensures { IsWordOf bytes.now result }
{
    if spelled(bytes, b"ROUTE") {
        return LineWord::Route;
    }
    if spelled(bytes, b"COST") {
        return LineWord::Cost;
    }
    LineWord::Other
}

impl SolutionReader {
    /// A reader that has read nothing.
    pub fn new(alloc: Global) -> Self
        ensures stands { StandsOnLine result [] [] }
        ensures line { result.line ≡ 1 }
        ensures start { result.place ≡ places.Start }
    {
        SolutionReader {
            line: 1,
            place: LinePlace::Start,
            held: ByteBuffer::new(),
            form: SolutionHandler::new(alloc),
        }
    }

    /// Begins a token with this byte.
    fn begin_token(&mut self, byte: u8, place: LinePlace)
        ensures kept { (self.new.line ≡ self.old.line) × (self.new.form ≡ self.old.form) }
        ensures begun { (self.new.held ≡ byte ∷ []) × (self.new.place ≡ place) }
    {
        self.held.clear();
        self.held.push(byte);
        self.place = place;
    }

    /// Ignores the rest of a line with another word, which is allowed only after the cost.
    fn skip(&mut self, byte: u8) -> Result<(), TextKind>
        ensures line { self.new.line ≡ self.old.line }
        ensures ok { (before : List SolutionLine) → Keeps self.old.form before []
            → IfOk result (λ _. Went before byte (λ bs whole. Other) self.new) }
        ensures err { (before : List SolutionLine) → Keeps self.old.form before []
            → IfErr result (IsReportedWord (LineStopsAt before self.old.line byte (λ bs whole. Other))) }
    {
        self.form.skip()?;
        self.place = LinePlace::Skip;
        Ok(())
    }

    /// Takes a byte of the head of a Route line.
    fn feed_head(&mut self, place: HeadPlace, byte: u8) -> Result<(), TextKind>
        requires { IsHead place }
        ensures line { self.new.line ≡ self.old.line }
        ensures ok { (before : List SolutionLine) → Keeps self.old.form before [] → IsRoute before []
            → IfOk result (λ _. Went before byte (line_from self.old.line [] [] (places.Head place)) self.new) }
        ensures err { (before : List SolutionLine) → IsRoute before []
            → IfErr result (IsReportedWord (LineStopsAt before self.old.line byte
            (line_from self.old.line [] [] (places.Head place)))) }
    {
        self.place = match place.step(byte) {
            HeadStep::At(next) => LinePlace::Head(next),
            HeadStep::Behind => LinePlace::Gap,
            HeadStep::Bad => return Err(TextKind::BadNumber),
        };
        Ok(())
    }

    /// Takes a byte before the cost.
    fn feed_price(&mut self, byte: u8)
        ensures line { self.new.line ≡ self.old.line }
        ensures went { (before : List SolutionLine) → Keeps self.old.form before [] → has_cost before ≡ false
            → Went before byte (line_from self.old.line [] [] places.Price) self.new }
    {
        if blank(byte) {
            self.place = LinePlace::Price;
        } else {
            self.begin_token(byte, LinePlace::Digits);
        }
    }

    /// Takes a byte after `Cost`, before the colon.
    fn feed_colon(&mut self, byte: u8)
        ensures line { self.new.line ≡ self.old.line }
        ensures went { (before : List SolutionLine) → Keeps self.old.form before [] → has_cost before ≡ false
            → Went before byte (line_from self.old.line [] [] places.Colon) self.new }
    {
        if blank(byte) {
            self.place = LinePlace::Colon;
        } else if byte == b':' {
            self.place = LinePlace::Price;
        } else {
            self.feed_price(byte);
        }
    }

    /// Takes a byte of the first word of a line, or the byte after it.
    fn feed_word(&mut self, byte: u8) -> Result<(), TextKind>
        requires { IsFront self.old.held }
        ensures line { self.new.line ≡ self.old.line }
        ensures ok { (before : List SolutionLine) → Keeps self.old.form before []
            → IfOk result (λ _. Went before byte (line_from self.old.line self.old.held [] places.Word) self.new) }
        ensures err { (before : List SolutionLine) → Keeps self.old.form before []
            → IfErr result (IsReportedWord (LineStopsAt before self.old.line byte
            (line_from self.old.line self.old.held [] places.Word))) }
    {
        if word_byte(byte) {
            self.held.push(byte);
            if may_become_word(self.held.as_slice()) {
                self.place = LinePlace::Word;
                return Ok(());
            }
            return self.skip(byte);
        }
        match word_of(self.held.as_slice()) {
            LineWord::Route => {
                self.form.begin_route()?;
                self.feed_head(HeadPlace::Word, byte)
            }
            LineWord::Cost => {
                self.form.begin_cost()?;
                self.feed_colon(byte);
                Ok(())
            }
            LineWord::Other => self.skip(byte),
        }
    }

    /// Takes a byte of a customer, or the blank after it.
    fn feed_customer(&mut self, byte: u8) -> Result<(), TextKind>
        requires { length self.old.held ≤ 64 }
        ensures line { self.new.line ≡ self.old.line }
        ensures ok { (before : List SolutionLine) (toks : List Token)
            → IsAtPlace self.old.form before self.old.held self.old.line toks places.Customer
            → IfOk result (λ _. Went before byte (line_from self.old.line self.old.held toks places.Customer)
            self.new) }
        ensures err { (before : List SolutionLine) (toks : List Token)
            → IsAtPlace self.old.form before self.old.held self.old.line toks places.Customer
            → IfErr result (IsReportedWord (LineStopsAt before self.old.line byte
            (line_from self.old.line self.old.held toks places.Customer))) }
    {
        if blank(byte) {
            self.form.take_customer(self.held.as_slice())?;
            self.place = LinePlace::Gap;
            return Ok(());
        }
        if self.held.is_full() {
            return Err(TextKind::TooLong);
        }
        self.held.push(byte);
        self.place = LinePlace::Customer;
        Ok(())
    }

    /// Takes a byte of the cost, or the blank after it.
    fn feed_digits(&mut self, byte: u8) -> Result<(), TextKind>
        requires { length self.old.held ≤ 64 }
        ensures line { self.new.line ≡ self.old.line }
        ensures ok { (before : List SolutionLine) (toks : List Token)
            → IsAtPlace self.old.form before self.old.held self.old.line toks places.Digits
            → IfOk result (λ _. Went before byte (line_from self.old.line self.old.held toks places.Digits) self.new) }
        ensures err { (before : List SolutionLine) (toks : List Token)
            → IsAtPlace self.old.form before self.old.held self.old.line toks places.Digits
            → IfErr result (IsReportedWord (LineStopsAt before self.old.line byte
            (line_from self.old.line self.old.held toks places.Digits))) }
    {
        if blank(byte) {
            self.form.take_cost(self.held.as_slice())?;
            self.place = LinePlace::Close;
            return Ok(());
        }
        if self.held.is_full() {
            return Err(TextKind::TooLong);
        }
        self.held.push(byte);
        self.place = LinePlace::Digits;
        Ok(())
    }

    /// Takes a byte that is not an LF.
    ///
    /// # Errors
    /// The fault that the bytes of the line up to this one contain.
    pub fn feed_line(&mut self, byte: u8) -> Result<(), TextKind>
        requires { (before : List SolutionLine) × (toks : List Token) × StandsOnLine self.old before toks }
        ensures line { self.new.line ≡ self.old.line }
        ensures ok { TakesLineByte byte self.old self.new result }
        ensures err { RefusesLineByte byte self.old result }
    {
        match self.place {
            LinePlace::Start => {
                if blank(byte) {
                    return Ok(());
                }
                self.held.clear();
                self.feed_word(byte)
            }
            LinePlace::Word => self.feed_word(byte),
            LinePlace::Skip => Ok(()),
            LinePlace::Head(place) => self.feed_head(place, byte),
            LinePlace::Gap => {
                if !blank(byte) {
                    self.begin_token(byte, LinePlace::Customer);
                }
                Ok(())
            }
            LinePlace::Customer => self.feed_customer(byte),
            LinePlace::Colon => {
                self.feed_colon(byte);
                Ok(())
            }
            LinePlace::Price => {
                self.feed_price(byte);
                Ok(())
            }
            LinePlace::Digits => self.feed_digits(byte),
            LinePlace::Close => {
                if blank(byte) {
                    return Ok(());
                }
                Err(TextKind::TrailingData)
            }
        }
    }

    /// Ends a line within its first word.
    fn end_word(&self) -> Result<(), TextKind>
        requires { IsLineWord self.now.held }
        ensures ok { (before : List SolutionLine) → Keeps self.now.form before []
            → IfOk result (λ _. (solid_line self.now.line true self.now.held ≡ Other) × (has_cost before ≡ true)) }
        ensures err { (before : List SolutionLine) → Keeps self.now.form before []
            → IfErr result (IsReportedWord (λ k. line_stop before self.now.line true
            (solid_line self.now.line true self.now.held) ≡ Some (Fault self.now.line k))) }
    {
        match word_of(self.held.as_slice()) {
            LineWord::Route => self.form.begin_route()?,
            LineWord::Cost => self.form.begin_cost()?,
            LineWord::Other => return self.form.skip(),
        }
        Err(TextKind::BadNumber)
    }

    /// Ends a line.
    ///
    /// # Errors
    /// The fault of the line.
    pub fn end_line(&mut self) -> Result<(), TextKind>
        requires { (before : List SolutionLine) × (toks : List Token) × StandsOnLine self.old before toks }
        ensures line { self.new.line ≡ self.old.line }
        ensures ok { EndsLine self.old self.new result }
        ensures err { RefusesLine self.old result }
    {
        match self.place {
            LinePlace::Start => Ok(()),
            LinePlace::Word => self.end_word(),
            LinePlace::Skip => Ok(()),
            LinePlace::Head(_) => Err(TextKind::BadNumber),
            LinePlace::Gap => self.form.end_route(),
            LinePlace::Customer => {
                self.form.take_customer(self.held.as_slice())?;
                self.form.end_route()
            }
            LinePlace::Colon => Err(TextKind::BadNumber),
            LinePlace::Price => Err(TextKind::BadNumber),
            LinePlace::Digits => self.form.take_cost(self.held.as_slice()),
            LinePlace::Close => Ok(()),
        }
    }
}
