//! Reads tour texts.
ghost use Rattle.std.specs.Prelude.{◌≡◌, ◌<◌, ℕ, true, false, List, [], length, Some, None, Ok, IfOk, IfErr};
ghost use Rattle.tk_problem.specs.declared.limits.TheConstants.{ENTRY_LIMIT};
ghost use Rattle.tk_words.specs.declared.fault.TextKind.TheVariants as kinds;
ghost use Rattle.tk_lines.specs.declared.handler.Taken.TheVariants as takens;
ghost use Rattle.tk_words.specs.declared.keyword.Keyword.TheVariants as words;
ghost use Rattle.tk_words.specs.Reading.{IsReading};
ghost use Rattle.tk_lines.specs.Reader.Handlers.{IsReportedWord};
ghost use Rattle.tk_lists.specs.Tour.{as_tour, tour_header, tour_texts};
ghost use Rattle.tk_lists.specs.Reader.TourHandler.{TourHolds, IsNext, IsOut, tour_promise};
ghost use Rattle.tk_lines.specs.Reader.HandlerSteps.{RefusesHeader, TakesHeader};

use crate::texts::TourText;
use std::alloc::Global;
use tk_lines::{Handler, PieceReader, Taken, ValueScanner};
use tk_problem::ENTRY_LIMIT;
use tk_words::{Entry, Keyword, Lexeme, Source, TextFault, TextKind, limited, read_text};

/// Which keywords of a tour text have been read.
#[derive(Clone, Copy, Drop)]
pub struct TourWords {
    pub name: bool,
    pub kind: bool,
    pub dimension: bool,
    pub section: bool,
}

/// The contents of a tour text that have been read.
#[derive(Drop)]
pub struct TourHandler {
    pub seen: TourWords,
    pub cities: Vec<u32>,
}

/// Notes a keyword; `Repeated` if it has been noted before.
fn once(seen: &mut bool) -> Result<(), TextKind>
    ensures ok { IfOk result (λ _. (seen.old ≡ false) × (seen.new ≡ true)) }
    ensures err { IfErr result (λ k. (k ≡ kinds.Repeated) × (seen.old ≡ true)) }
{
    if *seen {
        return Err(TextKind::Repeated);
    }
    *seen = true;
    Ok(())
}

impl TourHandler {
    /// No header has been read.
    pub fn new(alloc: Global) -> Self
        ensures { TourHolds result [] }
    {
        TourHandler {
            seen: TourWords {
                name: false,
                kind: false,
                dimension: false,
                section: false,
            },
            cities: Vec::new(alloc),
        }
    }

    fn name(&mut self, value: &ValueScanner) -> Result<(), TextKind>
        ensures ok { TakesHeader TourHolds tour_header words.Name value.now self.old self.new result }
        ensures err { RefusesHeader TourHolds tour_header words.Name value.now self.old result }
    {
        if value.trimmed > 1024 {
            return Err(TextKind::TooLong);
        }
        once(&mut self.seen.name)
    }

    fn kind(&mut self, value: &ValueScanner) -> Result<(), TextKind>
        ensures ok { TakesHeader TourHolds tour_header words.Type value.now self.old self.new result }
        ensures err { RefusesHeader TourHolds tour_header words.Type value.now self.old result }
    {
        once(&mut self.seen.kind)?;
        if value.is(b"TOUR") {
            return Ok(());
        }
        Err(TextKind::Unsupported)
    }

    fn dimension(&mut self, value: &ValueScanner) -> Result<(), TextKind>
        ensures ok { TakesHeader TourHolds tour_header words.Dimension value.now self.old self.new result }
        ensures err { RefusesHeader TourHolds tour_header words.Dimension value.now self.old result }
    {
        once(&mut self.seen.dimension)?;
        value.number(1, ENTRY_LIMIT as u32)?;
        Ok(())
    }

    /// Takes a number of the list.
    fn number(&mut self, number: i64) -> Result<Taken, TextKind>
        ensures seen { self.new.seen ≡ self.old.seen }
        ensures ok { IfOk result (λ t. (t ≡ takens.More) × (length self.old.cities.items < ENTRY_LIMIT)
            × IsNext number self.old.cities.items self.new.cities.items) }
        ensures err { IfErr result (IsReportedWord (λ k. (k ≡ kinds.OutOfLimit)
            × IsOut number (length self.old.cities.items))) }
    {
        let Some(city) = limited(number, 0, u32::MAX) else {
            return Err(TextKind::OutOfLimit);
        };
        if self.cities.len() >= ENTRY_LIMIT {
            return Err(TextKind::OutOfLimit);
        }
        match self.cities.push(city) {
            Ok(()) => Ok(Taken::More),
            Err(_) => Err(TextKind::NoMemory),
        }
    }
}

impl Handler for TourHandler {
    type Out = TourText;

    ghost Value = { List ℕ };

    ghost view = { λ t. t.cities.items };

    ghost promise = { tour_promise };

    fn header(&mut self, word: Keyword, value: &ValueScanner) -> Result<(), TextKind> {
        match word {
            Keyword::Name => self.name(value),
            Keyword::Comment => Ok(()),
            Keyword::Type => self.kind(value),
            Keyword::Dimension => self.dimension(value),
            _ => Err(TextKind::Unsupported),
        }
    }

    fn section(&mut self, word: Keyword) -> Result<(), TextKind> {
        match word {
            Keyword::TourSection => once(&mut self.seen.section),
            _ => Err(TextKind::Unsupported),
        }
    }

    fn token(&mut self, token: &Lexeme) -> Result<Taken, TextKind> {
        match token.entry() {
            Entry::Number(number) => {
                if number == -1 {
                    return Ok(Taken::Ending);
                }
                self.number(number)
            }
            Entry::Eof => Ok(Taken::Eof),
            Entry::Word => Err(TextKind::Truncated),
            Entry::Other => Err(TextKind::BadNumber),
        }
    }

    fn end_section(&mut self) -> Result<(), TextKind> {
        Ok(())
    }

    fn end(&self) -> Option<TextKind> {
        if !self.seen.kind {
            return Some(TextKind::Missing(Keyword::Type));
        }
        if !self.seen.section {
            return Some(TextKind::Missing(Keyword::TourSection));
        }
        None
    }

    fn value(self) -> TourText {
        TourText {
            cities: self.cities,
        }
    }
}

/// Reads a tour text, no further than its result requires. If it is not read to its end, every text that begins with
/// the bytes read has this result, except for `Read`, if the source fails, and `NoMemory`.
///
/// # Errors
/// The first fault of the text, with its line; `Read` if the source fails before the result is known, and `NoMemory` if
/// memory runs out.
pub fn read_tour<R: Source>(alloc: Global, source: &mut R) -> Result<TourText, TextFault>
    ensures reads { IsReading R.Source tour_texts as_tour source.old source.new result }
{
    read_text(source, PieceReader::new(TourHandler::new(alloc)))
}
