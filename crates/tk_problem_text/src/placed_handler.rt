//! The form of problem texts with the places of their cities.
ghost use Rattle.std.specs.Prelude.{◌≡◌, ◌≤◌, List, [], IfErr, IfOk, length};
ghost use Rattle.tk_lines.specs.Pieces.{Piece};
ghost use Rattle.tk_problem_text.specs.Placed.{PlacedIs, placed_is, reads_display};
ghost use Rattle.tk_problem_text.specs.Reader.Parts.{HasParts};
ghost use Rattle.tk_problem_text.specs.Reader.PlacedHandler.{BeginsDisplay, ClosesDisplay, PlacedHolds, RefusesShown};
ghost use Rattle.tk_problem_text.specs.Reader.PlacedHandler.{TakesShown, placed_promise};

use crate::display::Display;
use crate::header_values::WeightType;
use crate::placed_problem::PlacedProblem;
use crate::problem_handler::ProblemHandler;
use crate::sections::coordinates::Coordinates;
use std::alloc::{AllocError, Global};
use std::mem;
use tk_lines::{Handler, Taken, ValueScanner};
use tk_words::{Keyword, Lexeme, TextKind};

/// The parts of a problem text that have been read, and its display data.
#[derive(Drop)]
pub struct PlacedHandler {
    pub problem: ProblemHandler,
    pub display: Display,
}

/// Takes a token of the display data.
fn take_shown(section: &mut Coordinates, token: &Lexeme) -> Result<Taken, TextKind>
    requires { length token.now ≤ 64 }
    ensures ok { TakesShown token.now section.old section.new result }
    ensures err { RefusesShown token.now section.old result }
{
    if token.keyword().is_some() {
        return Err(TextKind::Truncated);
    }
    section.take(token)
}

impl PlacedHandler {
    /// No piece has been read.
    ///
    /// # Errors
    /// `AllocError` if memory runs out.
    pub fn new(alloc: Global) -> Result<Self, AllocError>
        ensures { IfOk result (λ s. PlacedHolds s []) }
    {
        Ok(PlacedHandler {
            problem: ProblemHandler::new(alloc)?,
            display: Display::Unread,
        })
    }

    /// Whether the values of the section of a word are read: those of the display data, unless the weights are known
    /// to be distances in the plane.
    fn reads(&self, word: Keyword) -> bool
        ensures { (ps : List Piece) → HasParts self.now.problem.parts ps → result ≡ reads_display ps word }
    {
        match word {
            Keyword::DisplayDataSection => {
                !matches!(
                    self.problem.parts.headers.weight_type,
                    Some(WeightType::Plane(_))
                )
            }
            _ => false,
        }
    }

    /// Begins the display data.
    fn begin_display(&mut self) -> Result<(), TextKind>
        ensures ok { BeginsDisplay self.old self.new result }
        ensures err { IfErr result (λ k. k ≡ TextKind.NoMemory) }
    {
        let size = self.problem.parts.headers.dimension.unwrap_or(0);
        self.display = Display::Open(Coordinates::new(self.problem.alloc, size)?);
        Ok(())
    }

    /// Stores the display data, after their last token.
    fn close(&mut self)
        ensures { ClosesDisplay self.old self.new }
    {
        let display = mem::replace(&mut self.display, Display::Unread);
        self.display = display.closed();
        self.problem.parts.note_display();
    }
}

impl Handler for PlacedHandler {
    type Out = PlacedProblem;

    ghost Value = { PlacedIs };

    ghost view = { placed_is };

    ghost promise = { placed_promise };

    fn header(&mut self, word: Keyword, value: &ValueScanner) -> Result<(), TextKind> {
        self.problem.header(word, value)
    }

    fn section(&mut self, word: Keyword) -> Result<(), TextKind> {
        self.problem.section(word)?;
        if self.reads(word) {
            self.begin_display()?;
        }
        Ok(())
    }

    fn token(&mut self, token: &Lexeme) -> Result<Taken, TextKind> {
        let Display::Open(section) = &mut self.display else {
            return self.problem.token(token);
        };
        let taken = take_shown(section, token)?;
        match taken {
            Taken::More => Ok(taken),
            _ => {
                self.close();
                Ok(taken)
            }
        }
    }

    fn end_section(&mut self) -> Result<(), TextKind> {
        match self.display {
            Display::Open(_) => Err(TextKind::Truncated),
            _ => self.problem.end_section(),
        }
    }

    fn end(&self) -> Option<TextKind> {
        self.problem.end()
    }

    fn value(self) -> PlacedProblem {
        let PlacedHandler { problem, display } = self;
        let ProblemHandler {
            alloc: _,
            parts,
            current: _,
        } = problem;
        parts.into_placed(display)
    }
}
