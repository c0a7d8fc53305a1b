//! The form of problem texts.
ghost use Rattle.std.specs.Prelude.{◌≡◌, ℕ, true, false, List, [], IfOk};
ghost use Rattle.tk_words.specs.declared.keyword.Keyword.{Keyword};
ghost use Rattle.tk_words.specs.declared.keyword.Keyword.TheVariants as words;
ghost use Rattle.tk_problem_text.specs.Reader.OpenSections.{IsPast};
ghost use Rattle.tk_problem_text.specs.Reader.Parts.{HasParts};
ghost use Rattle.tk_problem_text.specs.ProblemOf.{problem_is};
ghost use Rattle.tk_lines.specs.Pieces.{Piece, has};
ghost use Rattle.tk_problem_text.specs.Problem.{ProblemIs};
ghost use Rattle.tk_problem_text.specs.Reader.ProblemHandler.{ProblemHolds, problem_promise};

use crate::parts::Parts;
use crate::sections::begin::begin;
use crate::sections::open_section::OpenSection;
use std::alloc::{AllocError, Global};
use std::mem;
use tk_lines::{Handler, Taken, ValueScanner};
use tk_problem::Problem;
use tk_words::{Keyword, Lexeme, TextKind};

/// The parts of a problem text that have been read, and the section that is being read.
#[derive(Drop)]
pub struct ProblemHandler {
    pub alloc: Global,
    pub parts: Parts,
    pub current: OpenSection,
}

impl ProblemHandler {
    /// No piece has been read.
    ///
    /// # Errors
    /// `AllocError` if memory runs out.
    pub fn new(alloc: Global) -> Result<Self, AllocError>
        ensures { IfOk result (λ s. ProblemHolds s []) }
    {
        Ok(ProblemHandler {
            alloc,
            parts: Parts::new(alloc)?,
            current: OpenSection::Nothing,
        })
    }

    /// Stores the contents of the open section, after its last token.
    fn close(&mut self)
        ensures { (before : List Piece) (word : Keyword) (n : ℕ) (ps : List Piece) → HasParts self.old.parts before
            → has words.Dimension before ≡ true → has word before ≡ false → IsPast before word n self.old.current ps
            → HasParts self.new.parts ps }
    {
        match mem::replace(&mut self.current, OpenSection::Nothing) {
            OpenSection::Nothing => {}
            OpenSection::Places(section) => self.parts.keep_places(section.into_places()),
            OpenSection::Explicit(section) => self.parts.keep_lower(section.into_lower()),
            OpenSection::Loads(section) => self.parts.keep_demand(section.into_loads()),
            OpenSection::Home(section) => {
                if let Some(node) = section.node {
                    self.parts.keep_depot(node);
                }
            }
            OpenSection::Display(_) => self.parts.note_display(),
        }
    }
}

impl Handler for ProblemHandler {
    type Out = Problem;

    ghost Value = { ProblemIs };

    ghost view = { problem_is };

    ghost promise = { problem_promise };

    fn header(&mut self, word: Keyword, value: &ValueScanner) -> Result<(), TextKind> {
        self.parts.take_header(self.alloc, word, value)
    }

    fn section(&mut self, word: Keyword) -> Result<(), TextKind> {
        self.current = begin(self.alloc, &self.parts, word)?;
        Ok(())
    }

    #[inline(always)]
    fn token(&mut self, token: &Lexeme) -> Result<Taken, TextKind> {
        let taken = self.current.take(token)?;
        match taken {
            Taken::More => Ok(taken),
            _ => {
                self.close();
                Ok(taken)
            }
        }
    }

    fn end_section(&mut self) -> Result<(), TextKind> {
        if !self.current.may_end() {
            return Err(TextKind::Truncated);
        }
        self.close();
        Ok(())
    }

    fn end(&self) -> Option<TextKind> {
        self.parts.end()
    }

    fn value(self) -> Problem {
        self.parts.into_problem()
    }
}
