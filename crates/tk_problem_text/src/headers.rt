//! The headers of a problem that have been read.
ghost use Rattle.std.specs.Prelude.{◌≡◌, ◌≤◌, ◌++◌, ℕ, Bool, true, false, List, [], length, Option, Some, None, IfOk};
ghost use Rattle.std.specs.Prelude.{IfErr};
ghost use Rattle.tk_words.specs.declared.keyword.Keyword.{Keyword};
ghost use Rattle.tk_words.specs.declared.fault.TextKind.{TextKind};
ghost use Rattle.tk_words.specs.Words.{same_word};
ghost use Rattle.tk_lines.specs.Pieces.{Piece, has, first_at, Fault};
ghost use Rattle.tk_problem_text.specs.Reader.Kept.{KeepsHeader, ValueSays, once};
ghost use Rattle.tk_lines.specs.Reader.Handlers.{IsReportedWord, a_header};
ghost use Rattle.tk_problem_text.specs.Problem.{problem_header};
ghost use Rattle.tk_words.specs.Lex.{trim, after_word};
ghost use Rattle.tk_lines.specs.Reader.HandlerSteps.{RefusesHeader, TakesHeader};

use crate::header_values::{
    ProblemType, WeightFormat, WeightType, is_coordinate_type, problem_type_of, weight_format_of,
    weight_type_of,
};
use std::alloc::{AllocError, Global};
use tk_lines::ValueScanner;
use tk_problem::{CAPACITY_LIMIT, CITY_LIMIT};
use tk_words::{Keyword, TextKind};

/// The headers of a problem that have been read.
#[derive(Drop)]
pub struct Headers {
    pub has_name: bool,
    pub name: Vec<u8>,
    pub problem_type: Option<ProblemType>,
    pub dimension: Option<u32>,
    pub capacity: Option<u32>,
    pub weight_type: Option<WeightType>,
    pub weight_format: Option<WeightFormat>,
    pub has_coordinate_type: bool,
    pub has_display_type: bool,
}

/// Stores the value of a header; `Repeated` if it has been stored before.
fn keep<A: Copy>(kept: &mut Option<A>, said: Result<A, TextKind>) -> Result<(), TextKind>
    ensures ok { (word : Keyword) (f : List ℕ → Option A) (tests : List (Bool × TextKind)) (ps : List Piece)
        (v : List ℕ) (n : ℕ) → same_word word word ≡ true → KeepsHeader word f kept.old ps → ValueSays f tests v said
        → IfOk result (λ _. KeepsHeader word f kept.new (ps ++ a_header word v n)
        × (first_at n (once word ps tests) ≡ None)) }
    ensures err { (word : Keyword) (f : List ℕ → Option A) (tests : List (Bool × TextKind)) (ps : List Piece)
        (v : List ℕ) (n : ℕ) → KeepsHeader word f kept.old ps → ValueSays f tests v said
        → IfErr result (IsReportedWord (λ k. first_at n (once word ps tests) ≡ Some (Fault n k))) }
{
    if kept.is_some() {
        return Err(TextKind::Repeated);
    }
    *kept = Some(said?);
    Ok(())
}

/// Notes that a header has been read; `Repeated` if it has been read before.
fn note(came: &mut bool) -> Result<(), TextKind>
    ensures ok { (word : Keyword) (ps : List Piece) (v : List ℕ) (n : ℕ) → same_word word word ≡ true
        → came.old ≡ has word ps → IfOk result (λ _. (came.new ≡ has word (ps ++ a_header word v n))
        × (has word ps ≡ false)) }
    ensures err { (word : Keyword) (ps : List Piece) → came.old ≡ has word ps
        → IfErr result (λ k. (k ≡ TextKind.Repeated) × (has word ps ≡ true)) }
{
    if *came {
        return Err(TextKind::Repeated);
    }
    *came = true;
    Ok(())
}

impl Headers {
    ghost use Rattle.tk_problem_text.specs.Reader.Headers.{HasHeaders};
    ghost use Rattle.tk_words.specs.declared.keyword.Keyword.TheVariants as words;

    /// No header has been read.
    ///
    /// # Errors
    /// `AllocError` if memory runs out.
    pub fn new(alloc: Global) -> Result<Self, AllocError>
        ensures { IfOk result (λ h. HasHeaders h []) }
    {
        Ok(Headers {
            has_name: false,
            name: Vec::from_slice(alloc, b"Unnamed")?,
            problem_type: None,
            dimension: None,
            capacity: None,
            weight_type: None,
            weight_format: None,
            has_coordinate_type: false,
            has_display_type: false,
        })
    }

    /// Takes a header.
    ///
    /// # Errors
    /// The first fault of the header: `Repeated`, `Unsupported`, `BadNumber`, `OutOfLimit` or `TooLong`, or `NoMemory`
    /// if memory runs out.
    pub fn take(
        &mut self,
        alloc: Global,
        word: Keyword,
        value: &ValueScanner,
    ) -> Result<(), TextKind>
        ensures ok { TakesHeader HasHeaders problem_header word value.now self.old self.new result }
        ensures err { RefusesHeader HasHeaders problem_header word value.now self.old result }
    {
        match word {
            Keyword::Name => self.take_name(alloc, value),
            Keyword::Comment => Ok(()),
            Keyword::Type => keep(
                &mut self.problem_type,
                problem_type_of(value).ok_or(TextKind::Unsupported),
            ),
            Keyword::Dimension => keep(&mut self.dimension, value.number(2, CITY_LIMIT)),
            Keyword::Capacity => keep(&mut self.capacity, value.number(1, CAPACITY_LIMIT)),
            Keyword::EdgeWeightType => keep(
                &mut self.weight_type,
                weight_type_of(value).ok_or(TextKind::Unsupported),
            ),
            Keyword::EdgeWeightFormat => keep(
                &mut self.weight_format,
                weight_format_of(value).ok_or(TextKind::Unsupported),
            ),
            Keyword::NodeCoordType => {
                note(&mut self.has_coordinate_type)?;
                if is_coordinate_type(value) {
                    Ok(())
                } else {
                    Err(TextKind::Unsupported)
                }
            }
            Keyword::DisplayDataType => note(&mut self.has_display_type),
            _ => Err(TextKind::Unsupported),
        }
    }

    /// Takes the value of NAME.
    fn take_name(&mut self, alloc: Global, value: &ValueScanner) -> Result<(), TextKind>
        ensures ok { TakesHeader HasHeaders problem_header words.Name value.now self.old self.new result }
        ensures err { RefusesHeader HasHeaders problem_header words.Name value.now self.old result }
    {
        match value.name() {
            None => Err(TextKind::TooLong),
            Some(name) => self.keep_name(alloc, name),
        }
    }

    /// Stores the name. If it is empty, the default name stays.
    fn keep_name(&mut self, alloc: Global, name: &[u8]) -> Result<(), TextKind>
        ensures ok { (ps : List Piece) (v : List ℕ) (n : ℕ) → HasHeaders self.old ps → name.now ≡ trim (after_word v)
            → length name.now ≤ 1024 → IfOk result (λ _. HasHeaders self.new (ps ++ a_header words.Name v n)
            × (has words.Name ps ≡ false)) }
        ensures err { (ps : List Piece) → HasHeaders self.old ps
            → IfErr result (IsReportedWord (λ k. (k ≡ TextKind.Repeated) × (has words.Name ps ≡ true))) }
    {
        if self.has_name {
            return Err(TextKind::Repeated);
        }
        if name.is_empty() {
            self.has_name = true;
            return Ok(());
        }
        match Vec::from_slice(alloc, name) {
            Ok(name) => {
                self.name = name;
                self.has_name = true;
                Ok(())
            }
            Err(_) => Err(TextKind::NoMemory),
        }
    }
}
