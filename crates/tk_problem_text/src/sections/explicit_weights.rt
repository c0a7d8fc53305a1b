//! Reads the explicit weights of a problem, token by token.
ghost use Rattle.std.specs.Prelude.{◌≡◌, ◌≢◌, ◌<◌, ◌≤◌, ℕ, suc, List, [], ◌∷◌, ◌++◌, length, None, Some, pos};
ghost use Rattle.std.specs.Prelude.{slice_get, nat_lt, ◌&&◌, IfOk, IfErr, IfSome, OnErr};
ghost use Rattle.tk_problem.specs.declared.limits.TheConstants.{DISTANCE_LIMIT, TABLE_LIMIT};
ghost use Rattle.tk_problem.specs.declared.weights.Format.{Format};
ghost use Rattle.tk_problem.specs.declared.weights.Weights.TheVariants as weights;
ghost use Rattle.tk_lines.specs.Reader.Handlers.{IsReportedWord};
ghost use Rattle.tk_words.specs.Lex.{Token, integer};
ghost use Rattle.tk_lines.specs.Pieces.{first_at, Fault};
ghost use Rattle.tk_problem.specs.WeightOrder.{weight_of, entries};
ghost use Rattle.tk_problem_text.specs.Sections.WeightSection.{is_full, weight_count, weight_tests, weights_in};
ghost use Rattle.tk_problem_text.specs.Reader.FixedTokens.{RefusesFixed, TakesFixed};
ghost use Rattle.tk_problem_text.specs.Reader.Weighing.{GivesLower};

use std::alloc::Global;
use tk_lines::Taken;
use tk_problem::{Cell, DISTANCE_LIMIT, Format, LowerWeights};
use tk_words::{Lexeme, TextKind, limited};

/// EDGE_WEIGHT_SECTION: the weights of a format, stored as the lower triangle, row by row, without its diagonal.
#[derive(Drop)]
pub struct ExplicitWeights {
    pub format: Format,
    pub lower: LowerWeights,
}

impl ExplicitWeights {
    ghost use Rattle.tk_problem_text.specs.Reader.Weighing.{HasWeights};

    /// The section of n cities, before its first weight.
    ///
    /// # Errors
    /// `NoMemory` if memory runs out.
    pub fn new(alloc: Global, n: u32, format: Format) -> Result<Self, TextKind>
        requires { n ≤ TABLE_LIMIT }
        ensures ok { IfOk result (λ s. HasWeights n format s []) }
        ensures err { IfErr result (λ k. k ≡ TextKind.NoMemory) }
    {
        match LowerWeights::new(alloc, format, n) {
            Ok(lower) => Ok(ExplicitWeights { format, lower }),
            Err(_) => Err(TextKind::NoMemory),
        }
    }

    /// Takes a token. If there is an error, nothing changes.
    #[inline(always)]
    pub fn take(&mut self, token: &Lexeme) -> Result<Taken, TextKind>
        ensures ok { (n : ℕ) (f : Format) → TakesFixed (HasWeights n f) (weight_tests n f) (weight_count n f)
            token.now self.old self.new result }
        ensures err { (n : ℕ) (f : Format)
            → RefusesFixed (HasWeights n f) (weight_tests n f) token.now self.old result }
        ensures kept { OnErr result (self.new ≡ self.old) }
    {
        let Some(number) = token.integer() else {
            return Err(TextKind::BadNumber);
        };
        if self.lower.is_done() {
            return Ok(Taken::Last);
        }
        self.put(number)?;
        if self.lower.is_done() {
            return Ok(Taken::Last);
        }
        Ok(Taken::More)
    }

    /// Stores a number in the next cell, or skips a cell of the diagonal. If there is an error, nothing changes.
    #[inline(always)]
    fn put(&mut self, number: i64) -> Result<(), TextKind>
        requires { 0 < length self.old.lower.places }
        ensures ok { (n : ℕ) (f : Format) (toks : List Token) (t : Token) → HasWeights n f self.old toks
            → integer t.bytes ≡ Some number
            → IfOk result (λ _. (first_at t.line (weight_tests n f toks t) ≡ None)
            × HasWeights n f self.new (toks ++ t ∷ [])) }
        ensures err { (n : ℕ) (f : Format) (toks : List Token) (t : Token) → HasWeights n f self.old toks
            → integer t.bytes ≡ Some number
            → IfErr result (IsReportedWord (λ k. first_at t.line (weight_tests n f toks t) ≡ Some (Fault t.line k))) }
        ensures kept { OnErr result (self.new ≡ self.old) }
    {
        if self.lower.place().is_diagonal() {
            self.lower.skip();
            return Ok(());
        }
        let weight = self.weight(number)?;
        self.lower.push(weight);
        Ok(())
    }

    /// The weight that a number in the next cell specifies.
    #[inline(always)]
    fn weight(&self, number: i64) -> Result<u32, TextKind>
        requires more { 0 < length self.now.lower.places }
        requires pair { IfSome (slice_get self.now.lower.places 0) (λ p. p.row ≢ p.column) }
        ensures ok { (n : ℕ) (f : Format) (toks : List Token) (t : Token) → HasWeights n f self.now toks
            → integer t.bytes ≡ Some number → IfOk result (λ w. first_at t.line (weight_tests n f toks t) ≡ None) }
        ensures is { IfOk result (λ w. (number ≡ pos w) × (w ≤ DISTANCE_LIMIT)) }
        ensures err { (n : ℕ) (f : Format) (toks : List Token) (t : Token) → HasWeights n f self.now toks
            → integer t.bytes ≡ Some number
            → IfErr result (IsReportedWord (λ k. first_at t.line (weight_tests n f toks t) ≡ Some (Fault t.line k))) }
    {
        let place = self.lower.place();
        let Some(weight) = limited(number, 0, DISTANCE_LIMIT) else {
            return Err(TextKind::OutOfLimit);
        };
        if self.repeats(place) {
            return self.again(place, weight);
        }
        Ok(weight)
    }

    /// A weight below the diagonal of a full matrix; `NotSymmetric` unless it equals the weight above the diagonal.
    fn again(&self, place: Cell, weight: u32) -> Result<u32, TextKind>
        requires next { slice_get self.now.lower.places 0 ≡ Some place }
        requires below { place.column < place.row }
        ensures same { IfOk result (λ w. w ≡ weight) }
        ensures ok { (n : ℕ) (f : Format) (toks : List Token) → HasWeights n f self.now toks
            → IfOk result (λ w. w ≡ weight_of place.row place.column (entries f n (weights_in toks))) }
        ensures err { (n : ℕ) (f : Format) (toks : List Token) → HasWeights n f self.now toks
            → IfErr result (λ k. (k ≡ TextKind.NotSymmetric (suc place.column) (suc place.row))
            × (weight ≢ weight_of place.row place.column (entries f n (weights_in toks)))) }
    {
        if self.lower.weight() == weight {
            return Ok(weight);
        }
        Err(TextKind::NotSymmetric(place.column.saturating_add(1), place.row.saturating_add(1)))
    }

    /// Whether this cell of a full matrix repeats a pair that has been read.
    #[inline(always)]
    fn repeats(&self, place: Cell) -> bool
        ensures { result ≡ (is_full self.now.format && nat_lt place.column place.row) }
    {
        match self.format {
            Format::FullMatrix => place.column < place.row,
            _ => false,
        }
    }

    /// The lower triangle, after the last weight.
    pub fn into_lower(self) -> Vec<u32>
        ensures { GivesLower self result }
    {
        self.lower.into_weights()
    }
}
