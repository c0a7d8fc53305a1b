//! Explicit weights while they are read.
ghost use Rattle.std.specs.Prelude.{◌≡◌, ◌≢◌, ◌≤◌, ◌<◌, ◌-◌, ◌*◌, ◌/◌, ◌^◌, ◌++◌, ◌==◌, ℕ, List, [], ◌∷◌, All, IfOk};
ghost use Rattle.std.specs.Prelude.{IfSome, Some, length, slice_get};
ghost use Rattle.tk_problem.specs.declared.limits.TheConstants.{DISTANCE_LIMIT};
ghost use Rattle.tk_problem.specs.declared.weights.Format.{Format};
ghost use Rattle.tk_problem.specs.WeightOrder as Order;
ghost use Rattle.tk_problem.specs.WeightsSoFar.{Filling, IsSoFar, IsWeightSoFar};

use crate::cell::Cell;
use crate::weight_order::WeightCursor;
use crate::weights::Format;
use std::alloc::{AllocError, Global};
use std::marker::Model;

/// The weights of all pairs of cities so far, row by row below the diagonal, and the cells of the weights that are
/// still to be read.
#[derive(Drop)]
pub struct LowerWeights {
    places: WeightCursor,
    weights: Vec<u32>,
}

impl Model for LowerWeights {
    ghost Value = { Filling };

    ghost view = { λ s. record { places = s.places; weights = s.weights.items } };

    ghost invariant = { λ s. All (λ p. p.row ≢ p.column → Order.lower_index p < length s.weights.items) s.places
        × All (λ w. w ≤ DISTANCE_LIMIT) s.weights.items };
}

impl LowerWeights {
    /// The weights of `n` cities before the first one is read: all are 0.
    ///
    /// # Errors
    /// `AllocError` if memory runs out.
    pub fn new(alloc: Global, format: Format, n: u32) -> Result<Self, AllocError>
        requires { n < 2 ^ 32 - 1 }
        ensures { IfOk result (λ s. IsSoFar s format n []) }
    {
        let cities = n as usize;
        let weights = vec![in alloc; 0; cities * cities.saturating_sub(1) / 2]?;
        let places = WeightCursor::new(format, n);
        Ok(LowerWeights { places, weights })
    }

    /// Whether all weights have been read.
    #[inline(always)]
    pub fn is_done(&self) -> bool
        ensures { result ≡ (length self.now.places == 0) }
    {
        self.places.is_done()
    }

    /// The cell of the next weight.
    #[inline(always)]
    pub fn place(&self) -> Cell
        requires { 0 < length self.now.places }
        ensures { slice_get self.now.places 0 ≡ Some result }
    {
        self.places.place()
    }

    /// The weight so far of the pair of the next cell: 0 if none of its weights has been read.
    pub fn weight(&self) -> u32
        requires more { 0 < length self.now.places }
        requires pair { IfSome (slice_get self.now.places 0) (λ p. p.row ≢ p.column) }
        ensures { (f : Format) (n : ℕ) (ws : List ℕ) → IsSoFar self.now f n ws → IsWeightSoFar self.now f n ws result }
    {
        self.weights[self.places.place().lower_index()]
    }

    /// Stores the next weight, which is not on the diagonal. If the pair already has one, replaces it.
    #[inline(always)]
    pub fn push(&mut self, weight: u32)
        requires more { 0 < length self.old.places }
        requires pair { IfSome (slice_get self.old.places 0) (λ p. p.row ≢ p.column) }
        requires limit { weight ≤ DISTANCE_LIMIT }
        ensures { (f : Format) (n : ℕ) (ws : List ℕ) → IsSoFar self.old f n ws
            → IsSoFar self.new f n (ws ++ weight ∷ []) }
    {
        let index = self.places.place().lower_index();
        self.weights[index] = weight;
        self.places.advance();
    }

    /// Skips the next weight, which is on the diagonal.
    #[inline(always)]
    pub fn skip(&mut self)
        requires more { 0 < length self.old.places }
        requires diagonal { IfSome (slice_get self.old.places 0) (λ p. p.row ≡ p.column) }
        ensures { (f : Format) (n : ℕ) (ws : List ℕ) (w : ℕ) → IsSoFar self.old f n ws
            → IsSoFar self.new f n (ws ++ w ∷ []) }
    {
        // Weights on the diagonal are not stored.
        self.places.advance();
    }

    /// The weights of all pairs of cities, row by row below the diagonal.
    pub fn into_weights(self) -> Vec<u32>
        ensures value { result.items ≡ self.weights }
        ensures limit { All (λ w. w ≤ DISTANCE_LIMIT) result.items }
        ensures count { (f : Format) (n : ℕ) (ws : List ℕ) → IsSoFar self f n ws
            → length result.items ≡ n * (n - 1) / 2 }
    {
        let LowerWeights { places: _, weights } = self;
        weights
    }
}
