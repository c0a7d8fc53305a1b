//! A metric whose distances are computed once.
ghost use Rattle.std.specs.Prelude.{◌≡◌, ◌*◌, IfOk, length};
ghost use Rattle.tk_routes.specs.Rows.{AreRows};

use std::alloc::{AllocError, Global};
use tk_distance::Metric;

/// A metric with all of its distances computed beforehand: those from each city to all cities, row by row.
#[derive(Drop)]
pub struct DistanceMatrix<'a, M: Metric> {
    pub metric: &'a M,
    pub size: usize,
    pub rows: Vec<u32>,
    ghost whole: { size ≡ M.size_of metric.now },
    ghost full: { length rows.items ≡ size * size },
    ghost each: { AreRows (M.distance metric.now) size rows.items },
}

impl<'a, M: Metric> DistanceMatrix<'a, M> {
    /// Computes the distances.
    ///
    /// # Errors
    /// `AllocError` if memory runs out.
    pub fn of(alloc: Global, metric: &'a M) -> Result<DistanceMatrix<'a, M>, AllocError>
        ensures { IfOk result (λ v. v.metric.now ≡ metric.now) }
    {
        let size = metric.size() as usize;
        let mut rows = Vec::with_capacity(alloc, size * size)?;
        for a in 0..size {
            for b in 0..size {
                rows.push(metric.dist(a as u32 + 1, b as u32 + 1) as u32)?;
            }
        }
        Ok(DistanceMatrix { metric, size, rows })
    }
}

impl<M: Metric> Metric for DistanceMatrix<'_, M> {
    ghost size_of = { λ m. M.size_of m.metric.now };

    ghost distance = { λ m. M.distance m.metric.now };

    ghost size_limit = { λ m. M.size_limit m.metric.now };

    ghost symmetric = { λ m. M.symmetric m.metric.now };

    ghost diagonal = { λ m. M.diagonal m.metric.now };

    ghost distance_limit = { λ m. M.distance_limit m.metric.now };

    #[inline]
    fn size(&self) -> u32 {
        self.size as u32
    }

    #[inline]
    fn dist(&self, a: u32, b: u32) -> i64 {
        self.rows[(a as usize - 1) * self.size + (b as usize - 1)] as i64
    }
}
