//! Customers on a line, at the distances 1, 2, .. from the depot, each with a demand of 1.
ghost use Rattle.std.specs.Prelude.{◌≡◌};

use crate::given::expect;
use std::process::Abort;
use tk_distance::Triangle;

/// The demands of six customers.
pub const DEMANDS: [u32; 6] = [1; 6];

/// The distances of n elements: the rows of the triangle below the diagonal.
pub fn line<'a>(rt: &impl Abort, n: u32, weights: &'a [u32]) -> Triangle<'a>
    ensures { result.n ≡ n }
{
    expect(rt, 1 <= n);
    expect(rt, n <= 16);
    expect(rt, weights.len() == (n * (n - 1) / 2) as usize);
    expect(rt, weights.iter().all(|weight| *weight <= 4_000_000_000));
    Triangle { n, weights }
}
