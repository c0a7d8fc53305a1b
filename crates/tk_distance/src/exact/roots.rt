//! Integer roots.
ghost use Rattle.std.specs.Prelude.{◌+◌, ◌*◌, ◌<◌};
ghost use Rattle.tk_distance.specs.Roots.{IsRoot, IsRootUp};

use crate::exact::guess::near_wide_root;

/// The largest integer whose square is at most `x`.
pub fn root(x: u128) -> u64
    ensures { IsRoot x result }
{
    let guess = near_wide_root(x);
    let near = guess as u128;
    let square = near * near;
    if square <= x {
        if x - square <= 2 * near {
            return guess;
        }
    } else if square - x < 2 * near {
        return guess - 1;
    }
    searched(x)
}

#[cold]
#[inline(never)]
fn searched(x: u128) -> u64
    ensures { IsRoot x result }
{
    x.isqrt() as u64
}

/// The smallest integer whose square is at least `x`.
pub fn root_up(x: u128) -> u128
    ensures { IsRootUp x result }
{
    let below = root(x) as u128;
    if below * below == x { below } else { below + 1 }
}
