//! Pseudorandom numbers by a linear congruential generator modulo 2^64.
ghost use Rattle.std.specs.Prelude.{◌<◌, ◌≤◌};

/// Advances the state, and returns it.
pub fn advance(state: &mut u64) -> u64 {
    *state = state
        .wrapping_mul(6_364_136_223_846_793_005)
        .wrapping_add(1_442_695_040_888_963_407);
    *state
}

/// The next number of 31 bits.
pub fn draw(state: &mut u64) -> u32
    ensures { result ≤ 2147483647 }
{
    (advance(state) >> 33) as u32
}

/// The next number below a limit.
pub fn draw_below(state: &mut u64, limit: u32) -> u32
    requires { 0 < limit }
    ensures { result < limit }
{
    draw(state) % limit
}
