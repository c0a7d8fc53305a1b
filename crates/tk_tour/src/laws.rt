//! Moves made of flips: an Or-opt move of two, or of three if the segment keeps its direction, and a double bridge of
//! four.

ghost use Rattle.std.specs.Prelude.{◌≡◌, ◌≤◌, ◌+◌, ◌*◌, ◌/◌, length};
ghost use Rattle.tk_tour.specs.Counters.{saturated};
ghost use Rattle.tk_tour.specs.Moves.{CutInFour, IsBridged, CutInThree, MovesReversed, MovesStraight, OrMove};
ghost use Rattle.tk_tour.specs.OrSteps.{TurnsBoth, TurnsPathBack, TurnsSegmentBack};

use crate::store::TourStore;

/// Moves the segment from x to e, which lies between a and b, to between c and d, and reverses it.
pub fn move_reversed<S: TourStore>(tour: &mut S, a: u32, x: u32, e: u32, b: u32, c: u32, d: u32)
    requires { CutInThree (S.cities tour.old) a x e b c d }
    ensures moved { MovesReversed (S.cities tour.old) (S.cities tour.new) a x e b c d }
    ensures made { (cut : CutInThree (S.cities tour.old) a x e b c d)
        → OrMove (length cut.segment) (S.cities tour.old) (S.cities tour.new) a x e b d c }
    ensures kept { S.FlipsOnly tour.old tour.new }
    ensures size { length (S.cities tour.new) ≡ length (S.cities tour.old) }
    ensures rises { S.swap_count tour.old ≤ S.swap_count tour.new }
    ensures swaps { S.swap_count tour.new ≤ S.swap_count tour.old + 2 * (length (S.cities tour.old) / 4) }
    ensures flips { S.flip_count tour.new ≤ S.flip_count tour.old + 2 }
{
    let _ = tour.flip(a, x, c, d);
    let _ = tour.flip(a, c, b, e);
}

/// Moves the segment from x to e, which lies between a and b, to between c and d, without reversing it.
pub fn move_straight<S: TourStore>(tour: &mut S, a: u32, x: u32, e: u32, b: u32, c: u32, d: u32)
    requires { CutInThree (S.cities tour.old) a x e b c d }
    ensures moved { MovesStraight (S.cities tour.old) (S.cities tour.new) a x e b c d }
    ensures made { (cut : CutInThree (S.cities tour.old) a x e b c d)
        → OrMove (length cut.segment) (S.cities tour.old) (S.cities tour.new) a x e b c d }
    ensures kept { S.FlipsOnly tour.old tour.new }
    ensures size { length (S.cities tour.new) ≡ length (S.cities tour.old) }
    ensures rises { S.swap_count tour.old ≤ S.swap_count tour.new }
    ensures swaps { S.swap_count tour.new ≤ S.swap_count tour.old + 3 * (length (S.cities tour.old) / 4) }
    ensures flips { S.flip_count tour.new ≤ S.flip_count tour.old + 3 }
{
    move_reversed(tour, a, x, e, b, c, d);
    let _ = tour.flip(c, e, x, d);
}

/// The double bridge: of the four paths of the cycle, which run from a1 to an and so on, swaps the second and the
/// fourth.
pub fn double_bridge<S: TourStore>(
    tour: &mut S,
    a1: u32,
    an: u32,
    b1: u32,
    bn: u32,
    c1: u32,
    cn: u32,
    d1: u32,
    dn: u32,
)
    requires { CutInFour (S.cities tour.old) a1 an b1 bn c1 cn d1 dn }
    ensures bridged { IsBridged (S.cities tour.old) (S.cities tour.new) a1 an b1 bn c1 cn d1 dn }
    ensures kept { S.FlipsOnly tour.old tour.new }
    ensures size { length (S.cities tour.new) ≡ length (S.cities tour.old) }
    ensures rises { S.swap_count tour.old ≤ S.swap_count tour.new }
    ensures swaps { S.swap_count tour.new ≤ S.swap_count tour.old + 4 * (length (S.cities tour.old) / 4) }
    ensures flips { S.flip_count tour.new ≡ saturated (S.flip_count tour.old + 4) }
{
    let _ = tour.flip(an, b1, dn, a1);
    let _ = tour.flip(an, dn, d1, cn);
    let _ = tour.flip(dn, cn, c1, bn);
    let _ = tour.flip(cn, bn, b1, a1);
}

/// A law: an Or-opt move of lists is a sequence of 2-opt moves of lists: two if the segment is reversed, and a third if
/// it keeps its direction.
pub fn or_moves_are_two_opt_moves()
    ensures first { TurnsBoth }
    ensures second { TurnsPathBack }
    ensures third { TurnsSegmentBack }
{}
