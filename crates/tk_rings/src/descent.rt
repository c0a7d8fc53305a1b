//! The descent of a ring.
ghost use Rattle.std.specs.Prelude.{◌≡◌, pos, ◌+◌, ◌*◌, ◌/◌, ◌≤◌, [], length};
ghost use Rattle.tk_near.specs.Near.{near_of};
ghost use Rattle.tk_tour.specs.Tour.{IsTour, tour_length};
ghost use Rattle.tk_descent.specs.Descents.{AreOfSize, DescentUnder, saved};
ghost use Rattle.tk_descent.specs.WakeMachine.{WakesUnder};
ghost use Rattle.tk_rings.specs.Capacities.{IsFitting, is_allowed};
ghost use Rattle.tk_rings.specs.LoadedRings.{cities_in, demands_in, stand_in};

use crate::capacity::Capacity;
use crate::loaded::LoadedRing;
use tk_descent::{Gains, Report, Waking, descend_under};
use tk_near::Near;
use tk_tour::UndoStore;

/// Makes a ring that fits shorter, by moves after which it still fits, until no element is awake.
///
/// A look tries the near elements of an element. The segment of an Or-opt move has at most `or_segment` elements (1 to
/// 3). `before` is the length of the ring.
pub fn descend_ring<S: UndoStore, G: Gains>(
    ring: &mut LoadedRing<'_, S>,
    gains: &mut G,
    vehicles: &Capacity<'_>,
    near: &Near,
    waking: &mut Waking,
    or_segment: u32,
    before: i64,
) -> Report
    requires sizes { AreOfSize (length (cities_in ring.old)) (G.size_of gains.old) near.now.size waking.old.size }
    requires most { (1 ≤ or_segment) × (or_segment ≤ 3) }
    requires before { before ≡ pos (tour_length (G.distance gains.old) (cities_in ring.old)) }
    requires suits { demands_in ring.old ≡ vehicles.now.demands.now }
    requires fits { IsFitting vehicles.now.capacity vehicles.now.demands.now (cities_in ring.old) }

    // the descent under the rule that a ring fits, and its report
    ensures descent { DescentUnder (IsFitting vehicles.now.capacity vehicles.now.demands.now)
        (is_allowed vehicles.now.capacity vehicles.now.demands.now)
        (record { distance = G.distance gains.old; near = near.now; or_segment = or_segment })
        (stand_in ring.old waking.old (G.test_count gains.old))
        (stand_in ring.new waking.new (G.test_count gains.new)) result }

    // a run of the wake machine with capacity
    ensures wakes { WakesUnder (IsFitting vehicles.now.capacity vehicles.now.demands.now) (G.distance gains.old)
        (near_of near.now) or_segment (cities_in ring.old) waking.old.queue (cities_in ring.new) [] }

    // to a ring of the same elements that fits
    ensures fits { IsFitting vehicles.now.capacity vehicles.now.demands.now (cities_in ring.new) }
    ensures ring { IsTour (length (cities_in ring.old)) (cities_in ring.new) }
    ensures after { result.after ≡ pos (tour_length (G.distance gains.old) (cities_in ring.new)) }

    // by so many moves, tests and swaps
    ensures moves { result.moves + tour_length (G.distance gains.old) (cities_in ring.new)
        ≤ tour_length (G.distance gains.old) (cities_in ring.old) }
    ensures headline { result.tests
        ≤ 4 * or_segment * near.now.width * (length (cities_in ring.old) + 6 * saved result) }
    ensures swaps { result.swaps ≤ 3 * (length (cities_in ring.old) / 4) * result.moves }
{
    descend_under(ring, gains, vehicles, near, waking, or_segment, before)
}
