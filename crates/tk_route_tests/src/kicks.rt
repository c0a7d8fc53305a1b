//! Kicks of a small ring, worked by hand. Two vehicles carry three customers each.
ghost use Rattle.std.specs.Prelude.{◌≡◌, length};
ghost use Rattle.tk_rings.specs.Capacities.{IsFitting};
ghost use Rattle.tk_rings.specs.LoadedRings.{cities_in, demands_in};
ghost use Rattle.tk_ring_search.specs.Kicks.{IsKick};

use crate::given::{expect, expect_list, loaded_ring};
use crate::line::DEMANDS;
use rand_core::SeedableRng;
use rand_pcg::Pcg32;
use std::alloc::Global;
use std::process::Abort;
use tk_ring_search::{Kick, draw_fitting};
use tk_rings::{Capacity, LoadedRing};
use tk_search::Cuts;
use tk_tour::{ArrayTour, UndoStore};

// A kick of the ring 7 1 2 3 8 4 5 6 9, whether the ring fits after it, and the ring then, in its canonical form.
struct Row {
    first: u32,
    cuts: [u32; 3],
    ends: [u32; 8],
    fits: bool,
    kicked: [u32; 9],
}

static ROWS: [Row; 4] = [
    Row {
        first: 2,
        cuts: [1, 2, 3],
        ends: [1, 1, 2, 2, 3, 3, 8, 7],
        fits: true,
        kicked: [1, 2, 3, 7, 9, 6, 5, 4, 8],
    },
    // the customers 1, 2, 4 and 5 come to stand between two copies
    Row {
        first: 4,
        cuts: [1, 2, 4],
        ends: [3, 3, 8, 8, 4, 5, 6, 2],
        fits: false,
        kicked: [1, 2, 4, 5, 8, 3, 6, 9, 7],
    },
    Row {
        first: 4,
        cuts: [1, 3, 4],
        ends: [3, 3, 8, 4, 5, 5, 6, 2],
        fits: true,
        kicked: [1, 2, 5, 8, 4, 3, 6, 9, 7],
    },
    // the first part is 9 7: it begins with the last element of the list
    Row {
        first: 9,
        cuts: [2, 4, 6],
        ends: [9, 7, 1, 2, 3, 8, 4, 6],
        fits: false,
        kicked: [1, 2, 9, 7, 4, 5, 6, 3, 8],
    },
];

// The demands of the customers, and vehicles that carry three of them each.
fn vans() -> Capacity<'static>
    ensures capacity { result.capacity ≡ 3 }
    ensures demands { result.demands.now ≡ DEMANDS }
{
    Capacity {
        demands: &DEMANDS,
        capacity: 3,
    }
}

// The ring of the routes 1 2 3 and 4 5 6.
fn two_routes(rt: &impl Abort, alloc: Global) -> LoadedRing<'static, ArrayTour>
    ensures size { length (cities_in result) ≡ 9 }
    ensures demands { demands_in result ≡ DEMANDS }
    ensures fits { IsFitting 3 DEMANDS (cities_in result) }
{
    loaded_ring(rt, alloc, &[7, 1, 2, 3, 8, 4, 5, 6, 9], 0, &DEMANDS)
}

// A kick of nine elements.
fn kick_of(rt: &impl Abort, first: u32, cuts: [u32; 3]) -> Kick
    ensures { IsKick 9 result }
{
    let [p, q, r] = cuts;
    expect(rt, 1 <= first);
    expect(rt, first <= 9);
    expect(rt, 1 <= p);
    expect(rt, p < q);
    expect(rt, q < r);
    expect(rt, r < 9);
    expect(rt, p <= 10);
    expect(rt, q - p <= 10);
    expect(rt, r - q <= 10);
    Kick {
        first,
        cuts: Cuts { p, q, r },
    }
}

// Makes the kick of a row, and checks its ends, and whether the ring fits after it.
fn expect_kick<S: UndoStore>(
    rt: &impl Abort,
    ring: &mut LoadedRing<'_, S>,
    vehicles: &Capacity<'_>,
    row: &Row,
)
    requires size { length (cities_in ring.old) ≡ 9 }
    requires suits { demands_in ring.old ≡ vehicles.now.demands.now }
    requires fits { IsFitting vehicles.now.capacity vehicles.now.demands.now (cities_in ring.old) }
{
    let kick = kick_of(rt, row.first, row.cuts);
    expect_list(rt, &kick.ends(ring), &row.ends);
    expect(rt, kick.fits(ring, vehicles) == row.fits);
    kick.make(ring);
}

// Checks the canonical form of a ring.
fn expect_printed(rt: &impl Abort, alloc: Global, ring: &ArrayTour, want: &[u32]) {
    let printed = ring.canonical(alloc).expect(rt, "memory for a list");
    expect_list(rt, &printed, want);
}

fn expect_row(rt: &impl Abort, alloc: Global, row: &Row) {
    let mut ring = two_routes(rt, alloc);
    expect_kick(rt, &mut ring, &vans(), row);
    expect_printed(rt, alloc, ring.tour(), &row.kicked);
}

#[test]
fn kicks_fit_or_not(rt: HostRuntime) {
    for row in &ROWS {
        expect_row(&rt, rt.alloc(), row);
    }
}

// Checks that the last kick that is drawn, and no other, is one after which the ring fits.
fn expect_last_fits<S: UndoStore>(
    rt: &impl Abort,
    ring: &LoadedRing<'_, S>,
    vehicles: &Capacity<'_>,
)
    requires size { length (cities_in ring.now) ≡ 9 }
    requires suits { demands_in ring.now ≡ vehicles.now.demands.now }
    requires fits { IsFitting vehicles.now.capacity vehicles.now.demands.now (cities_in ring.now) }
{
    let drawn = draw_fitting(ring, vehicles, &mut Pcg32::seed_from_u64(1));
    let mut rng = Pcg32::seed_from_u64(1);
    expect(rt, 1 <= drawn.draws);
    for draw in 1..=drawn.draws {
        let kick = Kick::draw(&mut rng, 9);
        let is_last = draw == drawn.draws;
        expect(rt, kick.fits(ring, vehicles) == is_last);
        expect(rt, (drawn.kick == Some(kick)) == is_last);
    }
}

#[test]
fn draws_until_a_kick_fits(rt: HostRuntime) {
    let ring = two_routes(&rt, rt.alloc());
    expect_last_fits(&rt, &ring, &vans());
}
