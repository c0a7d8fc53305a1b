//! Examples of cuts and kicks.

use crate::given::{EIGHT, expect, expect_list, expect_printed, tour_of};
use rand_core::{Rng, SeedableRng};
use rand_pcg::Pcg32;
use std::alloc::Global;
use std::process::Abort;
use tk_build::{Cuts, kick};
use tk_tour::TourStore;

/// Checks the cuts that a generator with this seed draws for twelve cities, and the word that it draws next.
fn expect_cuts(rt: &impl Abort, seed: u64, want: Cuts, next: u32) {
    let mut rng = Pcg32::seed_from_u64(seed);
    expect(rt, Cuts::draw(&mut rng, 12) == want);
    expect(rt, rng.next_u32() == next);
}

#[test]
fn draws_cuts_by_the_words(rt: HostRuntime) {
    // the first word does not decide the first cut; with the second, it is rounded down, or up by a carry
    expect_cuts(&rt, 14042044, Cuts { p: 2, q: 4, r: 9 }, 2671601159);
    expect_cuts(&rt, 432574943, Cuts { p: 9, q: 10, r: 11 }, 3619262728);
}

/// Checks that these cuts of eight cities in their order have these ends, and that a kick leads to this tour.
fn expect_kick(rt: &impl Abort, alloc: Global, cuts: Cuts, ends: [u32; 8], want: &[u32]) {
    let mut tour = tour_of(rt, alloc, &EIGHT);
    expect(rt, tour.size() == 8);
    expect(rt, 1 <= cuts.p);
    expect(rt, cuts.p < cuts.q);
    expect(rt, cuts.q < cuts.r);
    expect(rt, cuts.r < 8);
    expect_list(rt, &cuts.ends(&tour), &ends);
    kick(&mut tour, cuts);
    expect_printed(rt, alloc, &tour, want);
}

#[test]
fn kicks_parts_of_two_cities_and_of_one(rt: HostRuntime) {
    let two = Cuts { p: 2, q: 4, r: 6 };
    expect_kick(
        &rt,
        rt.alloc(),
        two,
        [1, 2, 3, 4, 5, 6, 7, 8],
        &[1, 2, 7, 8, 5, 6, 3, 4],
    );
    let one = Cuts { p: 1, q: 2, r: 3 };
    expect_kick(
        &rt,
        rt.alloc(),
        one,
        [1, 1, 2, 2, 3, 3, 4, 8],
        &[1, 2, 3, 8, 7, 6, 5, 4],
    );
}
