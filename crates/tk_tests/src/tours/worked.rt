//! Worked examples of tours, and each call once at a concrete type.
use crate::given::{
    EIGHT, expect, expect_list, expect_printed, expect_two_cities, journal_of, tour_of,
};
use std::alloc::Global;
use std::process::Abort;
use tk_metric::Triangle;
use tk_tour::{ArrayTour, Flip, JournalTour, TourFault, TourStore, Verdict, check, laws, length};

/// Reverses the cities from after a to c, or those from after c to a.
pub fn flip_after<S: TourStore>(rt: &impl Abort, tour: &mut S, a: u32, c: u32) -> Flip {
    expect_two_cities(rt, tour.size(), a, c);
    let (b, d) = (tour.next(a), tour.next(c));
    tour.flip(a, b, c, d)
}

/// Checks that this flip was made with one swap and led to this order, and that undoing it leads back.
fn expect_undone(rt: &impl Abort, tour: &mut ArrayTour, flip: Flip, order: &[u32], cities: &[u32]) {
    expect_list(rt, tour.order(), order);
    expect(rt, tour.swaps() == 1);
    expect(rt, tour.flips() == 1);
    let n = tour.size();
    expect(rt, 1 <= flip.first);
    expect(rt, flip.first <= n);
    expect(rt, flip.count <= n);
    tour.undo(&flip);
    let tour = &*tour;
    expect_list(rt, tour.order(), cities);
    expect(rt, tour.swaps() == 1);
    expect(rt, tour.undo_swaps() == 1);
}

/// Checks that this flip is made after a and c, takes one swap and leads to this order, and that undoing it leads back.
fn expect_flip(
    rt: &impl Abort,
    alloc: Global,
    cities: &[u32],
    (a, c): (u32, u32),
    want: Flip,
    order: &[u32],
) {
    let mut tour = tour_of(rt, alloc, cities);
    expect(rt, flip_after(rt, &mut tour, a, c) == want);
    expect_undone(rt, &mut tour, want, order, cities);
}

#[test]
fn flips_the_shorter_side(rt: HostRuntime) {
    let inner = Flip { first: 2, count: 2 };
    expect_flip(&rt, rt.alloc(), &[1, 2, 3, 4], (1, 3), inner, &[1, 3, 2, 4]);
    let outer = Flip { first: 8, count: 2 };
    expect_flip(
        &rt,
        rt.alloc(),
        &EIGHT,
        (1, 7),
        outer,
        &[8, 2, 3, 4, 5, 6, 7, 1],
    );
}

/// Lists of four cities, and their canonical forms.
static PRINTED: [([u32; 4], [u32; 4]); 3] = [
    ([3, 1, 4, 2], [1, 3, 2, 4]),
    ([2, 4, 1, 3], [1, 3, 2, 4]),
    ([4, 3, 2, 1], [1, 2, 3, 4]),
];

#[test]
fn prints_towards_the_smaller_neighbour(rt: HostRuntime) {
    for (list, want) in &PRINTED {
        expect_printed(&rt, rt.alloc(), &tour_of(&rt, rt.alloc(), list), want);
    }
}

/// Lists that are not tours, with their faults.
static REFUSED: [(&[u32], TourFault); 6] = [
    (&[], TourFault::WrongCount),
    (&[1], TourFault::WrongCount),
    (&[3], TourFault::WrongCount),
    (&[1, 3], TourFault::OutOfRange(2)),
    (&[0, 0], TourFault::OutOfRange(1)),
    (&[2, 1, 2], TourFault::RepeatedCity(3)),
];

/// The fault of a list, if it has one.
fn fault_of(alloc: Global, list: &[u32]) -> Option<TourFault> {
    ArrayTour::from_list(alloc, list).err()
}

#[test]
fn refuses_lists(rt: HostRuntime) {
    for (list, want) in &REFUSED {
        expect(&rt, fault_of(rt.alloc(), list) == Some(*want));
    }
}

/// Faults, and their texts.
static SHOWN: [(TourFault, &str); 4] = [
    (
        TourFault::WrongCount,
        "wrong count: a tour has 2 to 100,000 cities",
    ),
    (TourFault::OutOfRange(4), "out of range at place 4"),
    (TourFault::RepeatedCity(3), "repeated city at place 3"),
    (TourFault::NoMemory, "out of memory"),
];

/// Checks the text of a fault.
fn expect_shown(rt: &impl Abort, alloc: Global, fault: TourFault, want: &str) {
    let shown = format!(in alloc; "{fault}").expect(rt, "memory for a line");
    expect(rt, shown.as_str() == want);
}

#[test]
fn shows_faults(rt: HostRuntime) {
    for (fault, want) in &SHOWN {
        expect_shown(&rt, rt.alloc(), *fault, want);
    }
}

/// Checks that a tour of four cities takes the order of another.
fn expect_copied(rt: &impl Abort, tour: &mut ArrayTour, other: &ArrayTour) {
    expect(rt, tour.size() == 4);
    expect(rt, other.size() == 4);
    tour.copy_from(other);
    let tour = &*tour;
    expect_list(rt, tour.order(), other.order());
    expect(rt, tour.copied() == 4);
    expect(rt, tour.at(2) == 2);
    expect(rt, tour.position(3) == 4);
    expect(rt, tour.next(4) == 2);
    expect(rt, tour.prev(4) == 3);
}

#[test]
fn copies(rt: HostRuntime) {
    let mut tour = tour_of(&rt, rt.alloc(), &[1, 2, 3, 4]);
    let other = tour_of(&rt, rt.alloc(), &[4, 2, 1, 3]);
    expect_copied(&rt, &mut tour, &other);
    expect_list(&rt, tour.order(), &[4, 2, 1, 3]);
}

/// Makes two flips of eight cities in the order of their numbers: from after 1 to 7, and from after 2 to 4.
fn flip_twice(rt: &impl Abort, tour: &mut JournalTour<ArrayTour>) {
    let _ = flip_after(rt, tour, 1, 7);
    let _ = flip_after(rt, tour, 2, 4);
    let tour = &*tour;
    expect_list(rt, tour.tour().order(), &[8, 2, 4, 3, 5, 6, 7, 1]);
    expect(rt, tour.flips() == 2);
}

/// Checks that a rewind undoes both flips.
fn expect_rewound(rt: &impl Abort, tour: &mut JournalTour<ArrayTour>) {
    flip_twice(rt, tour);
    expect(rt, tour.rewind());
    let tour = &*tour;
    expect(rt, tour.flips() == 0);
    expect_list(rt, tour.tour().order(), &EIGHT);
    expect(rt, tour.tour().undo_swaps() == 2);
    expect(rt, tour.swaps() == 2);
}

/// Checks that a rewind undoes flips, but not those before the tour was settled.
fn expect_settled(rt: &impl Abort, tour: &mut JournalTour<ArrayTour>) {
    let _ = flip_after(rt, tour, 1, 7);
    tour.settle();
    let _ = flip_after(rt, tour, 2, 4);
    expect(rt, tour.rewind());
    expect_list(rt, tour.tour().order(), &[8, 2, 3, 4, 5, 6, 7, 1]);
}

#[test]
fn rewinds(rt: HostRuntime) {
    let mut tour = journal_of(&rt, rt.alloc(), tour_of(&rt, rt.alloc(), &EIGHT), 2);
    expect_rewound(&rt, &mut tour);
    expect_settled(&rt, &mut tour);
}

/// Checks that a tour with a lost flip takes the order in which it began.
fn expect_restored(rt: &impl Abort, tour: &mut JournalTour<ArrayTour>, start: &ArrayTour) {
    expect(rt, tour.size() == 8);
    expect(rt, start.size() == 8);
    tour.restore(start);
    let tour = &*tour;
    expect_list(rt, tour.tour().order(), &EIGHT);
    expect(rt, tour.tour().copied() == 8);
    expect(rt, !tour.lost());
    expect(rt, tour.at(3) == 3);
    expect(rt, tour.next(8) == 1);
    expect(rt, tour.prev(8) == 7);
}

/// Loses a flip, and then restores the order in which the tour began.
fn lose_and_restore(rt: &impl Abort, tour: &mut JournalTour<ArrayTour>, start: &ArrayTour) {
    flip_twice(rt, tour);
    expect(rt, tour.lost());
    expect(rt, !tour.rewind());
    expect_list(rt, tour.tour().order(), &[8, 2, 4, 3, 5, 6, 7, 1]);
    expect_restored(rt, tour, start);
}

#[test]
fn restores_where_flips_were_lost(rt: HostRuntime) {
    let mut tour = journal_of(&rt, rt.alloc(), tour_of(&rt, rt.alloc(), &EIGHT), 1);
    lose_and_restore(&rt, &mut tour, &tour_of(&rt, rt.alloc(), &EIGHT));
}

/// Lists, and their verdicts as tours of four cities.
static CHECKED: [(&[u32], Verdict); 5] = [
    (&[3, 1, 4, 2], Verdict::Tour),
    (&[1, 2, 2, 4], Verdict::RepeatedCity(3)),
    (&[1, 2, 3, 5], Verdict::OutOfRange(4)),
    (&[1, 2, 3, 4, 1], Verdict::WrongCount),
    (&[], Verdict::WrongCount),
];

#[test]
fn checks_lists(rt: HostRuntime) {
    for (list, want) in &CHECKED {
        expect(&rt, check(rt.alloc(), 4, list) == Ok(*want));
    }
}

#[test]
fn moves_a_segment_turned_round(rt: HostRuntime) {
    let mut tour = tour_of(&rt, rt.alloc(), &EIGHT);
    laws::move_reversed(&mut tour, 1, 2, 3, 4, 5, 6);
    expect_printed(&rt, rt.alloc(), &tour, &[1, 4, 5, 3, 2, 6, 7, 8]);
}

#[test]
fn moves_a_segment_as_it_runs(rt: HostRuntime) {
    let mut tour = tour_of(&rt, rt.alloc(), &EIGHT);
    laws::move_straight(&mut tour, 1, 2, 3, 4, 5, 6);
    expect_printed(&rt, rt.alloc(), &tour, &[1, 4, 5, 2, 3, 6, 7, 8]);
}

#[test]
fn bridges_doubly(rt: HostRuntime) {
    let mut tour = tour_of(&rt, rt.alloc(), &EIGHT);
    laws::double_bridge(&mut tour, 1, 2, 3, 4, 5, 6, 7, 8);
    expect_printed(&rt, rt.alloc(), &tour, &[1, 2, 7, 8, 5, 6, 3, 4]);
}

#[test]
fn measures(rt: HostRuntime) {
    // cities along a line, one apart
    let line = Triangle {
        n: 4,
        weights: &[1, 2, 1, 3, 2, 1],
    };
    expect(&rt, length(&line, &[1, 3, 2, 4]) == 8);
    expect(&rt, length(&line, &[1, 4]) == 6);
    expect(&rt, length(&line, &[3]) == 0);
    expect(&rt, length(&line, &[]) == 0);
}
