//! Tours and the queue of cities that are awake.
ghost use Rattle.std.specs.Prelude.{◌≡◌, IfSome};

use crate::host::Host;
use crate::{again, call};
use std::alloc::{AllocError, Global};
use tk_descent::{EdgeCache, Waking};
use tk_segments::SegmentTour;
use tk_tour::{ArrayTour, Flip, JournalTour, TourFault, TourStore, check};

/// Reverses the cities from after a to c, or those from after c to a.
pub fn flip_after<S: TourStore>(host: &Host<'_>, tour: &mut S, a: u32, c: u32) -> Option<Flip> {
    let n = tour.size();
    if a < 1 || a > n || c < 1 || c > n || a == c {
        host.fail();
        return None;
    }
    let (b, d) = (tour.next(a), tour.next(c));
    Some(tour.flip(a, b, c, d))
}

/// Eight cities in the order of their numbers, with a journal of this many flips.
fn journal(alloc: Global, slots: u32) -> Result<JournalTour<ArrayTour>, AllocError> {
    let Ok(tour) = ArrayTour::from_list(alloc, &[1, 2, 3, 4, 5, 6, 7, 8]) else {
        return Err(AllocError);
    };
    JournalTour::new(alloc, tour, slots)
}

/// Like `journal`, but the order of the tour is printed.
pub fn journal_of(host: &Host<'_>, slots: u32) -> Option<JournalTour<ArrayTour>> {
    let tour = again!(host, "JournalTour::new", journal(host.alloc, slots));
    if let Some(tour) = &tour {
        host.tell("JournalTour::new", &tour.tour().order());
    }
    tour
}

/// A tour in the order of the list, which is printed.
pub fn tour_of(host: &Host<'_>, cities: &[u32]) -> Option<ArrayTour> {
    let tour = again!(host, "from_list", ArrayTour::from_list(host.alloc, cities));
    if let Some(tour) = &tour {
        host.tell("from_list", &tour.order());
    }
    tour
}

/// Prints the canonical form of a tour.
pub fn show_canonical(host: &Host<'_>, tour: &ArrayTour) {
    call!(host, "canonical", tour.canonical(host.alloc));
}

/// Checks a list of four cities.
fn check_list(host: &Host<'_>, cities: &[u32]) {
    call!(host, "check", check(host.alloc, 4, cities));
}

/// Reverses a part of a tour, and prints the canonical form.
fn print_flipped(host: &Host<'_>) {
    if let Some(mut tour) = tour_of(host, &[1, 2, 3, 4]) {
        let _ = flip_after(host, &mut tour, 1, 3);
        show_canonical(host, &tour);
    }
}

/// Makes a tour in segments, and returns the number of its cities.
fn count_in_segments(alloc: Global) -> Result<u32, TourFault> {
    let tour = SegmentTour::from_list(alloc, &[1, 2, 3, 4])?;
    Ok(tour.size())
}

/// Makes a tour in segments.
fn make_segments(host: &Host<'_>) {
    if let Some(cities) = again!(
        host,
        "SegmentTour::from_list",
        count_in_segments(host.alloc)
    ) {
        host.tell_number("SegmentTour::from_list", &cities, "cities");
    }
}

/// A queue for this many cities, none of which is awake.
pub fn waking_of(host: &Host<'_>, size: u32) -> Option<Waking>
    ensures { IfSome result (λ waking. waking.size ≡ size) }
{
    again!(host, "Waking::new", Waking::new(host.alloc, size))
}

/// Wakes three cities, and one of them again, and takes cities from their queue until it is empty.
fn take_three(waking: &mut Waking) -> [Option<u32>; 4]
    requires { waking.old.size ≡ 3 }
{
    waking.wake_all();
    waking.wake(2);
    [waking.take(), waking.take(), waking.take(), waking.take()]
}

/// Makes a queue for three cities, and takes each of them from it.
fn wake_three(host: &Host<'_>) {
    if let Some(mut waking) = waking_of(host, 3) {
        host.tell("Waking::new", &take_three(&mut waking));
    }
}

/// Makes a cache of edge lengths for three cities.
fn make_steps(host: &Host<'_>) {
    let steps = again!(host, "EdgeCache::new", EdgeCache::new(host.alloc, 3, 2));
    if steps.is_some() {
        host.tell_number("EdgeCache::new", &3, "cities");
    }
}

/// Checks two lists, prints a tour, makes a tour in segments, wakes three cities, and makes a cache of edge lengths.
pub fn make_calls(host: &Host<'_>) {
    check_list(host, &[1, 2, 3, 4]);
    check_list(host, &[1, 2, 2, 4]);
    print_flipped(host);
    make_segments(host);
    wake_three(host);
    make_steps(host);
}
