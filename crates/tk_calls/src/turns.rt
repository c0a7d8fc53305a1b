//! Looks, moves, descents, kicks and flips. Memory is allocated before them, and none during them.
ghost use Rattle.std.specs.Prelude.{◌≡◌, ◌≤◌, length, pos};
ghost use Rattle.tk_tour.specs.ArrayTours.{order_of};
ghost use Rattle.tk_tour.specs.Tour.{tour_length};

use crate::host::Host;
use crate::lists::near_of;
use crate::tours::{flip_after, journal_of, show_canonical, tour_of, waking_of};
use tk_build::{Cuts, kick};
use tk_descent::{Probe, Report, Waking, descend, look, make};
use tk_metric::{Metric, Near, Table};
use tk_text::Problem;
use tk_tour::{ArrayTour, JournalTour, TourStore, length};

/// Makes the move that a look at city 1 offers.
fn look_and_make<M: Metric>(host: &Host<'_>, tour: &mut ArrayTour, metric: &M, near: &Near)
    requires some { 1 ≤ length (order_of tour.old) }
    requires metric { M.size_of metric.now ≡ length (order_of tour.old) }
    requires near { near.now.size ≡ length (order_of tour.old) }
{
    host.mark("built");
    let offer = look(tour, &mut Probe::new(metric), near, 3, 1);
    host.tell("look", &offer);
    if let Some(offer) = offer {
        make(tour, &offer);
    }
    host.tell("make", &tour.order());
    host.mark("done");
}

/// Removes the crossing from the tour of the square, by one look and its move.
fn look_at_square<M: Metric>(host: &Host<'_>, metric: &M, near: &Near) {
    let Some(mut tour) = tour_of(host, &[1, 2, 3, 4]) else {
        return;
    };
    if tour.size() != 4 || metric.size() != 4 || near.size() != 4 {
        return host.fail();
    }
    look_and_make(host, &mut tour, metric, near);
}

/// The length of a tour of all cities.
fn length_of<M: Metric>(metric: &M, tour: &ArrayTour) -> i64
    requires { M.size_of metric.now ≡ length (order_of tour.now) }
    ensures { result ≡ pos (tour_length (M.distance metric.now) (order_of tour.now)) }
{
    length(metric, tour.order())
}

/// Makes a descent with all cities awake.
pub fn descend_awake<M: Metric>(
    tour: &mut ArrayTour,
    waking: &mut Waking,
    metric: &M,
    near: &Near,
) -> Report
    requires metric { M.size_of metric.now ≡ length (order_of tour.old) }
    requires near { near.now.size ≡ length (order_of tour.old) }
    requires waking { waking.old.size ≡ length (order_of tour.old) }
    ensures tour { length (order_of tour.new) ≡ length (order_of tour.old) }
    ensures waking { waking.new.size ≡ waking.old.size }
{
    waking.wake_all();
    let before = length_of(metric, tour);
    descend(tour, &mut Probe::new(metric), near, waking, 3, before)
}

/// Prints the report of a descent.
fn show(host: &Host<'_>, report: &Report) {
    println!(host;
        "descend: {} to {}, {} moves, {} looks, {} tests, {} swaps",
        report.before, report.after, report.moves, report.looks, report.tests, report.swaps
    );
}

/// Prints the number of cities awake in a queue, wakes all of them, makes a descent of a tour, and prints its report.
fn wake_and_descend<M: Metric>(
    host: &Host<'_>,
    tour: &mut ArrayTour,
    waking: &mut Waking,
    metric: &M,
    near: &Near,
)
    requires metric { M.size_of metric.now ≡ length (order_of tour.old) }
    requires near { near.now.size ≡ length (order_of tour.old) }
    requires waking { waking.old.size ≡ length (order_of tour.old) }
{
    host.tell_number("Waking::new", &waking.len(), "awake");
    host.mark("built");
    show(host, &descend_awake(tour, waking, metric, near));
    host.mark("done");
}

/// Removes the crossing by a descent.
fn descend_square<M: Metric>(host: &Host<'_>, metric: &M, near: &Near) {
    let Some(mut tour) = tour_of(host, &[1, 2, 3, 4]) else {
        return;
    };
    let Some(mut waking) = waking_of(host, metric.size()) else {
        return;
    };
    if tour.size() != metric.size() || near.size() != metric.size() {
        return host.fail();
    }
    wake_and_descend(host, &mut tour, &mut waking, metric, near);
}

/// Makes and undoes a flip.
fn flip_and_undo(host: &Host<'_>, tour: &mut ArrayTour) {
    let Some(flip) = flip_after(host, tour, 1, 3) else {
        return;
    };
    host.tell_tour("flip", tour.order(), tour.swaps(), "swaps");
    if flip.first < 1 || flip.first > tour.size() || flip.count > tour.size() {
        return host.fail();
    }
    tour.undo(&flip);
    host.tell_tour("undo", tour.order(), tour.undo_swaps(), "swaps");
}

/// Kicks eight cities.
fn kick_eight(host: &Host<'_>, eight: &mut ArrayTour) {
    if eight.size() != 8 {
        return host.fail();
    }
    kick(eight, Cuts { p: 2, q: 4, r: 6 });
}

/// Makes and undoes a flip of four cities, kicks eight cities, and prints the canonical form of these.
fn flip_and_kick(host: &Host<'_>, four: &mut ArrayTour, eight: &mut ArrayTour) {
    host.mark("built");
    flip_and_undo(host, four);
    kick_eight(host, eight);
    host.mark("done");
    show_canonical(host, eight);
}

/// Makes the calls that reverse parts of a tour.
fn turn_parts(host: &Host<'_>) {
    let Some(mut four) = tour_of(host, &[1, 2, 3, 4]) else {
        return;
    };
    if let Some(mut eight) = tour_of(host, &[1, 2, 3, 4, 5, 6, 7, 8]) {
        flip_and_kick(host, &mut four, &mut eight);
    }
}

/// Makes two flips.
fn flip_twice(host: &Host<'_>, tour: &mut JournalTour<ArrayTour>) {
    let _ = flip_after(host, tour, 1, 7);
    let _ = flip_after(host, tour, 2, 4);
    host.tell_tour("flip", tour.tour().order(), tour.flips(), "flips");
}

/// Rewinds a tour by its journal, as far as the journal contains the flips.
fn rewind(host: &Host<'_>, tour: &mut JournalTour<ArrayTour>) {
    let is_back = tour.rewind();
    let array = tour.tour();
    let (cities, swaps) = (array.order(), array.undo_swaps());
    println!(host; "rewind: {is_back}, {cities:?}, {swaps} swaps");
}

/// Restores a tour by a copy of the start.
fn restore(host: &Host<'_>, tour: &mut JournalTour<ArrayTour>, start: &ArrayTour) {
    if tour.size() != start.size() {
        return host.fail();
    }
    tour.restore(start);
    let array = tour.tour();
    host.tell_tour("restore", array.order(), array.copied(), "copied");
}

/// Makes two flips, and goes back by the journal and by a copy.
fn flip_and_go_back(host: &Host<'_>, tour: &mut JournalTour<ArrayTour>, start: &ArrayTour) {
    host.mark("built");
    flip_twice(host, tour);
    rewind(host, tour);
    restore(host, tour, start);
    host.mark("done");
}

/// Goes back by a journal of this many flips, and by a copy. A journal of one flip loses one of the two.
fn go_back(host: &Host<'_>, slots: u32) {
    let Some(start) = tour_of(host, &[1, 2, 3, 4, 5, 6, 7, 8]) else {
        return;
    };
    if let Some(mut tour) = journal_of(host, slots) {
        flip_and_go_back(host, &mut tour, &start);
    }
}

/// Looks at the cities of a problem in the plane, and descends.
pub fn make_descents(host: &Host<'_>, problem: &Problem) {
    let table = Table::of(problem);
    if let Some(near) = near_of(host, &table, 3) {
        look_at_square(host, &table, &near);
        descend_square(host, &table, &near);
    }
}

/// Makes the calls that reverse parts of tours, and those that go back.
pub fn make_calls(host: &Host<'_>) {
    turn_parts(host);
    go_back(host, 2);
    go_back(host, 1);
}
