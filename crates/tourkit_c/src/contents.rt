//! The contents of texts as arrays.
ghost use Rattle.std.specs.Prelude.{◌≡◌, ◌≤◌, length};
ghost use Rattle.tk_for_c.specs.Answers.{IsFaulty};
ghost use Rattle.tk_for_c.specs.Contents.{AreArraysStatus, ArePlacesOf, IsListCount, IsListOf, IsListRefused};
ghost use Rattle.tk_for_c.specs.Contents.{demands_in, points_in, weights_in};
ghost use Rattle.tk_for_c.specs.Ends.{IsArrayEnd};
ghost use Rattle.tk_for_c.specs.Texts.{TextSays};
ghost use Rattle.tk_for_c.specs.Tours.{IsCityCount};
ghost use Rattle.tk_text.specs.Tour.{tour_texts};

use std::alloc::Global;
use tk_for_c::Answer;

/// Writes the coordinates of a problem.
#[unsafe(no_mangle)]
pub extern "C" fn tourkit_coordinates(
    alloc: Global,
    problem: &[u8],
    xs: &mut [i64],
    ys: &mut [i64],
    answer: &mut Answer,
)
    ensures given { answer.new.status ≡ 0 → ArePlacesOf problem.now xs.new ys.new }
    ensures room { answer.new.status ≡ 4 → IsListCount points_in problem.now answer.new }
    ensures status { AreArraysStatus (length xs.old) (length ys.old) answer.new }
    ensures kept_xs { 2 ≤ answer.new.status → xs.new ≡ xs.old }
    ensures kept_ys { 2 ≤ answer.new.status → ys.new ≡ ys.old }
    ensures refused { answer.new.status ≡ 2 → IsListRefused points_in 19 problem.now answer.new }
{
    *answer = tk_for_c::tourkit_coordinates(alloc, problem, xs, ys);
}

/// Writes the explicit weights of a problem.
#[unsafe(no_mangle)]
pub extern "C" fn tourkit_weights(
    alloc: Global,
    problem: &[u8],
    out: &mut [u32],
    answer: &mut Answer,
)
    ensures { IsArrayEnd (IsListOf weights_in problem.now out.new) (IsListCount weights_in problem.now)
        (IsListRefused weights_in 28 problem.now) out.old out.new answer.new }
{
    *answer = tk_for_c::tourkit_weights(alloc, problem, out);
}

/// Writes the demands of a CVRP.
#[unsafe(no_mangle)]
pub extern "C" fn tourkit_demands(
    alloc: Global,
    problem: &[u8],
    out: &mut [u32],
    answer: &mut Answer,
)
    ensures { IsArrayEnd (IsListOf demands_in problem.now out.new) (IsListCount demands_in problem.now)
        (IsListRefused demands_in 16 problem.now) out.old out.new answer.new }
{
    *answer = tk_for_c::tourkit_demands(alloc, problem, out);
}

/// Writes the numbers that a tour text lists.
#[unsafe(no_mangle)]
pub extern "C" fn tourkit_tour_cities(
    alloc: Global,
    tour: &[u8],
    out: &mut [u32],
    answer: &mut Answer,
)
    ensures { IsArrayEnd (TextSays tour_texts tour.now out.new) (IsCityCount tour.now) (IsFaulty tour_texts 1 tour.now)
        out.old out.new answer.new }
{
    *answer = tk_for_c::tourkit_tour_cities(alloc, tour, out);
}
