//! The outcome of the check of a tour.
ghost use Rattle.std.specs.Prelude.{◌≡◌};
ghost use Rattle.tk_distance.specs.Weights.{problem_distance};
ghost use Rattle.tk_tour.specs.Tour.{IsTour, tour_length};
ghost use Rattle.tk_tour.specs.Verdict.{IsVerdict};
ghost use Rattle.tk_outcomes.specs.TourOutcomes.{outcome_of, verdict_in};

use tk_distance::Table;
use tk_problem::Problem;
use tk_tour::{Verdict, length};

/// The outcome of the check of a list as a tour: its length, or its first fault.
#[derive(Clone, Copy, Debug)]
pub enum TourOutcome {
    /// The list is a tour.
    Tour {
        /// The number of cities.
        cities: u32,
        /// The length of the tour.
        length: u64,
    },
    /// The list has a wrong number of entries.
    WrongCount {
        /// The number of cities of the problem.
        wanted: u32,
        /// The number of entries of the list.
        read: u64,
    },
    /// An entry is not the number of a city.
    OutOfRange {
        /// The position of the entry, counted from 1.
        place: u32,
        /// The entry.
        city: u32,
    },
    /// An entry also occurs at an earlier position.
    RepeatedCity {
        /// The position of the entry, counted from 1.
        place: u32,
        /// The entry.
        city: u32,
    },
}

/// The length of a tour of a problem's cities.
pub fn length_of(problem: &Problem, cities: &[u32]) -> u64
    requires tour { IsTour problem.now.n cities.now }
    ensures { result ≡ tour_length (problem_distance problem.now.weights) cities.now }
{
    length(&Table::of(problem), cities).unsigned_abs()
}

impl TourOutcome {
    /// The outcome with this verdict on a list of a problem's cities.
    pub fn of(problem: &Problem, cities: &[u32], verdict: Verdict) -> TourOutcome
        requires { IsVerdict problem.now.n cities.now verdict }
        ensures { result
            ≡ outcome_of problem.now.n (problem_distance problem.now.weights) cities.now verdict }
    {
        match verdict {
            Verdict::Tour => TourOutcome::Tour {
                cities: problem.n,
                length: length_of(problem, cities),
            },
            Verdict::WrongCount => TourOutcome::WrongCount {
                wanted: problem.n,
                read: cities.len() as u64,
            },
            Verdict::OutOfRange(place) => TourOutcome::OutOfRange {
                place,
                city: cities[place as usize - 1],
            },
            Verdict::RepeatedCity(place) => TourOutcome::RepeatedCity {
                place,
                city: cities[place as usize - 1],
            },
        }
    }

    /// The verdict, without the numbers of the outcome.
    pub fn verdict(&self) -> Verdict
        ensures { result ≡ verdict_in self.now }
    {
        match *self {
            TourOutcome::Tour { .. } => Verdict::Tour,
            TourOutcome::WrongCount { .. } => Verdict::WrongCount,
            TourOutcome::OutOfRange { place, .. } => Verdict::OutOfRange(place),
            TourOutcome::RepeatedCity { place, .. } => Verdict::RepeatedCity(place),
        }
    }
}
