//! Tests of the definitions of tours at small ones. The prover computes them; the functions do nothing.
ghost use Rattle.std.specs.Prelude.{[], ◌∷◌, ◌≡◌};
ghost use Rattle.tk_tour.specs.Reversal.{begun_at, reversed_places};
ghost use Rattle.tk_tour.specs.Tour.{next_city, occurrences, place_of, prev_city, tour_length};
ghost use Rattle.tk_tests.specs.TourExamples.{triangle};

fn lengths()
    ensures three { tour_length triangle (1 ∷ 2 ∷ 3 ∷ []) ≡ 12 }
    ensures turned { tour_length triangle (2 ∷ 1 ∷ 3 ∷ []) ≡ 12 }
    ensures two_count_twice { tour_length triangle (1 ∷ 3 ∷ []) ≡ 8 }
    ensures one { tour_length triangle (2 ∷ []) ≡ 0 }
    ensures none { tour_length triangle [] ≡ 0 }
{}

fn neighbours()
    ensures next { next_city (3 ∷ 1 ∷ 2 ∷ []) 3 ≡ 1 }
    ensures next_of_last { next_city (3 ∷ 1 ∷ 2 ∷ []) 2 ≡ 3 }
    ensures prev { prev_city (3 ∷ 1 ∷ 2 ∷ []) 1 ≡ 3 }
    ensures prev_of_first { prev_city (3 ∷ 1 ∷ 2 ∷ []) 3 ≡ 2 }
    ensures place { place_of 2 (3 ∷ 1 ∷ 2 ∷ []) ≡ 2 }
    ensures once { occurrences 2 (3 ∷ 1 ∷ 2 ∷ []) ≡ 1 }
    ensures twice { occurrences 2 (2 ∷ 1 ∷ 2 ∷ []) ≡ 2 }
    ensures never { occurrences 4 (3 ∷ 1 ∷ 2 ∷ []) ≡ 0 }
{}

fn reversals()
    ensures begun { begun_at 1 (1 ∷ 2 ∷ 3 ∷ 4 ∷ []) ≡ 2 ∷ 3 ∷ 4 ∷ 1 ∷ [] }
    ensures inside { reversed_places 1 2 (1 ∷ 2 ∷ 3 ∷ 4 ∷ []) ≡ 1 ∷ 3 ∷ 2 ∷ 4 ∷ [] }
    ensures round_the_end { reversed_places 3 2 (1 ∷ 2 ∷ 3 ∷ 4 ∷ []) ≡ 4 ∷ 2 ∷ 3 ∷ 1 ∷ [] }
    ensures nothing { reversed_places 2 0 (1 ∷ 2 ∷ 3 ∷ 4 ∷ []) ≡ 1 ∷ 2 ∷ 3 ∷ 4 ∷ [] }
{}

#[test]
fn examples() {
    lengths();
    neighbours();
    reversals();
}
