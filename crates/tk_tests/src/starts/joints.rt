//! Tests of the definitions of the savings algorithm at small cases. The prover computes them; the functions do
//! nothing.
ghost use Rattle.std.specs.Prelude.{[], ◌∷◌, ◌≡◌};
ghost use Rattle.tk_tests.specs.JointExamples.{pair, one_each};
ghost use Rattle.tk_build.specs.Joints.{joints};

/// The third pair would close a ring.
fn ring()
    ensures { joints (λ _. 0) 4 0 [] (pair 14 2 3 ∷ pair 14 2 4 ∷ pair 6 3 4 ∷ []) ≡ pair 14 2 4 ∷ pair 14 2 3 ∷ [] }
{}

/// An inner city takes no third joint.
fn inner()
    ensures { joints one_each 5 4 [] (pair 10 2 3 ∷ pair 9 2 4 ∷ pair 8 2 5 ∷ pair 7 3 5 ∷ [])
        ≡ pair 7 3 5 ∷ pair 9 2 4 ∷ pair 10 2 3 ∷ [] }
{}

/// Two lists of two cities are not joined if their load exceeds the capacity; at capacity 1, no cities are joined.
fn loads()
    ensures two { joints one_each 5 2 [] (pair 20 2 3 ∷ pair 20 4 5 ∷ pair 3 2 4 ∷ [])
        ≡ pair 20 4 5 ∷ pair 20 2 3 ∷ [] }
    ensures one { joints one_each 5 1 [] (pair 20 2 3 ∷ pair 20 4 5 ∷ []) ≡ [] }
{}

#[test]
fn examples() {
    ring();
    inner();
    loads();
}
