//! Tests of the definition of distances, by the tables in `specs/DistanceExamples.antt`. The prover computes them; the
//! functions do nothing.
ghost use Rattle.tk_tests.specs.DistanceExamples as Examples;

fn distances()
    ensures euclidean { Examples.AreDistances Examples.euclidean }
    ensures rounded_up { Examples.AreDistances Examples.rounded_up }
    ensures manhattan { Examples.AreDistances Examples.manhattan }
    ensures maximum { Examples.AreDistances Examples.maximum }
    ensures pseudo_euclidean { Examples.AreDistances Examples.pseudo_euclidean }
{}

#[test]
fn examples() {
    distances();
}
