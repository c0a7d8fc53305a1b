//! Laws of problem texts, as contracts of functions that do nothing.
ghost use Rattle.tk_words.specs.TextLaws.{HasAnswers, StaysDecided};
ghost use Rattle.tk_problem_text.specs.Placed.{IsReadAsProblem, placed_decided};
ghost use Rattle.tk_problem_text.specs.Problem.{problem_decided};

/// A law: each problem text has an answer.
pub fn each_problem_text_has_an_answer()
    ensures { HasAnswers problem_decided }
{}

/// A law: once bytes of a problem text decide its answer, the bytes after them do not change it.
pub fn decided_problems_stay()
    ensures { StaysDecided problem_decided }
{}

/// A law: each problem text has an answer if it is read with the places of its cities.
pub fn each_placed_text_has_an_answer()
    ensures { HasAnswers placed_decided }
{}

/// A law: once bytes of a problem text decide its answer with the places of its cities, the bytes after them do not
/// change it.
pub fn decided_places_stay()
    ensures { StaysDecided placed_decided }
{}

/// A law: a problem text that is read with the places of its cities is read as the same problem without them.
pub fn placed_problems_are_problems()
    ensures { IsReadAsProblem }
{}
