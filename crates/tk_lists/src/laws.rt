//! Laws of tour and solution texts, as contracts of functions that do nothing.
ghost use Rattle.tk_words.specs.TextLaws.{HasAnswers, StaysDecided};
ghost use Rattle.tk_lists.specs.Solution.{solution_decided};
ghost use Rattle.tk_lists.specs.Tour.{tour_decided};

/// A law: each tour text has an answer.
pub fn each_tour_text_has_an_answer()
    ensures { HasAnswers tour_decided }
{}

/// A law: once bytes of a tour text decide its answer, the bytes after them do not change it.
pub fn decided_tours_stay()
    ensures { StaysDecided tour_decided }
{}

/// A law: each solution text has an answer.
pub fn each_solution_text_has_an_answer()
    ensures { HasAnswers solution_decided }
{}

/// A law: once bytes of a solution text decide its answer, the bytes after them do not change it.
pub fn decided_solutions_stay()
    ensures { StaysDecided solution_decided }
{}
