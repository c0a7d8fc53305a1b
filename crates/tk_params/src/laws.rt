//! Laws of parameter texts, as contracts of functions that do nothing.
ghost use Rattle.tk_words.specs.TextLaws.{HasAnswers, StaysDecided};
ghost use Rattle.tk_params.specs.Params.{params_decided};

/// A law: each parameter text has an answer.
pub fn each_params_text_has_an_answer()
    ensures { HasAnswers params_decided }
{}

/// A law: once bytes of a parameter text decide its answer, the bytes after them do not change it.
pub fn decided_params_stay()
    ensures { StaysDecided params_decided }
{}
