//! Tests of the definitions of the formats, by the tables in `specs/*Examples.antt`. Each clause states that a
//! definition returns the value that a table has next to its argument. The prover computes it; the functions do
//! nothing.
ghost use Rattle.tk_tests.specs.Examples.{HasTable};
ghost use Rattle.tk_tests.specs.FaultExamples as Faults;
ghost use Rattle.tk_text.specs.HeaderValues.{name_of};
ghost use Rattle.tk_text.specs.Lex.{after_word, integer, trim};
ghost use Rattle.tk_tests.specs.NumberExamples as Numbers;
ghost use Rattle.tk_tests.specs.ProblemExamples as Problems;
ghost use Rattle.tk_text.specs.HeaderValue.{first_word};
ghost use Rattle.tk_text.specs.Solution.{route_head};
ghost use Rattle.tk_tests.specs.SolutionExamples as Solutions;
ghost use Rattle.tk_text.specs.Entry.{is_eof, is_keyword};
ghost use Rattle.tk_tests.specs.TourTextExamples as Tours;
ghost use Rattle.tk_tests.specs.WeightExamples as WeightTables;
ghost use Rattle.tk_tests.specs.WordExamples as Words;
ghost use Rattle.tk_text.specs.Words.{keyword_of};
ghost use Rattle.tk_tests.specs.WrittenExamples as Written;

fn words()
    ensures keywords { HasTable keyword_of Words.keywords }
    ensures behind_words { HasTable after_word Words.behind_words }
    ensures trimmed { HasTable trim Words.trimmed }
    ensures first_words { HasTable first_word Words.first_words }
    ensures names { HasTable name_of Words.names }
    ensures eof_tokens { HasTable is_eof Words.eof_tokens }
    ensures word_tokens { HasTable is_keyword Words.word_tokens }
    ensures lines { HasTable Words.lines_of Words.line_lists }
    ensures tokens { HasTable Words.tokens_in Words.token_lists }
{}

fn numbers()
    ensures integers { HasTable integer Numbers.integers }
    ensures coordinates { HasTable Numbers.coordinate_of Numbers.coordinates }
{}

fn weights()
    ensures orders { HasTable WeightTables.entries_of_3 WeightTables.entry_orders }
    ensures lists { HasTable WeightTables.pair_weights WeightTables.weight_lists }
{}

fn written_texts()
    ensures lines { HasTable Written.itself Written.written_lines }
    ensures texts { HasTable Written.itself Written.written_texts }
    ensures matrices { HasTable Written.matrix_of Written.matrices }
    ensures read_back { HasTable Written.read_back Written.matrices_read_back }
{}

fn tours()
    ensures accepted { HasTable Tours.tour_of Tours.tours }
    ensures refused { HasTable Tours.tour_of Tours.tour_faults }
    ensures begun { HasTable Tours.tour_begun Tours.tour_beginnings }
    ensures within { HasTable Tours.tour_within Tours.tours_within }
    ensures entries { HasTable Tours.entry_after Tours.entries_after }
{}

fn solutions()
    ensures accepted { HasTable Solutions.solution_of Solutions.solutions }
    ensures refused { HasTable Solutions.solution_of Solutions.solution_faults }
    ensures begun { HasTable Solutions.solution_begun Solutions.solution_beginnings }
    ensures within { HasTable Solutions.solution_within Solutions.solutions_within }
    ensures heads { HasTable route_head Solutions.heads }
    ensures customers { HasTable Solutions.customer_after Solutions.customers_after }
{}

fn problems()
    ensures accepted { HasTable Problems.problem_of Problems.problems }
    ensures begun { HasTable Problems.problem_begun Problems.problem_beginnings }
{}

fn problem_faults()
    ensures headers { HasTable Problems.problem_of Faults.header_faults }
    ensures places { HasTable Problems.problem_of Faults.place_faults }
    ensures weights { HasTable Problems.problem_of Faults.weight_faults }
    ensures routing { HasTable Problems.problem_of Faults.routing_faults }
    ensures order { HasTable Problems.problem_of Faults.fault_orders }
{}

fn lengths()
    ensures lengths { HasTable Problems.problem_of Faults.length_faults }
    ensures at_limits { HasTable Problems.problem_of Faults.at_limits }
{}

#[test]
fn examples() {
    words();
    numbers();
    weights();
    written_texts();
    tours();
    solutions();
    problems();
    problem_faults();
    lengths();
}
