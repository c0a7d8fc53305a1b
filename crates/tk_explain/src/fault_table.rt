//! The faults of files, and those of verdicts, whose names `--json` prints: the meaning of each, its usual causes, and
//! what to do. docs/FORMATS.md and docs/tourkit.1 contain the same texts, which `tests/explained` compares.
ghost use Rattle.std.specs.Prelude.{◌≡◌, Some, map, slice_get};
ghost use Rattle.tk_explain.specs.Faults.{fault_named, faults, named, param_named, text_named};

use std::fmt;
use tk_diagnosis::FileFault;
use tk_params::ParamKind;
use tk_words::TextKind;

/// The files that can have the faults of texts.
const TEXTS: &str = "a problem, tour or solution file";

/// The files that can have the faults of parameters.
const PARAMETERS: &str = "a parameter file";

/// The files that can have the faults of an initial tour.
const INITIAL_TOURS: &str = "an initial tour";

/// The verdicts on tours.
const CHECK: &str = "a verdict of check";

/// The verdicts on the routes of solutions.
const CHECKSOL: &str = "a verdict of checksol";

/// A fault, as the documents list it.
#[derive(Clone, Copy)]
pub struct FaultText {
    /// The files or verdicts that can have it.
    pub files: &'static str,
    /// The number; empty for a fault of a verdict.
    pub number: &'static str,
    pub name: &'static str,
    /// The text after the name, with a leading blank; empty for most faults.
    pub values: &'static str,
    /// When a file has it.
    pub when: &'static str,
    /// Its usual causes.
    pub causes: &'static str,
    /// The remedy.
    pub remedy: &'static str,
}

/// The title of its explanation.
impl fmt::Display for FaultText {
    fn fmt<W: fmt::Write>(&self, f: &mut fmt::Formatter<W>) -> fmt::Result {
        let FaultText {
            files,
            number,
            name,
            values,
            ..
        } = *self;
        if !number.is_empty() {
            write!(f, "{number} ")?;
        }
        write!(f, "{name}{values}, in {files}")
    }
}

static UNKNOWN_KEYWORD: FaultText = FaultText {
    files: TEXTS,
    number: "1",
    name: "UnknownKeyword",
    values: "",
    when: "a line starts with a word that is not a keyword of the format",
    causes: "a misspelt keyword, a comment without COMMENT, or a file of another kind",
    remedy: "Correct the word, put COMMENT : before it, or remove the line.",
};

static REPEATED: FaultText = FaultText {
    files: TEXTS,
    number: "2",
    name: "Repeated",
    values: "",
    when: "a header or section other than COMMENT is repeated",
    causes: "two files joined into one, or a new line next to the old one",
    remedy: "Keep the correct one, and remove the other.",
};

static MISSING: FaultText = FaultText {
    files: TEXTS,
    number: "3",
    name: "Missing",
    values: " KEYWORD",
    when: "a required header or section is missing",
    causes: "a header that was left out, a section before its headers, or a file that was cut off",
    remedy: "Add the header or section. TYPE and DIMENSION must come before every section.",
};

static UNSUPPORTED: FaultText = FaultText {
    files: TEXTS,
    number: "4",
    name: "Unsupported",
    values: "",
    when: "a keyword or value of TSPLIB that tourkit does not support",
    causes: "a tour instead of a problem, a problem of another type (ATSP), or other distances (GEO)",
    remedy: "Check the order of the files on the command line. Write other symmetric distances as explicit weights.",
};

static BAD_NUMBER: FaultText = FaultText {
    files: TEXTS,
    number: "5",
    name: "BadNumber",
    values: "",
    when: "something that should be a number is not",
    causes: "a decimal comma, a unit, a fraction instead of an integer, or one column too many or too few",
    remedy: "Write an integer; coordinates may have a decimal point and an exponent, as in 12.5 or 1.25e1.",
};

static OUT_OF_LIMIT: FaultText = FaultText {
    files: TEXTS,
    number: "6",
    name: "OutOfLimit",
    values: "",
    when: "a number, size or count is outside its limits",
    causes: "a negative number where none is allowed, too large a problem, or too small a unit",
    remedy: "Use a number within its limits, or a smaller problem.",
};

static BAD_NODE: FaultText = FaultText {
    files: TEXTS,
    number: "7",
    name: "BadNode",
    values: "",
    when: "a node number is outside 1 to DIMENSION, or is repeated",
    causes: "nodes numbered from 0, too small a DIMENSION, or a duplicate line",
    remedy: "Number the nodes from 1 to DIMENSION, each once.",
};

static NOT_SYMMETRIC: FaultText = FaultText {
    files: TEXTS,
    number: "8",
    name: "NotSymmetric",
    values: " i j",
    when: "in a full matrix, the entry in row j and column i differs from the one in row i and column j",
    causes: "an asymmetric problem (ATSP), or one wrong entry",
    remedy: "Correct the entry that is wrong. An asymmetric problem cannot be used.",
};

static TRUNCATED: FaultText = FaultText {
    files: TEXTS,
    number: "9",
    name: "Truncated",
    values: "",
    when: "a section ends before its last number",
    causes: "too large a DIMENSION, a missing number or line, or a file that was cut off",
    remedy: "Set DIMENSION to the number of nodes, or add the missing data.",
};

static TRAILING_DATA: FaultText = FaultText {
    files: TEXTS,
    number: "10",
    name: "TrailingData",
    values: "",
    when: "there is extra data where nothing may follow",
    causes: "too small a DIMENSION, an extra number, or a comment without COMMENT",
    remedy: "Set DIMENSION to the number of nodes, or remove the extra data.",
};

static BAD_DEPOT: FaultText = FaultText {
    files: TEXTS,
    number: "11",
    name: "BadDepot",
    values: "",
    when: "the depot section does not name exactly one node, or that node has a demand",
    causes: "several depots, coordinates instead of a node number, or a depot with a demand",
    remedy: "Name one node in DEPOT_SECTION, then -1, and give it the demand 0.",
};

static DEMAND_OVER_CAPACITY: FaultText = FaultText {
    files: TEXTS,
    number: "12",
    name: "DemandOverCapacity",
    values: " node",
    when: "a node has a larger demand than a vehicle can carry",
    causes: "a wrong CAPACITY, or demands in another unit",
    remedy: "Correct CAPACITY or the demand, or divide the demand among several nodes.",
};

static TOO_LONG: FaultText = FaultText {
    files: TEXTS,
    number: "13",
    name: "TooLong",
    values: "",
    when: "a file, line, word, number or name exceeds its maximum length",
    causes: "a missing line break or blank, or a file that is not text",
    remedy: "Shorten it, or insert the missing line break or blank.",
};

static READ: FaultText = FaultText {
    files: TEXTS,
    number: "14",
    name: "Read",
    values: "",
    when: "the file could not be read to its end",
    causes: "a directory instead of a file, or a disk or network failure",
    remedy: "Give a file instead of a directory, or copy the file again.",
};

static NO_MEMORY: FaultText = FaultText {
    files: TEXTS,
    number: "15",
    name: "NoMemory",
    values: "",
    when: "out of memory",
    causes: "a memory limit, or a large problem on a small machine",
    remedy: "Raise the memory limit, close other programs, or use a smaller problem.",
};

static UNKNOWN_KEY: FaultText = FaultText {
    files: PARAMETERS,
    number: "1",
    name: "UnknownKey",
    values: "",
    when: "a line does not start with a key of tourkit",
    causes: "an LKH key that tourkit does not have, a misspelt key, or a file of another kind",
    remedy: "Correct the key, or put # before the line. For an LKH file, use examples/lkh-to-tourkit.",
};

static REPEATED_KEY: FaultText = FaultText {
    files: PARAMETERS,
    number: "2",
    name: "RepeatedKey",
    values: "",
    when: "a key other than COMMENT is repeated",
    causes: "a new line next to the old one",
    remedy: "Keep the correct line, and remove the other.",
};

static BAD_VALUE: FaultText = FaultText {
    files: PARAMETERS,
    number: "3",
    name: "BadValue",
    values: "",
    when: "a file name is empty or not UTF-8, or the value is not one that the key allows",
    causes: "a number outside its limits, a fraction, or a comment after the value",
    remedy: "Write a value that the key allows, with nothing after it.",
};

static MISSING_PROBLEM: FaultText = FaultText {
    files: PARAMETERS,
    number: "4",
    name: "MissingProblem",
    values: "",
    when: "there is no PROBLEM_FILE",
    causes: "an empty file, or EOF before the key",
    remedy: "Add a line PROBLEM_FILE = NAME, with the name of the problem file.",
};

static DOLLAR_IN_NAME: FaultText = FaultText {
    files: PARAMETERS,
    number: "5",
    name: "DollarInName",
    values: "",
    when: "there is a $ in a file name",
    causes: "an LKH file, in which $ is replaced by the length of the tour",
    remedy: "Write the name without $. For an LKH file, use examples/lkh-to-tourkit.",
};

static PARAMETERS_TOO_LONG: FaultText = FaultText {
    files: PARAMETERS,
    number: "6",
    name: "TooLong",
    values: "",
    when: "a line of more than 4,096 bytes, a key of more than 64, or a file of more than 1,048,576",
    causes: "a missing line break, or a file of another kind",
    remedy: "Shorten the line, or check that this is the parameter file.",
};

static PARAMETERS_READ: FaultText = FaultText {
    files: PARAMETERS,
    number: "7",
    name: "Read",
    values: "",
    when: "the file could not be read to its end",
    causes: "a directory instead of a file, or a disk or network failure",
    remedy: "Give a file instead of a directory, or copy the file again.",
};

static PARAMETERS_NO_MEMORY: FaultText = FaultText {
    files: PARAMETERS,
    number: "8",
    name: "NoMemory",
    values: "",
    when: "out of memory",
    causes: "a memory limit",
    remedy: "Raise the memory limit, or close other programs.",
};

static WRONG_COUNT: FaultText = FaultText {
    files: INITIAL_TOURS,
    number: "1",
    name: "WrongCount",
    values: "",
    when: "the initial tour does not have as many cities as the problem",
    causes: "the tour of another problem, or a missing or duplicate city",
    remedy: "Give a tour of this problem as INITIAL_TOUR_FILE, or leave the key out.",
};

static OUT_OF_RANGE: FaultText = FaultText {
    files: INITIAL_TOURS,
    number: "2",
    name: "OutOfRange",
    values: " place",
    when: "the city at this place of the initial tour is not a city of the problem",
    causes: "cities numbered from 0, or the tour of another problem",
    remedy: "Number the cities from 1, as the problem does.",
};

static REPEATED_CITY: FaultText = FaultText {
    files: INITIAL_TOURS,
    number: "3",
    name: "RepeatedCity",
    values: " place",
    when: "the city at this place of the initial tour already occurs earlier in it",
    causes: "the first city repeated at the end, or a duplicate line",
    remedy: "List each city once; do not repeat the first city at the end.",
};

static CHECKED_WRONG_COUNT: FaultText = FaultText {
    files: CHECK,
    number: "",
    name: "WrongCount",
    values: "",
    when: "the tour does not have as many cities as the problem",
    causes: "the tour of another problem, or a missing or duplicate city",
    remedy: "Give a tour of this problem, or list each of its cities once.",
};

static CHECKED_OUT_OF_RANGE: FaultText = FaultText {
    files: CHECK,
    number: "",
    name: "OutOfRange",
    values: "",
    when: "the city at this place of the tour is not a city of the problem",
    causes: "cities numbered from 0, or the tour of another problem",
    remedy: "Number the cities from 1, as the problem does.",
};

static CHECKED_REPEATED_CITY: FaultText = FaultText {
    files: CHECK,
    number: "",
    name: "RepeatedCity",
    values: "",
    when: "the city at this place of the tour already occurs earlier in it",
    causes: "the first city repeated at the end, or a duplicate line",
    remedy: "List each city once; do not repeat the first city at the end.",
};

static BAD_CUSTOMER: FaultText = FaultText {
    files: CHECKSOL,
    number: "",
    name: "BadCustomer",
    values: "",
    when: "a number on a route is not a customer of the problem",
    causes: "the depot on a route, node numbers instead of customer numbers, or the solution of another problem",
    remedy: "List only customers, numbered from 1: customer k is the k-th node that is not the depot.",
};

static SERVED_TWICE: FaultText = FaultText {
    files: CHECKSOL,
    number: "",
    name: "ServedTwice",
    values: "",
    when: "a customer occurs more than once on the routes",
    causes: "a route listed twice, or the depot at both ends of a route",
    remedy: "Keep the customer on one route, once; do not list the depot.",
};

static OVER_CAPACITY: FaultText = FaultText {
    files: CHECKSOL,
    number: "",
    name: "OverCapacity",
    values: "",
    when: "the demands of a route exceed the capacity",
    causes: "too many customers on the route, node numbers instead of customer numbers, or a wrong CAPACITY",
    remedy: "Move customers of this route to another route that has room for them, or to a new one.",
};

static NOT_SERVED: FaultText = FaultText {
    files: CHECKSOL,
    number: "",
    name: "NotServed",
    values: "",
    when: "no route contains this customer",
    causes: "a missing route, or node numbers instead of customer numbers",
    remedy: "Add the customer to a route that has room for it, or to a new one.",
};

static WRONG_COST: FaultText = FaultText {
    files: CHECKSOL,
    number: "",
    name: "WrongCost",
    values: "",
    when: "the cost in the file is not the total length of all routes, each from the depot and back",
    causes: "distances that were not rounded, or a cost computed before the last change of the routes",
    remedy: "Write the counted cost as Cost.",
};

/// The faults of problem, tour and solution files, then those of parameter files, of an initial tour and of verdicts.
pub fn faults() -> [&'static FaultText; 34]
    ensures { map (λ fault. named fault.now) result ≡ faults }
{
    [
        &UNKNOWN_KEYWORD,
        &REPEATED,
        &MISSING,
        &UNSUPPORTED,
        &BAD_NUMBER,
        &OUT_OF_LIMIT,
        &BAD_NODE,
        &NOT_SYMMETRIC,
        &TRUNCATED,
        &TRAILING_DATA,
        &BAD_DEPOT,
        &DEMAND_OVER_CAPACITY,
        &TOO_LONG,
        &READ,
        &NO_MEMORY,
        &UNKNOWN_KEY,
        &REPEATED_KEY,
        &BAD_VALUE,
        &MISSING_PROBLEM,
        &DOLLAR_IN_NAME,
        &PARAMETERS_TOO_LONG,
        &PARAMETERS_READ,
        &PARAMETERS_NO_MEMORY,
        &WRONG_COUNT,
        &OUT_OF_RANGE,
        &REPEATED_CITY,
        &CHECKED_WRONG_COUNT,
        &CHECKED_OUT_OF_RANGE,
        &CHECKED_REPEATED_CITY,
        &BAD_CUSTOMER,
        &SERVED_TWICE,
        &OVER_CAPACITY,
        &NOT_SERVED,
        &WRONG_COST,
    ]
}

/// The entry of the table for the fault of a file.
pub fn text_of(fault: &FileFault) -> &'static FaultText
    ensures { named result.now ≡ fault_named fault.now }
{
    let place = match fault {
        FileFault::Text(fault) => place_of_text_kind(fault.kind),
        FileFault::Parameters(fault) => place_of_parameter_kind(fault.kind),
    };
    faults()[place]
}

/// The index in the table of a fault of a problem, tour or solution file.
fn place_of_text_kind(kind: TextKind) -> usize
    ensures { slice_get faults result ≡ Some (text_named kind) }
{
    match kind {
        TextKind::UnknownKeyword => 0,
        TextKind::Repeated => 1,
        TextKind::Missing(_) => 2,
        TextKind::Unsupported => 3,
        TextKind::BadNumber => 4,
        TextKind::OutOfLimit => 5,
        TextKind::BadNode => 6,
        TextKind::NotSymmetric(_, _) => 7,
        TextKind::Truncated => 8,
        TextKind::TrailingData => 9,
        TextKind::BadDepot => 10,
        TextKind::DemandOverCapacity(_) => 11,
        TextKind::TooLong => 12,
        TextKind::Read => 13,
        TextKind::NoMemory => 14,
    }
}

/// The index in the table of a fault of a parameter file.
fn place_of_parameter_kind(kind: ParamKind) -> usize
    ensures { slice_get faults result ≡ Some (param_named kind) }
{
    match kind {
        ParamKind::UnknownKey => 15,
        ParamKind::RepeatedKey => 16,
        ParamKind::BadValue => 17,
        ParamKind::MissingProblem => 18,
        ParamKind::DollarInName => 19,
        ParamKind::TooLong => 20,
        ParamKind::Read => 21,
        ParamKind::NoMemory => 22,
    }
}
