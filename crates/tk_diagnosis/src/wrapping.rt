//! Diagnoses of files that are not texts that tourkit can read, whatever their contents.

use crate::line_context::Diagnosis;
use crate::sentence::Sentence;
use tk_kinds::{Foreign, Wrapping};

/// The diagnosis of a file that is not a text that can be read.
pub fn wrapped(wrapping: Wrapping) -> Diagnosis {
    let (read, remedy) = match wrapping {
        Wrapping::Gzip => (
            "a file compressed by gzip",
            "Decompress it, as in zcat FILE.tsp.gz | tourkit check - TOUR.",
        ),
        Wrapping::Mark => (
            "a byte order mark in the first three bytes, which some editors write",
            "Remove these three bytes: tail -c +4 FILE >NEW",
        ),
        Wrapping::Utf16 => (
            "a text in UTF-16",
            "Save the file as UTF-8 or ASCII: iconv -f UTF-16 -t UTF-8 FILE >NEW.",
        ),
        Wrapping::Binary => (
            "NUL bytes, which no such text contains",
            "Give a text file. Unpack an archive first, and save a UTF-16 text as UTF-8.",
        ),
        Wrapping::Foreign(foreign) => return foreign_here(foreign),
    };
    Diagnosis::advised("a text in ASCII or UTF-8", Sentence::of(read), remedy)
}

/// The diagnosis of a file that another program wrote.
fn foreign_here(foreign: Foreign) -> Diagnosis {
    let (read, remedy) = match foreign {
        Foreign::Csv => (
            "a CSV file: values separated by commas or semicolons",
            "For a TSP, write its places as coordinates, as in examples/square.tsp. For a CVRP, convert a file with \
            the columns name, x, y and demand, separated by commas: \
            examples/csv-to-cvrp --capacity N FILE >NEW.vrp",
        ),
        Foreign::Edges => (
            "an edge list of linkern: two cities from 0 and a length on each line",
            "Convert it to a tour file: examples/convert-tour FILE >NEW.tour",
        ),
        Foreign::Concorde => (
            "a Concorde solution: the number of cities, and then the cities from 0",
            "Convert it to a tour file: examples/convert-tour FILE >NEW.tour",
        ),
        Foreign::Column => (
            "a list of numbers, one on a line, without headers",
            "If it is a tour that counts from 1, write the lines TYPE : TOUR and TOUR_SECTION before it. If it \
            counts from 0, convert it: examples/convert-tour FILE >NEW.tour",
        ),
        Foreign::Row => (
            "a list of numbers on one line, without headers",
            "If it is a tour, put one number on each line, and convert the result to a tour file: \
            tr -cs 0-9 '\\n' <FILE | examples/convert-tour --from list /dev/stdin >NEW.tour",
        ),
        Foreign::Rows => (
            "numbers without headers",
            "Write headers and the keyword of a section before them, as in examples/tri.tour for a tour, \
            examples/tri.tsp for coordinates and examples/five.tsp for distances.",
        ),
    };
    Diagnosis::advised(
        "a TSPLIB file, whose lines begin with keywords such as TYPE and DIMENSION",
        Sentence::of(read),
        remedy,
    )
}
