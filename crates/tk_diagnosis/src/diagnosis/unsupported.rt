//! Keywords and values of TSPLIB that tourkit does not support.
ghost use Rattle.std.specs.Prelude.{◌≡◌};
ghost use Rattle.tk_diagnosis.specs.DistanceTypes.{is_converted};

use crate::line_context::{Diagnosis, LineContext};
use crate::sentence::Sentence;
use tk_kinds::{Kind, first_token, header, header_line, keyword_at, value_behind};
use tk_words::{Keyword, spelled};

/// The remedy for a distance type that a script of the examples converts to explicit weights.
const CONVERT: &str = "If the problem has at most 5,000 nodes, convert it to explicit distances: \
examples/explicit-distances FILE >NEW.tsp";

/// The remedy for other distances that are not supported.
const EXPLICIT: &str =
    "If the distances are symmetric, compute them, and write them as explicit weights: \
EDGE_WEIGHT_TYPE : EXPLICIT, EDGE_WEIGHT_FORMAT : FULL_MATRIX and EDGE_WEIGHT_SECTION.";

/// The formats of explicit weights.
const FORMATS: &str =
    "FULL_MATRIX, UPPER_ROW, LOWER_ROW, UPPER_DIAG_ROW, LOWER_DIAG_ROW, UPPER_COL, LOWER_COL, \
UPPER_DIAG_COL, LOWER_DIAG_COL or FUNCTION";

/// The diagnosis of a keyword or a value that is not supported.
pub fn unsupported(spot: &LineContext<'_>) -> Diagnosis {
    match keyword_at(spot.line) {
        None => Diagnosis::new(
            Sentence::of("a keyword that tourkit supports"),
            Sentence::of_word(spot.line),
        ),
        Some(word) if spot.kind == Kind::Tour => in_tour(spot, word),
        Some(word) => in_problem(spot, word),
    }
}

/// The diagnosis of a keyword or a value of a problem that is not supported.
fn in_problem(spot: &LineContext<'_>, word: Keyword) -> Diagnosis {
    match word {
        Keyword::Type => other_type(spot),
        Keyword::EdgeWeightType => other_distances(spot),
        Keyword::EdgeWeightFormat => valued(
            spot,
            FORMATS,
            "Write the format in which the weights are listed.",
        ),
        Keyword::NodeCoordType => valued(spot, "NODE_COORD_TYPE TWOD_COORDS or NO_COORDS", CONVERT),
        Keyword::DemandSection | Keyword::DepotSection => for_cvrp(spot, word),
        Keyword::EdgeWeightSection => without_weights(spot),
        _ => return not_supported(word),
    }
}

/// The diagnosis of a distance type that is not supported.
fn other_distances(spot: &LineContext<'_>) -> Diagnosis {
    let is_converted = is_converted(first_token(value_behind(spot.line, b':')));
    valued(
        spot,
        "EDGE_WEIGHT_TYPE EUC_2D, CEIL_2D, MAN_2D, MAX_2D, ATT or EXPLICIT",
        if is_converted { CONVERT } else { EXPLICIT },
    )
}

/// Whether a script of the examples converts this distance type to explicit weights.
fn is_converted(word: &[u8]) -> bool
    ensures { result ≡ is_converted word.now }
{
    spelled(word, b"GEO")
        || spelled(word, b"EUC_3D")
        || spelled(word, b"MAX_3D")
        || spelled(word, b"MAN_3D")
        || spelled(word, b"XRAY1")
        || spelled(word, b"XRAY2")
}

/// The diagnosis of a header or a section that is not supported at all.
fn not_supported(word: Keyword) -> Diagnosis {
    match word {
        Keyword::Distance | Keyword::ServiceTime | Keyword::Vehicles => other_word(
            "a header that tourkit supports",
            word,
            "{}, which is not supported",
            "Remove the line if neither the number of routes nor their length is limited.",
        ),
        _ => other_section(word),
    }
}

/// The diagnosis of a problem whose type is not supported.
fn other_type(spot: &LineContext<'_>) -> Diagnosis {
    let value = first_token(value_behind(spot.line, b':'));
    if spelled(value, b"TOUR") {
        return Diagnosis::advised(
            "a problem file, with TYPE : TSP or TYPE : CVRP",
            Sentence::of("TYPE : TOUR, so this is a tour file"),
            "Give the problem first and the tour second: tourkit check PROBLEM TOUR.",
        );
    }
    valued(
        spot,
        "TYPE : TSP or TYPE : CVRP",
        "Other types are not supported. For a TSP with the same distances in both directions, write TYPE : TSP.",
    )
}

/// The diagnosis of a header with a value that is not supported.
fn valued(spot: &LineContext<'_>, wanted: &'static str, remedy: &'static str) -> Diagnosis {
    let value = first_token(value_behind(spot.line, b':'));
    Diagnosis::advised(
        wanted,
        Sentence::of_value("{}, which is not supported", value),
        remedy,
    )
}

/// The diagnosis of a keyword that is not allowed here.
fn other_word(
    wanted: &'static str,
    word: Keyword,
    read: &'static str,
    remedy: &'static str,
) -> Diagnosis {
    Diagnosis::advised(wanted, Sentence::of(read).keyword(word), remedy)
}

/// The diagnosis of a section of a CVRP in a TSP.
fn for_cvrp(spot: &LineContext<'_>, word: Keyword) -> Diagnosis {
    let line = header_line(spot.text, Keyword::Type);
    let text = "Write TYPE : CVRP on line {}, or remove the whole section.";
    Diagnosis {
        wanted: Sentence::of("a section of a TSP"),
        read: Sentence::of("{}, which is for a CVRP, but TYPE is TSP (line {})")
            .keyword(word)
            .number(line),
        remedy: Some(Sentence::of(text).number(line)),
        other: Some(line),
    }
}

/// The diagnosis of a section of weights that the headers do not announce.
fn without_weights(spot: &LineContext<'_>) -> Diagnosis {
    Diagnosis::advised(
        "no weights, since the headers do not announce any",
        weights_without_type(spot.text),
        "Write EDGE_WEIGHT_TYPE : EXPLICIT and the format of the weights, or remove the whole section.",
    )
}

/// A sentence on why the headers do not announce a section of weights.
fn weights_without_type(text: &[u8]) -> Sentence {
    if let Some(found) = header(text, Keyword::EdgeWeightType) {
        let value = first_token(found.bytes);
        if !spelled(value, b"EXPLICIT") {
            return Sentence::about(
                "EDGE_WEIGHT_SECTION, but EDGE_WEIGHT_TYPE is {} (line {})",
                value,
            )
            .number(found.line);
        }
    }
    Sentence::of("EDGE_WEIGHT_SECTION, but EDGE_WEIGHT_FORMAT is FUNCTION")
}

/// The diagnosis of a section that is not supported at all.
fn other_section(word: Keyword) -> Diagnosis {
    let remedy = if word == Keyword::TourSection {
        "Remove the whole section. A tour needs its own file, with TYPE : TOUR."
    } else {
        "Remove the whole section, if the problem is the same without it."
    };
    other_word(
        "a section that tourkit supports",
        word,
        "{}, which is not supported in a problem",
        remedy,
    )
}

/// The diagnosis of a tour file with another type, or with a keyword of problems.
fn in_tour(spot: &LineContext<'_>, word: Keyword) -> Diagnosis {
    if word == Keyword::Type {
        return valued(
            spot,
            "TYPE : TOUR",
            "Give a tour file here. A problem comes first: tourkit check PROBLEM TOUR.",
        );
    }
    other_word(
        "NAME, COMMENT, TYPE, DIMENSION, TOUR_SECTION or EOF",
        word,
        "{}, which is for problem files",
        "Remove the line, or, if this is the problem, give it first: tourkit check PROBLEM TOUR.",
    )
}
