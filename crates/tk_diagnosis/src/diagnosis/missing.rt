//! Missing headers and sections.
use crate::line_context::{Diagnosis, LineContext};
use crate::section_position::{entry_width, numbers_in};
use crate::sentence::Sentence;
use tk_kinds::{Kind, header, keyword_at};
use tk_words::{Keyword, Role};

/// The diagnosis of a header or a section that is missing before a section, or in the whole file.
pub fn missing(spot: &LineContext<'_>, word: Keyword) -> Diagnosis {
    match keyword_at(spot.line) {
        Some(section) if section.role() == Role::BeginsSection => before(spot, word, section),
        _ => at_end(spot, word),
    }
}

/// The diagnosis of a header that is missing before a section.
fn before(spot: &LineContext<'_>, word: Keyword, section: Keyword) -> Diagnosis {
    let wanted = Sentence::of("{}, which must come before {}")
        .keyword(word)
        .keyword(section);
    if let Some(later) = header(spot.text, word) {
        let line = later.line;
        return Diagnosis {
            wanted,
            read: Sentence::of("{}, but {} only on line {}")
                .keyword(section)
                .keyword(word)
                .number(line),
            remedy: Some(Sentence::of("Move line {} before line {}.").numbers([line, spot.number])),
            other: Some(line),
        };
    }
    let read = Sentence::of("{}, without {} before it")
        .keyword(section)
        .keyword(word);
    Diagnosis::new(wanted, read).with(added_before(spot, word, section))
}

/// A sentence on what to add before a section.
fn added_before(spot: &LineContext<'_>, word: Keyword, section: Keyword) -> Sentence {
    let width = entry_width(section);
    let nodes = numbers_in(spot.text, section) / width;
    if word == Keyword::Dimension && width > 1 && nodes > 1 {
        return Sentence::of(
            "Add the line DIMENSION : {} before line {}, if no node is missing.",
        ).numbers([nodes, spot.number]);
    }
    Sentence::of("Add {} before line {}.")
        .text(example_of(spot.kind, word))
        .number(spot.number)
}

/// The diagnosis of a header or a section that is missing in the whole file.
fn at_end(spot: &LineContext<'_>, word: Keyword) -> Diagnosis {
    let read = if spot.text.trim_ascii().is_empty() {
        Sentence::of("an empty file")
    } else {
        Sentence::of("the end of the file, without any {}").keyword(word)
    };
    let form = if word.role() == Role::BeginsSection {
        "Add {} at the end, before EOF."
    } else {
        "Add {} before the first section."
    };
    Diagnosis {
        wanted: Sentence::of("{}, which is required").keyword(word),
        read,
        remedy: Some(Sentence::of(form).text(example_of(spot.kind, word))),
        other: None,
    }
}

/// A description of what to add for a header or a section.
fn example_of(kind: Kind, word: Keyword) -> &'static str {
    match word {
        Keyword::Type if kind == Kind::Tour => "the line TYPE : TOUR",
        Keyword::Type => "the line TYPE : TSP (or TYPE : CVRP)",
        Keyword::Dimension => "a line DIMENSION : N, with the number of nodes,",
        Keyword::EdgeWeightType => {
            "a line EDGE_WEIGHT_TYPE : T, with EUC_2D, CEIL_2D, MAN_2D, MAX_2D, ATT or EXPLICIT,"
        }
        Keyword::EdgeWeightFormat => {
            "a line EDGE_WEIGHT_FORMAT : F, with the order of the weights, such as FULL_MATRIX,"
        }
        Keyword::Capacity => "a line CAPACITY : C, with the capacity of a vehicle,",
        Keyword::NodeCoordSection => {
            "NODE_COORD_SECTION, and for each node a line with its number, x and y,"
        }
        Keyword::EdgeWeightSection => {
            "EDGE_WEIGHT_SECTION, and the weights in the order of EDGE_WEIGHT_FORMAT,"
        }
        Keyword::DemandSection => {
            "DEMAND_SECTION, and for each node a line with its number and its demand,"
        }
        Keyword::DepotSection => {
            "DEPOT_SECTION, a line with the number of the depot, and a line -1,"
        }
        Keyword::TourSection => "TOUR_SECTION, a line for each city, and a line -1,",
        _ => "it",
    }
}
