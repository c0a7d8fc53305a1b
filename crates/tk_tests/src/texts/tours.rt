//! Tour texts, read at once, byte by byte and in small pieces.

use crate::given::expect;
use crate::texts::fakes::{Drip, Padded};
use std::alloc::Global;
use std::process::Abort;
use tk_text::{FromRead, TEXT_LIMIT, TextFault, TextKind, TourText, read_tour};

fn read_whole(alloc: Global, text: &[u8]) -> Result<TourText, TextFault> {
    let mut source = FromRead::new(text);
    read_tour(alloc, &mut source)
}

fn read_pieces(
    alloc: Global,
    text: &[u8],
    most: usize,
    fails: bool,
) -> Result<TourText, TextFault> {
    let mut source = Drip {
        bytes: text,
        most,
        fails,
        failed: false,
    };
    read_tour(alloc, &mut source)
}

fn read_dripping(alloc: Global, text: &[u8], fails: bool) -> Result<TourText, TextFault> {
    read_pieces(alloc, text, 1, fails)
}

/// Whether the answer lists these cities.
pub fn is_list(answer: Result<TourText, TextFault>, cities: &[u32]) -> bool {
    match answer {
        Ok(tour) => tour.cities.as_slice() == cities,
        Err(_) => false,
    }
}

fn is_fault(answer: Result<TourText, TextFault>, line: u64, kind: TextKind) -> bool {
    match answer {
        Ok(_) => false,
        Err(fault) => fault == TextFault { line, kind },
    }
}

/// Whether the text, read at once, byte by byte and in pieces of 7 bytes, lists these cities.
fn lists(alloc: Global, text: &[u8], cities: &[u32]) -> bool {
    is_list(read_whole(alloc, text), cities)
        && is_list(read_dripping(alloc, text, false), cities)
        && is_list(read_pieces(alloc, text, 7, false), cities)
}

/// Checks that each text lists the cities next to it.
fn accept(rt: &impl Abort, alloc: Global, rows: &[(&[u8], &[u32])]) {
    for (text, cities) in rows {
        expect(rt, lists(alloc, text, cities));
    }
}

/// Checks that each text has the fault next to it, read byte by byte from a source that fails after the last byte.
fn refuse_failing(rt: &impl Abort, alloc: Global, rows: &[(&[u8], u64, TextKind)]) {
    for (text, line, kind) in rows {
        expect(rt, is_fault(read_dripping(alloc, text, true), *line, *kind));
    }
}

#[test]
fn lists_end(rt: HostRuntime) {
    accept(
        &rt,
        rt.alloc(),
        &[
            (
                b"TYPE : TOUR\nDIMENSION : 3\nTOUR_SECTION\n1 2 3\n-1\nEOF\n",
                &[1, 2, 3],
            ),
            (
                b"TYPE : TOUR\nTOUR_SECTION\n1 2 3 4\n-1\n-1\n",
                &[1, 2, 3, 4],
            ),
            (b"TYPE : TOUR\nTOUR_SECTION\n1 2\n-1\n\n -01", &[1, 2]),
            (b"TYPE : TOUR\nTOUR_SECTION\n1 2 EOF\njunk\n", &[1, 2]),
            (b"TYPE : TOUR\nTOUR_SECTION\n1 2 eof: junk\n", &[1, 2]),
            (b"TYPE : TOUR\nTOUR_SECTION\n4294967295 0", &[4294967295, 0]),
            (b"TYPE : TOUR\nTOUR_SECTION\n-1", &[]),
            (b"TYPE : TOUR\nTOUR_SECTION", &[]),
            (b"TOUR_SECTION :5\n-1\nTYPE: tour\r\nEOF-x", &[5]),
            (
                b"TOUR_SECTION 5 -1\nCOMMENT a\nCOMMENT b\nTYPE TOUR no\nNAME\n",
                &[5],
            ),
        ],
    );
}

/// Reads a text of `len` bytes that is blank after its list of one city.
fn read_padded(alloc: Global, len: u64) -> Result<TourText, TextFault> {
    let text: &[u8] = b"TYPE : TOUR\nTOUR_SECTION 1\n";
    let blanks = len.saturating_sub(text.len() as u64);
    read_tour(alloc, &mut Padded { text, blanks })
}

#[test]
fn a_text_of_the_limit(rt: HostRuntime) {
    expect(&rt, is_list(read_padded(rt.alloc(), TEXT_LIMIT), &[1]));
}

#[test]
fn a_text_of_one_byte_more(rt: HostRuntime) {
    expect(
        &rt,
        is_fault(
            read_padded(rt.alloc(), TEXT_LIMIT + 1),
            3,
            TextKind::TooLong,
        ),
    );
}

/// A source is not read past the byte that decides the answer.
#[test]
fn failing_sources(rt: HostRuntime) {
    let a = rt.alloc();
    expect(
        &rt,
        is_list(
            read_dripping(a, b"TYPE : TOUR\nTOUR_SECTION 1 -1\nEOF\n", true),
            &[1],
        ),
    );
    expect(
        &rt,
        is_list(
            read_dripping(a, b"TYPE : TOUR\nTOUR_SECTION 1 EOF ", true),
            &[1],
        ),
    );
    refuse_failing(
        &rt,
        a,
        &[
            (b"TYPE : TOUR\nTOUR_SECTION 1 -1\nEOF", 3, TextKind::Read),
            (b"TYPE : TOUR\nFOO ", 2, TextKind::UnknownKeyword),
            (b"TYPE : TOUR\nFOO", 2, TextKind::Read),
        ],
    );
}

/// After the `-1` that ends a list, a source is read only as long as one more `-1` can follow.
#[test]
fn one_ending_more(rt: HostRuntime) {
    refuse_failing(
        &rt,
        rt.alloc(),
        &[
            (b"TYPE : TOUR\nTOUR_SECTION 1 -1 -", 2, TextKind::Read),
            (b"TYPE : TOUR\nTOUR_SECTION 1 -1 -0", 2, TextKind::Read),
            (b"TYPE : TOUR\nTOUR_SECTION 1 -1\n -1", 3, TextKind::Read),
            (
                b"TYPE : TOUR\nTOUR_SECTION 1 -1 5",
                2,
                TextKind::TrailingData,
            ),
            (
                b"TYPE : TOUR\nTOUR_SECTION 1 -1 -2",
                2,
                TextKind::TrailingData,
            ),
            (
                b"TYPE : TOUR\nTOUR_SECTION 1 -1 -11",
                2,
                TextKind::TrailingData,
            ),
            (
                b"TYPE : TOUR\nTOUR_SECTION 1 -1\n +",
                3,
                TextKind::TrailingData,
            ),
        ],
    );
}
