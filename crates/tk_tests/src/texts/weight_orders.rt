//! The cells of weights, in the order of each format.

use crate::given::expect;
use std::alloc::Global;
use std::process::Abort;
use tk_text::{Cell, Format, LowerWeights, WeightCursor};

/// The rows and the columns of cells, and their positions below the diagonal.
static INDICES: [(u32, u32, usize); 5] = [
    (1, 0, 0),
    (2, 0, 1),
    (1, 2, 2),
    (2, 3, 5),
    (4999, 4998, 12_497_499),
];

#[test]
fn indices(rt: HostRuntime) {
    expect(&rt, Cell { row: 2, column: 2 }.is_diagonal());
    for (row, column, index) in &INDICES {
        let place = Cell {
            row: *row,
            column: *column,
        };
        expect(&rt, !place.is_diagonal());
        expect(&rt, place.lower_index() == *index);
    }
}

/// Checks that the weights of this many cities belong to these cells, in order.
fn walk(rt: &impl Abort, format: Format, cities: u16, places: &[(u32, u32)]) {
    let mut cursor = WeightCursor::new(format, cities as u32);
    for (row, column) in places {
        expect(rt, !cursor.is_done());
        let here = cursor.place();
        expect(rt, here.row == *row);
        expect(rt, here.column == *column);
        cursor.advance();
    }
    expect(rt, cursor.is_done());
}

/// Formats, numbers of cities, and the cells of the weights in their order.
static PLACES: [(Format, u16, &[(u32, u32)]); 11] = [
    (
        Format::FullMatrix,
        3,
        &[
            (0, 0),
            (0, 1),
            (0, 2),
            (1, 0),
            (1, 1),
            (1, 2),
            (2, 0),
            (2, 1),
            (2, 2),
        ],
    ),
    (Format::UpperRow, 3, &[(0, 1), (0, 2), (1, 2)]),
    (Format::LowerRow, 3, &[(1, 0), (2, 0), (2, 1)]),
    (
        Format::UpperDiagRow,
        3,
        &[(0, 0), (0, 1), (0, 2), (1, 1), (1, 2), (2, 2)],
    ),
    (
        Format::LowerDiagRow,
        3,
        &[(0, 0), (1, 0), (1, 1), (2, 0), (2, 1), (2, 2)],
    ),
    (Format::UpperCol, 3, &[(0, 1), (0, 2), (1, 2)]),
    (Format::LowerCol, 3, &[(1, 0), (2, 0), (2, 1)]),
    (
        Format::UpperDiagCol,
        3,
        &[(0, 0), (0, 1), (1, 1), (0, 2), (1, 2), (2, 2)],
    ),
    (
        Format::LowerDiagCol,
        3,
        &[(0, 0), (1, 0), (2, 0), (1, 1), (2, 1), (2, 2)],
    ),
    (Format::UpperRow, 1, &[]),
    (Format::LowerCol, 0, &[]),
];

#[test]
fn places_of_each_format(rt: HostRuntime) {
    for (format, cities, places) in &PLACES {
        walk(&rt, *format, *cities, places);
    }
}

/// Takes the next weight, or skips it on the diagonal.
fn take(rt: &impl Abort, weights: &mut LowerWeights, weight: u32) {
    expect(rt, !weights.is_done());
    if weights.place().is_diagonal() {
        weights.skip();
        return;
    }
    expect(rt, weight <= 9);
    let before = weights.weight();
    expect(rt, before == 0 || before == weight);
    weights.push(weight);
}

/// Takes these weights, and checks that no more are to come.
fn take_all(rt: &impl Abort, weights: &mut LowerWeights, written: &[u32]) {
    for weight in written {
        take(rt, weights, *weight);
    }
    expect(rt, weights.is_done());
}

/// Checks that these weights of three cities are read as 7 for cities 1 and 2, 8 for 1 and 3, and 9 for 2 and 3.
fn read(rt: &impl Abort, alloc: Global, format: Format, written: &[u32]) {
    let mut weights = LowerWeights::new(alloc, format, 3).expect(rt, "memory for three weights");
    take_all(rt, &mut weights, written);
    expect(
        rt,
        weights.into_weights().as_slice() == [7, 8, 9].as_slice(),
    );
}

/// Formats, and the weights of three cities as they are written in these.
static WRITTEN: [(Format, &[u32]); 9] = [
    (Format::FullMatrix, &[5, 7, 8, 7, 5, 9, 8, 9, 5]),
    (Format::UpperRow, &[7, 8, 9]),
    (Format::LowerRow, &[7, 8, 9]),
    (Format::UpperDiagRow, &[5, 7, 8, 5, 9, 5]),
    (Format::LowerDiagRow, &[5, 7, 5, 8, 9, 5]),
    (Format::UpperCol, &[7, 8, 9]),
    (Format::LowerCol, &[7, 8, 9]),
    (Format::UpperDiagCol, &[5, 7, 5, 8, 9, 5]),
    (Format::LowerDiagCol, &[5, 7, 8, 5, 9, 5]),
];

#[test]
fn weights_of_each_format(rt: HostRuntime) {
    for (format, written) in &WRITTEN {
        read(&rt, rt.alloc(), *format, written);
    }
}
