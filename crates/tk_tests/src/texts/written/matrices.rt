//! The texts of small tables.
ghost use Rattle.std.specs.Prelude.{◌≡◌, ◌+◌, ◌-◌, ◌*◌, ◌≤◌, pos, slice_index};

use crate::texts::fakes::{FakeSink, ROOM};
use crate::texts::joined;
use crate::texts::problems::read_both_ways::accept;
use crate::texts::problems::reported::{Reported, ReportedWeights};
use crate::texts::written::limits::expect_taken;
use std::alloc::Global;
use std::process::Abort;
use tk_text::{Format, Sink, WriteFault, write_matrix};

/// The distances of four cities, row by row.
const FOUR: [u32; 16] = [0, 1, 2, 3, 1, 0, 4, 5, 2, 4, 0, 6, 3, 5, 6, 0];

/// The distances of three cities at (0, 0), (3, 0) and (0, 4), row by row.
const THREE: [u32; 9] = [0, 3, 4, 3, 0, 5, 4, 5, 0];

const THREE_TEXT: &[u8] =
    b"NAME : p\nTYPE : TSP\nDIMENSION : 3\nEDGE_WEIGHT_TYPE : EXPLICIT\nEDGE_WEIGHT_FORMAT : LOWER_DIAG_ROW\n\
    EDGE_WEIGHT_SECTION\n0\n3 0\n4 5 0\nEOF\n";

fn four(a: u32, b: u32) -> i64
    requires a { (1 ≤ a) × (a ≤ 4) }
    requires b { (1 ≤ b) × (b ≤ 4) }
    ensures { result ≡ pos (slice_index FOUR (4 * (a - 1) + (b - 1))) }
{
    FOUR[4 * (a as usize - 1) + (b as usize - 1)] as i64
}

fn three(a: u32, b: u32) -> i64
    requires a { (1 ≤ a) × (a ≤ 3) }
    requires b { (1 ≤ b) × (b ≤ 3) }
    ensures { result ≡ pos (slice_index THREE (3 * (a - 1) + (b - 1))) }
{
    THREE[3 * (a as usize - 1) + (b as usize - 1)] as i64
}

fn write_four<W: Sink>(sink: &mut W, f: Format) -> Result<(), WriteFault> {
    write_matrix(sink, b"a b", 4, &four, f)
}

fn write_three<W: Sink>(sink: &mut W) -> Result<(), WriteFault> {
    write_matrix(sink, b"p", 3, &three, Format::LowerDiagRow)
}

#[test]
fn writes_a_lower_triangle_with_its_diagonal(rt: HostRuntime) {
    for limit in 0..=THREE_TEXT.len() {
        for errs in &[false, true] {
            let mut sink = FakeSink::new(limit, *errs);
            let reported = write_three(&mut sink);
            expect_taken(&rt, &sink, reported, THREE_TEXT);
        }
    }
}

/// The text of three cities is read as its name and the weights below its diagonal.
#[test]
fn a_matrix_is_read_back(rt: HostRuntime) {
    let wanted = Reported {
        name: b"p",
        n: 3,
        weights: ReportedWeights::Lower(&[3, 4, 5]),
        routing: None,
    };
    accept(&rt, rt.alloc(), THREE_TEXT, &wanted);
}

/// The head of the text of a table of four cities, up to its format.
const HEAD: &[u8] =
    b"NAME : a b\nTYPE : TSP\nDIMENSION : 4\nEDGE_WEIGHT_TYPE : EXPLICIT\nEDGE_WEIGHT_FORMAT : ";

/// A format, the word for it in a text, and the lines of the weights of four cities.
type InFormat<'a> = (Format, &'a [u8], &'a [u8]);

/// Checks that the table of four cities is written as these lines in each format.
fn expect_four(rt: &impl Abort, alloc: Global, rows: &[InFormat<'_>]) {
    for (format, word, lines) in rows {
        let text = joined(
            rt,
            alloc,
            &[HEAD, word, b"\nEDGE_WEIGHT_SECTION\n", lines, b"EOF\n"],
        );
        let mut sink = FakeSink::new(ROOM, false);
        let reported = write_four(&mut sink, *format);
        expect_taken(rt, &sink, reported, &text);
    }
}

#[test]
fn writes_each_format(rt: HostRuntime) {
    expect_four(
        &rt,
        rt.alloc(),
        &[
            (
                Format::FullMatrix,
                b"FULL_MATRIX",
                b"0 1 2 3\n1 0 4 5\n2 4 0 6\n3 5 6 0\n",
            ),
            (Format::UpperRow, b"UPPER_ROW", b"1 2 3\n4 5\n6\n"),
            (Format::LowerCol, b"LOWER_COL", b"1 2 3\n4 5\n6\n"),
            (Format::LowerRow, b"LOWER_ROW", b"1\n2 4\n3 5 6\n"),
            (Format::UpperCol, b"UPPER_COL", b"1\n2 4\n3 5 6\n"),
            (
                Format::UpperDiagRow,
                b"UPPER_DIAG_ROW",
                b"0 1 2 3\n0 4 5\n0 6\n0\n",
            ),
            (
                Format::LowerDiagCol,
                b"LOWER_DIAG_COL",
                b"0 1 2 3\n0 4 5\n0 6\n0\n",
            ),
            (
                Format::LowerDiagRow,
                b"LOWER_DIAG_ROW",
                b"0\n1 0\n2 4 0\n3 5 6 0\n",
            ),
            (
                Format::UpperDiagCol,
                b"UPPER_DIAG_COL",
                b"0\n1 0\n2 4 0\n3 5 6 0\n",
            ),
        ],
    );
}
