//! The texts of pieces, tours and routes, written completely and to sinks that fail.

use crate::given::expect;
use crate::texts::fakes::FakeSink;
use crate::texts::written::limits::expect_taken;
use crate::texts::written::read_back::two_routes;
use std::process::Abort;
use tk_text::{Pen, Sink, ToWrite, WriteFault, write_solution, write_tour};

/// A piece that is put into a pen.
enum Piece {
    Bytes(&'static [u8]),
    Number(u64),
    Numbers(&'static [u32]),
}

const PIECES: &[Piece] = &[
    Piece::Bytes(b"abc"),
    Piece::Bytes(b""),
    Piece::Bytes(b"de"),
    Piece::Number(0),
    Piece::Bytes(b"/"),
    Piece::Number(u64::MAX),
    Piece::Bytes(b": "),
    Piece::Numbers(&[]),
    Piece::Numbers(&[7, 10]),
];

const PIECES_TEXT: &[u8] = b"abcde0/18446744073709551615: 7 10";

fn put<W: Sink>(pen: &mut Pen<'_, W>, piece: &Piece) {
    match piece {
        Piece::Bytes(bytes) => pen.put(bytes),
        Piece::Number(number) => pen.put_number(*number),
        Piece::Numbers(numbers) => pen.put_spaced(numbers),
    }
}

fn write_pieces<W: Sink>(sink: &mut W) -> Result<(), WriteFault> {
    let mut pen = Pen::new(sink);
    for piece in PIECES {
        put(&mut pen, piece);
    }
    pen.end()
}

#[test]
fn writes_pieces(rt: HostRuntime) {
    for limit in 0..=PIECES_TEXT.len() {
        for errs in &[false, true] {
            let mut sink = FakeSink::new(limit, *errs);
            let reported = write_pieces(&mut sink);
            expect_taken(&rt, &sink, reported, PIECES_TEXT);
        }
    }
}

/// Writes `x` 10,000 times, and then `y`.
fn write_long<W: Sink>(sink: &mut W) -> Result<(), WriteFault> {
    let piece = [b'x'; 5000];
    let mut pen = Pen::new(sink);
    pen.put(&piece);
    pen.put(&piece);
    pen.put(b"y");
    pen.end()
}

/// Checks that there are 10,001 bytes, and that the last one is `y`.
fn expect_long(rt: &impl Abort, bytes: &[u8]) {
    expect(rt, bytes.len() == 10_001);
    expect(rt, bytes[10_000] == b'y');
}

#[test]
fn writes_more_than_a_page(rt: HostRuntime) {
    let mut sink = ToWrite::new(Vec::new(rt.alloc()));
    let reported = write_long(&mut sink);
    expect(&rt, reported == Ok(()));
    expect(&rt, !sink.failed());
    expect_long(&rt, sink.inner.as_slice());
}

const TOUR_TEXT: &[u8] =
    b"NAME : p.40.tour\nCOMMENT : Length = 40\nTYPE : TOUR\nDIMENSION : 4\nTOUR_SECTION\n1\n3\n2\n4\n-1\nEOF\n";

#[test]
fn writes_a_tour(rt: HostRuntime) {
    for limit in 0..=TOUR_TEXT.len() {
        let mut sink = FakeSink::new(limit, limit % 2 == 0);
        let reported = write_tour(&mut sink, b"p", 40, &[1, 3, 2, 4]);
        expect_taken(&rt, &sink, reported, TOUR_TEXT);
    }
}

const SOLUTION_TEXT: &[u8] = b"Route #1: 1 2\nRoute #2: 3 4\nCost 44\n";

#[test]
fn writes_a_solution(rt: HostRuntime) {
    let routes = two_routes(&rt, rt.alloc());
    for limit in 0..=SOLUTION_TEXT.len() {
        let mut sink = FakeSink::new(limit, limit % 2 == 0);
        let reported = write_solution(&mut sink, &routes, 44);
        expect_taken(&rt, &sink, reported, SOLUTION_TEXT);
    }
}
