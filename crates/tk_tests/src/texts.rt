//! Texts: examples of the definitions of formats, and checks and texts that these tests share.
mod examples;
mod fakes;
mod faults;
mod numbers;
mod points;
mod problems;
mod solutions;
mod streams;
mod tours;
mod weight_orders;
mod written;

use crate::given::expect;
use std::alloc::Global;
use std::process::Abort;

/// Checks that these are the bytes of a text.
pub fn expect_bytes(rt: &impl Abort, bytes: &[u8], want: &[u8]) {
    expect(rt, bytes == want);
}

/// The pieces, one after another.
pub fn joined(rt: &impl Abort, alloc: Global, pieces: &[&[u8]]) -> Vec<u8> {
    pieces.concat(alloc).expect(rt, "memory for a text")
}

/// A piece, repeated `times` times, between a first and a last piece.
pub fn repeated(
    rt: &impl Abort,
    alloc: Global,
    first: &[u8],
    piece: &[u8],
    times: usize,
    last: &[u8],
) -> Vec<u8> {
    let middle = piece.repeat(alloc, times).expect(rt, "memory for a text");
    joined(rt, alloc, &[first, &middle, last])
}
