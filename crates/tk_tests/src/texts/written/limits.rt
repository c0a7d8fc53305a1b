//! The part of a text that a sink takes.

use crate::given::expect;
use crate::texts::expect_bytes;
use crate::texts::fakes::FakeSink;
use std::process::Abort;
use tk_text::{Sink, WriteFault};

/// Whether a writer reports that the whole text was written, or exactly as much of it as this limit allows.
fn is_reported(reported: Result<(), WriteFault>, text: &[u8], limit: usize) -> bool {
    match reported {
        Ok(()) => text.len() <= limit,
        Err(fault) => limit < text.len() && fault.written == limit as u64,
    }
}

/// Checks that the sink took the text up to its limit, and that the writer reported this.
pub fn expect_taken(
    rt: &impl Abort,
    sink: &FakeSink,
    reported: Result<(), WriteFault>,
    text: &[u8],
) {
    let count = text.len().min(sink.limit);
    expect(rt, is_reported(reported, text, sink.limit));
    expect(rt, sink.failed() == (count < text.len()));
    expect_bytes(rt, sink.taken(), &text[..count]);
}
