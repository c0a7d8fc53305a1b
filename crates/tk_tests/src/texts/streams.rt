//! Bytes that are read from a slice of memory, and written to a vector.

use crate::given::expect;
use crate::texts::expect_bytes;
use tk_text::{FromRead, Sink, Source, ToWrite};

#[test]
fn reads_bytes(rt: HostRuntime) {
    let text: &[u8] = b"EOF\n-1";
    let mut source = FromRead::new(text);
    let mut bytes = [0; 4];
    expect(&rt, source.read(&mut bytes) == Ok(4));
    expect_bytes(&rt, &bytes, b"EOF\n");
    expect(&rt, source.read(&mut bytes) == Ok(2));
    expect_bytes(&rt, &bytes, b"-1F\n");
    expect(&rt, source.read(&mut bytes) == Ok(0));
    expect(&rt, !source.failed());
}

#[test]
fn writes_bytes(rt: HostRuntime) {
    let mut sink = ToWrite::new(Vec::new(rt.alloc()));
    expect(&rt, sink.write(b"EOF") == Ok(3));
    expect(&rt, !sink.failed());
    expect_bytes(&rt, &sink.inner, b"EOF");
}
