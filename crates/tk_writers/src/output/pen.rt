//! Pens, which write a text piece by piece.
ghost use Rattle.std.specs.Prelude.{◌≡◌, ◌+◌, ◌≤◌, ◌<◌, ◌^◌, Bool, true, List, [], ℕ, length, take, Option};
ghost use Rattle.std.specs.Prelude.{MatchResult};
ghost use Rattle.std.specs.Io.KnownBytes.{Appends};
ghost use Rattle.tk_writers.specs.Puts.{IsPut, Stops};
ghost use Rattle.tk_writers.specs.Sinks.{IsBroken};

use crate::output::page::Page;
use crate::output::sink::Sink;
use itoa::Buffer;
use thiserror::Error;

/// After this many bytes, 2^63, no more pages are sent.
const LONGEST: u64 = 1 << 63;

/// A write failed, and exactly the first `written` bytes of the text were written.
#[derive(Clone, Copy, Debug, PartialEq, Eq, Error)]
#[error("a write failed after {written} bytes")]
pub struct WriteFault {
    /// The number of bytes that were written.
    pub written: u64,
}

/// Writes a text to a sink through a page in memory.
///
/// After a failed write it writes nothing more, and `end` returns the fault.
#[derive(Drop)]
pub struct Pen<'a, W> {
    pub sink: &'a mut W,
    pub page: Page,
    /// The number of bytes that the sink has taken.
    pub written: u64,
    /// Whether a write has failed.
    pub stopped: bool,
    ghost short: { written ≤ 2 ^ 63 + 8192 },
}

/// Writes bytes until the sink has taken all of them or fails, and returns the number of bytes that it took.
fn write_whole<W: Sink>(sink: &mut W, bytes: &[u8]) -> usize
    ensures bound { result ≤ length bytes.now }
    ensures sent { Appends (W.taken sink.old) (W.taken sink.new) (take result bytes.now) }
    ensures whole { result ≡ length bytes.now → W.broken sink.new ≡ W.broken sink.old }
    ensures part { result < length bytes.now → IsBroken W.Sink sink.new }
{
    let mut taken = 0;
    while taken < bytes.len() {
        match sink.write(&bytes[taken..]) {
            Ok(n) if n > 0 => taken += n,
            _ => return taken,
        }
    }
    taken
}

/// Sends a page after `written` bytes. Returns the number of bytes written by then, and whether writing has stopped.
fn send<W: Sink>(sink: &mut W, written: u64, stopped: bool, page: &[u8]) -> (u64, bool)
    requires count { written ≤ 2 ^ 63 + 8192 }
    requires page { length page.now ≤ 8192 }
    ensures count { result.0 ≤ 2 ^ 63 + 8192 }
    ensures put { (start : Option (List ℕ)) (failed : Bool) (text : List ℕ)
        → IsPut W.Sink start failed text sink.old written stopped page.now
        → IsPut W.Sink start failed text sink.new result.0 result.1 [] }
{
    if stopped || page.is_empty() {
        return (written, stopped);
    }
    if written >= LONGEST {
        return (written, true);
    }
    let taken = write_whole(sink, page);
    (written + taken as u64, taken < page.len())
}

/// Sends the last page after `written` bytes.
fn send_last<W: Sink>(
    sink: &mut W,
    written: u64,
    stopped: bool,
    page: &[u8],
) -> Result<(), WriteFault>
    requires count { written ≤ 2 ^ 63 + 8192 }
    requires page { length page.now ≤ 8192 }
    ensures { (start : Option (List ℕ)) (failed : Bool) (text : List ℕ)
        → IsPut W.Sink start failed text sink.old written stopped page.now
        → MatchResult result (λ _. Appends start (W.taken sink.new) text
        × (W.broken sink.new ≡ failed)) (λ f. Stops W.Sink start text sink.new f) }
{
    let (written, stopped) = send(sink, written, stopped, page);
    if stopped {
        return Err(WriteFault { written });
    }
    Ok(())
}

impl<'a, W: Sink> Pen<'a, W> {
    ghost use Rattle.std.specs.Prelude.{decimal};
    ghost use Rattle.tk_writers.specs.Pens.{PenHolds, Puts, PenEnds};
    ghost use Rattle.tk_writers.specs.Written.{spaced_numbers};

    /// A pen that has written nothing.
    pub fn new(sink: &'a mut W) -> Pen<'a, W>
        ensures same { result.sink.ghost_name ≡ sink.entry.ghost_name }
        ensures empty { PenHolds W.Sink (W.taken sink.old) (W.broken sink.old) [] result }
    {
        Pen {
            sink,
            page: Page::new(),
            written: 0,
            stopped: false,
        }
    }

    /// Appends bytes to the text.
    #[inline(always)]
    pub fn put(&mut self, bytes: &[u8])
        ensures { Puts W.Sink self.old self.new bytes.now }
    {
        if bytes.len() <= self.page.room() {
            self.page.push(bytes);
        } else {
            self.put_past_page(bytes);
        }
    }

    #[cold]
    #[inline(never)]
    fn put_past_page(&mut self, bytes: &[u8])
        ensures { Puts W.Sink self.old self.new bytes.now }
    {
        let mut rest = bytes;
        while rest.len() > self.page.room() {
            let (piece, more) = rest.split_at(self.page.room());
            self.page.push(piece);
            self.send_page();
            rest = more;
        }
        self.page.push(rest);
    }

    /// Sends the page, and empties it.
    fn send_page(&mut self)
        ensures puts { Puts W.Sink self.old self.new [] }
        ensures empty { self.new.page ≡ [] }
    {
        let (written, stopped) = send(self.sink, self.written, self.stopped, self.page.as_slice());
        self.written = written;
        self.stopped = stopped;
        self.page.clear();
    }

    /// Appends the decimal digits of a number to the text.
    pub fn put_number(&mut self, number: u64)
        ensures { Puts W.Sink self.old self.new (decimal number) }
    {
        let mut buffer = Buffer::new();
        self.put(buffer.format(number).as_bytes());
    }

    /// Appends the decimal digits of a number of up to 128 bits to the text.
    pub fn put_wide(&mut self, number: u128)
        ensures { Puts W.Sink self.old self.new (decimal number) }
    {
        let mut buffer = Buffer::new();
        let digits = buffer.format(number);
        self.put(digits.as_bytes());
    }

    /// Appends numbers to the text, separated by single spaces.
    pub fn put_spaced(&mut self, numbers: &[u32])
        ensures { Puts W.Sink self.old self.new (spaced_numbers numbers.now) }
    {
        let Some((first, rest)) = numbers.split_first() else {
            return;
        };
        self.put_number(*first as u64);
        for number in rest {
            self.put(b" ");
            self.put_number(*number as u64);
        }
    }

    /// Sends the last page. The whole text has been written then, unless there is a fault.
    ///
    /// # Errors
    /// A write failed; the fault contains the number of bytes that were written.
    pub fn end(self) -> Result<(), WriteFault>
        ensures { PenEnds W.Sink self.entry self.exit.0.now result }
    {
        let Pen {
            sink,
            page,
            written,
            stopped,
        } = self;
        send_last(sink, written, stopped, page.as_slice())
    }
}
