//! Sinks, which take the bytes of a text.
ghost use Rattle.std.specs.Prelude.{◌≡◌, ℕ, Bool, false, ◌||◌, List, Option};
ghost use Rattle.std.specs.Io.{WritesAtMost};
ghost use Rattle.std.specs.Io.KnownBytes.{WriteAppends};
ghost use Rattle.tk_writers.specs.Writes.{write_fails};

use std::io::Write;
use tk_words::Failed;

/// A destination for bytes.
pub trait Sink {
    /// The bytes taken, if the contract of the sink specifies them.
    ghost taken: { Self → Option (List ℕ) };

    /// Whether a write has failed.
    ghost broken: { Self → Bool };

    /// Takes bytes from the front of a piece, and returns their number.
    fn write(&mut self, piece: &[u8]) -> Result<usize, Failed>
        ensures bound { WritesAtMost result piece.now }
        ensures bytes { WriteAppends (taken self.old) (taken self.new) result piece.now }
        ensures failed { broken self.new ≡ (broken self.old || write_fails result piece.now) };

    /// Whether a write has failed: with an error, or by taking no byte of a piece that is not empty.
    fn failed(&self) -> bool
        ensures { result ≡ broken self.now };
}

/// A sink that writes to a `Write` of the standard library.
#[derive(Drop)]
pub struct ToWrite<W> {
    pub inner: W,
    failed: bool,
}

impl<W: Write> ToWrite<W> {
    ghost use Rattle.tk_writers.specs.Sinks.{has_write_failed};

    /// A sink that has not failed.
    pub fn new(inner: W) -> Self
        ensures inner { result.inner ≡ inner }
        ensures fresh { has_write_failed result ≡ false }
    {
        ToWrite {
            inner,
            failed: false,
        }
    }
}

impl<W: Write> Sink for ToWrite<W> {
    ghost use Rattle.tk_writers.specs.Sinks.{has_write_failed};

    ghost taken = { λ s. W.contents s.inner };

    ghost broken = { has_write_failed };

    fn write(&mut self, piece: &[u8]) -> Result<usize, Failed> {
        match self.inner.write(piece) {
            Ok(n) => {
                if n == 0 && !piece.is_empty() {
                    self.failed = true;
                }
                Ok(n)
            }
            Err(_) => {
                self.failed = true;
                Err(Failed)
            }
        }
    }

    fn failed(&self) -> bool {
        self.failed
    }
}
