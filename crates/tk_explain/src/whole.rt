//! A text in memory, as a source.
ghost use Rattle.std.specs.Prelude.{Some, false};

use std::io::Read;
use tk_words::{Failed, Source};

/// The bytes of a text that are still to be read. No read of them fails.
#[derive(Drop)]
pub struct Whole<'a> {
    pub bytes: &'a [u8],
}

impl Source for Whole<'_> {
    ghost left = { λ s. Some s.bytes.now };

    ghost broken = { λ _. false };

    fn read(&mut self, buf: &mut [u8]) -> Result<usize, Failed> {
        match self.bytes.read(buf) {
            Ok(count) => Ok(count),
            Err(_) => Err(Failed),
        }
    }

    fn failed(&self) -> bool {
        false
    }
}
