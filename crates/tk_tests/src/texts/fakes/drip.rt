//! A source that returns few bytes at a time, for tests.
ghost use Rattle.std.specs.Prelude.{None};

use tk_text::{Failed, Source};

/// Returns at most `most` bytes at a time. After its last byte, it fails if `fails` is true.
#[derive(Drop)]
pub struct Drip<'a> {
    pub bytes: &'a [u8],
    pub most: usize,
    pub fails: bool,
    pub failed: bool,
}

impl<'a> Source for Drip<'a> {
    ghost left = { λ s. None };

    ghost broken = { λ s. s.failed };

    fn read(&mut self, buf: &mut [u8]) -> Result<usize, Failed> {
        let count = self.bytes.len().min(buf.len()).min(self.most);
        if self.bytes.is_empty() && self.fails {
            self.failed = true;
            return Err(Failed);
        }
        buf[..count].copy_from_slice(&self.bytes[..count]);
        self.bytes = &self.bytes[count..];
        Ok(count)
    }

    fn failed(&self) -> bool {
        self.failed
    }
}
