//! A source of a text and blanks, for tests.
ghost use Rattle.std.specs.Prelude.{None, false};

use tk_text::{Failed, Source};

/// Returns the bytes of a text, followed by this many blanks.
#[derive(Drop)]
pub struct Padded<'a> {
    pub text: &'a [u8],
    pub blanks: u64,
}

impl<'a> Source for Padded<'a> {
    ghost left = { λ s. None };

    ghost broken = { λ s. false };

    fn read(&mut self, buf: &mut [u8]) -> Result<usize, Failed> {
        if self.text.is_empty() {
            let count = self.blanks.min(buf.len() as u64);
            buf[..count as usize].fill(b' ');
            self.blanks -= count;
            return Ok(count as usize);
        }
        let count = self.text.len().min(buf.len());
        buf[..count].copy_from_slice(&self.text[..count]);
        self.text = &self.text[count..];
        Ok(count)
    }

    fn failed(&self) -> bool {
        false
    }
}
