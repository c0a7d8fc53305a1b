//! A sink that fails, for tests.
ghost use Rattle.std.specs.Prelude.{◌≡◌, ◌≤◌, None, false, take};

use tk_text::{Failed, Sink};

/// The capacity of a sink, in bytes.
pub const ROOM: usize = 512;

/// Takes at most 7 bytes per call and `limit` bytes in all, but no more than `ROOM`. Then it fails: with an error if
/// `errs` is true, otherwise by taking no byte.
#[derive(Drop)]
pub struct FakeSink {
    pub bytes: [u8; ROOM],
    pub len: usize,
    pub limit: usize,
    pub errs: bool,
    pub failed: bool,
    ghost within: { len ≤ 512 },
}

impl FakeSink {
    /// A sink that has taken no byte.
    pub fn new(limit: usize, errs: bool) -> FakeSink
        ensures empty { (result.len ≡ 0) × (result.failed ≡ false) }
        ensures set { (result.limit ≡ limit) × (result.errs ≡ errs) }
    {
        FakeSink {
            bytes: [0; ROOM],
            len: 0,
            limit,
            errs,
            failed: false,
        }
    }

    /// The bytes that it has taken.
    pub fn taken(&self) -> &[u8]
        ensures { result.now ≡ take self.now.len self.now.bytes }
    {
        &self.bytes[..self.len]
    }
}

impl Sink for FakeSink {
    ghost taken = { λ _. None };

    ghost broken = { λ s. s.failed };

    fn write(&mut self, piece: &[u8]) -> Result<usize, Failed> {
        let room = self.limit.min(ROOM).saturating_sub(self.len);
        let count = piece.len().min(room).min(7);
        if count == 0 && !piece.is_empty() {
            self.failed = true;
            return if self.errs { Err(Failed) } else { Ok(0) };
        }
        let end = self.len + count;
        self.bytes[self.len..end].copy_from_slice(&piece[..count]);
        self.len = end;
        Ok(count)
    }

    fn failed(&self) -> bool {
        self.failed
    }
}
