//! Scans the value of a header, byte by byte.
ghost use Rattle.std.specs.Prelude.{◌≡◌, ◌≤◌, ◌<◌, ℕ, List, [], ◌∷◌, ◌++◌, length, Some, None, IfSome, IfOk, IfErr};
ghost use Rattle.std.specs.Prelude.{◌^◌};
ghost use Rattle.tk_lines.specs.Reader.ValueScanner.{Scans};
ghost use Rattle.tk_lines.specs.HeaderValue.{IsNumberFault, first_word};
ghost use Rattle.tk_words.specs.Lex.{trim, after_word};
ghost use Rattle.tk_words.specs.Words.{spells};
ghost use Rattle.tk_words.specs.Entry.{IsNumber};
ghost use Rattle.tk_lines.specs.Reader.Handlers.{IsReportedWord};

use tk_words::{ByteBuffer, TextKind, blank, integer, limited, spelled};

/// How far a value has been read.
#[derive(Clone, Copy)]
pub enum Phase {
    Before,
    Behind,
    First,
    Rest,
}

/// The parts of a header's value that are kept: its first word up to 64 bytes, its first 1,024 bytes, and its length
/// without outer blanks.
#[derive(Drop)]
pub struct ValueScanner {
    pub phase: Phase,
    pub count: u32,
    pub first: ByteBuffer<64>,
    pub text: ByteBuffer<1024>,
    pub seen: u32,
    pub trimmed: u32,
}

impl ValueScanner {
    /// A scanner that has read nothing yet.
    pub fn new() -> Self
        ensures { Scans result [] }
    {
        ValueScanner {
            phase: Phase::Before,
            count: 0,
            first: ByteBuffer::new(),
            text: ByteBuffer::new(),
            seen: 0,
            trimmed: 0,
        }
    }

    /// Makes this a scanner that has read nothing yet.
    pub fn clear(&mut self)
        ensures { Scans self.new [] }
    {
        self.phase = Phase::Before;
        self.count = 0;
        self.first.clear();
        self.text.clear();
        self.seen = 0;
        self.trimmed = 0;
    }

    /// Takes a byte.
    pub fn push(&mut self, byte: u8)
        requires room { (self.old.count < 2 ^ 16) × (self.old.seen < 2 ^ 16) }
        requires known { (v : List ℕ) × Scans self.old v }
        ensures { (v : List ℕ) → Scans self.old v → Scans self.new (v ++ byte ∷ []) }
    {
        self.count += 1;
        match self.phase {
            Phase::Before => {
                if blank(byte) {
                    return;
                }
                if byte == b':' {
                    self.phase = Phase::Behind;
                    return;
                }
                self.begin(byte);
            }
            Phase::Behind => {
                if blank(byte) {
                    return;
                }
                self.begin(byte);
            }
            Phase::First => {
                self.seen += 1;
                self.text.keep(byte);
                if blank(byte) {
                    self.phase = Phase::Rest;
                    return;
                }
                self.trimmed = self.seen;
                if self.first.is_full() {
                    return;
                }
                self.first.push(byte);
            }
            Phase::Rest => {
                self.seen += 1;
                self.text.keep(byte);
                if blank(byte) {
                    return;
                }
                self.trimmed = self.seen;
            }
        }
    }

    /// The value as a name, without outer blanks; `None` if it is longer than 1,024 bytes.
    pub fn name(&self) -> Option<&[u8]>
        ensures long { (v : List ℕ) → Scans self.now v → result ≡ None → 1024 < length (trim (after_word v)) }
        ensures name { (v : List ℕ) → Scans self.now v
            → IfSome result (λ s. (s.now ≡ trim (after_word v)) × (length s.now ≤ 1024)) }
    {
        let text = self.text.as_slice();
        let end = self.trimmed as usize;
        if end > text.len() {
            return None;
        }
        Some(&text[..end])
    }

    /// Whether the first word of the value spells this text, which is in capitals. The case of the word does not
    /// matter.
    pub fn is(&self, text: &[u8]) -> bool
        requires { length text.now < 64 }
        ensures { (v : List ℕ) → Scans self.now v → result ≡ spells (first_word v) text.now }
    {
        spelled(self.first.as_slice(), text)
    }

    /// The first word of the value, as an integer within limits.
    ///
    /// # Errors
    /// `BadNumber` if it is not an integer, `OutOfLimit` if it is outside the limits.
    pub fn number(&self, low: u32, high: u32) -> Result<u32, TextKind>
        ensures ok { (v : List ℕ) → Scans self.now v → IfOk result (λ n. IsNumber low high (first_word v) n) }
        ensures err { (v : List ℕ) (line : ℕ) → Scans self.now v
            → IfErr result (IsReportedWord (IsNumberFault low high line v)) }
    {
        let Some(number) = integer(self.first.as_slice()) else {
            return Err(TextKind::BadNumber);
        };
        match limited(number, low, high) {
            Some(number) => Ok(number),
            None => Err(TextKind::OutOfLimit),
        }
    }

    fn begin(&mut self, byte: u8)
        requires { (self.old.first ≡ []) × (self.old.text ≡ []) }
        ensures { self.new ≡ record self.old {
          phase = phases.First;
          first = byte ∷ [];
          text = byte ∷ [];
          seen = 1;
          trimmed = 1;
        } }
    {
        self.phase = Phase::First;
        self.seen = 1;
        self.trimmed = 1;
        self.first.push(byte);
        self.text.push(byte);
    }

    ghost use Rattle.tk_lines.specs.declared.value_scanner.Phase.TheVariants as phases;
}
