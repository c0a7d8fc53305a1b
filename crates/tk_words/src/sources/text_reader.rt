//! Readers, which take the bytes of a text.
ghost use Rattle.std.specs.Prelude.{◌≡◌, ℕ, ◌+◌, ◌≤◌, ◌<◌, ◌^◌, false, List, length, None};
ghost use Rattle.tk_words.specs.Texts.{Texts, OfSource, OfText, line_behind};
ghost use Rattle.tk_words.specs.Taking.{HasTaken, HasEnded};

/// The result of passing bytes to a reader.
#[derive(Clone, Copy)]
pub enum FeedResult {
    /// The reader has taken this many of them, and the text continues.
    Taken(usize),
    /// They complete the text.
    Done,
}

/// Reads a text from its bytes.
pub trait TextReader: Drop {
    /// The value that it reads.
    type Out;

    /// The fault of a text that it rejects.
    type Fault: Copy;

    /// The type of the value in contracts.
    ghost Value: { Type 0 };

    /// The value as contracts see it.
    ghost view: { Self.Out → Value };

    /// The texts that it reads.
    ghost texts: { Texts Value Self.Fault };

    /// True if the reader has taken these bytes, and they do not decide the answer.
    ghost fed: { Self → List ℕ → Type 0 };

    /// The value that it has stored.
    ghost held: { Self → Value };

    /// True if that value is complete.
    ghost complete: { Self → Type 0 };

    /// Takes the next bytes: at least one of them, unless they complete the text or contain a fault.
    ///
    /// # Errors
    /// The fault that the text contains, up to one of these bytes.
    fn feed(&mut self, bytes: &[u8]) -> Result<FeedResult, Self::Fault>
        requires some { 1 ≤ length bytes.now }
        requires room { (before : List ℕ) × fed self.old before × (length before + length bytes.now ≤ 2 ^ 63) }
        ensures { (before : List ℕ) → fed self.old before
            → HasTaken texts (fed self.new) (held self.new) (complete self.new) before bytes.now result };

    /// The answer at the end of the bytes.
    ///
    /// # Errors
    /// The fault of the text.
    fn finish(self) -> Result<Self::Out, Self::Fault>
        requires { (before : List ℕ) × fed self before }
        ensures { (before : List ℕ) → fed self before → HasEnded texts view before result };

    /// The value that was read, once the text is complete.
    fn value(self) -> Self::Out
        requires { complete self }
        ensures { view result ≡ held self };

    /// Maximum number of bytes of a text.
    fn limit(&self) -> u64
        ensures { (result ≡ texts.limit) × (result < 2 ^ 63) };

    /// The fault of a text whose next byte exceeds the limit.
    fn too_long(&self) -> Self::Fault
        ensures { (before : List ℕ) → fed self.now before → result ≡ texts.too_long (line_behind before) };

    /// The fault if the source fails before the next byte.
    fn cut_off(&self) -> Self::Fault
        ensures cause { texts.cause result ≡ OfSource }
        ensures line { (before : List ℕ) → fed self.now before → texts.line_of result ≡ line_behind before };

    /// The fault of a text that is too long is one of the text itself.
    ghost too_long_reported: { (line : ℕ) → texts.cause (texts.too_long line) ≡ OfText };

    /// The reader needs more bytes: those that it has taken do not decide the answer.
    ghost waits: { (reader : Self) (before : List ℕ) → fed reader before → texts.decided false before ≡ None };
}
