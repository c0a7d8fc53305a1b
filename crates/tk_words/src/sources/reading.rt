//! Passes the bytes of a source to a reader, one buffer at a time.
ghost use Rattle.std.specs.Prelude.{◌≡◌, ℕ, ◌+◌, ◌<◌, ◌≤◌, ◌^◌, false, List, [], length, Ok};
ghost use Rattle.tk_words.specs.Reading.{HasTakenPiece, IsReading};

use crate::sources::source::Source;
use crate::sources::text_reader::{FeedResult, TextReader};

/// Maximum number of bytes that a source is asked for at once.
pub const BUFFER_SIZE: usize = 8192;

/// Passes a piece to a reader, as far as it is needed, and returns whether the text is complete. `count` bytes come
/// before the piece.
///
/// # Errors
/// The fault that the reader finds, or that of a text that is too long, at the first byte past the limit.
pub fn feed_piece<P: TextReader>(
    reader: &mut P,
    piece: &[u8],
    count: u64,
    limit: u64,
) -> Result<bool, P::Fault>
    requires limit { (limit ≡ P.texts.limit) × (limit < 2 ^ 63) }
    requires within { count ≤ limit }
    requires known { (before : List ℕ) × P.fed reader.old before × (length before ≡ count) }
    ensures taken { HasTakenPiece P.TextReader reader.old reader.new count piece.now result }
    ensures room { result ≡ Ok false → count + length piece.now ≤ limit }
{
    let end = piece.len().min((limit - count) as usize);
    let mut start = 0;
    while start < end {
        match reader.feed(&piece[start..end]) {
            Ok(FeedResult::Done) => return Ok(true),
            Ok(FeedResult::Taken(count)) => start += count,
            Err(fault) => return Err(fault),
        }
    }
    if end == piece.len() {
        return Ok(false);
    }
    let fault = reader.too_long();
    match reader.feed(&piece[end..end + 1]) {
        Ok(FeedResult::Done) => Ok(true),
        Ok(FeedResult::Taken(_)) => Err(fault),
        Err(fault) => Err(fault),
    }
}

/// Reads a text from a source, one buffer at a time, until the reader needs no more. Even if the source does not
/// specify its bytes, the value or the fault is that of some text.
///
/// # Errors
/// The fault that the reader finds; that of a text that exceeds its limit; and `cut_off` of the reader if the source
/// fails.
pub fn read_text<R: Source, P: TextReader>(source: &mut R, reader: P) -> Result<P::Out, P::Fault>
    requires { P.fed reader [] }
    ensures reads { IsReading R.Source P.texts P.view source.old source.new result }
{
    let mut reader = reader;
    let limit = reader.limit();
    let mut buf = [0; BUFFER_SIZE];
    let mut count = 0;
    loop {
        let n = match source.read(&mut buf) {
            Ok(n) => n,
            Err(_) => return Err(reader.cut_off()),
        };
        if n == 0 {
            return reader.finish();
        }
        if feed_piece(&mut reader, &buf[..n], count, limit)? {
            return Ok(reader.value());
        }
        count += n as u64;
    }
}
