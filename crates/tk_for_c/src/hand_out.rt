//! Copies texts to buffers of the caller.
ghost use Rattle.std.specs.Prelude.{◌≡◌, length};
ghost use Rattle.tk_for_c.specs.HandedOut.{handed_out};

/// Copies as much of a text to a buffer as fits, and returns the number of bytes of the whole text.
pub(crate) fn hand_out(text: &[u8], out: &mut [u8]) -> usize
    ensures needed { result ≡ length text.now }
    ensures bytes { out.new ≡ handed_out text.now out.old }
{
    let count = text.len().min(out.len());
    out[..count].copy_from_slice(&text[..count]);
    text.len()
}
