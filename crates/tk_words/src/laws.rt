//! Laws of reading: there is nothing to run.
ghost use Rattle.std.specs.Prelude.{◌≡◌};
ghost use Rattle.tk_words.specs.declared.sources.reading.TheConstants.{BUFFER_SIZE};

/// A law: the size of a buffer is this number.
pub fn buffer_size_is_this_number()
    ensures { BUFFER_SIZE ≡ 8192 }
{}
