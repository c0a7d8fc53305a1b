//! Reads the head of a Route line, byte by byte.
ghost use Rattle.tk_lists.specs.Reader.SolutionReader.{IsHead, HasStepped};

use tk_words::blank;

/// The state within the head of a Route line.
#[derive(Clone, Copy)]
pub enum HeadPlace {
    /// After the word, before a `#` or the number.
    Word,
    /// Before the number.
    Number,
    /// In the number, after its sign and this many digits.
    Digits(u8),
    /// After the number.
    Colon,
}

/// The effect of a byte on a head.
#[derive(Clone, Copy)]
pub enum HeadStep {
    /// The head continues in this state.
    At(HeadPlace),
    /// The head is complete.
    Behind,
    /// The head is malformed.
    Bad,
}

/// Takes a byte of the number.
fn step_in_digits(count: u8, byte: u8) -> HeadStep
    requires { IsHead (HeadPlace.Digits count) }
    ensures { HasStepped (HeadPlace.Digits count) byte result }
{
    if byte.is_ascii_digit() {
        if count == 18 {
            return HeadStep::Bad;
        }
        return HeadStep::At(HeadPlace::Digits(count + 1));
    }
    if count == 0 {
        return HeadStep::Bad;
    }
    step_behind_number(byte)
}

/// Takes a byte after the number.
fn step_behind_number(byte: u8) -> HeadStep
    ensures { HasStepped HeadPlace.Colon byte result }
{
    if blank(byte) {
        return HeadStep::At(HeadPlace::Colon);
    }
    if byte == b':' {
        return HeadStep::Behind;
    }
    HeadStep::Bad
}

/// Takes a byte before the number.
fn step_to_number(byte: u8) -> HeadStep
    ensures { HasStepped HeadPlace.Number byte result }
{
    if blank(byte) {
        return HeadStep::At(HeadPlace::Number);
    }
    if byte == b'+' || byte == b'-' {
        return HeadStep::At(HeadPlace::Digits(0));
    }
    step_in_digits(0, byte)
}

impl HeadPlace {
    /// Takes a byte.
    pub fn step(self, byte: u8) -> HeadStep
        requires { IsHead self }
        ensures { HasStepped self byte result }
    {
        match self {
            HeadPlace::Word => {
                if blank(byte) {
                    return HeadStep::At(HeadPlace::Word);
                }
                if byte == b'#' {
                    return HeadStep::At(HeadPlace::Number);
                }
                step_to_number(byte)
            }
            HeadPlace::Number => step_to_number(byte),
            HeadPlace::Digits(count) => step_in_digits(count, byte),
            HeadPlace::Colon => step_behind_number(byte),
        }
    }
}
