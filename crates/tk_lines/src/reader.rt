//! A reader that splits a text into pieces and passes them to a form.
ghost use Rattle.std.specs.Prelude.{◌≡◌, [], ◌∷◌};

use crate::handler::Handler;
use crate::line_state::LineState;
use crate::value_scanner::ValueScanner;
use tk_words::{ByteBuffer, TextFault, TextKind};

/// Splits the bytes of a text into pieces and passes them to a form.
#[derive(Drop)]
pub struct PieceReader<F> {
    pub line: u64,
    pub place: LineState,
    pub held: ByteBuffer<64>,
    pub scan: ValueScanner,
    pub form: F,
}

impl<F: Handler> PieceReader<F> {
    ghost use Rattle.tk_lines.specs.Reader.Steps.{Waits};

    /// A reader at the beginning of a text, for a form that has taken no pieces.
    pub fn new(form: F) -> Self
        requires { F.promise.holds form [] }
        ensures { Waits F.promise result [] }
    {
        PieceReader {
            line: 1,
            place: LineState::Start,
            held: ByteBuffer::new(),
            scan: ValueScanner::new(),
            form,
        }
    }

    /// A fault on the current line.
    pub(crate) fn fault(&self, kind: TextKind) -> TextFault
        ensures { result ≡ record { line = self.now.line; kind = kind } }
    {
        TextFault {
            line: self.line,
            kind,
        }
    }

    /// Begins a word or a token with this byte.
    pub(crate) fn begin(&mut self, byte: u8, place: LineState)
        ensures { self.new ≡ record self.old { held = byte ∷ []; place = place } }
    {
        self.held.clear();
        self.held.push(byte);
        self.place = place;
    }
}
