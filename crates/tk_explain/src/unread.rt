//! Files whose reading failed.
ghost use Rattle.std.specs.Prelude.{◌≡◌};
ghost use Rattle.tk_words.specs.Texts.{line_behind};
ghost use Rattle.tk_explain.specs.Answers.{unread_of};

use tk_diagnosis::FileFault;
use tk_kinds::{Kind, last_line};
use tk_params::{ParamFault, ParamKind};
use tk_words::{TextFault, TextKind};

/// The fault of a file of this kind that could be read only up to the end of these bytes. Commands that expect such a
/// file report the same fault.
pub fn read_failure(kind: Kind, text: &[u8]) -> FileFault
    ensures { result ≡ unread_of kind (line_behind text.now) }
{
    let line = last_line(text);
    match kind {
        Kind::Parameters => FileFault::Parameters(ParamFault {
            line,
            kind: ParamKind::Read,
        }),
        Kind::Problem | Kind::Tour | Kind::Solution => FileFault::Text(TextFault {
            line,
            kind: TextKind::Read,
        }),
    }
}
