//! The fixed parts of every page.
ghost use Rattle.tk_page.specs.PageParts.{ArePageParts};

use crate::embedded::{HEAD, SCRIPT, STYLE, TOOLS};
use tk_picture::Parts;

/// The fixed parts of every page. No other function names the files, since their bytes become part of its proof.
pub fn page_parts() -> Parts<'static>
    ensures { ArePageParts result }
{
    Parts {
        head: HEAD,
        style: STYLE,
        tools: TOOLS,
        script: SCRIPT,
    }
}
