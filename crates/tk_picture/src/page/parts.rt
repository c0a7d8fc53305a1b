//! The fixed parts of every page.
ghost use Rattle.std.specs.Prelude.{◌≤◌, length};
ghost use Rattle.tk_picture.specs.declared.page.parts.TheConstants.{PART_LIMIT};

/// Maximum number of bytes of a part.
pub const PART_LIMIT: usize = 1_000_000;

/// The fixed parts of every page: texts of at most a million bytes.
#[derive(Clone, Copy)]
pub struct Parts<'a> {
    /// The text before the style.
    pub head: &'a [u8],
    pub style: &'a [u8],
    /// The controls that the script puts next to the picture.
    pub tools: &'a [u8],
    pub script: &'a [u8],
    ghost head_short: { length head.now ≤ PART_LIMIT },
    ghost style_short: { length style.now ≤ PART_LIMIT },
    ghost tools_short: { length tools.now ≤ PART_LIMIT },
    ghost script_short: { length script.now ≤ PART_LIMIT },
}
