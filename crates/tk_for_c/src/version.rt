//! The version of the library.
ghost use Rattle.std.specs.Prelude.{◌≡◌};

/// The version of the library: the major number times 10,000, plus the minor number times 100, plus the patch.
const VERSION: u32 = 100;

/// The version of the library, which the header of this version has as TOURKIT_VERSION.
pub fn tourkit_version() -> u32
    ensures { result ≡ 100 }
{
    VERSION
}
