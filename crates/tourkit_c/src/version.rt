//! The version of the library.
ghost use Rattle.std.specs.Prelude.{◌≡◌};

/// The version of the library.
#[unsafe(no_mangle)]
pub extern "C" fn tourkit_version() -> u32
    ensures { result ≡ 100 }
{
    tk_for_c::tourkit_version()
}
