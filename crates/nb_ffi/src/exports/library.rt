//! The library itself.
ghost use Rattle.std.specs.Prelude.{◌≡◌};

use crate::header::VERSION;

#[unsafe(no_mangle)]
pub extern "C" fn samvolip_version() -> u32
    ensures { result ≡ VERSION }
{
    VERSION
}
