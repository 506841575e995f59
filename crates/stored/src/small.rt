// Room for the symbols of a stored file within the limit.
ghost use Rattle.std.specs.Prelude.{◌≡◌, ◌^◌, length};
ghost use Rattle.proximity.specs.Dim.{S};
ghost use Rattle.stored.specs.File.{small_dim};

use super::{SMALL, SMALL_PROOF};

pub fn no_word() -> [u16; 1 << SMALL]
    ensures { length result ≡ 2 ^ small_dim }
{
    [0u16; 1 << SMALL]
}

pub fn no_proof() -> [u16; SMALL_PROOF]
    ensures { length result ≡ S small_dim }
{
    [0u16; SMALL_PROOF]
}
