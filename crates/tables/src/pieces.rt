// A sector as pieces of sixteen bytes, each an entry's or a row's. What entries and rows share is here. Their `decode` and
// `encode` are a few lines each: one for both would be no shorter, and owe that an array of a type parameter fits in memory.
ghost use Rattle.std.specs.Prelude.{◌≡◌};
ghost use Rattle.model.specs.Tables.{parts};

use crate::sizes::{ENTRY, SECTOR};

// The pieces where they lie: nothing is copied.
pub(crate) fn cut(sector: &[u8; SECTOR]) -> &[[u8; ENTRY]]
    ensures { result.now ≡ parts 32 sector.now }
{
    sector.as_chunks().0
}
