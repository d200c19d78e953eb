// The bytes of the allocation map, and the sector that holds them.
ghost use Rattle.std.specs.Prelude.{◌≡◌, ◌==◌, Some};
ghost use Rattle.tables.specs.Rules.{unused_mark};
ghost use Rattle.tables.specs.Drawing.{mark_text};
ghost use Rattle.tables.specs.Views.{marks_view};

use crate::sizes::{FIRST_DATA, LAST_DATA, NAMED, SECTOR};
use crate::slots::Slot;
use crate::types::Mark;
use std::{array, fmt};

impl Mark {
    pub const FREE: Mark = Mark(0x00);

    pub const USED: Mark = Mark(0xff);

    pub const DEAD: Mark = Mark(0xfe);

    // The mark of a sector that no file has: reserved, dead or free. `dead` tells of the sectors 0x00 to 0xFF.
    pub fn unused(sector: usize, dead: &[bool; NAMED]) -> Mark
        ensures { result.0 ≡ unused_mark dead.now sector }
    {
        if sector < FIRST_DATA as usize {
            Mark::USED
        } else if sector <= LAST_DATA as usize && dead[sector] {
            Mark::DEAD
        } else {
            Mark::FREE
        }
    }
}

impl Slot for Mark {
    ghost vacant = { λ m. (m.0 == 0) };

    fn is_free(&self) -> bool {
        *self == Mark::FREE
    }
}

// How the map is drawn: free, used or reserved, dead, and any byte that is no mark.
impl fmt::Display for Mark {
    ghost output = { λ mark. Some (mark_text mark.0) };

    fn fmt<W: fmt::Write>(&self, f: &mut fmt::Formatter<W>) -> fmt::Result {
        f.write_str(match *self {
            Self::FREE => ".",
            Self::USED => "#",
            Self::DEAD => "x",
            _ => "?",
        })
    }
}

// The marks that a sector holds. (By `from_fn`, which is one loop: an array's `map` moves each element into an `Option` and
// out of it again.)
pub fn decode(sector: &[u8; SECTOR]) -> [Mark; SECTOR]
    ensures { marks_view result ≡ sector.now }
{
    array::from_fn(|i| Mark(sector[i]))
}

// The sector that holds the marks.
pub fn encode(all: &[Mark; SECTOR]) -> [u8; SECTOR]
    ensures { result ≡ marks_view all.now }
{
    array::from_fn(|i| all[i].0)
}
