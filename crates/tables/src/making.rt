// New directories.
ghost use Rattle.std.specs.Prelude.{◌≡◌};
ghost use Rattle.model.specs.Refusals.{mkdir};
ghost use Rattle.model.specs.Volume.{free_entry, or_zero};
ghost use Rattle.tables.specs.Views.{view};
ghost use Rattle.tables.specs.Plans.{Decided, After};

use crate::consistent::Consistent;
use crate::outcomes::Placed;
use crate::slots::first_free;
use model::types::{Kind, Refusal};

impl Consistent {
    // A directory in the lowest free entry.
    pub fn mkdir(&self, start: u8, path: &[u8]) -> Result<Placed, Refusal>
        ensures { Decided (view self.now.tables) (mkdir start path.now) (λ m. After (view self.now.tables) (mkdir start path.now) m.after × (m.number ≡ or_zero (free_entry (view self.now.tables).dirs))) result }
    {
        self.check_start(start, path)?;
        let number = first_free(&self.tables.dirs).ok_or(Refusal::Entries)?;
        let entry = self.new_entry(start, path)?;
        let mut tables = self.tables;
        let number = number as u8;
        tables.put_entry(Kind::Directory, number, entry);
        Ok(Placed {
            after: Consistent { tables },
            number,
        })
    }
}
