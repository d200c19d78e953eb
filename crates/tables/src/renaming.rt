// An item under another name, or in another directory.
ghost use Rattle.std.specs.Prelude.{◌≡◌, ℕ, ◌&&◌, Some};
ghost use Rattle.model.specs.Names.{names, within};
ghost use Rattle.model.specs.Refusals.{move};
ghost use Rattle.model.specs.Volume.{named, is_dir};
ghost use Rattle.tables.specs.Views.{view};
ghost use Rattle.tables.specs.Plans.{Decided, After};

use crate::consistent::Consistent;
use crate::outcomes::Renamed;
use crate::paths::{is_spelt, is_within};
use model::types::{Kind, Refusal};

// Only a directory can go into itself or beneath.
fn goes_inside(kind: Kind, from: &[u8], to: &[u8]) -> bool
    ensures { result ≡ (is_dir (Some (kind, 0)) && within (names from.now) (names to.now)) }
{
    kind == Kind::Directory && is_within(from, to)
}

impl Consistent {
    // Parent and name of the one entry are rewritten. Both paths go from one start.
    pub fn rename(&self, start: u8, from: &[u8], to: &[u8]) -> Result<Renamed, Refusal>
        ensures { Decided (view self.now.tables) (move start from.now to.now) (λ m. After (view self.now.tables) (move start from.now to.now) m.after × ((n : ℕ) × (named (view self.now.tables) start from.now ≡ Some (m.kind, n)))) result }
    {
        if !is_spelt(to) {
            return Err(Refusal::Misspelt);
        }
        self.check_start(start, from)?;
        let (kind, number) = self.tables.item(start, from).ok_or(Refusal::Lost)?;
        let entry = self.new_entry(start, to)?;
        if goes_inside(kind, from, to) {
            return Err(Refusal::Inside);
        }
        let mut tables = self.tables;
        tables.put_entry(kind, number, entry);
        Ok(Renamed {
            after: Consistent { tables },
            kind,
        })
    }
}
