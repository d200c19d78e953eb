// The checks that several calls share.
ghost use Rattle.std.specs.Prelude.{◌≡◌, ◌<◌, true, Some};
ghost use Rattle.model.specs.Names.{spelt};
ghost use Rattle.model.specs.Volume.{named, new_entry};
ghost use Rattle.tables.specs.Views.{view, entry_view};
ghost use Rattle.tables.specs.Plans.{Passes, begun, there, vacant};

use crate::consistent::Consistent;
use crate::paths::is_spelt;
use crate::types::Entry;
use model::types::{Kind, Refusal};

impl Consistent {
    // A path that is well spelt, and a start that is the root or a live directory.
    pub(crate) fn check_start(&self, start: u8, path: &[u8]) -> Result<(), Refusal>
        ensures { Passes (begun (view self.now.tables) start path.now) (λ _. spelt path.now ≡ true) result }
    {
        if !is_spelt(path) {
            return Err(Refusal::Misspelt);
        }
        if !self.tables.is_start(start) {
            return Err(Refusal::Start);
        }
        Ok(())
    }

    // The number of the item of the wanted kind that a path names.
    pub(crate) fn wanted(&self, kind: Kind, start: u8, path: &[u8]) -> Result<u8, Refusal>
        ensures { Passes (there kind (view self.now.tables) start path.now) (λ n. (named (view self.now.tables) start path.now ≡ Some (kind, n)) × (n < 32)) result }
    {
        self.check_start(start, path)?;
        // a guard: `filter`, `map` and `ok_or` would take the pair apart twice
        match self.tables.item(start, path) {
            Some((found, number)) if found == kind => Ok(number),
            _ => Err(Refusal::Lost),
        }
    }

    // The entry for the last name of a path, in the directory that is to hold it, if there is no item of that name.
    pub(crate) fn new_entry(&self, start: u8, path: &[u8]) -> Result<Entry, Refusal>
        requires { spelt path.now ≡ true }
        ensures { Passes (vacant (view self.now.tables) start path.now) (λ e. entry_view e ≡ new_entry (view self.now.tables) start path.now) result }
    {
        let (dir, name) = self.tables.place(start, path).ok_or(Refusal::Lost)?;
        if self.tables.item_in(dir, name).is_some() {
            return Err(Refusal::Taken);
        }
        Ok(Entry::new(dir, name))
    }
}
