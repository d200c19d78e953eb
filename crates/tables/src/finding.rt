// Finding an item by its path.
ghost use Rattle.std.specs.Prelude.{◌≡◌, ◌<◌, Some};
ghost use Rattle.model.specs.Refusals.{find};
ghost use Rattle.model.specs.declared.types.Kind.TheVariants.{File as file};
ghost use Rattle.model.specs.Volume.{named};
ghost use Rattle.tables.specs.Views.{view};
ghost use Rattle.tables.specs.Plans.{Passes, Decided, there};

use crate::consistent::Consistent;
use crate::paths::is_spelt_or_empty;
use model::types::{Kind, Refusal};

impl Consistent {
    // Kind and number of the item that a path names; the empty path names the start.
    pub fn find(&self, start: u8, path: &[u8]) -> Result<(Kind, u8), Refusal>
        ensures { Decided (view self.now.tables) (find start path.now) (λ x. named (view self.now.tables) start path.now ≡ Some x) result }
    {
        // as `check_start`, but the empty path passes: one function for both would take a test of spelling as a bool
        if !is_spelt_or_empty(path) {
            return Err(Refusal::Misspelt);
        }
        if !self.tables.is_start(start) {
            return Err(Refusal::Start);
        }
        self.tables.item(start, path).ok_or(Refusal::Lost)
    }

    // The number of the file that a path names.
    pub fn file(&self, start: u8, path: &[u8]) -> Result<u8, Refusal>
        ensures { Passes (there file (view self.now.tables) start path.now) (λ n. (named (view self.now.tables) start path.now ≡ Some (file, n)) × (n < 32)) result }
    {
        self.wanted(Kind::File, start, path)
    }
}
