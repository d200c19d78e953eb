// A file taken away: its entry and its sectors are free again.
ghost use Rattle.model.specs.Refusals.{unlink};
ghost use Rattle.tables.specs.Views.{view};
ghost use Rattle.tables.specs.Plans.{Decided, After};

use crate::consistent::Consistent;
use model::types::{Kind, Refusal};

impl Consistent {
    // The first byte of the file's name and the marks of its sectors become 0x00.
    pub fn unlink(&self, start: u8, path: &[u8]) -> Result<Consistent, Refusal>
        ensures { Decided (view self.now.tables) (unlink start path.now) (After (view self.now.tables) (unlink start path.now)) result }
    {
        let number = self.wanted(Kind::File, start, path)?;
        let mut tables = self.tables;
        tables.remove_file(number);
        Ok(Consistent { tables })
    }
}
