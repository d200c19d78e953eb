// New files.
ghost use Rattle.std.specs.Prelude.{◌≡◌, ◌<◌};
ghost use Rattle.model.specs.Refusals.{write};
ghost use Rattle.tables.specs.Views.{entry_view, view};
ghost use Rattle.tables.specs.Plans.{Decided};
ghost use Rattle.tables.specs.Writing.{Written, with_file};

use crate::consistent::Consistent;
use crate::outcomes::Placed;
use crate::slots::first_free;
use crate::types::{Entry, Mark, Row, Tables};
use model::types::Refusal;

// Puts a file into an entry, with its row, and marks the sectors of that row as used.
fn put_file(tables: &mut Tables, number: usize, entry: Entry, row: Row)
    requires { number < 32 }
    ensures { view tables.new ≡ with_file (view tables.old) number (entry_view entry) row.places }
{
    tables.files[number] = entry;
    tables.rows[number] = row;
    tables.mark_row(number as u8, Mark::USED);
}

impl Consistent {
    // A file in the lowest free entry, with the lowest free sectors for its data.
    pub fn write(&self, start: u8, path: &[u8], data: &[u8]) -> Result<Placed, Refusal>
        ensures { Decided (view self.now.tables) (write start path.now «data».now) (λ m. Written (view self.now.tables) start path.now «data».now m) result }
    {
        self.check_start(start, path)?;
        let row = self.new_row(data)?;
        let number = first_free(&self.tables.files).ok_or(Refusal::Entries)?;
        let entry = self.new_entry(start, path)?;
        let mut tables = self.tables;
        put_file(&mut tables, number, entry, row);
        Ok(Placed {
            after: Consistent { tables },
            number: number as u8,
        })
    }
}
