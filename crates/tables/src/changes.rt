// One entry or the marks of one row changed in place: all else stays as it is.
ghost use Rattle.std.specs.Prelude.{◌≡◌, Some};
ghost use Rattle.model.specs.Tables.{used, row};
ghost use Rattle.model.specs.Volume.{marked, unlinked, renamed};
ghost use Rattle.tables.specs.Views.{view, entry_view};

use crate::sizes::ENTRIES;
use crate::types::{Entry, Mark, Tables};
use model::types::Kind;

impl Tables {
    // Puts an entry into the table of its kind; the other entries stay. Past the table nothing changes, here and below, as
    // the definitions have it: so a number stays a byte of the format, and no caller owes a bound.
    pub(crate) fn put_entry(&mut self, kind: Kind, number: u8, entry: Entry)
        ensures { view self.new ≡ renamed (view self.old) (Some (kind, number)) (entry_view entry) }
    {
        let i = number as usize;
        if i >= ENTRIES {
            return;
        }
        match kind {
            Kind::Directory => self.dirs[i] = entry,
            Kind::File => self.files[i] = entry,
        }
    }

    // Marks the sectors of a file's row, place by place: by a `for` with an index, a rule of the project.
    pub(crate) fn mark_row(&mut self, number: u8, mark: Mark)
        ensures { view self.new ≡ record { marks = marked (used (row (view self.old) number)) mark.0 (view self.old).marks; dirs = (view self.old).dirs; files = (view self.old).files; rows = (view self.old).rows } }
    {
        let i = number as usize;
        if i >= ENTRIES {
            return;
        }
        let row = self.rows[i];
        for k in 0..row.count() {
            self.marks[row.places[k] as usize] = mark;
        }
    }

    // Sets a file free: its sectors, and the first byte of its name. The rest of its entry and its row stay.
    pub(crate) fn remove_file(&mut self, number: u8)
        ensures { view self.new ≡ unlinked (view self.old) number }
    {
        self.mark_row(number, Mark::FREE);
        let i = number as usize;
        if i < ENTRIES {
            self.files[i].name[0] = 0;
        }
    }
}
