// A directory with all directories beneath it.
ghost use Rattle.std.specs.Prelude.{◌≡◌, true};
ghost use Rattle.model.specs.Tables.{live_dir};
ghost use Rattle.tables.specs.Views.{view};
ghost use Rattle.tables.specs.Subtrees.{untouched, with_subtree};

use crate::consistent::Consistent;
use crate::sizes::ENTRIES;

impl Consistent {
    // (That `dir` lives is true in these tables alone, so no type of a number can say it, here and in `pruning`.)
    // Marks the directory and, child by child, those beneath it. Sound tables have no ring: the walk comes to each once.
    pub(crate) fn mark_subtree(&self, dir: u8, marked: &mut [bool; ENTRIES])
        requires lives { live_dir (view self.now.tables).dirs dir ≡ true }
        requires untouched { untouched (view self.now.tables).dirs dir marked.old ≡ true }
        ensures { marked.new ≡ with_subtree (view self.now.tables).dirs dir marked.old }
    {
        marked[dir as usize] = true;
        for (child, entry) in self.tables.dirs.iter().enumerate() {
            if entry.is_live() && entry.parent == dir {
                self.mark_subtree(child as u8, marked);
            }
        }
    }
}
