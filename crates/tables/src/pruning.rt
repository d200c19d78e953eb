// A directory taken away with all that lies beneath it.
ghost use Rattle.std.specs.Prelude.{◌≡◌, true};
ghost use Rattle.model.specs.Refusals.{prune};
ghost use Rattle.model.specs.Tables.{live_dir};
ghost use Rattle.tables.specs.Views.{view};
ghost use Rattle.tables.specs.Plans.{Decided, After};
ghost use Rattle.tables.specs.Subtrees.{is_marked, without_files, without_dirs, without_subtree};

use crate::consistent::Consistent;
use crate::sizes::ENTRIES;
use crate::types::Tables;
use model::types::{Kind, Refusal};

// The root is never marked.
fn is_marked(marked: &[bool; ENTRIES], dir: u8) -> bool
    ensures { result ≡ is_marked marked.now dir }
{
    marked.get(dir as usize).is_some_and(|&mark| mark)
}

// Sets the files in marked directories free. By number, since the table changes under the walk.
fn free_files(tables: &mut Tables, marked: &[bool; ENTRIES])
    ensures { view tables.new ≡ without_files marked.now (view tables.old) }
{
    for number in 0..ENTRIES as u8 {
        let file = &tables.files[number as usize];
        if file.is_live() && is_marked(marked, file.parent) {
            tables.remove_file(number);
        }
    }
}

// Sets the marked directories free: the first byte of their names becomes 0x00, and the rest of their entries stays.
// A `zip` with the marks would read no index, but a proof knows nothing of what is written through `iter_mut` in a `zip`.
fn free_dirs(tables: &mut Tables, marked: &[bool; ENTRIES])
    ensures { view tables.new ≡ without_dirs marked.now (view tables.old) }
{
    for (number, dir) in tables.dirs.iter_mut().enumerate() {
        if marked[number] {
            dir.name[0] = 0;
        }
    }
}

impl Consistent {
    // The marks of a directory and of all directories beneath it: what they mark is what goes with the directory.
    fn subtree(&self, top: u8) -> [bool; ENTRIES]
        requires { live_dir (view self.now.tables).dirs top ≡ true }
        ensures { without_dirs result (without_files result (view self.now.tables)) ≡ without_subtree top (view self.now.tables) }
    {
        let mut marked = [false; ENTRIES];
        self.mark_subtree(top, &mut marked);
        marked
    }

    // The tables without a directory and all that lies beneath it.
    fn pruned(&self, top: u8) -> Tables
        requires { live_dir (view self.now.tables).dirs top ≡ true }
        ensures { view result ≡ without_subtree top (view self.now.tables) }
    {
        let marked = self.subtree(top);
        let mut after = self.tables;
        free_files(&mut after, &marked);
        free_dirs(&mut after, &marked);
        after
    }

    // The directory that a path names is taken away, with everything beneath it.
    pub fn prune(&self, start: u8, path: &[u8]) -> Result<Consistent, Refusal>
        ensures { Decided (view self.now.tables) (prune start path.now) (After (view self.now.tables) (prune start path.now)) result }
    {
        let top = self.wanted(Kind::Directory, start, path)?;
        let tables = self.pruned(top);
        Ok(Consistent { tables })
    }
}
