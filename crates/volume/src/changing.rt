// The calls that change a volume. Each works the tables out in memory, writes the sectors, and only then keeps the new
// tables: a call that meets a fault on its way keeps those that it had.
ghost use Rattle.std.specs.Prelude.{◌≡◌, ◌*◌, length};
ghost use Rattle.model.specs.Answers.{done_answer, mkdir_answer, write_answer};
ghost use Rattle.model.specs.Refusals.{Call, mkdir, write, unlink, prune, move};
ghost use Rattle.model.specs.Tables.{Tables, used};
ghost use Rattle.tables.specs.Views.{view};
ghost use Rattle.volume.specs.Acts.{Acts, Commits, Planned};
ghost use Rattle.volume.specs.Views.{volume_view};
ghost use Rattle.volume.specs.Contents.{all_writes};

use crate::parts::{Contents, Part, write_contents, write_parts};
use crate::types::Volume;
use model::types::Refusal;
use store::Store;
use tables::consistent::Consistent;

impl<S: Store> Volume<S> {
    // Writes a new file's contents, then the new tables that `parts` names, keeps the new tables, and hands on what the call
    // answers.
    fn commit<T: Drop>(
        &mut self,
        next: Consistent,
        contents: &Contents<'_>,
        parts: &[Part],
        answer: T,
    ) -> Result<T, Refusal>
        requires filled { length contents.now.bytes.now ≡ 512 * length (used contents.now.row.places) }
        requires planned { (t : Tables) × ((c : Call) × Planned (volume_view self.old) t c (view next.tables) (all_writes (view next.tables) contents.now parts.now)) }
        ensures { Commits (volume_view self.old) (view next.tables) (all_writes (view next.tables) contents.now parts.now) answer result (volume_view self.new) }
    {
        write_contents(&mut self.store, contents)?;
        write_parts(&mut self.store, next.tables(), parts)?;
        self.tables = Some(next);
        Ok(answer)
    }

    // A directory in the lowest free entry; answers its number.
    pub fn mkdir(&mut self, start: u8, path: &[u8]) -> Result<u8, Refusal>
        ensures { Acts (volume_view self.old) (mkdir start path.now) (mkdir_answer (volume_view self.old) start path.now) result (volume_view self.new) }
    {
        let made = self.kept()?.mkdir(start, path)?;
        self.commit(made.after, &Contents::NONE, &[Part::Dirs], made.number)
    }

    // A file taken away: the first byte of its name and its marks become 0x00, and nothing else changes.
    pub fn unlink(&mut self, start: u8, path: &[u8]) -> Result<(), Refusal>
        ensures { Acts (volume_view self.old) (unlink start path.now) (done_answer (volume_view self.old) (unlink start path.now)) result (volume_view self.new) }
    {
        let next = self.kept()?.unlink(start, path)?;
        self.commit(next, &Contents::NONE, &[Part::Files, Part::Map], ())
    }

    // A directory taken away with everything beneath it, files included.
    pub fn prune(&mut self, start: u8, path: &[u8]) -> Result<(), Refusal>
        ensures { Acts (volume_view self.old) (prune start path.now) (done_answer (volume_view self.old) (prune start path.now)) result (volume_view self.new) }
    {
        let next = self.kept()?.prune(start, path)?;
        self.commit(
            next,
            &Contents::NONE,
            &[Part::Files, Part::Dirs, Part::Map],
            (),
        )
    }

    // Moves an item to another path, which goes from the same start: its one entry is rewritten.
    pub fn rename(&mut self, start: u8, from: &[u8], to: &[u8]) -> Result<(), Refusal>
        ensures { Acts (volume_view self.old) (move start from.now to.now) (done_answer (volume_view self.old) (move start from.now to.now)) result (volume_view self.new) }
    {
        let renamed = self.kept()?.rename(start, from, to)?;
        self.commit(
            renamed.after,
            &Contents::NONE,
            &[Part::from(renamed.kind)],
            (),
        )
    }

    // A file of 1 to 16 whole sectors in the lowest free entry and the lowest free sectors; answers its number.
    pub fn write(&mut self, start: u8, path: &[u8], contents: &[u8]) -> Result<u8, Refusal>
        ensures { Acts (volume_view self.old) (write start path.now contents.now) (write_answer (volume_view self.old) start path.now contents.now) result (volume_view self.new) }
    {
        let made = self.kept()?.write(start, path, contents)?;
        let row = made.after.tables().rows[made.number as usize];
        self.commit(
            made.after,
            &Contents {
                row,
                bytes: contents,
            },
            &[Part::Rows, Part::Map, Part::Files],
            made.number,
        )
    }
}
