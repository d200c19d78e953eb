// The calls that only look.
ghost use Rattle.std.specs.Prelude.{◌≡◌};
ghost use Rattle.model.specs.Answers.{find_answer, next_answer, read_answer, read_buffer};
ghost use Rattle.model.specs.Refusals.{read};
ghost use Rattle.volume.specs.Acts.{Acts};
ghost use Rattle.volume.specs.Views.{volume_view, listed_answer};

use crate::sectors::read_row;
use crate::types::Volume;
use model::types::{Kind, Refusal};
use store::Store;
use tables::outcomes::Listed;
use tables::sizes::SECTOR;

impl<S: Store> Volume<S> {
    // Kind and number of the item that a path names; the empty path names the start, and the root is directory 0xFF.
    pub fn find(&self, start: u8, path: &[u8]) -> Result<(Kind, u8), Refusal>
        ensures { result ≡ find_answer (volume_view self.now) start path.now }
    {
        self.kept()?.find(start, path)
    }

    // The least name in a directory that comes after the given bytes, with kind and number, or none at the end.
    pub fn next<'a>(
        &'a self,
        start: u8,
        path: &[u8],
        after: &[u8],
    ) -> Result<Option<Listed<'a>>, Refusal>
        ensures { listed_answer result ≡ next_answer (volume_view self.now) start path.now after.now }
    {
        self.kept()?.next(start, path, after)
    }

    // Copies the file's sectors to the front of the buffer, whose rest stays; answers how many.
    pub fn read(&mut self, start: u8, path: &[u8], buffer: &mut [u8]) -> Result<usize, Refusal>
        ensures acts { Acts (volume_view self.old) (read start path.now buffer.old) (read_answer (volume_view self.old) start path.now buffer.old) result (volume_view self.new) }
        ensures buffer { buffer.new ≡ read_buffer (volume_view self.old) start path.now buffer.old }
    {
        let kept = self.kept()?;
        let number = kept.file(start, path)?;
        let row = kept.tables().rows[number as usize];
        let count = row.count();
        if buffer.len() < SECTOR * count {
            return Err(Refusal::Size);
        }
        read_row(&mut self.store, &row, buffer)?;
        Ok(count)
    }
}
