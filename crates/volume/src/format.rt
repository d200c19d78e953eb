// Making a volume on a store.
ghost use Rattle.std.specs.Prelude.{◌≡◌, Ok};
ghost use Rattle.model.specs.Image.{from_to};
ghost use Rattle.model.specs.Volume.{after_format};
ghost use Rattle.model.specs.Answers.{format_answer};
ghost use Rattle.tables.specs.Rules.{unused_mark};
ghost use Rattle.volume.specs.Blank.{Bare};

use crate::sectors::{DIRS, FILES, MAP, ROWS, dead_sectors, load_checked};
use model::types::Refusal;
use store::Store;
use tables::sizes::{NAMED, SECTOR};
use tables::types::Mark;

// A table with nothing in it.
const BLANK: [u8; SECTOR] = [0; SECTOR];

// Makes an empty volume: the map with nothing used, and three tables of 0x00. Refused, it leaves the store.
pub fn format<S: Store>(store: &mut S) -> Result<(), Refusal>
    ensures answer { result ≡ format_answer (S.image store.old) }
    ensures image { S.image store.new ≡ after_format (S.image store.old) }
    ensures bare { result ≡ Ok tt → Bare (S.image store.new) }
{
    load_checked(store)?;
    let map = blank_map(&dead_sectors(store));
    store.write(MAP, &map)?;
    store.write(DIRS, &BLANK)?;
    store.write(FILES, &BLANK)?;
    store.write(ROWS, &BLANK)?;
    Ok(())
}

// The map with nothing used.
fn blank_map(dead: &[bool; NAMED]) -> [u8; SECTOR]
    ensures { result ≡ from_to 0 512 (unused_mark dead.now) }
{
    // with `array::from_fn` the proof did not close: its contract leaves open what the closure is at each call
    let mut map = BLANK;
    for (sector, byte) in map.iter_mut().enumerate() {
        *byte = Mark::unused(sector, dead).0;
    }
    map
}
