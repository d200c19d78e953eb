// The sectors that a call writes: tables and data, one after another, up to the first that meets a fault.
ghost use Rattle.std.specs.Prelude.{◌≡◌, ◌*◌, map, length};
ghost use Rattle.model.specs.Image.{access, put};
ghost use Rattle.model.specs.Tables.{used};
ghost use Rattle.tables.specs.Views.{view};
ghost use Rattle.volume.specs.Writing.{part_of, part_write, Wrote};
ghost use Rattle.volume.specs.Contents.{contents_writes};

use crate::sectors::{DIRS, FILES, MAP, ROWS};
use model::types::{Fault, Kind, Refusal};
use store::Store;
use tables::sizes::SECTOR;
use tables::types::{Row, Tables};

// One of the four tables. An enum, not a closure for each: contracts compare a list of them with the order of writes.
#[derive(Clone, Copy)]
pub(crate) enum Part {
    Map,
    Dirs,
    Files,
    Rows,
}

// The table that has the entries of a kind.
impl From<Kind> for Part {
    ghost from_gives = { λ kind part. part ≡ part_of kind };

    fn from(kind: Kind) -> Part {
        match kind {
            Kind::Directory => Part::Dirs,
            Kind::File => Part::Files,
        }
    }
}

impl Part {
    // Writes this table to its sector.
    fn write<S: Store>(self, tables: &Tables, store: &mut S) -> Result<(), Fault>
        ensures answer { result ≡ access (S.image store.old) (part_write (view tables.now) self).at }
        ensures image { S.image store.new ≡ put (S.image store.old) (part_write (view tables.now) self).at (part_write (view tables.now) self).new }
    {
        match self {
            Part::Map => store.write(MAP, &tables.map_sector()),
            Part::Dirs => store.write(DIRS, &tables.dirs_sector()),
            Part::Files => store.write(FILES, &tables.files_sector()),
            Part::Rows => store.write(ROWS, &tables.rows_sector()),
        }
    }
}

// The contents of a new file, and the row of the sectors that they go to.
#[derive(Clone, Copy)]
pub(crate) struct Contents<'a> {
    pub row: Row,
    pub bytes: &'a [u8],
}

impl Contents<'_> {
    // Of a call that makes no file: no places and no bytes. (An `Option` would give `commit` a branch more.)
    pub const NONE: Contents<'static> = Contents {
        row: Row::EMPTY,
        bytes: &[],
    };
}

// Writes these tables, in their order.
pub(crate) fn write_parts<S: Store>(
    store: &mut S,
    tables: &Tables,
    parts: &[Part],
) -> Result<(), Refusal>
    ensures { Wrote (S.image store.old) (map (part_write (view tables.now)) parts.now) result (S.image store.new) }
{
    for part in parts {
        part.write(tables, store)?;
    }
    Ok(())
}

// Writes the contents to the sectors that the row names, in their order.
pub(crate) fn write_contents<S: Store>(
    store: &mut S,
    contents: &Contents<'_>,
) -> Result<(), Refusal>
    requires { length contents.now.bytes.now ≡ 512 * length (used contents.now.row.places) }
    ensures { Wrote (S.image store.old) (contents_writes contents.now) result (S.image store.new) }
{
    let row = contents.row;
    let mut rest = contents.bytes;
    // by index: a rule of the project has a row's places walked so. The `else` is never taken, since the row has a place for
    // each sector of the contents; with `as_chunks` and an index in its stead the proof did not close.
    for k in 0..row.count() {
        let Some((sector, more)) = rest.split_first_chunk::<SECTOR>() else {
            return Ok(());
        };
        store.write(u16::from(row.places[k]), sector)?;
        rest = more;
    }
    Ok(())
}
