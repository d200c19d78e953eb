// A row's sixteen places, and the sector that holds the rows.
ghost use Rattle.std.specs.Prelude.{◌≡◌, length};
ghost use Rattle.model.specs.Tables.{parts, rows_bytes, used};
ghost use Rattle.tables.specs.Views.{rows_view};

use crate::pieces::cut;
use crate::sizes::{ENTRIES, PLACES, SECTOR};
use crate::types::Row;
use std::array;

impl Row {
    pub const EMPTY: Row = Row {
        places: [0; PLACES],
    };

    // How many places are used: those before the first 0x00.
    pub fn count(&self) -> usize
        ensures { result ≡ length (used self.now.places) }
    {
        self.places
            .iter()
            .position(|&place| place == 0)
            .unwrap_or(PLACES)
    }
}

// The row that sixteen bytes hold.
impl From<[u8; PLACES]> for Row {
    ghost from_gives = { λ places r. r.places ≡ places };

    fn from(places: [u8; PLACES]) -> Row {
        Row { places }
    }
}

// A row's sixteen bytes.
impl From<Row> for [u8; PLACES] {
    ghost from_gives = { λ r places. places ≡ r.places };

    fn from(row: Row) -> [u8; PLACES] {
        row.places
    }
}

// The rows that a sector holds.
pub fn decode(sector: &[u8; SECTOR]) -> [Row; ENTRIES]
    ensures { rows_view result ≡ parts 32 sector.now }
{
    let pieces = cut(sector);
    array::from_fn(|i| Row::from(pieces[i]))
}

// The sector that holds the rows.
pub fn encode(all: &[Row; ENTRIES]) -> [u8; SECTOR]
    ensures { result ≡ rows_bytes (rows_view all.now) }
{
    let mut sector = [0; SECTOR];
    for (i, row) in all.iter().enumerate() {
        let at = PLACES * i;
        sector[at..at + PLACES].copy_from_slice(&<[u8; PLACES]>::from(*row));
    }
    sector
}
