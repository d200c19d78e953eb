// The four tables as they lie in their four sectors.
ghost use Rattle.std.specs.Prelude.{◌≡◌};
ghost use Rattle.model.specs.Tables.{tables, entries_bytes, rows_bytes};
ghost use Rattle.model.specs.Volume.{blank_sector};
ghost use Rattle.tables.specs.Views.{view};

use crate::sizes::SECTOR;
use crate::types::Tables;
use crate::{entries, marks, rows};

impl Tables {
    // Tables of 0x00 alone: no sector is used, no entry is live.
    pub fn blank() -> Tables
        ensures { view result ≡ tables blank_sector blank_sector blank_sector blank_sector }
    {
        let blank = [0; SECTOR];
        Tables::decode(&blank, &blank, &blank, &blank)
    }

    // The tables that four sectors hold: the map, the directories, the files, the files' sectors.
    pub fn decode(
        map: &[u8; SECTOR],
        dirs: &[u8; SECTOR],
        files: &[u8; SECTOR],
        sectors: &[u8; SECTOR],
    ) -> Tables
        ensures { view result ≡ tables map.now dirs.now files.now sectors.now }
    {
        Tables {
            marks: marks::decode(map),
            dirs: entries::decode(dirs),
            files: entries::decode(files),
            rows: rows::decode(sectors),
        }
    }

    // The four sectors, each by its name: a caller asks for one of them.
    pub fn map_sector(&self) -> [u8; SECTOR]
        ensures { result ≡ (view self.now).marks }
    {
        marks::encode(&self.marks)
    }

    pub fn dirs_sector(&self) -> [u8; SECTOR]
        ensures { result ≡ entries_bytes (view self.now).dirs }
    {
        entries::encode(&self.dirs)
    }

    pub fn files_sector(&self) -> [u8; SECTOR]
        ensures { result ≡ entries_bytes (view self.now).files }
    {
        entries::encode(&self.files)
    }

    pub fn rows_sector(&self) -> [u8; SECTOR]
        ensures { result ≡ rows_bytes (view self.now).rows }
    {
        rows::encode(&self.rows)
    }
}
