// Sound tables, and tables in which one rule alone is broken.
use crate::consistent::Consistent;
use crate::sizes::{ENTRIES, ENTRY, SECTOR};
use crate::types::Tables;
use std::test::Fail;

// Which of the four sectors: an enum, since a row of a table of tests holds no closure of a `&mut`. (`volume`, which has such
// an enum too, stands above this crate.)
#[derive(Clone, Copy)]
enum Part {
    Map,
    Dirs,
    Files,
    Rows,
}

#[derive(Clone, Copy)]
struct Sectors {
    map: [u8; SECTOR],
    dirs: [u8; SECTOR],
    files: [u8; SECTOR],
    rows: [u8; SECTOR],
}

fn put(sector: &mut [u8; SECTOR], at: usize, byte: u8) {
    if at < SECTOR {
        sector[at] = byte;
    }
}

impl Sectors {
    fn put(&mut self, part: Part, at: usize, byte: u8) {
        match part {
            Part::Map => put(&mut self.map, at, byte),
            Part::Dirs => put(&mut self.dirs, at, byte),
            Part::Files => put(&mut self.files, at, byte),
            Part::Rows => put(&mut self.rows, at, byte),
        }
    }

    fn name(&mut self, part: Part, at: usize, name: &[u8]) {
        for (i, byte) in name.iter().enumerate() {
            self.put(part, at.saturating_add(i), *byte);
        }
    }

    fn tables(&self) -> Tables {
        Tables::decode(&self.map, &self.dirs, &self.files, &self.rows)
    }
}

// The dead sector of all examples.
const DEAD: usize = 0x20;

fn dead() -> [bool; 256] {
    let mut dead = [false; 256];
    dead[DEAD] = true;
    dead
}

// A volume that holds nothing.
fn blank() -> Sectors {
    let mut map = [0; SECTOR];
    map[..0x0b].fill(0xff);
    map[DEAD] = 0xfe;
    Sectors {
        map,
        dirs: [0; SECTOR],
        files: [0; SECTOR],
        rows: [0; SECTOR],
    }
}

// The directories a, a/fifteen-letters and a/fifteen-letters/a, a file f of sixteen sectors in the root and a file f of
// one in a/fifteen-letters; and a free file entry whose row still names a sector that is used.
fn sample() -> Sectors {
    let mut s = blank();
    s.name(Part::Dirs, 0, b"\xffa");
    s.name(Part::Dirs, 16, b"\x00fifteen-letters");
    s.name(Part::Dirs, 32, b"\x01a");
    s.name(Part::Files, 0, b"\xfff");
    s.name(Part::Files, 16, b"\x01f");
    for (place, sector) in s.rows.iter_mut().zip(0x0b..0x1b) {
        *place = sector;
    }
    s.map[0x0b..0x1b].fill(0xff);
    s.put(Part::Rows, 16, 0xff);
    s.put(Part::Map, 0xff, 0xff);
    s.put(Part::Rows, 32, 0x0b);
    s
}

// Each directory in the one before it.
fn chain() -> Sectors {
    let mut s = blank();
    s.name(Part::Dirs, 0, b"\xffa");
    // the number is what is written, and where
    for i in 1..ENTRIES {
        s.put(Part::Dirs, ENTRY * i, i as u8 - 1);
        s.put(Part::Dirs, ENTRY * i + 1, b'a');
    }
    s
}

#[test]
fn sound_tables(rt: HostRuntime) -> Result<(), Fail> {
    for sectors in [blank(), sample(), chain()] {
        let tables = sectors.tables();
        assert!(rt; tables.is_sound(&dead()));
        let admitted = Consistent::admit(tables, &dead()).ok_or_else(|| Fail::new("refused"))?;
        assert!(rt; admitted.tables().map_sector() == sectors.map);
        assert!(rt; admitted.tables().rows_sector() == sectors.rows);
        assert!(rt; Consistent::admit(tables, &[true; 256]).is_none());
    }
    Ok(())
}

#[test]
fn one_byte_wrong(rt: HostRuntime) {
    let table = [
        ("a reserved mark", Part::Map, 0x0a, 0x00),
        ("a mark beyond the data sectors", Part::Map, 0x100, 0xff),
        ("a dead sector that is not marked", Part::Map, DEAD, 0x00),
        ("a used sector that is marked free", Part::Map, 0x0b, 0x00),
        ("a free sector that is marked used", Part::Map, 0x21, 0xff),
        ("a live sector that is marked dead", Part::Map, 0x21, 0xfe),
        ("an improper name", Part::Dirs, 1, b'/'),
        ("stale bytes behind a name", Part::Files, 3, b'x'),
        ("a parent that is free", Part::Dirs, 32, 5),
        ("a parent that is no directory", Part::Files, 16, 32),
        ("a directory in itself", Part::Dirs, 32, 2),
        ("two directories in each other", Part::Dirs, 0, 1),
        ("two directories of one name", Part::Dirs, 32, 0xff),
        ("two files of one name", Part::Files, 16, 0xff),
        ("a directory and a file of one name", Part::Files, 1, b'a'),
        ("a gap in a row", Part::Rows, 18, 0x21),
    ];
    for (wrong, part, at, byte) in table {
        let mut sectors = sample();
        sectors.put(part, at, byte);
        assert!(rt; !sectors.tables().is_sound(&dead()), "{}", wrong);
    }
}

// The map is kept in step: the sector that a place named before is marked free.
#[test]
fn one_place_wrong(rt: HostRuntime) {
    let table = [
        ("no place", 16, 0x00, 0xff),
        ("a reserved sector", 16, 0x0a, 0xff),
        ("a dead sector", 16, 0x20, 0xff),
        ("a sector twice in a row", 1, 0x0b, 0x0c),
        ("a sector in two rows", 16, 0x0b, 0xff),
    ];
    for (wrong, place, sector, freed) in table {
        let mut sectors = sample();
        sectors.put(Part::Rows, place, sector);
        sectors.put(Part::Map, freed, 0x00);
        assert!(rt; !sectors.tables().is_sound(&dead()), "{}", wrong);
    }
}
