// What is read of a store: its four table sectors, which data sectors are dead, and a file's sectors.
ghost use Rattle.std.specs.Prelude.{◌≡◌, ◌*◌, ◌≤◌, Bool, true, false, cond, not, length, Some, None, Ok, Err, MatchResult};
ghost use Rattle.model.specs.Image.{look};
ghost use Rattle.model.specs.Tables.{load as tables_of, used};
ghost use Rattle.model.specs.Volume.{format_refusal};
ghost use Rattle.tables.specs.Views.{view};
ghost use Rattle.volume.specs.Blank.{Tells};
ghost use Rattle.volume.specs.Writing.{Filled};

use model::types::{Fault, Refusal};
use store::Store;
use tables::sizes::{FIRST_DATA, NAMED, SECTOR};
use tables::types::{Row, Tables};

// The sectors of the four tables, and the sectors that a volume needs. `load` and `format` name all four, in their order;
// `Part` names the one that a call writes.
pub const MAP: u16 = 0x100;

pub const DIRS: u16 = 0x101;

pub const FILES: u16 = 0x102;

pub const ROWS: u16 = 0x103;

pub const LEAST_SECTORS: u16 = 260;

fn read_sector<S: Store>(store: &mut S, sector: u16) -> Result<[u8; SECTOR], Fault>
    ensures answer { result ≡ look (S.image store.old) sector }
    ensures image { S.image store.new ≡ S.image store.old }
{
    let mut buffer = [0; SECTOR];
    store.read(sector, &mut buffer)?;
    Ok(buffer)
}

// Reads the sectors that the row names, one after another, to the front of the buffer.
pub(crate) fn read_row<S: Store>(store: &mut S, row: &Row, buffer: &mut [u8]) -> Result<(), Refusal>
    requires { 512 * length (used row.now.places) ≤ length buffer.old }
    ensures filled { Filled (S.image store.old) (used row.now.places) buffer.old result buffer.new }
    ensures image { S.image store.new ≡ S.image store.old }
{
    // by index: a rule of the project has a row's places walked so
    for k in 0..row.count() {
        let sector = read_sector(store, u16::from(row.places[k]))?;
        let at = SECTOR * k;
        buffer[at..at + SECTOR].copy_from_slice(&sector);
    }
    Ok(())
}

// The tables that the store holds, or the fault of the first table sector that cannot be read.
pub(crate) fn load<S: Store>(store: &mut S) -> Result<Tables, Fault>
    ensures answer { MatchResult result (λ t. tables_of (S.image store.old) ≡ Ok (view t)) (λ f. tables_of (S.image store.old) ≡ Err f) }
    ensures image { S.image store.new ≡ S.image store.old }
{
    let map = read_sector(store, MAP)?;
    let dirs = read_sector(store, DIRS)?;
    let files = read_sector(store, FILES)?;
    let rows = read_sector(store, ROWS)?;
    Ok(Tables::decode(&map, &dirs, &files, &rows))
}

// The tables of a store that is large enough to carry a volume, or the refusal: too small, or a dead table sector.
pub(crate) fn load_checked<S: Store>(store: &mut S) -> Result<Tables, Refusal>
    ensures answer { MatchResult result (λ t. (format_refusal (S.image store.old) ≡ None) × (tables_of (S.image store.old) ≡ Ok (view t))) (λ e. format_refusal (S.image store.old) ≡ Some e) }
    ensures image { S.image store.new ≡ S.image store.old }
{
    if store.size() < LEAST_SECTORS {
        return Err(Refusal::Small);
    }
    Ok(load(store)?)
}

// Which data sectors are dead: each is read once.
pub(crate) fn dead_sectors<S: Store>(store: &mut S) -> [bool; NAMED]
    ensures dead { Tells result (S.image store.old) }
    ensures image { S.image store.new ≡ S.image store.old }
{
    let mut dead = [false; NAMED];
    let mut buffer = [0; SECTOR];
    // by number, which the store is asked for: `iter_mut` with `enumerate` and `skip` would count the reserved ones too
    for s in u16::from(FIRST_DATA)..256 {
        dead[usize::from(s)] = store.read(s, &mut buffer).is_err();
    }
    dead
}
