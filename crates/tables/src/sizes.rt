// The numbers of the format that the tables are built on.

// The bytes of a sector; the allocation map has a mark for each.
pub use model::sizes::SECTOR;

// The entries of a table, and so the rows.
pub const ENTRIES: usize = 32;

// The bytes of an entry: one for the parent, then the name's.
pub const ENTRY: usize = 16;

// The most bytes of a name.
pub const NAME: usize = 15;

// The places of a row, each for the number of one sector.
pub const PLACES: usize = 16;

// The data sectors, from the first to the last.
pub const FIRST_DATA: u8 = 0x0b;

pub const LAST_DATA: u8 = 0xff;

// The root as a parent and as a start: a number beside those of directories, since the format keeps it in the same byte.
pub const ROOT: u8 = 0xff;

// The byte between the names of a path.
pub const SLASH: u8 = 0x2f;

// The sectors that a byte can name: 0x00 to 0xFF.
pub const NAMED: usize = 256;
