// The four tables as the code holds them. A ghost field says how long an array is: the check knows it of an argument,
// but a lemma about a value has no other fact that says so.
ghost use Rattle.std.specs.Prelude.{◌≡◌, length};

use crate::sizes::{ENTRIES, NAME, PLACES, SECTOR};

// A directory or a file: the number of the directory that holds it, and the name, filled up with 0x00.
// The parent is a number and no reference, and the name ends at its first 0x00, as the format has it.
#[derive(Clone, Copy, PartialEq, Eq, Debug)]
pub struct Entry {
    pub parent: u8,
    pub name: [u8; NAME],
    ghost sized: { length name ≡ 15 },
}

// A byte of the allocation map. An enum of the three marks is no plainer: a map that is not sound may hold any byte and
// is kept as it is, and `Other(u8)` would spell one byte in two ways.
#[derive(Clone, Copy, PartialEq, Eq, Debug)]
pub struct Mark(pub u8);

// The numbers of a file's sectors; the used places are those before the first 0x00, as the format has it.
#[derive(Clone, Copy, PartialEq, Eq, Debug)]
pub struct Row {
    pub places: [u8; PLACES],
    ghost sized: { length places ≡ 16 },
}

// Arrays of fixed size: a rule of the project has tables and volumes allocate nothing.
// A file's row stands in an array of its own: the two lie in two sectors that are written apart, and with an array of
// pairs one look-up (`child`) would no longer serve directories and files.
#[derive(Clone, Copy)]
pub struct Tables {
    pub marks: [Mark; SECTOR],
    pub dirs: [Entry; ENTRIES],
    pub files: [Entry; ENTRIES],
    pub rows: [Row; ENTRIES],
    ghost marked: { length marks ≡ 512 },
    ghost directed: { length dirs ≡ 32 },
    ghost filed: { length files ≡ 32 },
    ghost rowed: { length rows ≡ 32 },
}
