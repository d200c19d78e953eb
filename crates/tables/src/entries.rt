// An entry as its sixteen bytes: one for the parent, then fifteen for the name.
ghost use Rattle.std.specs.Prelude.{◌≡◌, ◌≤◌, not, ◌∷◌, length, take};
ghost use Rattle.model.specs.Names.{padded as padded_name};
ghost use Rattle.model.specs.Tables.{entry, entries, entries_bytes, live};
ghost use Rattle.tables.specs.Views.{entry_view, entries_view};

use crate::names::padded;
use crate::pieces::cut;
use crate::sizes::{ENTRIES, ENTRY, NAME, SECTOR};
use crate::slots::Slot;
use crate::types::Entry;
use std::array;

impl Entry {
    pub const FREE: Entry = Entry {
        parent: 0,
        name: [0; NAME],
    };

    // An entry of a name, which is filled up with 0x00. Past fifteen bytes a name is cut off.
    pub fn new(parent: u8, name: &[u8]) -> Entry
        ensures value { (result.parent ≡ parent) × (result.name ≡ take 15 (padded_name name.now)) }
        ensures fits { length name.now ≤ 15 → result.name ≡ padded_name name.now }
    {
        let name = padded(name);
        Entry { parent, name }
    }

    pub fn is_live(&self) -> bool
        ensures { result ≡ live (entry_view self.now) }
    {
        self.name[0] != 0
    }
}

impl Slot for Entry {
    ghost vacant = { λ e. not (live (entry_view e)) };

    fn is_free(&self) -> bool {
        !self.is_live()
    }
}

// The entry that sixteen bytes hold.
impl From<[u8; ENTRY]> for Entry {
    ghost from_gives = { λ bytes e. entry_view e ≡ entry bytes };

    fn from(bytes: [u8; ENTRY]) -> Entry {
        // the `else` is never taken: the check does not cover `let [parent, name @ ..] = bytes` of an array
        let [parent, rest @ ..] = bytes.as_slice() else {
            return Entry::FREE;
        };
        let mut name = [0; NAME];
        name.copy_from_slice(rest);
        Entry {
            parent: *parent,
            name,
        }
    }
}

// An entry's sixteen bytes.
impl From<Entry> for [u8; ENTRY] {
    ghost from_gives = { λ e bytes. bytes ≡ e.parent ∷ e.name };

    fn from(entry: Entry) -> [u8; ENTRY] {
        let mut bytes = [0; ENTRY];
        bytes[0] = entry.parent;
        bytes[1..].copy_from_slice(&entry.name);
        bytes
    }
}

// The entries that a sector holds. (`decode` and `encode` of rows are alike: `pieces` says why there is no one for both.)
pub fn decode(sector: &[u8; SECTOR]) -> [Entry; ENTRIES]
    ensures { entries_view result ≡ entries sector.now }
{
    let pieces = cut(sector);
    array::from_fn(|i| Entry::from(pieces[i]))
}

// The sector that holds the entries. (Straight from the fields: the sixteen bytes of `From` would be written, and then read
// again.)
pub fn encode(all: &[Entry; ENTRIES]) -> [u8; SECTOR]
    ensures { result ≡ entries_bytes (entries_view all.now) }
{
    let mut sector = [0; SECTOR];
    for (i, entry) in all.iter().enumerate() {
        let at = ENTRY * i;
        sector[at] = entry.parent;
        sector[at + 1..at + ENTRY].copy_from_slice(&entry.name);
    }
    sector
}
