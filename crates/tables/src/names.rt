// Names: which bytes are one, and which of two comes first.
ghost use Rattle.std.specs.Prelude.{◌≡◌, ◌≤◌, length, take};
ghost use Rattle.model.specs.Names.{proper_byte, proper_name, before, padded as padded_name};
ghost use Rattle.model.specs.Tables.{trimmed, well_named};
ghost use Rattle.tables.specs.Views.{entry_view};

use crate::sizes::{NAME, SLASH};
use crate::types::Entry;

// 0x21 to 0x7E, without the slash.
pub fn is_proper_byte(b: u8) -> bool
    ensures { result ≡ proper_byte b }
{
    (0x21..=0x7e).contains(&b) && b != SLASH
}

// 1 to 15 proper bytes.
pub fn is_proper(name: &[u8]) -> bool
    ensures { result ≡ proper_name name.now }
{
    !name.is_empty() && name.len() <= NAME && name.iter().all(|&b| is_proper_byte(b))
}

// The first byte that differs decides, and a name precedes every longer one that begins with it.
// By a loop, since the library's `<` and `cmp` of slices take more steps on names as short as an entry holds.
pub fn precedes(a: &[u8], b: &[u8]) -> bool
    ensures { result ≡ before a.now b.now }
{
    for (x, y) in a.iter().zip(b.iter()) {
        if x != y {
            return x < y;
        }
    }
    a.len() < b.len()
}

// A name as an entry holds it: filled up with 0x00. Past fifteen bytes a name is cut off.
pub(crate) fn padded(name: &[u8]) -> [u8; NAME]
    ensures value { result ≡ take 15 (padded_name name.now) }
    ensures fits { length name.now ≤ 15 → result ≡ padded_name name.now }
{
    let mut bytes = [0; NAME];
    let long = name.len().min(NAME);
    bytes[0..long].copy_from_slice(&name[0..long]);
    bytes
}

impl Entry {
    // The name without the 0x00 that fill it up.
    pub fn name(&self) -> &[u8]
        ensures { result.now ≡ trimmed self.now.name }
    {
        let end = self.name.iter().position(|&b| b == 0).unwrap_or(NAME);
        &self.name[..end]
    }

    // A proper name, filled up with 0x00.
    pub fn is_well_named(&self) -> bool
        ensures { result ≡ well_named (entry_view self.now) }
    {
        let name = self.name();
        is_proper(name) && self.name[name.len()..].iter().all(|&b| b == 0)
    }
}
