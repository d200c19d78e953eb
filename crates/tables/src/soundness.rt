// Whether tables are sound, decided in one pass over each table; only the 64 entries are compared each with each.
ghost use Rattle.std.specs.Prelude.{◌≡◌, not, ◌++◌};
ghost use Rattle.model.specs.Sizes.{entry_count};
ghost use Rattle.model.specs.Tables.{all, proper_entry, climbs, same_place, unshared, sound_by};
ghost use Rattle.tables.specs.Rules.{alive_by, rooted, entries_sound};
ghost use Rattle.tables.specs.Views.{view, entry_view, entries_view};

use crate::sizes::{ENTRIES, NAMED, ROOT};
use crate::types::{Entry, Tables};

#[cfg(test)]
mod tests;

impl Entry {
    // Both are live, in one directory, and have one name.
    fn shares_place(&self, other: &Entry) -> bool
        ensures { result ≡ same_place (entry_view self.now) (entry_view other.now) }
    {
        self.is_live() && self == other
    }

    // None of the others shares this entry's place.
    fn is_apart_from(&self, others: &[Entry]) -> bool
        ensures { result ≡ all (λ f. not (same_place (entry_view self.now) f)) (entries_view others.now) }
    {
        !others.iter().any(|other| self.shares_place(other))
    }
}

// No two of the entries share a place. (Spares of `store` are walked so too: one walk for both would take a closure, and a
// crate below the two.)
fn are_apart(entries: &[Entry]) -> bool
    ensures { result ≡ unshared (entries_view entries.now) }
{
    let mut left = entries;
    while let [entry, behind @ ..] = left {
        if !entry.is_apart_from(behind) {
            return false;
        }
        left = behind;
    }
    true
}

impl Tables {
    // Sound where `dead` tells which of the sectors 0x00 to 0xFF are dead.
    pub fn is_sound(&self, dead: &[bool; NAMED]) -> bool
        ensures { result ≡ sound_by (alive_by dead.now) (view self.now) }
    {
        self.claims(dead).is_some_and(|claims| self.marks_are_due(&claims)
            && self.entries_are_sound())
    }

    // Names and parents, apart from the files' sectors.
    fn entries_are_sound(&self) -> bool
        ensures { result ≡ entries_sound (view self.now) }
    {
        self.entries_are_proper(&self.dirs)
            && self.entries_are_proper(&self.files)
            && self.dirs_climb()
            && self.items_are_apart()
    }

    // Free, or with a proper name and a parent that is the root or a live directory.
    fn is_proper_entry(&self, entry: &Entry) -> bool
        ensures { result ≡ proper_entry (view self.now).dirs (entry_view entry.now) }
    {
        !entry.is_live() || entry.is_well_named() && self.is_start(entry.parent)
    }

    fn entries_are_proper(&self, entries: &[Entry]) -> bool
        ensures { result ≡ all (proper_entry (view self.now).dirs) (entries_view entries.now) }
    {
        entries.iter().all(|entry| self.is_proper_entry(entry))
    }

    // The parents lead from `dir` to the root; more steps than there are directories go in a ring.
    // The `for` counts the 32 steps of the rule, no index: `try_fold` would pass off the arrival as a failure, and
    // `successors` with `take` and `any` would hide where the way breaks off.
    fn climbs(&self, dir: u8) -> bool
        ensures { result ≡ climbs (view self.now).dirs entry_count dir }
    {
        let mut at = dir;
        for _step in 0..ENTRIES {
            if at == ROOT {
                return true;
            }
            if !self.is_live_dir(at) {
                return false;
            }
            at = self.dirs[at as usize].parent;
        }
        at == ROOT
    }

    fn dirs_climb(&self) -> bool
        ensures { result ≡ rooted (view self.now) }
    {
        (0..ENTRIES as u8).all(|dir| !self.is_live_dir(dir) || self.climbs(dir))
    }

    // No two live entries, directories and files together, share parent and name.
    fn items_are_apart(&self) -> bool
        ensures { result ≡ unshared ((view self.now).dirs ++ (view self.now).files) }
    {
        are_apart(&self.dirs)
            && are_apart(&self.files)
            && self.dirs.iter().all(|dir| dir.is_apart_from(&self.files))
    }
}
