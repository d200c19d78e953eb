// The sectors that the files' rows claim, each of them once, and the marks that are due to them.
ghost use Rattle.std.specs.Prelude.{◌≡◌, ℕ, true, false, not, ◌&&◌, ◌||◌, MatchOption};
ghost use Rattle.model.specs.Tables.{data_sector, used, member, proper_row};
ghost use Rattle.tables.specs.Rules.{told, alive_by, filled_up, unclaimed, Claimed, due, marks_due, rows_sound};
ghost use Rattle.tables.specs.Views.{view};

use crate::sizes::{FIRST_DATA, LAST_DATA, NAMED, PLACES};
use crate::types::{Mark, Row, Tables};

impl Row {
    // One place or more is used, and those behind are 0x00.
    // The walk over a row's places is a `for` with an index, here and in `add`: a rule of the project.
    fn is_filled_up(&self) -> bool
        ensures { result ≡ filled_up self.now.places }
    {
        let count = self.count();
        for i in count..PLACES {
            if self.places[i] != 0 {
                return false;
            }
        }
        count > 0
    }
}

// Of the sectors 0x00 to 0xFF, which are dead, and which the rows so far have claimed.
#[derive(Clone, Copy)]
pub(crate) struct Claims<'a> {
    dead: &'a [bool; NAMED],
    claimed: [bool; NAMED],
}

impl Claims<'_> {
    // A data sector that is alive and that no row has claimed yet; a byte is never past the last data sector.
    fn is_claimable(&self, sector: u8) -> bool
        ensures { result ≡ (data_sector sector && alive_by self.now.dead.now sector && not (told self.now.claimed sector)) }
    {
        let dead = self.dead;
        sector >= FIRST_DATA && !dead[sector as usize] && !self.claimed[sector as usize]
    }

    // Adds the row's sectors, unless the row is no proper one or names a sector that is claimed already: then some of its
    // sectors may have been added.
    fn add(&mut self, row: &Row) -> Option<()>
        ensures { MatchOption result ((proper_row (alive_by self.old.dead.now) row.now.places && unclaimed (told self.old.claimed) (used row.now.places)) ≡ false) (λ _. ((proper_row (alive_by self.old.dead.now) row.now.places && unclaimed (told self.old.claimed) (used row.now.places)) ≡ true) × (self.new.dead.now ≡ self.old.dead.now) × ((s : ℕ) → told self.new.claimed s ≡ (member s (used row.now.places) || told self.old.claimed s))) }
    {
        if !row.is_filled_up() {
            return None;
        }
        // by index: a rule of the project
        for i in 0..row.count() {
            let sector = row.places[i];
            if !self.is_claimable(sector) {
                return None;
            }
            self.claimed[sector as usize] = true;
        }
        Some(())
    }

    // The mark that is due to a sector.
    fn due_mark(&self, sector: usize) -> Mark
        ensures { result.0 ≡ due self.now.dead.now self.now.claimed sector }
    {
        let unused = Mark::unused(sector, self.dead);
        if unused == Mark::FREE && sector <= LAST_DATA as usize && self.claimed[sector] {
            Mark::USED
        } else {
            unused
        }
    }
}

impl Tables {
    // The sectors that live files' rows name, if each such row is proper and no sector is named twice.
    pub(crate) fn claims<'a>(&self, dead: &'a [bool; NAMED]) -> Option<Claims<'a>>
        ensures { MatchOption result (rows_sound (alive_by dead.now) (view self.now) ≡ false) (λ c. (rows_sound (alive_by dead.now) (view self.now) ≡ true) × (c.dead.now ≡ dead.now) × Claimed (view self.now) c.claimed) }
    {
        let mut claims = Claims {
            dead,
            claimed: [false; NAMED],
        };
        for (file, row) in self.files.iter().zip(&self.rows) {
            if file.is_live() {
                claims.add(row)?;
            }
        }
        Some(claims)
    }

    // Every mark is the one that is due.
    pub(crate) fn marks_are_due(&self, claims: &Claims) -> bool
        ensures { result ≡ marks_due claims.now.dead.now claims.now.claimed (view self.now) }
    {
        self.marks
            .iter()
            .enumerate()
            .all(|(sector, mark)| *mark == claims.due_mark(sector))
    }
}
