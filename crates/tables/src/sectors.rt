// The sectors that a new file gets.
ghost use Rattle.std.specs.Prelude.{◌≡◌, ◌/◌, ◌≤◌, true, false, length, MatchOption};
ghost use Rattle.model.specs.History.{whole_sectors};
ghost use Rattle.tables.specs.Views.{view};
ghost use Rattle.tables.specs.Plans.{Passes};
ghost use Rattle.tables.specs.Writing.{enough, lowest_row, roomy};

use crate::consistent::Consistent;
use crate::sizes::{FIRST_DATA, LAST_DATA, PLACES, SECTOR};
use crate::slots::first_free;
use crate::types::{Row, Tables};
use model::types::Refusal;

// From one to sixteen whole sectors.
fn is_whole(data: &[u8]) -> bool
    ensures { result ≡ whole_sectors «data».now }
{
    let size = data.len();
    size % SECTOR == 0 && (SECTOR..=PLACES * SECTOR).contains(&size)
}

// A row of the lowest free data sectors, rising, if there are so many. Each search begins behind the sector that was found
// last, so the map is passed over once. `from` stays: it is a rule of the project that one search finds the free place
// of every kind of slot, and a chain that filters the marks would be a second one.
fn lowest_free(tables: &Tables, count: usize) -> Option<Row>
    requires { count ≤ 16 }
    ensures { MatchOption result (enough (view tables.now) count ≡ false) (λ row. (enough (view tables.now) count ≡ true) × (row.places ≡ lowest_row (view tables.now) count)) }
{
    let mut places = [0; PLACES];
    let mut from = FIRST_DATA as usize;
    for place in &mut places[..count] {
        let at = first_free(&tables.marks[from..LAST_DATA as usize + 1])?;
        *place = (from + at) as u8;
        from += at + 1;
    }
    Some(Row { places })
}

impl Consistent {
    // The row for new data: as many of the lowest free sectors as they fill.
    pub(crate) fn new_row(&self, data: &[u8]) -> Result<Row, Refusal>
        ensures { Passes (roomy (view self.now.tables) «data».now) (λ row. row.places ≡ lowest_row (view self.now.tables) (length «data».now / 512)) result }
    {
        if !is_whole(data) {
            return Err(Refusal::Size);
        }
        lowest_free(&self.tables, data.len() / SECTOR).ok_or(Refusal::Sectors)
    }
}
