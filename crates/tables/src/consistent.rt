// Tables that are known to be sound as far as they alone tell.
ghost use Rattle.std.specs.Prelude.{◌≡◌, true, false, MatchOption};
ghost use Rattle.model.specs.Tables.{consistent, sound_by};
ghost use Rattle.tables.specs.Rules.{alive_by};
ghost use Rattle.tables.specs.Views.{view};

use crate::sizes::NAMED;
use crate::types::Tables;

// A data sector counts as dead where its mark says so. No `impl Model`: to be `Copy` it would owe an inverse, and the
// definitions' lists have no fixed lengths.
#[derive(Clone, Copy)]
pub struct Consistent {
    pub(crate) tables: Tables,
    ghost sound: { consistent (view tables) ≡ true },
}

impl Consistent {
    // The tables, if they are sound where `dead` tells which of the sectors 0x00 to 0xFF are dead.
    pub fn admit(tables: Tables, dead: &[bool; NAMED]) -> Option<Consistent>
        ensures { MatchOption result (sound_by (alive_by dead.now) (view tables) ≡ false) (λ c. (sound_by (alive_by dead.now) (view tables) ≡ true) × (c.tables ≡ tables)) }
    {
        // no `then`: its closure would not know what the test told, which the ghost field needs
        if !tables.is_sound(dead) {
            return None;
        }
        Some(Consistent { tables })
    }

    pub fn tables(&self) -> &Tables
        ensures { result.now ≡ self.now.tables }
    {
        &self.tables
    }
}
