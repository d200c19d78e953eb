// The short store at work.
ghost use Rattle.std.specs.Prelude.{◌≡◌};
ghost use Rattle.store.specs.Bottoms.{short_of};
ghost use Rattle.store.specs.Stores.{fit_answer, short_fits, short_image, short_lives, short_place};
ghost use Rattle.store.specs.Shorts.{short_whole};

use super::{Short, ShortBuffer};
use crate::bottom::{Bottom, Keeping};
use crate::faults::fit;
use crate::{SECTOR, Store, stretch};
use model::types::Refusal;

// The sectors below LOW are live, and those from TABLES on.
const LOW: u16 = 0x40;

const TABLES: u16 = 0x100;

// The count of all sectors, and the bytes of the live ones.
const SECTORS: u16 = 0x104;

const BYTES: usize = 34_816;

impl Short {
    // The question put first: 34,816 bytes.
    pub fn fits(buffer: &[u8]) -> Result<(), Refusal>
        ensures { result ≡ fit_answer (short_fits buffer.now) }
    {
        fit(buffer.len() == BYTES)
    }

    // Takes the buffer as a store. What does not fit is a store with no sector.
    pub fn lay(buffer: Vec<u8>) -> Short
        ensures bytes { result.buffers.buffer.items ≡ buffer.items }
        ensures image { ⟦<Short as Store>⟧.image result ≡ short_image buffer.items }
    {
        Bottom::over(ShortBuffer { buffer })
    }

    // Hands the buffer back, with the bytes that the store kept its sectors in.
    pub fn into_buffer(self) -> Vec<u8>
        ensures bytes { result.items ≡ self.buffers.buffer.items }
        ensures image { ⟦<Short as Store>⟧.image self ≡ short_image result.items }
    {
        let ShortBuffer { buffer } = self.into_inner();
        buffer
    }
}

fn lives(sector: u16) -> bool
    ensures { result ≡ short_lives sector }
{
    sector < LOW || TABLES <= sector
}

// Which stretch of the buffer a live sector lies in.
fn place(sector: u16) -> usize
    ensures { result ≡ short_place sector }
{
    if sector < LOW {
        usize::from(sector)
    } else {
        usize::from(LOW) + usize::from(sector.saturating_sub(TABLES))
    }
}

impl Keeping for ShortBuffer {
    ghost image = { short_of };

    ghost wholeness = { λ b. short_whole b.buffer.items };

    fn sectors(&self) -> u16 {
        Short::fits(&self.buffer).map_or(0, |()| SECTORS)
    }

    #[tactic(auto, using(crate::specs::Shorts::short_access))]
    fn is_dead(&self, sector: u16) -> bool {
        !lives(sector)
    }

    fn fill(&self, sector: u16, buffer: &mut [u8; SECTOR]) {
        stretch::copy_out(&self.buffer, place(sector), buffer);
    }

    fn replace(&mut self, sector: u16, bytes: &[u8; SECTOR]) {
        stretch::copy_in(&mut self.buffer, place(sector), bytes);
    }
}
