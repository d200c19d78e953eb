// The flat store at work.
ghost use Rattle.std.specs.Prelude.{◌≡◌};
ghost use Rattle.store.specs.Bottoms.{flat_of};
ghost use Rattle.store.specs.Stores.{fit_answer, flat_fits, flat_image};
ghost use Rattle.store.specs.Flats.{flat_whole};

use super::{Flat, FlatBuffer};
use crate::bottom::{Bottom, Keeping};
use crate::faults::fit;
use crate::{MOST_LISTED, MOST_SECTORS, SECTOR, Store, stretch};
use model::types::Refusal;

impl Flat {
    // The question put first: whole sectors, 65,535 at most, and at most eight dead numbers.
    pub fn fits(buffer: &[u8], dead: &[u16]) -> Result<(), Refusal>
        ensures { result ≡ fit_answer (flat_fits buffer.now dead.now) }
    {
        fit(stretch::whole(buffer, MOST_SECTORS) && dead.len() <= MOST_LISTED)
    }

    // Takes the buffer as a store. What does not fit is a store with no sector.
    pub fn lay(buffer: Vec<u8>, dead: Vec<u16>) -> Flat
        ensures bytes { result.buffers.buffer.items ≡ buffer.items }
        ensures image { ⟦<Flat as Store>⟧.image result ≡ flat_image buffer.items dead.items }
    {
        Bottom::over(FlatBuffer { buffer, dead })
    }

    // Hands the buffer back, with the bytes that the store kept its sectors in.
    pub fn into_buffer(self) -> Vec<u8>
        ensures bytes { result.items ≡ self.buffers.buffer.items }
        ensures image { ⟦<Flat as Store>⟧.image self ≡ flat_image result.items self.buffers.dead.items }
    {
        let FlatBuffer { buffer, .. } = self.into_inner();
        buffer
    }
}

impl Keeping for FlatBuffer {
    ghost image = { flat_of };

    ghost wholeness = { λ b. flat_whole b.buffer.items b.dead.items };

    fn sectors(&self) -> u16 {
        Flat::fits(&self.buffer, &self.dead).map_or(0, |()| (self.buffer.len() / SECTOR) as u16)
    }

    fn is_dead(&self, sector: u16) -> bool {
        self.dead.contains(&sector)
    }

    fn fill(&self, sector: u16, buffer: &mut [u8; SECTOR]) {
        stretch::copy_out(&self.buffer, usize::from(sector), buffer);
    }

    fn replace(&mut self, sector: u16, bytes: &[u8; SECTOR]) {
        stretch::copy_in(&mut self.buffer, usize::from(sector), bytes);
    }
}
