// The store of two buffers at work.
ghost use Rattle.std.specs.Prelude.{◌≡◌};
ghost use Rattle.store.specs.Bottoms.{pair_of};
ghost use Rattle.store.specs.Stores.{fit_answer, pair_fits, pair_image};
ghost use Rattle.store.specs.Pairs.{pair_whole};

use super::{Pair, PairBuffers};
use crate::bottom::{Bottom, Keeping};
use crate::faults::fit;
use crate::{SECTOR, Store, stretch};
use model::types::Refusal;

// The most sectors of each of the two buffers.
const MOST_OF_PAIR: usize = 32_767;

impl Pair {
    // The question put first: two buffers of one length, of whole sectors, 32,767 at most in each.
    pub fn fits(even: &[u8], odd: &[u8]) -> Result<(), Refusal>
        ensures { result ≡ fit_answer (pair_fits even.now odd.now) }
    {
        fit(even.len() == odd.len() && stretch::whole(even, MOST_OF_PAIR))
    }

    // Takes the two buffers as a store. What does not fit is a store with no sector.
    pub fn lay(even: Vec<u8>, odd: Vec<u8>) -> Pair
        ensures bytes { (result.buffers.even.items ≡ even.items) × (result.buffers.odd.items ≡ odd.items) }
        ensures image { ⟦<Pair as Store>⟧.image result ≡ pair_image even.items odd.items }
    {
        Bottom::over(PairBuffers { even, odd })
    }

    // Hands the buffers back, the even one first, with the bytes that the store kept its sectors in.
    pub fn into_buffers(self) -> (Vec<u8>, Vec<u8>)
        ensures bytes { (result.0.items ≡ self.buffers.even.items) × (result.1.items ≡ self.buffers.odd.items) }
        ensures image { ⟦<Pair as Store>⟧.image self ≡ pair_image result.0.items result.1.items }
    {
        let PairBuffers { even, odd } = self.into_inner();
        (even, odd)
    }
}

impl Keeping for PairBuffers {
    ghost image = { pair_of };

    ghost wholeness = { λ b. pair_whole b.even.items b.odd.items };

    fn sectors(&self) -> u16 {
        Pair::fits(&self.even, &self.odd).map_or(0, |()| (2 * (self.even.len() / SECTOR)) as u16)
    }

    #[tactic(auto, using(crate::specs::Pairs::pair_live))]
    fn is_dead(&self, _sector: u16) -> bool {
        false
    }

    // a call in each arm: with the half chosen first, a proof no longer knows in `replace` which of the two was lent
    fn fill(&self, sector: u16, buffer: &mut [u8; SECTOR]) {
        let k = usize::from(sector / 2);
        if sector % 2 == 0 {
            stretch::copy_out(&self.even, k, buffer);
        } else {
            stretch::copy_out(&self.odd, k, buffer);
        }
    }

    fn replace(&mut self, sector: u16, bytes: &[u8; SECTOR]) {
        let k = usize::from(sector / 2);
        if sector % 2 == 0 {
            stretch::copy_in(&mut self.even, k, bytes);
        } else {
            stretch::copy_in(&mut self.odd, k, bytes);
        }
    }
}
