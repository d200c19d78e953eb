// A layer: a store that serves each of its sectors by one of the store below.
ghost use Rattle.std.specs.Prelude.{◌≡◌, ℕ, ◌<◌, ◌≤◌, Bool, true, length};
ghost use Rattle.model.specs.Sizes.{most_sectors};
ghost use Rattle.store.specs.Through.{risen_answer, Led};
ghost use Rattle.store.specs.Stores.{placed};
ghost use Rattle.store.specs.Layered.{Serves, layer_whole};

use crate::faults::here;
use crate::{SECTOR, Store};
use model::types::{Cause, Fault};

#[cfg(test)]
mod tests;

// Which sector of the store below serves which of the layer: in this alone layers differ.
pub(crate) trait Placing: Drop {
    ghost fits: { Self → ℕ → Bool };

    ghost count: { Self → ℕ };

    ghost serve: { Self → ℕ → ℕ };

    // Whether a store below of `below` sectors has all that serve.
    fn fits(&self, below: u16) -> bool
        ensures { result ≡ fits self.now below };

    // The sectors of a layer that fits.
    fn count(&self) -> u16
        ensures { result ≡ count self.now };

    // The sector below that serves a sector of a layer that fits.
    fn place(&self, sector: u16) -> u16
        ensures { (below : ℕ) → below ≤ most_sectors → fits self.now below ≡ true → sector < count self.now → result ≡ serve self.now sector };

    // No two sectors of a layer that fits are served by one.
    ghost sound: { (p : Self) (below : ℕ) → fits p below ≡ true → Serves below (count p) (serve p) };
}

// A layer over the store below.
#[derive(Drop)]
pub struct Layer<S: Store, P: Placing> {
    below: S,
    placing: P,
    // none where the layer does not fit; kept, so that an access compares with it alone
    sectors: u16,
    ghost sized: { sectors ≡ length (placed (P.fits placing) (P.count placing) (P.serve placing) (S.image below)) },
}

impl<S: Store, P: Placing> Layer<S, P> {
    // Takes the store below. A layer that does not fit has no sector.
    pub(crate) fn over(below: S, placing: P) -> Layer<S, P>
        ensures below { result.below ≡ below }
        ensures placing { result.placing ≡ placing }
    {
        let sectors = Layer::count(&below, &placing);
        Layer {
            below,
            placing,
            sectors,
        }
    }

    // Hands the store below back.
    pub fn into_below(self) -> S
        ensures below { result ≡ self.below }
        ensures image { ⟦<Layer<S, P> as Store>⟧.image self ≡ placed (P.fits self.placing) (P.count self.placing) (P.serve self.placing) (S.image result) }
    {
        let Layer { below, .. } = self;
        below
    }

    // The sectors of what is laid.
    fn count(below: &S, placing: &P) -> u16
        ensures { result ≡ length (placed (P.fits placing.now) (P.count placing.now) (P.serve placing.now) (S.image below.now)) }
    {
        if placing.fits(below.size()) {
            placing.count()
        } else {
            0
        }
    }

    // The sector below that serves a sector.
    fn place(&self, sector: u16) -> Result<u16, Fault>
        ensures { Led (placed (P.fits self.now.placing) (P.count self.now.placing) (P.serve self.now.placing)) (S.image self.now.below) sector result }
    {
        if sector < self.size() {
            Ok(self.placing.place(sector))
        } else {
            Err(here(Cause::PastEnd, sector))
        }
    }
}

impl<S: Store, P: Placing> Store for Layer<S, P> {
    ghost image = { λ l. placed (P.fits l.placing) (P.count l.placing) (P.serve l.placing) (S.image l.below) };

    ghost wholeness = { λ l. layer_whole (P.fits l.placing) (P.count l.placing) (P.serve l.placing) (P.sound l.placing) (S.image l.below) (S.wholeness l.below) };

    fn size(&self) -> u16 {
        self.sectors
    }

    fn read(&mut self, sector: u16, buffer: &mut [u8; SECTOR]) -> Result<(), Fault> {
        let place = self.place(sector)?;
        risen(self.below.read(place, buffer))
    }

    fn write(&mut self, sector: u16, bytes: &[u8; SECTOR]) -> Result<(), Fault> {
        let place = self.place(sector)?;
        risen(self.below.write(place, bytes))
    }
}

// The answer one layer up: a dead sector keeps its place and counts one layer more, up to 255.
fn risen(answer: Result<(), Fault>) -> Result<(), Fault>
    ensures { result ≡ risen_answer answer }
{
    answer.map_err(|fault| Fault {
        depth: fault.depth.saturating_add(1),
        ..fault
    })
}
