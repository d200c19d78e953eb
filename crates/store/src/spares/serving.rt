// Spares at work.
ghost use Rattle.std.specs.Prelude.{◌≡◌};
ghost use Rattle.store.specs.Stores.{fit_answer, pairs_fit, spares_fit, served, spares_image};
ghost use Rattle.store.specs.Sparing as sparing;
ghost use Rattle.store.specs.Sparing.{clash};

use super::{Pairs, Spare, Spares};
use crate::faults::fit;
use crate::layer::{Layer, Placing};
use crate::{MOST_LISTED, Store};
use model::types::Refusal;

impl<S: Store> Spares<S> {
    // Whether there are at most eight pairs, of visible sectors that differ, with spares that differ, are not visible and
    // stand in the store below, which has the visible sectors too.
    #[tactic(auto, using(crate::specs::Sparing::fits_over))]
    pub fn fits(below: &S, visible: u16, pairs: &[Spare]) -> Result<(), Refusal>
        ensures { result ≡ fit_answer (spares_fit (S.image below.now) visible pairs.now) }
    {
        fit(suit(visible, pairs, below.size()))
    }

    // Takes the store below. Spares that do not fit make a store with no sector.
    pub fn lay(below: S, visible: u16, pairs: Vec<Spare>) -> Spares<S>
        ensures below { result.below ≡ below }
        ensures image { ⟦<Spares<S> as Store>⟧.image result ≡ spares_image (S.image below) visible pairs.items }
    {
        Layer::over(below, Pairs { visible, pairs })
    }
}

impl Placing for Pairs {
    ghost fits = { λ s. sparing.fits s.visible s.pairs.items };

    ghost count = { λ s. s.visible };

    ghost serve = { λ s. sparing.serve s.visible s.pairs.items };

    ghost sound = { λ s. sparing.sound s.visible s.pairs.items };

    fn fits(&self, below: u16) -> bool {
        suit(self.visible, &self.pairs, below)
    }

    fn count(&self) -> u16 {
        self.visible
    }

    fn place(&self, sector: u16) -> u16 {
        serving(&self.pairs, sector)
    }
}

// The spare of a paired sector, and any other sector itself.
fn serving(pairs: &[Spare], sector: u16) -> u16
    ensures { result ≡ served pairs.now sector }
{
    pairs
        .iter()
        .find(|pair| sector == pair.sector)
        .map_or(sector, |pair| pair.spare)
}

// Whether the pairs fit one another, and a store of `below` sectors has the visible ones and the spares.
fn suit(visible: u16, pairs: &[Spare], below: u16) -> bool
    ensures { result ≡ sparing.fits visible pairs.now below }
{
    agree(visible, pairs) && visible <= below && pairs.iter().all(|pair| pair.spare < below)
}

// Whether the pairs fit one another, whatever the store below has. (Walked as the entries of `tables` are: one walk for both
// would take a closure, and a crate below the two.)
fn agree(visible: u16, pairs: &[Spare]) -> bool
    ensures { result ≡ pairs_fit visible pairs.now }
{
    if pairs.len() > MOST_LISTED {
        return false;
    }
    let mut rest = pairs;
    while let [pair, others @ ..] = rest {
        if pair.sector >= visible || pair.spare < visible || clashes(pair, others) {
            return false;
        }
        rest = others;
    }
    true
}

// Whether one of the others has the pair's sector or its spare.
fn clashes(pair: &Spare, others: &[Spare]) -> bool
    ensures { result ≡ clash pair.now others.now }
{
    others.iter().any(|other| pair.sector == other.sector || pair.spare == other.spare)
}
