// A window: a stretch of the store below, as a store of its own.
ghost use Rattle.std.specs.Prelude.{◌≡◌};
ghost use Rattle.store.specs.Stores.{fit_answer, window_fits, window_image};
ghost use Rattle.store.specs.Windows as windows;

use crate::Store;
use crate::faults::fit;
use crate::layer::{Layer, Placing};
use model::types::Refusal;

// The sectors of the store below from `first` on, `count` of them.
#[derive(Drop)]
pub struct Stretch {
    first: u16,
    count: u16,
}

pub type Window<S> = Layer<S, Stretch>;

impl<S: Store> Window<S> {
    // Whether the store below has every sector of the window.
    pub fn fits(below: &S, first: u16, count: u16) -> Result<(), Refusal>
        ensures { result ≡ fit_answer (window_fits (S.image below.now) first count) }
    {
        fit(Stretch { first, count }.fits(below.size()))
    }

    // Takes the store below. A window that does not fit has no sector.
    pub fn lay(below: S, first: u16, count: u16) -> Window<S>
        ensures below { result.below ≡ below }
        ensures image { ⟦<Window<S> as Store>⟧.image result ≡ window_image (S.image below) first count }
    {
        Layer::over(below, Stretch { first, count })
    }
}

impl Placing for Stretch {
    ghost fits = { λ w. windows.fits w.first w.count };

    ghost count = { λ w. w.count };

    ghost serve = { λ w. windows.serve w.first w.count };

    ghost sound = { λ w. windows.sound w.first w.count };

    fn fits(&self, below: u16) -> bool {
        u32::from(self.first) + u32::from(self.count) <= u32::from(below)
    }

    fn count(&self) -> u16 {
        self.count
    }

    // (The sum is past 65,535 only where the window does not fit.)
    fn place(&self, sector: u16) -> u16 {
        self.first.saturating_add(sector)
    }
}
