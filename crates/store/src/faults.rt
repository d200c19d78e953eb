// What a store answers where it refuses: a fault, as it meets it, or that something does not fit.
ghost use Rattle.std.specs.Prelude.{◌≡◌};
ghost use Rattle.store.specs.Stores.{fit_answer};

use model::types::{Cause, Fault, Refusal};

// The fault of a store with no layer above.
pub(crate) fn here(cause: Cause, sector: u16) -> Fault
    ensures { result ≡ record { cause = cause; place = sector; depth = 0 } }
{
    Fault {
        cause,
        place: sector,
        depth: 0,
    }
}

// The answer to the question whether something fits.
pub(crate) fn fit(fits: bool) -> Result<(), Refusal>
    ensures { result ≡ fit_answer fits }
{
    fits.then_some(()).ok_or(Refusal::Misfit)
}
