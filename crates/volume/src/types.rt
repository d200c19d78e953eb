// An open volume.
ghost use Rattle.std.specs.Prelude.{Some};
ghost use Rattle.std.specs.Option.{ForSome};
ghost use Rattle.model.specs.Volume.{InStep};
ghost use Rattle.tables.specs.Views.{view};

use store::Store;
use tables::consistent::Consistent;

// Owns its store, so nothing else writes beneath it, and is not `Drop`, so it must be closed. It keeps the four tables in
// memory, sound and in step with the store's sectors; there are none where it is shut.
pub struct Volume<S: Store> {
    pub(crate) store: S,
    pub(crate) tables: Option<Consistent>,
    pub ghost kept: { ForSome tables (λ c. InStep (Some (view c.tables)) (S.image store)) },
}
