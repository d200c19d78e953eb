// Letting a store in, and handing it back.
ghost use Rattle.std.specs.Prelude.{◌≡◌, true, not, ◌↔◌, Some, None, Ok, MatchResult};
ghost use Rattle.std.specs.Result.{is_err};
ghost use Rattle.model.specs.Answers.{inspect_answer};
ghost use Rattle.model.specs.Meaning.{Carries};
ghost use Rattle.model.specs.Tables.{load as tables_of};
ghost use Rattle.model.specs.Tree.{is_some};
ghost use Rattle.model.specs.Volume.{inspection, opened};
ghost use Rattle.tables.specs.Views.{view};
ghost use Rattle.volume.specs.Views.{volume_view, map_answer};

use crate::sectors::{dead_sectors, load_checked};
use crate::types::Volume;
use model::types::Refusal;
use store::Store;
use tables::consistent::Consistent;
use tables::sizes::SECTOR;

// The tables of a store that carries a sound volume, or why it does not. Each sector is read once.
fn admitted<S: Store>(store: &mut S) -> Result<Consistent, Refusal>
    ensures answer { MatchResult result (λ c. (inspection (S.image store.old) ≡ None) × (tables_of (S.image store.old) ≡ Ok (view c.tables))) (λ e. inspection (S.image store.old) ≡ Some e) }
    ensures image { S.image store.new ≡ S.image store.old }
{
    let tables = load_checked(store)?;
    let dead = dead_sectors(store);
    Consistent::admit(tables, &dead).ok_or(Refusal::Unsound)
}

// Whether a volume on this store would be let in: nothing, or the refusal. The store stays as it is.
pub fn inspect<S: Store>(store: &mut S) -> Result<(), Refusal>
    ensures answer { result ≡ inspect_answer (S.image store.old) }
    ensures exactly { (result ≡ Ok tt) ↔ Carries (S.image store.old) }
    ensures image { S.image store.new ≡ S.image store.old }
{
    admitted(store)?;
    Ok(())
}

impl<S: Store> Volume<S> {
    // Never refuses: over a store that `inspect` refuses the volume is shut.
    pub fn open(mut store: S) -> Volume<S>
        ensures opened { volume_view result ≡ opened (S.image store) }
        ensures exactly { (is_some (volume_view result).tables ≡ true) ↔ Carries (S.image store) }
    {
        let tables = admitted(&mut store).ok();
        Volume { store, tables }
    }

    // Hands the store back.
    pub fn close(self) -> S
        ensures { result ≡ self.store }
    {
        let Volume { store, tables: _ } = self;
        store
    }

    // Whether every call is refused, since the store carries no sound volume.
    pub fn is_shut(&self) -> bool
        ensures { result ≡ not (is_some (volume_view self.now).tables) }
    {
        self.kept().is_err()
    }

    // The allocation map, a byte for each sector number: 0x00 free, 0xFF used or reserved, 0xFE dead.
    pub fn map(&self) -> Result<[u8; SECTOR], Refusal>
        ensures { result ≡ map_answer (volume_view self.now) }
    {
        Ok(self.kept()?.tables().map_sector())
    }

    // The tables, or the refusal of every call where there are none.
    pub(crate) fn kept(&self) -> Result<&Consistent, Refusal>
        ensures tables { MatchResult result (λ c. self.now.tables ≡ Some c.now) (λ e. (self.now.tables ≡ None) × (e ≡ Refusal.Shut)) }
        ensures shut { is_err result ≡ not (is_some (volume_view self.now).tables) }
    {
        self.tables.as_ref().ok_or(Refusal::Shut)
    }
}
