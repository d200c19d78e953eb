// The items of a directory in the order of their names.
ghost use Rattle.std.specs.Prelude.{◌≡◌, List, ◌++◌, Some};
ghost use Rattle.std.specs.Option.{option_map};
ghost use Rattle.model.specs.Answers.{Listed as Item, children, least_after, listing};
ghost use Rattle.model.specs.Refusals.{next};
ghost use Rattle.model.specs.Volume.{named, number_of};
ghost use Rattle.tables.specs.Views.{entries_view, view};
ghost use Rattle.tables.specs.Plans.{Decided, lesser_of, listed_view};

use crate::consistent::Consistent;
use crate::names::precedes;
use crate::outcomes::Listed;
use crate::sizes::ENTRIES;
use crate::types::Entry;
use model::types::{Kind, Refusal};

// The lesser by name of what was found so far and one more item; of two with the same name that is the new one.
fn lesser<'a>(best: Option<Listed<'a>>, item: Listed<'a>) -> Listed<'a>
    ensures { Some (listed_view result) ≡ lesser_of (option_map listed_view best.entry) (Some (listed_view item.entry)) }
{
    best.filter(|found| precedes(found.name, item.name))
        .unwrap_or(item)
}

// The lesser of what was found so far and the least of these entries in the directory whose name comes after `after`.
fn least<'a>(
    best: Option<Listed<'a>>,
    entries: &'a [Entry; ENTRIES],
    kind: Kind,
    dir: u8,
    after: &[u8],
) -> Option<Listed<'a>>
    ensures { (seen : List Item) → option_map listed_view best.entry ≡ least_after after.now seen → option_map listed_view result ≡ least_after after.now (seen ++ children kind dir 0 (entries_view entries.now)) }
{
    // `min_by` keeps the first of equals, and of two with one name the last is meant
    (0..ENTRIES as u8)
        .zip(entries.iter())
        .filter(|(_, entry)| entry.is_live() && entry.parent == dir)
        .map(|(number, entry)| Listed {
            kind,
            number,
            name: entry.name(),
        })
        .filter(|item| precedes(after, item.name))
        .fold(best, |best, item| Some(lesser(best, item)))
}

impl Consistent {
    // The least name in a directory that comes after the given bytes, with its kind and number.
    pub fn least_after<'a>(&'a self, dir: u8, after: &[u8]) -> Option<Listed<'a>>
        ensures { option_map listed_view result ≡ least_after after.now (listing (view self.now.tables) dir) }
    {
        let best = least(None, &self.tables.dirs, Kind::Directory, dir, after);
        least(best, &self.tables.files, Kind::File, dir, after)
    }

    // The same of the directory that a path names; the empty path names the start.
    pub fn next<'a>(
        &'a self,
        start: u8,
        path: &[u8],
        after: &[u8],
    ) -> Result<Option<Listed<'a>>, Refusal>
        ensures { Decided (view self.now.tables) (next start path.now after.now) (λ x. option_map listed_view x ≡ least_after after.now (listing (view self.now.tables) (number_of (named (view self.now.tables) start path.now)))) result }
    {
        match self.find(start, path)? {
            (Kind::Directory, dir) => Ok(self.least_after(dir, after)),
            (Kind::File, _) => Err(Refusal::Lost),
        }
    }
}
