// Finding items in the tables by their paths.
ghost use Rattle.std.specs.Prelude.{◌≡◌, ◌<◌, length, IfSome, Some, None, MatchOption};
ghost use Rattle.model.specs.Book.{last};
ghost use Rattle.model.specs.Names.{names};
ghost use Rattle.model.specs.Tables.{live_dir};
ghost use Rattle.model.specs.Volume.{child as child_of, holder as holder_of, item_in, named, starts};
ghost use Rattle.tables.specs.Views.{entries_view, view};

use crate::paths::slash;
use crate::sizes::{ENTRIES, NAME, ROOT};
use crate::types::{Entry, Tables};
use model::types::Kind;

// The number of the entry with this parent and this name.
pub fn child(entries: &[Entry; ENTRIES], parent: u8, name: &[u8]) -> Option<u8>
    ensures value { result ≡ child_of (entries_view entries.now) parent name.now }
    ensures bound { IfSome result (λ i. i < 32) }
{
    if name.len() > NAME {
        return None;
    }
    let wanted = Entry::new(parent, name);
    entries
        .iter()
        .position(|entry| *entry == wanted)
        .map(|i| i as u8)
}

impl Tables {
    pub fn is_live_dir(&self, dir: u8) -> bool
        ensures { result ≡ live_dir (view self.now).dirs dir }
    {
        self.dirs.get(dir as usize).is_some_and(Entry::is_live)
    }

    // The root, or a live directory.
    pub fn is_start(&self, start: u8) -> bool
        ensures { result ≡ starts (view self.now) start }
    {
        start == ROOT || self.is_live_dir(start)
    }

    // The directory that is to hold the last name of a path, and that name.
    // Start and path stay two parameters, here and in each call: system calls take them apart, and `rename` has one
    // start with two paths.
    // It goes forward, from slash to slash, and leaves at the first name that is no directory: to take the last name
    // off first, it would read that whole name back, however long it is.
    pub fn place<'a>(&self, start: u8, path: &'a [u8]) -> Option<(u8, &'a [u8])>
        ensures { MatchOption result (holder_of (view self.now) start (names path.now) ≡ None) (λ x. (holder_of (view self.now) start (names path.now) ≡ Some x.0) × (x.1.now ≡ last (names path.now))) }
    {
        let mut dir = start;
        let mut rest = path;
        while let Some(at) = slash(rest) {
            dir = child(&self.dirs, dir, &rest[..at])?;
            rest = &rest[at + 1..];
        }
        Some((dir, rest))
    }

    // The directory that is to hold the last name of a path.
    pub fn holder(&self, start: u8, path: &[u8]) -> Option<u8>
        ensures { result ≡ holder_of (view self.now) start (names path.now) }
    {
        self.place(start, path).map(|(dir, _)| dir)
    }

    // The item of a name in a directory, by kind and number: a pair, as the definitions answer, and only taken apart.
    pub fn item_in(&self, dir: u8, name: &[u8]) -> Option<(Kind, u8)>
        ensures value { result ≡ item_in (view self.now) (Some dir) name.now }
        ensures bound { IfSome result (λ x. x.1 < 32) }
    {
        child(&self.dirs, dir, name)
            .map(|number| (Kind::Directory, number))
            .or_else(|| child(&self.files, dir, name).map(|number| (Kind::File, number)))
    }

    // The item that a path names from a start; the empty path names the start itself.
    pub fn item(&self, start: u8, path: &[u8]) -> Option<(Kind, u8)>
        ensures value { result ≡ named (view self.now) start path.now }
        ensures bound { 0 < length path.now → IfSome result (λ x. x.1 < 32) }
    {
        if path.is_empty() {
            return Some((Kind::Directory, start));
        }
        let (dir, name) = self.place(start, path)?;
        self.item_in(dir, name)
    }
}
