// Paths: names joined by slashes.
ghost use Rattle.std.specs.Prelude.{◌≡◌, ◌<◌, length, IfSome, nat_eq};
ghost use Rattle.model.specs.Book.{last};
ghost use Rattle.model.specs.Names.{names, spelt, spelt_or_empty, within};
ghost use Rattle.model.specs.Sizes.{slash as slash_byte};
ghost use Rattle.model.specs.Tree.{first};

use crate::names::is_proper_byte;
use crate::sizes::{NAME, SLASH};

// Where the first slash stands.
pub fn slash(path: &[u8]) -> Option<usize>
    ensures value { result ≡ first (λ b. nat_eq b slash_byte) path.now }
    ensures bound { IfSome result (λ i. i < length path.now) }
{
    path.iter().position(|&b| b == SLASH)
}

// One name or more, joined by single slashes.
// It counts the bytes of the name at hand, and leaves at the first byte that no path goes on with.
// `split(..).all(is_proper)` would look for the slash behind a name first, however long that name is.
pub fn is_spelt(path: &[u8]) -> bool
    ensures { result ≡ spelt path.now }
{
    path.iter()
        .try_fold(0, |long, &b| {
            if b == SLASH {
                (long > 0).then_some(0)
            } else if long < NAME && is_proper_byte(b) {
                Some(long + 1)
            } else {
                None
            }
        })
        .is_some_and(|long| long > 0)
}

// Well spelt, or the empty path, which names the start.
pub fn is_spelt_or_empty(path: &[u8]) -> bool
    ensures { result ≡ spelt_or_empty path.now }
{
    path.is_empty() || is_spelt(path)
}

// What follows the last slash, or the whole path.
pub fn last_name(path: &[u8]) -> &[u8]
    ensures { result.now ≡ last (names path.now) }
{
    path.rsplit(|&b| b == SLASH).next().unwrap_or(path)
}

// Whether q is p, or lies beneath it.
pub fn is_within(p: &[u8], q: &[u8]) -> bool
    ensures { result ≡ within (names p.now) (names q.now) }
{
    p.is_empty()
        || q.strip_prefix(p)
            .is_some_and(|rest| rest.first().is_none_or(|&b| b == SLASH))
}
