// The k-th 512 bytes of a buffer, which every bottom store keeps a sector in.
ghost use Rattle.std.specs.Prelude.{◌≡◌, ℕ, ◌+◌, ◌*◌, ◌≤◌, length, ◌≢◌};
ghost use Rattle.model.specs.Sizes.{sector_size};
ghost use Rattle.store.specs.Stores.{stretch, whole_sectors};

use crate::SECTOR;

// Whether the buffer is whole sectors, `most` of them at most.
pub(crate) fn whole(buffer: &[u8], most: usize) -> bool
    ensures { result ≡ whole_sectors most buffer.now }
{
    buffer.len() % SECTOR == 0 && buffer.len() / SECTOR <= most
}

// Copies the k-th stretch of `source` out.
pub(crate) fn copy_out(source: &[u8], k: usize, buffer: &mut [u8; SECTOR])
    requires { sector_size * k + sector_size ≤ length source.now }
    ensures { buffer.new ≡ stretch source.now k }
{
    let start = SECTOR * k;
    buffer.copy_from_slice(&source[start..start + SECTOR]);
}

// Copies `bytes` into the k-th stretch of `target`, and leaves every other.
pub(crate) fn copy_in(target: &mut [u8], k: usize, bytes: &[u8; SECTOR])
    requires { sector_size * k + sector_size ≤ length target.old }
    ensures here { stretch target.new k ≡ bytes.now }
    ensures elsewhere { (j : ℕ) → (j ≢ k) → stretch target.new j ≡ stretch target.old j }
{
    let start = SECTOR * k;
    target[start..start + SECTOR].copy_from_slice(bytes);
}
