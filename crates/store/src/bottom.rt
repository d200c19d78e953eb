// A bottom store: one that keeps its sectors in buffers of its own.
ghost use Rattle.std.specs.Prelude.{◌≡◌, ◌<◌, true, if◌then◌else◌, length, Ok, Err};
ghost use Rattle.model.specs.Image.{Image, whole, dead_at, access, filled, put};

use crate::faults::here;
use crate::{SECTOR, Store};
use model::types::{Cause, Fault};

// How buffers keep sectors: how many, which are dead, and where the bytes of the others lie. In this alone bottom stores
// differ.
pub(crate) trait Keeping: Drop {
    ghost image: { Self → Image };

    // The sectors, and none where the buffers do not fit.
    fn sectors(&self) -> u16
        ensures { result ≡ length (image self.now) };

    // Whether one of the sectors is dead.
    fn is_dead(&self, sector: u16) -> bool
        ensures { sector < length (image self.now) → access (image self.now) sector ≡ (if result then Err (dead_at sector 0) else Ok tt) };

    // Fills the buffer from a sector that was checked.
    fn fill(&self, sector: u16, buffer: &mut [u8; SECTOR])
        requires { access (image self.now) sector ≡ Ok tt }
        ensures { buffer.new ≡ filled (image self.now) sector buffer.old };

    // Replaces the bytes of a sector that was checked.
    fn replace(&mut self, sector: u16, bytes: &[u8; SECTOR])
        requires { access (image self.old) sector ≡ Ok tt }
        ensures { image self.new ≡ put (image self.old) sector bytes.now };

    // At most 65,535 sectors, and 512 bytes in each that is not dead.
    ghost wholeness: { (b : Self) → whole (image b) ≡ true };
}

#[derive(Drop)]
pub struct Bottom<B: Keeping> {
    buffers: B,
    // kept, so that an access compares with it alone
    sectors: u16,
    ghost sized: { sectors ≡ length (B.image buffers) },
}

impl<B: Keeping> Bottom<B> {
    // Takes the buffers.
    pub(crate) fn over(buffers: B) -> Bottom<B>
        ensures { result.buffers ≡ buffers }
    {
        let sectors = buffers.sectors();
        Bottom { buffers, sectors }
    }

    // Hands the buffers back.
    pub(crate) fn into_inner(self) -> B
        ensures { result ≡ self.buffers }
    {
        let Bottom { buffers, .. } = self;
        buffers
    }

    // What a read and a write of the sector answer.
    fn check(&self, sector: u16) -> Result<(), Fault>
        ensures { result ≡ access (B.image self.now.buffers) sector }
    {
        if sector >= self.size() {
            Err(here(Cause::PastEnd, sector))
        } else if self.buffers.is_dead(sector) {
            Err(here(Cause::Dead, sector))
        } else {
            Ok(())
        }
    }
}

impl<B: Keeping> Store for Bottom<B> {
    ghost image = { λ s. B.image s.buffers };

    ghost wholeness = { λ s. B.wholeness s.buffers };

    fn size(&self) -> u16 {
        self.sectors
    }

    fn read(&mut self, sector: u16, buffer: &mut [u8; SECTOR]) -> Result<(), Fault> {
        self.check(sector)?;
        self.buffers.fill(sector, buffer);
        Ok(())
    }

    fn write(&mut self, sector: u16, bytes: &[u8; SECTOR]) -> Result<(), Fault> {
        self.check(sector)?;
        self.buffers.replace(sector, bytes);
        Ok(())
    }
}
